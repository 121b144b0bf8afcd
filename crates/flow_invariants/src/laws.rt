pub mod ended;
pub mod fires;
pub mod fitting;
pub mod open_ports;
pub mod owned;
pub mod referenced;
pub mod unmarked;
