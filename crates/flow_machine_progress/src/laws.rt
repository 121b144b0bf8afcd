pub mod actors;
pub mod bursts;
pub mod lookups;
pub mod stores;
