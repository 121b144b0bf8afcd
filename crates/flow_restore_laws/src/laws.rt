pub mod rest;
pub mod states;
