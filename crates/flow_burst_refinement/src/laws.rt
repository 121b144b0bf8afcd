pub mod boundaries;
pub mod bursts;
pub mod enabled;
pub mod invariants;
pub mod programs;
pub mod requests;
