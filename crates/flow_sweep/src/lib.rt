//! Runs of a program in a family of worlds, and what is written of them.
#![tactic(auto)]

pub mod ran;
pub mod sweep;
mod tally;
mod telling;
pub mod trials;

pub use ran::{Ended, Ran};
pub use sweep::{Log, Went};
pub use tally::Tally;
pub use trials::Trials;
