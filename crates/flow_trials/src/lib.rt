//! One world that begins again, in which a program is run to its end, where monitors that are made anew hear each run.
#![tactic(auto)]

mod hearing;
mod hears;
pub mod monitors;
pub mod runs;

pub use monitors::Monitors;
pub use runs::Runs;
