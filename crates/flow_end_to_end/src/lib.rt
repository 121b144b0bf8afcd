//! A run in memory of the classes of a program is the run that its text means, and neither it nor any of its events
//! goes astray.
#![tactic(auto)]

pub mod doing;
pub mod happening;
pub mod laws;
