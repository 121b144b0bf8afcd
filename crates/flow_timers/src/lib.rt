//! The pending events of a simulated world: each has a time and a number, and the one with the least
//! time, and at one time with the least number, comes next.
#![tactic(auto)]

mod keeps;
pub mod laws;
mod moment;
mod timers;

pub use keeps::Keeps;
pub use timers::Timers;
