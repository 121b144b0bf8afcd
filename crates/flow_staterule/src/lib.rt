//! The rule on state: what a local holds is lost at a wait, so no use of a local may come after one.
#![tactic(auto)]

mod mentions;
mod rule;
mod scope;
pub mod sound;
mod uses;
mod waits;
mod ways;

pub use rule::{Lost, first_lost};
pub use sound::{Sound, check_state};
pub use waits::wait_places;
