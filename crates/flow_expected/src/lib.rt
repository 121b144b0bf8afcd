//! Which tokens could stand where a text is refused.
#![tactic(auto)]

pub mod candidates;
pub mod kind;
pub mod laws;

pub use candidates::{Expected, at_refusal, could_stand};
pub use kind::{KINDS, Kind};
