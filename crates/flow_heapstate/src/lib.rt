//! The state of a heap that rests, as data of its own that can be kept.
#![tactic(auto)]

pub mod judging;
pub mod listing;
pub mod parts;
mod references;
pub mod restoring;
pub mod state;
