//! The view of a program's state between events: where each unfinished actor waits in the text, and what its variables hold.
#![tactic(auto)]

pub mod print;
pub mod view;
pub mod waits;
pub mod write;
