//! What memory tells of a program between events is the view of the state of its text.
#![tactic(auto)]

pub mod laws;
