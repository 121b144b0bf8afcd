//! The heap in memory and the process that it represents: each change of one is a change of the other.
//!
//! - `laws::evaluation`: Each reference that evaluation gives was there before: in a variable or in a set cell, or its
//!   promise was.
#![tactic(auto)]

pub mod counting;
pub mod laws;
pub mod showing;
pub mod steps;
