//! Things by number, in the order in which they were numbered, each found by a search, added, changed and removed;
//! and lists in a slab.
#![tactic(auto)]

pub mod links;
pub mod numbered;
mod rows;
