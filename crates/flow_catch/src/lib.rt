//! The locals in force, with their numbers, and what is dropped of them: at the end of a scope, on the
//! way out of a loop, and where an error is caught.
#![tactic(auto)]

pub mod catcher;
pub mod entry;
pub mod scopes;
