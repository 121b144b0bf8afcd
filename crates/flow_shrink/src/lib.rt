//! A world whose run a monitor stops is made smaller, as far as it goes.
#![tactic(auto)]

pub mod edits;
pub mod runner;
pub mod shrinking;

pub use edits::{Edits, LineGoes, copied};
pub use runner::Runner;
pub use shrinking::{SCRIPT_LINES, Shrunk, shrink, shrink_by};
