//! Compiling: the valid classes of a program that the front accepts, which do what its text says.
#![tactic(auto)]

mod compiling;

pub use compiling::compile;
pub use flow_front::{front, read_program};
pub use flow_lower::{CompileFault, first_heavy, weight};
