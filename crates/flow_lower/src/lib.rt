//! Lowering of whole programs: the classes of a program, and what its actors weigh.
#![tactic(auto)]

mod compiling;
mod weighing;

pub use compiling::{CompileFault, first_heavy, lower_program};
pub use weighing::weight;
