//! The canonical text of classes.
#![tactic(auto)]

mod block;
mod class;
mod instr;
mod print;
pub mod version;
mod write;

pub use print::print_classes;
pub use write::write_classes;
