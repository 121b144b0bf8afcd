//! Code: the classes of a program with all their names resolved, as they are run.
//! - `expr`: Expressions whose names are resolved: places, predefined calls and methods, records, functions and fields
//!   are numbers, so that no text is compared while a run goes.
#![tactic(auto)]

pub mod class;
mod coding;
pub mod expr;
pub mod program;
