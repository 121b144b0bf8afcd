//! The front: the whole verdict on a program text.
#![tactic(auto)]

pub mod laws;
mod verdict;

pub use verdict::{front, read_program};
