//! The words of a command line: which command they are, and what they ask for.
#![tactic(auto)]

pub mod asked;
pub mod matching;
pub mod number;
mod reading;
pub mod wanting;

pub use asked::{Asked, CommandWord, DebugWords, RunWords, ShrinkWords, WordsFault};
pub use reading::read_words;
