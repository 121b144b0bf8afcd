//! The words of a command line of the laboratory: which command they are, and what they ask for.
#![tactic(auto)]

pub mod asked;
mod matching;
mod reading;

pub use asked::{Asked, PinWords, SimplifyWords, StormWords, SweepWords, Telling};
pub use reading::read_words;
