//! Traces in words: one line for each line of a trace, which says who does what, where in the text.
#![tactic(auto)]

mod errors;
pub mod laws;
pub mod living;
pub mod pieces;
pub mod texts;
mod words;
pub mod words_out;

pub use texts::{ActorText, WaitText, actor_texts};
pub use words_out::{WordsOut, write_words};
