//! Streams, by number: the elements and perhaps the end of each, how many references count for each of its sides, and
//! who waits for it.
#![tactic(auto)]

pub mod head;
mod stream;
pub mod streams;
