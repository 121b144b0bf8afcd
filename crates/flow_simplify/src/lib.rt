//! A world whose run monitors stop is made simple, as far as it goes: lines of its script go, and its words become the common one.
#![tactic(auto)]

pub mod common;
pub mod pinning;
pub mod simpler;
pub mod together;

pub use common::common_word;
pub use pinning::pinned;
pub use simpler::Simpler;
pub use together::{Both, Limited};
