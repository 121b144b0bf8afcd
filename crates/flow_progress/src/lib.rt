//! Of valid classes every event ends.
#![tactic(auto)]

pub mod laws;
