//! One process and the world around it: bursts, whose steps ask a `Host` for what they need.
#![tactic(auto)]

mod bursts;
mod errors;
pub mod host;
mod judged;
pub mod machine;
pub mod state;
pub mod views;
