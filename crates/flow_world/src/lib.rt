//! The world, its processes and what is outside of them, run event by event, with every line put as it is made.
#![tactic(auto)]

mod action;
mod answers;
mod around;
mod asked;
mod changes;
mod ending;
mod event;
mod frames;
pub mod laws;
mod outside;
mod place;
mod ports;
pub mod put;
mod resuming;
mod run_ending;
mod saving;
mod script;
pub mod silence;
mod skipping;
mod starting;
pub mod teller;
mod to_sink;
pub mod trace;
mod watched;
pub mod world;

pub use ending::Ending;
pub use event::Event;
pub use run_ending::RunEnding;
pub use to_sink::write_trace;
pub use world::World;
