//! The state of a world between events as plain data that can be kept: types alone, and what can be resumed.
#![tactic(auto)]

mod state;

pub use state::{PendingEvent, ProcState, What, WorldState};
