//! Each event and each run in memory is one of the definitions.
//!
//! - `laws::order`: What an event does to a world in memory is what the definitions say of it: where a world in memory
//!   shows one of the definitions, the same comes next, and the end of a run comes at the same place.
//! - `laws::effects`: What an event does to a process in memory it does to the process of the definitions that it
//!   shows: the four deeds of events, each with its burst.
//! - `laws::events`: Each event in memory is the next event of the definitions, kind by kind.
//! - `laws::invariants`: What a world keeps from event to event so that processes in memory can follow it: its times
//!   can be told by programs.
//! - `laws::traces`: The trace that a run in memory puts is a trace of its classes by the definitions, where each event
//!   in memory is the next event of the definitions. The function has an empty body: its contract is a law.
//! - `laws::views`: What is told of a world in memory between events, its frames and callbacks, is what is seen of the
//!   world of the definitions that it shows.
#![tactic(auto)]

pub mod laws;
