//! Invariants of the runs of valid classes: what holds at each boundary of events.
//!
//! - `laws::fitting`: Runs of valid classes: in each world there is one.
//! - `laws::owned`: What a process of valid classes made a cell for it owns: nobody else refers to its promise side,
//!   and what it is to set itself is unset.
//! - `laws::referenced`: No cell of a process of valid classes is without a reference.
//! - `laws::unmarked`: No actor that is marked as cancelled waits: what a process of valid classes keeps within an
//!   event, and that at each boundary no unfinished actor is marked.
//! - `laws::open_ports`: The streams of a process's ports have no end.
//! - `laws::fires`: Whoever waits at a cell that is ready is owed a fire of it.
#![tactic(auto)]

pub mod laws;
