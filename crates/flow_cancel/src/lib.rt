//! The heap of one process: the tasks that are left to do, the cells, streams and frames, and what is noted of its
//! actors, ports and open requests; what the loss of a reference does, and what it is to cancel an actor.
//!
//! Contracts see a heap as plain lists, by the definitions in `specs/`.
#![tactic(auto)]

mod actors;
mod dropping;
pub mod heap;
pub mod task;
