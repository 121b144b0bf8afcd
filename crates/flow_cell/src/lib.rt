//! Cells of single results, by number: what each holds, how many references count for each of its sides, and who
//! waits for it.
#![tactic(auto)]

mod cell;
pub mod cells;
pub mod counts;
mod queue;
pub mod waiter;
mod waiters;
