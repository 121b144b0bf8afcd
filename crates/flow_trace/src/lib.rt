//! The lines of a trace: their values, their one spelling each, and where lines are put.
#![tactic(auto)]

pub mod buffer;
pub mod fault;
pub mod line;
pub mod out;
mod pieces;
pub mod quote;
pub mod read;
mod reading;
mod scan;
pub mod sink_out;
pub mod unquote;
