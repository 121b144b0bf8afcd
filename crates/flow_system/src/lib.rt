//! The outside world over what a system gives: a sink over any writer, and files over anything that opens them. Each
//! keeps all that flow_base says of sinks and of files, whatever writer or opener stands behind it.
#![tactic(auto)]

pub mod gathering;
mod interrupted;
pub mod opened;
