//! Progress in memory: no task and no burst of a valid program is ever stuck.
//!
//! - `laws::lookups`: What a process in memory looks for is there, where it shows a process of the definitions that
//!   keeps what it has to.
//! - `laws::stores`: No promise is to be stored as the result of an effect, in a process in memory: a new cell goes
//!   into its place at once, in the same step.
//! - `laws::actors`: No step of an actor goes astray, where memory shows a process of valid classes that keeps what it
//!   has to.
//! - `laws::bursts`: No process in memory that runs a valid program goes astray.
#![tactic(auto)]

pub mod laws;
