//! Which class programs are valid: the rules V1 to V8, and the programs that keep them. The definitions stand in this crate's
//! `specs/`: `IsValid` says that all rules hold, `Breaks` which one is broken first.
#![tactic(auto)]

mod copying;
pub mod program;
pub mod rule;
