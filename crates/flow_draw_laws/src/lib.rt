//! Runs are functions of what drawn words answer. The definitions stand in `specs/`; the functions of this crate add no
//! code: the contract of each is a law.
#![tactic(auto)]

pub mod laws;
