//! Runs of sound programs: in each world there is one, of the text and of its classes. The definitions stand in
//! `specs/`; the functions of this crate add no code: the contract of each is a law.
#![tactic(auto)]

pub mod laws;
