//! What the project promises, from the bytes of a program to what a run of its class text writes.
#![tactic(auto)]

pub mod laws;
