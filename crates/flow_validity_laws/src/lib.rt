//! Laws of compiled programs: the classes of a program that the front accepts keep the rules on class programs, and
//! read only what is filled.
#![tactic(auto)]

pub mod laws;
