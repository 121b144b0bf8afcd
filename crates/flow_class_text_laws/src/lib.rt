//! Class text: the classes of a program that the front accepts can be written as class text.
#![tactic(auto)]

pub mod laws;
