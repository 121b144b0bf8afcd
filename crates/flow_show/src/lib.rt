//! The canonical text of a program: one spelling per program, places aside. What is written for a
//! program that was read is read back as the same program, places aside, so that writing it again
//! gives the same text.
#![tactic(auto)]

mod decl;
mod expr;
pub mod laws;
pub mod show;
pub mod source;
mod stmt;
