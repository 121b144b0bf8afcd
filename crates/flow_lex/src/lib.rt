//! The lexer: the tokens of a program text with their places, or the first lexical refusal.
#![tactic(auto)]

pub mod laws;
pub mod lex;
mod number;
mod quoted;
mod scan;
mod sign;
mod word;
