//! Class text, read by its grammar: the records, functions and classes that its tokens are, or the token at which they are refused.
#![tactic(auto)]

pub mod block;
pub mod class;
pub mod expr;
pub mod fault;
pub mod group;
pub mod instr;
pub mod read;
pub mod text;
pub mod token;
