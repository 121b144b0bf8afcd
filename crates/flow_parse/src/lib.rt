//! Programs, read from tokens by the grammar of `flow_tree`.
#![tactic(auto)]

pub mod build;
pub mod decl;
pub mod laws;
pub mod leaving;
pub mod parse;
pub mod simple;
pub mod stmt;
pub mod token;
