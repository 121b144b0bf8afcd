//! Expressions and types, read from tokens by the grammar of `flow_tree`.
#![tactic(auto)]

pub mod expr;
pub mod kind;
pub mod laws;
pub mod stop;
pub mod token;
pub mod ty;
