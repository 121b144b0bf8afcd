//! The syntax of actor programs: tokens with their places, types, expressions, statements and
//! declarations, what a refusal of a program names, and equal copies of each.
//!
//! The definitions of tokens, grammar and canonical text stand in this crate's `specs/`. Contracts see
//! a tree through its mirror there: plain data without boxes and capacities.
#![tactic(auto)]

pub mod decl;
pub mod expr;
pub mod fault;
pub mod limits;
pub mod spelling;
pub mod stmt;
pub mod token;
pub mod ty;
