//! Types of expressions: scopes, the types of predefined names, and the type of an expression in its
//! scope. The trees that they speak of stand in `flow_tree`, and are handed on from here.
//!
//! The definitions of types stand in this crate's `specs/`.
#![tactic(auto)]

pub mod predefined;
pub mod scope;
pub mod typing;

pub use flow_tree::{decl, expr, fault, spelling, stmt, token, ty};
