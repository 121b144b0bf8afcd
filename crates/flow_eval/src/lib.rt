//! Evaluation of expressions and of plain functions, with the turns that they take.
//!
//! The definition of evaluation stands in this crate's `specs/`, over the mirrors of trees and values.
#![tactic(auto)]

pub mod cells;
pub mod eval;
pub mod evaluate;
pub mod laws;
pub mod locals;
pub mod operators;
pub mod predefined;
mod records;
mod statements;
pub mod stop;
pub mod variables;
