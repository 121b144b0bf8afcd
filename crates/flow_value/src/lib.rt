//! The values of actor programs: whole numbers, texts, errors, records, lists and references to cells,
//! with equal copies, and the references of a value in order.
//!
//! Contracts see a value through its mirror in `specs/`: plain data without boxes and capacities.
#![tactic(auto)]

pub mod value;
