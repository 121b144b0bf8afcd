//! What the rules K1 to K12 and L8 of a program say: what names declare, which rule an expression, a statement or a declaration
//! breaks, and the first refusal of a whole program.
//!
//! The definitions stand in this crate's `specs/`: `refusal_of` is the refusal of a program's tree. flow_types judges by them.
#![tactic(auto)]

pub mod rule;
