//! Programs that keep the rules K1 to K12 and L8, the first refusal of one that doesn't, and the variables of functions and actors.
#![tactic(auto)]

pub mod callee;
pub mod check;
pub mod closing;
pub mod collect;
pub mod holding;
pub mod judge;
pub mod program;
pub mod size;
pub mod top_names;
pub mod type_view;
pub mod variable;
pub mod walk;
