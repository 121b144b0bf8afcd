//! Classes: what an actor is compiled to. A class has numbered slots and locals, blocks of
//! instructions, and numbered groups of callbacks, one group for each wait of the actor's text.
//!
//! Contracts see a class through its mirror in `specs/`: plain data without boxes and capacities.
#![tactic(auto)]

pub mod class;
pub mod places;

pub use flow_ast::decl::Slot;
