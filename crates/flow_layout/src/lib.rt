//! What an actor's frame keeps: slots for its parameters and state variables, locals, and the groups
//! of branches at which it waits.
#![tactic(auto)]

mod laying;
pub mod layout;
pub mod places;
