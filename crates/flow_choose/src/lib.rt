//! What an actor's class has in place of names: expressions and paths over numbered slots and locals,
//! and the groups of callbacks that stand for waits.
#![tactic(auto)]

pub mod group;
pub mod places;
