//! Lowering: each actor becomes the class that carries it, split into blocks at its waits and jumps.
#![tactic(auto)]

mod around;
mod context;
mod counts;
mod effects;
mod emitter;
pub mod lower;
mod simple;
mod statements;
mod variables;
