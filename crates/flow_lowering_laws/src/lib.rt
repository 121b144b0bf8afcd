//! Lowering: the classes of an accepted program carry it.
//!
//! - `laws::actors`: Laws of lowering: the class that an actor is lowered to carries it, has its shape, and has no more
//!   blocks than its weight.
//! - `laws::programs`: Laws of compiled programs: the classes of a program that the front accepts carry its actors.
#![tactic(auto)]

pub mod laws;
