//! The headline: the classes that a program is compiled to do what its text says, in every world.
//!
//! - `laws::simulation`: The core law: classes of a program's shape that carry its actors do what the text says, in
//!   every world, both ways: the same traces, and the same views at each boundary of events. The relation between an
//!   actor and its frame stands in `specs/Standing.antt`.
//! - `laws::traces`: The headline: the classes that a program is compiled to do what its text says, in every world.
//! - `laws::frames`: What is shown of a run: its trace, with the frames and callbacks after each event where they are
//!   asked for, of a program and of its classes.
#![tactic(auto)]

pub mod laws;
