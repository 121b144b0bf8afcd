//! Each burst in memory is one of the class machine.
//!
//! - `laws::invariants`: What a process of valid classes keeps from step to step gives what each law of a step in
//!   memory asks for.
//! - `laws::enabled`: What a process of valid classes keeps allows each step of its actors: the premises of the laws of
//!   single steps.
//! - `laws::boundaries`: What each process of a run of valid classes keeps where an event of it begins: the premises of
//!   bursts and of what is brought to a process; and what is brought leaves a process in memory as bursts need it.
//! - `laws::bursts`: A burst in memory is a burst of the class machine, where each task that is done is a row of its
//!   steps.
//! - `laws::requests`: What steps in memory ask, joined: what an actor asks is asked in the class machine, and the
//!   ports of the process of the class machine are those that memory tells; and what a process keeps allows what its
//!   actors ask.
//! - `laws::programs`: A burst in memory that runs valid classes is a burst of the class machine, and so is that of an
//!   event that is brought to a process.
#![tactic(auto)]

pub mod laws;
