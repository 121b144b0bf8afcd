//! Each step of an actor and each task in memory is a row of steps of the class machine.
//!
//! - `laws::effects`: What an actor asks of its process and of the world, in memory and in the class machine: each step
//!   in memory by an effect or a call statement is a step of the class machine, and so is what an event brings.
//! - `laws::services`: What a step asks of the world is served as the class machine has it: the process in memory and
//!   the host around it show what the definitions make of both.
//! - `laws::resuming`: A frame in memory that is in the state of a wait belongs to an actor that waits, or that is to
//!   be thrown an error or to end. So an actor that takes its next step is in no state of a wait.
#![tactic(auto)]

pub mod assigning;
pub mod calling;
pub mod choosing;
pub mod deciding;
pub mod decoding;
pub mod executing;
pub mod giving;
pub mod laws;
pub mod referring;
pub mod tasking;
