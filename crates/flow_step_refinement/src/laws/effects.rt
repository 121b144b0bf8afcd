//! What an actor asks of its process and of the world, in memory and in the class machine: each step in memory by an
//! effect or a call statement is a step of the class machine, and so is what an event brings.

pub mod calling;
pub mod effects;
pub mod events;
pub mod instructed;
pub mod numbers;
pub mod serving;
pub mod starting;
pub mod texts;
