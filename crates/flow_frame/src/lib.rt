//! Frames: what an unfinished actor of a class holds, by its number. A frame has its slots and locals, the
//! state or the place at which it stands, and the callbacks that it waits for.
#![tactic(auto)]

mod frame;
pub mod frames;
pub mod held;
pub mod standing;
