//! The steps of one process over its heap, which its actors take by their classes.
//!
//! A step does one task and asks the world for one thing at most: a line, a drawn word, a timer, a packet, a port or the
//! disk. So a burst is a row of steps, and its calls of the world come in their order.
#![tactic(auto)]

mod asks;
mod branches;
pub mod call;
mod calling;
mod effects;
pub mod errors;
mod events;
pub mod frames;
pub mod next;
pub mod process;
pub mod resting;
mod seen;
mod steps;
mod values;
mod vectors;
pub mod views;
mod work;
