//! The top call: does over any files and any sink what the words of a command line say.
#![tactic(auto)]

mod asking;
mod counting;
mod deaf;
mod decide;
mod judge;
pub mod laws;
mod outcome;
mod report;
mod source;
mod stage;
mod summary;
mod top;
mod viewing;

pub use top::flow_main;
