//! No process in memory that runs a valid program goes astray.

pub mod delivering;
pub mod laws;
pub mod simple_tasks;
