//! A burst in memory that runs valid classes is a burst of the class machine, and so is that of an event that is
//! brought to a process.

pub mod delivered;
pub mod going;
