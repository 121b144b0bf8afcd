//! The machine of heaps follows the class machine: what each definition of `flow_steps` makes of a process in memory is
//! what the class machine makes of the process that it shows.
#![tactic(auto)]

pub mod delivering;
pub mod going;
pub mod keeping;
pub mod placing;
pub mod seeing;
pub mod standing;
pub mod taking;
pub mod tasking;
pub mod work;
