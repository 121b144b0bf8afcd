//! What a process of valid classes keeps from step to step gives what each law of a step in memory asks for.

pub mod allowed;
pub mod kept;
pub mod staying;
