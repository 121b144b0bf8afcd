//! What a process of valid classes keeps allows each step of its actors: the premises of the laws of single steps.

pub mod allowing;
pub mod tasking;
