pub mod actors;
pub mod programs;
