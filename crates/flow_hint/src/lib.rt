//! What a note on a refusal says beyond the rule: which name, which types, what could stand there, and how it is mended.
#![tactic(auto)]

mod brackets;
mod expecting;
mod explain;
mod expressions;
mod forms;
mod hint;
mod lookup;
mod names;
mod seek;
mod shorten;
mod source;
mod spans;
mod spelled;
mod statements;
mod worlds;

pub use hint::{Hint, Remark};
pub use lookup::program_hint;
pub use worlds::world_hint;
