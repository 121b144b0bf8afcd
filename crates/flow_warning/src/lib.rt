//! What is warned of in a program that the rules accept: locals that are lost unused, and loops that nothing ends.
#![tactic(auto)]

mod find;
mod mentions;
mod walks;
mod warning;

pub use find::find_warnings;
pub use warning::{Held, Warning};
