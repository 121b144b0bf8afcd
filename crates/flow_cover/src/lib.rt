//! Which branches of a program's waits its runs take.
#![tactic(auto)]

pub mod cover;
pub mod marks;

pub use cover::{Branch, Cover};
pub use marks::Marks;
