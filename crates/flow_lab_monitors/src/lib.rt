//! Monitors of a laboratory: assertions of a program, resources that it says it holds, and a time that it is to keep.
#![tactic(auto)]

pub mod held;
pub mod late;
pub mod throws;

pub use held::Held;
pub use late::Late;
pub use throws::Throws;
