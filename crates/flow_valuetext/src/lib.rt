//! The text of a value.
#![tactic(auto)]

mod text;

pub use text::put_value;
