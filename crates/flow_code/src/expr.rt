//! Expressions whose names are resolved: places, predefined calls and methods, records, functions and fields are
//! numbers, so that no text is compared while a run goes.

pub mod evaluate;
pub mod expr;
pub mod laws;
pub mod names;
pub mod resolve;
