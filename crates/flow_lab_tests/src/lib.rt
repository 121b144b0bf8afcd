//! Tests of what a laboratory stands on: storms, and the monitors throws, held and late. A function that owns a world has one
//! end, since it is dropped at every end.
#![tactic(auto)]

#[cfg(test)]
mod monitors;
#[cfg(test)]
mod storms;
