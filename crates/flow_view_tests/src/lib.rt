//! Tests of `flow_debug`: the lines of a view; and of `flow_valuetext`: texts of values.
#![tactic(auto)]

#[cfg(test)]
mod values;
#[cfg(test)]
mod views;
