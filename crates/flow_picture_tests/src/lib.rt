//! Tests of traces in words and in pictures.
#![tactic(auto)]

#[cfg(test)]
mod lines;
#[cfg(test)]
mod pictures;
#[cfg(test)]
mod words;
