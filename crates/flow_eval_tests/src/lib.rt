//! Tests of `flow_ast` (`typing`) and `flow_eval`, apart from them, so that a change of one doesn't prove the others again.
//! Expressions, functions and statements are read from program text. In each a function that owns what is tested has one end,
//! since it is dropped at every end.
#![tactic(auto)]

#[cfg(test)]
mod reading;
#[cfg(test)]
mod tests;
#[cfg(test)]
mod typing;
