//! Tests of what reads and writes program texts, as far as only calls show it: tokens (`flow_lex`), trees of expressions and types
//! (`flow_exprs`), lines that a sink takes (`flow_show`), programs of any size (`flow_gen`), and answers that no program gives
//! (`flow_refusal`). What the program tells of texts stands in the folder cases/ at the top.
//! In each a function that owns what is tested has one end, since it is dropped at every end.
#![tactic(auto)]

#[cfg(test)]
mod canonical;
#[cfg(test)]
mod expressions;
#[cfg(test)]
mod generated;
#[cfg(test)]
mod nested;
#[cfg(test)]
mod notes;
#[cfg(test)]
mod reading;
#[cfg(test)]
mod shapes;
#[cfg(test)]
mod tokens;
#[cfg(test)]
mod types;
