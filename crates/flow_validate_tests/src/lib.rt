//! Tests of flow_validate: class programs, written as class text, with the rule that each breaks first.
#![tactic(auto)]

#[cfg(test)]
mod broken;
#[cfg(test)]
mod classes;
#[cfg(test)]
mod judged;
#[cfg(test)]
mod kept;
#[cfg(test)]
mod large;
#[cfg(test)]
mod reader;
#[cfg(test)]
mod tests;
