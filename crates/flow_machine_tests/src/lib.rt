//! Tests of flow_machine: bursts of one process, over a host that keeps the lines; and of flow_world: traces of a program in
//! small worlds.
#![tactic(auto)]

#[cfg(test)]
mod bursts;
#[cfg(test)]
mod heap_again;
#[cfg(test)]
mod lines;
#[cfg(test)]
mod resumable;
#[cfg(test)]
mod running;
#[cfg(test)]
mod saved;
#[cfg(test)]
mod speed;
#[cfg(test)]
mod traces;
#[cfg(test)]
mod watched;
#[cfg(test)]
mod worlds;
