//! Tests of the small parts below the machine and the world, apart from them, so that a change of one doesn't prove the
//! others again: a module for each of `flow_base`, `flow_cell`, `flow_draw`, `flow_monitor`, `flow_numbered`, `flow_shrink`, `flow_simdisk`,
//! `flow_simnet`, `flow_timers`, `flow_trace`, `flow_value` and `flow_worldfile` (with the world of `flow_gen`), and one for parts of
//! lowering.
//! In each a function that owns what is tested has one end, since it is dropped at every end.
#![tactic(auto)]

#[cfg(test)]
mod cells;
#[cfg(test)]
mod constants;
#[cfg(test)]
mod disks;
#[cfg(test)]
mod draws;
#[cfg(test)]
mod files;
#[cfg(test)]
mod lines;
#[cfg(test)]
mod links;
#[cfg(test)]
mod lowering;
#[cfg(test)]
mod monitors;
#[cfg(test)]
mod numbers;
#[cfg(test)]
mod shrinks;
#[cfg(test)]
mod timers;
#[cfg(test)]
mod values;
#[cfg(test)]
mod worlds;
