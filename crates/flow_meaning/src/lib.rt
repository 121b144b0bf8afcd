//! What a run means: one process, generic in its actors; actors run from their text, and actors run from classes; the
//! world of processes, links and disks; and the laws that hold of both kinds. The definitions stand in `specs/`. The
//! functions of this crate have empty bodies: the contract of each is a law about the definitions.
//! - `laws::cancelling`: What cancelling an actor does to its waits.
#![tactic(auto)]

pub mod laws;
