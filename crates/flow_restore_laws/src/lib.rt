//! Memory between events: its parts are sound, and a run goes on alike from them.
//!
//! - `laws::rest`: Between events the processes of a world in memory are at rest, and so are those of the definitions
//!   that it shows; and a boot in any world.
//! - `laws::states`: What memory at rest tells is sound, and a run goes on alike from it.
#![tactic(auto)]

pub mod laws;
