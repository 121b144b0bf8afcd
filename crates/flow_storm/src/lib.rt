//! Storms: faults that are drawn from a seed, behind the script of a world.
#![tactic(auto)]

pub mod storm;
pub mod strike;

pub use storm::{Storm, add_storm, has_room};
pub use strike::Strike;
