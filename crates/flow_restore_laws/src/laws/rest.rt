//! Between events the processes of a world in memory are at rest, and so are those of the definitions that it shows;
//! and a boot in any world.

pub mod booting;
pub mod laws;
