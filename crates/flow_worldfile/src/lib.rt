//! World files: the texts that describe a simulated world, read exactly by their grammar, and printed
//! in one spelling that is read back.
#![tactic(auto)]

pub mod directive;
mod draft;
mod forms;
pub mod laws;
mod lines;
mod printing;
mod reading;
pub mod world;

pub use directive::{Directive, Order};
pub use printing::print_world;
pub use reading::read_world;
pub use world::{Act, At, World0, WorldFault};

/// L10: the most bytes of a world file.
pub const WORLD_BYTES: usize = 1_048_576;
