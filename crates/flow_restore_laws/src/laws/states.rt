//! What memory at rest tells is sound, and a run goes on alike from it.

pub mod heaps;
pub mod laws;
pub mod restored;
pub mod resumed;
pub mod skipped;
