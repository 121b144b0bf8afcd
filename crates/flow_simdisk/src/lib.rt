//! The disk of a simulated process: files of durable bytes and unsynced writes, what a request does to
//! them, and what a loss of power leaves.
#![tactic(auto)]

mod ask;
mod disk;
mod file;
pub mod laws;
mod overlay;
mod state;
mod write;

pub use ask::{DiskAsk, DiskReply};
pub use disk::Disk;
pub use state::{DiskState, FileState};
pub use write::{Kept, Write};

/// The greatest number of bytes of a file.
pub const FILE_BYTES: usize = 1_048_576;
