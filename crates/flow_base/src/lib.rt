//! What every layer of flow stands on: places in a text, numbers of things, bounded texts and names,
//! and the two sides of the outside world: files that are read and a sink that is written.
#![tactic(auto)]

mod calls;
pub mod errors;
pub mod fault;
pub mod files;
pub mod ids;
pub mod input;
pub mod mem_files;
pub mod mem_sink;
pub mod memory;
pub mod name;
pub mod output;
pub mod place;
pub mod sink;
pub mod text;
