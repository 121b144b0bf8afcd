// Disks as plain data.

use flow_base::text::Text;

/// A disk: how many of its next requests fail, and its files, in the order of the bytes of their names.
#[derive(Drop)]
pub struct DiskState {
    pub fails: u32,
    pub files: Vec<FileState>,
}

/// A file: its name, its durable bytes, and the writes after them, oldest first, each with where it begins.
#[derive(Drop)]
pub struct FileState {
    pub name: Text,
    pub durable: Vec<u8>,
    pub unsynced: Vec<(u32, Text)>,
}
