// What is asked of a disk, and what it answers.

use flow_base::text::Text;

/// A request: a read of so many bytes, up to 65,535, from an offset in bytes on; a write of a text at an offset; a sync;
/// the size of a file. Each names its file.
#[derive(Drop)]
pub enum DiskAsk {
    Read(Text, u32, u32),
    Write(Text, u32, Text),
    Sync(Text),
    Size(Text),
}

/// An answer: the bytes that were read; a write or a sync is done; a size in bytes; or the request failed, without
/// effect.
#[derive(Drop)]
pub enum DiskReply {
    Text(Text),
    Done,
    Size(u32),
    Failed,
}
