// Writes, and what a loss of power did to them.

ghost use Rattle.std.specs.Prelude.{◌≡◌, ◌+◌, ◌<◌, ◌≤◌, ◌^◌, IfOk, length};
ghost use Rattle.flow_draw.specs.Words.{word_in, asked};
ghost use Rattle.flow_simdisk.specs.Disk.{fate, kept_of};
ghost use Rattle.flow_simdisk.specs.Stored.{HasByte};

use flow_base::memory::NoMemory;
use flow_base::text::Text;
use flow_draw::Draws;
use std::alloc::Global;

/// A write: where it begins in its file, in bytes, and its bytes.
#[derive(Drop)]
pub struct Write {
    pub offset: u32,
    pub text: Text,
}

/// What a loss of power did to a write: its file, where it began, its length, and how many of its first bytes stay.
#[derive(Drop)]
pub struct Kept {
    pub name: Text,
    pub offset: u32,
    pub length: u32,
    pub kept: u32,
}

/// How many of the first bytes of a write a loss of power keeps, by the words that are drawn.
pub fn draw_fate(write: &Write, draws: &mut Draws) -> u32
    requires byte { HasByte write.now }
    requires room { draws.old.used + 2 < 2 ^ 63 }
    ensures kept { result ≡ (fate (word_in draws.old) 0 write.now).kept }
    ensures part { result ≤ length write.now.text }
    ensures drawn { draws.new ≡ asked draws.old (fate (word_in draws.old) 0 write.now).asked }
{
    let size = write.text.bytes().len() as u32;
    match draws.below(3) {
        0 => size,
        1 => 0,
        _ => draws.below(u64::from(size)) as u32,
    }
}

/// The note of what stays of a write of this file.
pub fn note(alloc: Global, name: &[u8], write: &Write, kept: u32) -> Result<Kept, NoMemory>
    requires { length name.now ≤ 65535 }
    ensures { IfOk result (λ k. k ≡ kept_of name.now write.now kept) }
{
    Ok(Kept {
        name: Text::new(alloc, name)?,
        offset: write.offset,
        length: write.text.bytes().len() as u32,
        kept,
    })
}
