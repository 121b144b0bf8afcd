// Bytes with writes over them.

ghost use Rattle.std.specs.Prelude.{◌≡◌, ◌+◌, ◌≤◌, length};
ghost use Rattle.flow_simdisk.specs.Disk.{over};
ghost use Rattle.flow_simdisk.specs.Stored.{all_over, EndsBy};

use crate::write::Write;

/// Puts bytes over those from an offset on, within.
pub fn put_over(bytes: &mut Vec<u8>, offset: usize, text: &[u8])
    requires { offset + length text.now ≤ length bytes.old.items }
    ensures { bytes.new.items ≡ over bytes.old.items offset text.now }
{
    bytes[offset..offset + text.len()].copy_from_slice(text);
}

/// Puts the bytes of each write over those from its offset on, within.
pub fn put_all_over(bytes: &mut Vec<u8>, writes: &[Write])
    requires { EndsBy (length bytes.old.items) writes.now }
    ensures { bytes.new.items ≡ all_over bytes.old.items writes.now }
{
    for write in writes.iter() {
        put_over(bytes, write.offset as usize, write.text.bytes());
    }
}
