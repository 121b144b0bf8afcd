// Reading a file, to one byte past a limit at most.

ghost use Rattle.std.specs.Prelude.{◌≡◌, ◌+◌, ◌<◌, length, IfOk};
ghost use Rattle.flow_base.specs.Asked.{AsksOnce};
ghost use Rattle.flow_base.specs.Bytes.{AreFirst, AreFirstOf};
ghost use Rattle.flow_base.specs.Faults.{Counts};
ghost use Rattle.flow_base.specs.Seen.{ReadsOn, ReadsSome, ReadsFrom, ReadsWithin, opening_at};

use crate::fault::OutFault;
use crate::files::Files;
use crate::ids::FileNo;
use std::alloc::Global;

/// The bytes that are left of an opened file, `limit + 1` of them at most: as many as tell a file
/// within the limit from a longer one. No more than that is read by this opening, which tells it, and
/// nothing by the others. `Failed` comes exactly where a read failed.
pub fn read_past<F: Files>(
    alloc: Global,
    files: &mut F,
    file: FileNo,
    limit: usize,
) -> Result<Vec<u8>, OutFault>
    requires { file.0 < length (F.seen files.old).openings }
    ensures bytes { IfOk result (λ v. AreFirst (limit + 1)
        (opening_at (F.seen files.old).openings file.0).left v.items) }
    ensures read { IfOk result (λ v. ReadsOn (F.seen files.old).openings
        (F.seen files.new).openings file.0 v.items) }
    ensures within { ReadsSome (limit + 1) (F.seen files.old).openings
        (F.seen files.new).openings file.0 }
    ensures content { (F.seen files.new).content ≡ (F.seen files.old).content }
    ensures asked { (F.seen files.new).asked ≡ (F.seen files.old).asked }
    ensures counted { Counts (F.seen files.old).faults (F.seen files.new).faults result }
{
    let mut bytes = Vec::new(alloc);
    let mut buf = [0; 4096];
    while bytes.len() <= limit {
        let room = (buf.len() - 1).min(limit - bytes.len()) + 1;
        let count = files.read(file, &mut buf[..room])?;
        if count == 0 {
            return Ok(bytes);
        }
        if bytes.extend_from_slice(&buf[..count]).is_err() {
            return Err(OutFault::OutOfMemory);
        }
    }
    Ok(bytes)
}

/// The bytes of the file of that name, `limit + 1` of them at most, read from its start. No more than
/// that is read, and what was read is told. A name that is missing isn't read. `Failed` comes exactly
/// where a call failed.
pub fn read_file<F: Files>(
    alloc: Global,
    files: &mut F,
    name: &str,
    limit: usize,
) -> Result<Vec<u8>, OutFault>
    ensures bytes { IfOk result (λ v. AreFirstOf (limit + 1)
        ((F.seen files.old).content name.now) v.items) }
    ensures read { IfOk result (λ v. ReadsFrom (F.seen files.old) (F.seen files.new) name.now
        v.items) }
    ensures within { ReadsWithin (limit + 1) name.now (F.seen files.old) (F.seen files.new) }
    ensures content { (F.seen files.new).content ≡ (F.seen files.old).content }
    ensures asked { AsksOnce (F.seen files.old).asked (F.seen files.new).asked name.now result }
    ensures counted { Counts (F.seen files.old).faults (F.seen files.new).faults result }
{
    match files.open_file(name) {
        Ok(file) => read_past(alloc, files, file, limit),
        Err(fault) => Err(fault),
    }
}
