// Files in memory.

ghost use Rattle.std.specs.Prelude.{position, bytes_eq, ◌≡◌, ◌+◌, ◌<◌, ◌^◌, [], length, map, take, drop, string_bytes, IsTrue, IfOk, OnErr};
ghost use Rattle.std.specs.Io.KnownBytes.{IsAtEnd};
ghost use Rattle.flow_base.specs.Calls.{no_calls};
ghost use Rattle.flow_base.specs.MemoryFiles.{OpensFile, ReadsFile, Copies, are_distinct, place_of, file_at, named_bytes, seen_of};
ghost use Rattle.flow_base.specs.Seen.{Opens, ReadsOn, opening_at};

use crate::calls::Calls;
use crate::fault::OutFault;
use crate::files::Files;
use crate::ids::FileNo;
use std::alloc::Global;
use std::marker::Model;

/// Files that stand in memory. The calls of `open_file` and `read` are numbered from 1, a number at
/// 2^64 - 1 staying there, and the listed ones fail; besides, opening a name that isn't there fails,
/// and nothing else. There is memory for 2^32 openings at most.
#[derive(Drop)]
pub struct MemFiles {
    alloc: Global,
    files: Vec<(String, Vec<u8>)>,
    positions: Vec<Position>,
    asked: Vec<String>,
    calls: Calls,
}

/// Where the opening of a file stands: the file's place among the files, and how many of its bytes
/// were read.
#[derive(Clone, Copy)]
pub(crate) struct Position {
    file: usize,
    count: usize,
}

impl Model for MemFiles {
    ghost use Rattle.std.specs.Prelude.{map, string_bytes};
    ghost use Rattle.flow_base.specs.MemoryFiles.{FilesState, named_bytes};

    ghost Value = { FilesState };

    ghost view = { λ s. record {
      files = map named_bytes s.files.items;
      positions = s.positions.items;
      asked = map string_bytes s.asked.items;
      calls = s.calls;
    } };
}

impl MemFiles {
    /// Files of distinct names, with the numbers of the calls that will fail. It takes no memory.
    pub fn new(alloc: Global, files: Vec<(String, Vec<u8>)>, failing: Vec<u64>) -> MemFiles
        requires { IsTrue (are_distinct (map (λ e. string_bytes e.0) files.items)) }
        ensures { result ≡ record {
          files = map named_bytes files.items;
          positions = [];
          asked = [];
          calls = no_calls failing.items;
        } }
    {
        MemFiles {
            alloc,
            files,
            positions: Vec::new(alloc),
            asked: Vec::new(alloc),
            calls: Calls::new(failing),
        }
    }
}

// The place of the first file with that name.
fn first_named(files: &[(String, Vec<u8>)], name: &str) -> Option<usize>
    ensures { result ≡ position (λ f. bytes_eq (string_bytes f.0) name.now) files.now }
{
    files.iter().position(|file| file.0.as_str() == name)
}

// The place among the files of the one with that name.
fn find(files: &[(String, Vec<u8>)], name: &str) -> Option<usize>
    ensures { result ≡ place_of (map named_bytes files.now) name.now }
{
    first_named(files, name)
}

// The bytes of the file at this place that are left from a position on.
fn rest_of(files: &[(String, Vec<u8>)], position: Position) -> &[u8]
    ensures left { result.now ≡ drop position.count
        (file_at (map named_bytes files.now) position.file).1 }
    ensures within { position.count + length result.now < 2 ^ 64 }
{
    let Some(file) = files.get(position.file) else {
        return &[];
    };
    file.1.get(position.count..).unwrap_or(&[])
}

// Copies as many bytes as there are and fit, and says how many.
fn copy_front(rest: &[u8], buf: &mut [u8]) -> usize
    ensures { Copies rest.now buf.old buf.new result }
{
    let count = rest.len().min(buf.len());
    buf[..count].copy_from_slice(&rest[..count]);
    count
}

impl MemFiles {
    // Opens the file of that name, where the next call doesn't fail.
    fn open_next(&mut self, name: &str) -> Result<FileNo, OutFault>
        ensures { OpensFile self.old name.now result self.new }
    {
        let Ok(copy) = name.to_string(self.alloc) else {
            return Err(OutFault::OutOfMemory);
        };
        if self.asked.reserve(1).is_err() || self.positions.reserve(1).is_err() {
            return Err(OutFault::OutOfMemory);
        }
        let Ok(number) = u32::try_from(self.positions.len()) else {
            return Err(OutFault::OutOfMemory);
        };
        self.asked.push_reserved(copy);
        if self.calls.next_fails() {
            return Err(self.calls.fail());
        }
        let Some(file) = find(&self.files, name) else {
            return Err(self.calls.fail());
        };
        self.positions.push_reserved(Position { file, count: 0 });
        self.calls.pass();
        Ok(FileNo(number))
    }

    // Reads on, where the next call doesn't fail.
    fn read_next(&mut self, file: FileNo, buf: &mut [u8]) -> Result<usize, OutFault>
        requires { file.0 < length self.old.positions }
        ensures { ReadsFile self.old file.0 buf.old result buf.new self.new }
    {
        if self.calls.next_fails() {
            return Err(self.calls.fail());
        }
        let position = self.positions[file.0 as usize];
        let count = copy_front(rest_of(&self.files, position), buf);
        self.positions[file.0 as usize] = Position {
            file: position.file,
            count: position.count + count,
        };
        self.calls.pass();
        Ok(count)
    }
}

impl Files for MemFiles {
    ghost seen = { seen_of };

    fn open_file(&mut self, name: &str) -> Result<FileNo, OutFault>
        ensures does { OpensFile self.old name.now result self.new }
        ensures opens { Opens (seen_of self.old) name.now result (seen_of self.new) }
    {
        self.open_next(name)
    }

    fn read(&mut self, file: FileNo, buf: &mut [u8]) -> Result<usize, OutFault>
        requires { file.0 < length self.old.positions }
        ensures does { ReadsFile self.old file.0 buf.old result buf.new self.new }
        ensures reads { IfOk result (λ n. ReadsOn (seen_of self.old).openings
            (seen_of self.new).openings file.0 (take n buf.new)) }
        ensures end { IfOk result (λ n. n ≡ 0 → 0 < length buf.new
            → IsAtEnd (opening_at (seen_of self.new).openings file.0).left) }
        ensures unread { OnErr result (ReadsOn (seen_of self.old).openings
            (seen_of self.new).openings file.0 []) }
    {
        self.read_next(file, buf)
    }

    fn faults(&self) -> u64 {
        self.calls.faults()
    }
}
