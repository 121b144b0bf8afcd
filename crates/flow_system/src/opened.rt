// Files over what opens them.

ghost use Rattle.std.specs.Prelude.{◌≡◌, ◌+◌, ◌<◌, ◌≤◌, ◌≢◌, ℕ, List, [], ◌++◌, length, take, get_or, vec_len, vec_capacity, IfOk, OnOk, OnErr};
ghost use Rattle.std.specs.Io.KnownBytes.{IsAtEnd, ReadConsumes};
ghost use Rattle.flow_base.specs.Faults.{CountsFault};
ghost use Rattle.flow_system.specs.Opened.{opened_seen, files_seen, none_opened, Advances};
ghost use Rattle.flow_base.specs.Seen.{Content, Missing, told_bytes, opening_at};

use crate::interrupted::is_interrupted;
use flow_base::fault::OutFault;
use flow_base::files::Files;
use flow_base::ids::FileNo;
use std::alloc::Global;
use std::io;

/// What opens files by their names.
pub trait Opener {
    /// What is told of each name.
    ghost content: { Self → List ℕ → Content };

    /// A file that was opened.
    type File: io::Read + Drop;

    /// Opens the file of that name at its start.
    fn open(&mut self, name: &str) -> io::Result<Self::File>
        ensures content { content self.new ≡ content self.old }
        ensures there { OnOk result (content self.old name.now ≢ Missing) }
        ensures start { IfOk result (λ f. Self.File.remaining f
            ≡ told_bytes (content self.old name.now)) };
}

/// A file that was opened: its name, and what was read of it.
#[derive(Drop)]
pub struct Opened<R> {
    name: String,
    file: R,
    read: Vec<u8>,
}

impl<R: io::Read> Opened<R> {
    // Reads on. Memory for what is read is had before, so that nothing that was read is lost.
    fn read_on(&mut self, buf: &mut [u8]) -> io::Result<usize>
        ensures count { IfOk result (λ n. n ≤ length buf.new) }
        ensures reads { IfOk result (λ n. Advances (opened_seen R.remaining self.old)
            (opened_seen R.remaining self.new) (take n buf.new)) }
        ensures end { IfOk result (λ n. n ≡ 0 → 0 < length buf.new
            → IsAtEnd (opened_seen R.remaining self.new).left) }
        ensures unread { OnErr result (Advances (opened_seen R.remaining self.old)
            (opened_seen R.remaining self.new) []) }
    {
        self.read.reserve(buf.len())?;
        let count = read_some(&mut self.file, buf)?;
        append(&mut self.read, &buf[..count]);
        Ok(count)
    }
}

// One read, tried again where a signal interrupts it.
fn read_some<R: io::Read>(file: &mut R, buf: &mut [u8]) -> io::Result<usize>
    ensures count { IfOk result (λ n. n ≤ length buf.new) }
    ensures room { length buf.new ≡ length buf.old }
    ensures bytes { ReadConsumes (R.remaining file.old) (R.remaining file.new) result buf.new }
{
    for _ in 0..u64::MAX {
        match file.read(buf) {
            Ok(count) => return Ok(count),
            Err(error) => {
                if !is_interrupted(&error) {
                    return Err(error);
                }
            }
        }
    }
    Err(io::Error::from(io::ErrorKind::TimedOut))
}

// Puts bytes behind others, for which there is room.
fn append(bytes: &mut Vec<u8>, more: &[u8])
    requires { vec_len bytes.old + length more.now ≤ vec_capacity bytes.old }
    ensures { bytes.new.items ≡ bytes.old.items ++ more.now }
{
    let Ok(()) = bytes.extend_from_slice(more) else {
        unreachable!()
    };
}

// Counts a call that failed, unless memory was wanting.
fn count_fault(faults: &mut u64, error: &io::Error) -> OutFault
    ensures { CountsFault faults.old faults.new result }
{
    if error.kind() == io::ErrorKind::OutOfMemory {
        return OutFault::OutOfMemory;
    }
    *faults = faults.saturating_add(1);
    OutFault::Failed
}

/// Files over what opens them. They keep the names asked for, and what was read by each opening. A
/// read that a signal interrupts is tried again; and an opening or a read that fails for want of
/// memory is no fault.
#[derive(Drop)]
pub struct OpenedFiles<O: Opener> {
    alloc: Global,
    opener: O,
    openings: Vec<Opened<O::File>>,
    asked: Vec<String>,
    faults: u64,
}

impl<O: Opener> OpenedFiles<O> {
    /// No file was opened yet. It takes no memory.
    pub fn new(alloc: Global, opener: O) -> OpenedFiles<O>
        ensures { files_seen O.content O.File.remaining result ≡ none_opened (O.content opener) }
    {
        OpenedFiles {
            alloc,
            opener,
            openings: Vec::new(alloc),
            asked: Vec::new(alloc),
            faults: 0,
        }
    }

    /// The name that was asked for after so many others, or an empty one.
    pub fn asked(&self, count: usize) -> &str
        ensures { result.now ≡ get_or (files_seen O.content O.File.remaining self.now).asked
            count [] }
    {
        match self.asked.get(count) {
            Some(name) => name.as_str(),
            None => "",
        }
    }

    /// What was read of the file that was opened after so many others.
    pub fn text(&self, count: usize) -> &[u8]
        ensures { let openings = (files_seen O.content O.File.remaining self.now).openings in
            result.now ≡ (opening_at openings count).read }
    {
        match self.openings.get(count) {
            Some(opening) => opening.read.as_slice(),
            None => &[],
        }
    }
}

impl<O: Opener> Files for OpenedFiles<O> {
    ghost seen = { files_seen O.content O.File.remaining };

    fn open_file(&mut self, name: &str) -> Result<FileNo, OutFault> {
        let alloc = self.alloc;
        let Ok(own) = name.to_string(alloc) else {
            return Err(OutFault::OutOfMemory);
        };
        let Ok(copy) = name.to_string(alloc) else {
            return Err(OutFault::OutOfMemory);
        };
        if self.asked.reserve(1).is_err() || self.openings.reserve(1).is_err() {
            return Err(OutFault::OutOfMemory);
        }
        let Ok(number) = u32::try_from(self.openings.len()) else {
            return Err(OutFault::OutOfMemory);
        };
        match self.opener.open(name) {
            Ok(file) => {
                self.asked.push_reserved(copy);
                self.openings.push_reserved(Opened {
                    name: own,
                    file,
                    read: Vec::new(alloc),
                });
                Ok(FileNo(number))
            }
            Err(error) => {
                let fault = count_fault(&mut self.faults, &error);
                if fault == OutFault::Failed {
                    self.asked.push_reserved(copy);
                }
                Err(fault)
            }
        }
    }

    fn read(&mut self, file: FileNo, buf: &mut [u8]) -> Result<usize, OutFault> {
        match self.openings[file.0 as usize].read_on(buf) {
            Ok(count) => Ok(count),
            Err(error) => Err(count_fault(&mut self.faults, &error)),
        }
    }

    fn faults(&self) -> u64 {
        self.faults
    }
}
