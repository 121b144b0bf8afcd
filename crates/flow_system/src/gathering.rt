// A sink over a writer.

ghost use Rattle.std.specs.Prelude.{◌≡◌, ◌≤◌, [], length, take, drop, IfOk, OnOk, OnErr};
ghost use Rattle.std.specs.Io.{WritesAtMost};
ghost use Rattle.std.specs.Io.KnownBytes.{Appends, Keeps, append_known};
ghost use Rattle.flow_base.specs.Bytes.{Grows};
ghost use Rattle.flow_base.specs.Faults.{HasCause};
ghost use Rattle.std.proofs.Common.{ap, take_at, refl, Option, None, Some, List, ℕ};
ghost use Rattle.flow_system.specs.Gathered.{gathered_seen, start_of};

use crate::interrupted::is_interrupted;
use flow_base::fault::OutFault;
use flow_base::sink::Sink;
use std::alloc::Global;
use std::io;

/// How many bytes are gathered before they are handed on.
const ROOM: usize = 65_536;

/// A sink that gathers bytes, and hands them on to a writer when there are many and at a flush. Where
/// the writer fails, what it didn't take stays gathered, and nothing is handed on twice. A write that
/// a signal interrupts is tried again.
#[derive(Drop)]
pub struct Gathering<W> {
    writer: W,
    gathered: Vec<u8>,
    faults: u64,
}

impl<W: io::Write> Gathering<W> {
    /// Nothing is gathered yet. It takes no memory.
    pub fn new(alloc: Global, writer: W) -> Gathering<W>
        ensures { gathered_seen W.contents result ≡ start_of (W.contents writer) }
    {
        Gathering {
            writer,
            gathered: Vec::new(alloc),
            faults: 0,
        }
    }

    // Hands on what was gathered, or as much of it as the writer took before it failed, which is
    // counted then.
    fn hand_on(&mut self) -> Result<(), OutFault>
        ensures bytes { Keeps (gathered_seen W.contents self.old).written
            (gathered_seen W.contents self.new).written }
        ensures handed { Grows (W.contents self.old.writer) (W.contents self.new.writer) }
        ensures all { OnOk result (self.new.gathered.items ≡ []) }
        ensures cause { HasCause self.old.faults self.new.faults result }
    {
        let sent = send_all(&mut self.writer, &self.gathered);
        remove_front(&mut self.gathered, sent);
        if self.gathered.is_empty() {
            return Ok(());
        }
        self.faults = self.faults.saturating_add(1);
        Err(OutFault::Failed)
    }
}

// Writes a first part of the bytes, and says how many that was, none where that failed.
fn send<W: io::Write>(writer: &mut W, bytes: &[u8]) -> usize
    ensures within { result ≤ length bytes.now }
    ensures bytes { Appends (W.contents writer.old) (W.contents writer.new)
        (take result bytes.now) }
{
    for _ in 0..u64::MAX {
        match writer.write(bytes) {
            Ok(count) => return count,
            Err(error) => {
                if !is_interrupted(&error) {
                    return 0;
                }
            }
        }
    }
    0
}

// Writes the bytes up to the first write that takes none or fails, and says how many were written.
fn send_all<W: io::Write>(writer: &mut W, bytes: &[u8]) -> usize
    ensures within { result ≤ length bytes.now }
    ensures bytes { Appends (W.contents writer.old) (W.contents writer.new)
        (take result bytes.now) }
{
    let mut sent = 0;
    while sent < bytes.len() {
        let count = send(writer, &bytes[sent..]);
        if count == 0 {
            return sent;
        }
        sent += count;
    }
    sent
}

// Takes away the first bytes.
fn remove_front(bytes: &mut Vec<u8>, count: usize)
    requires { count ≤ length bytes.old.items }
    ensures { bytes.new.items ≡ drop count bytes.old.items }
{
    let length = bytes.len();
    bytes.as_mut_slice().copy_within(count..length, 0);
    bytes.truncate(length - count);
}

// Lets the writer hand on what it holds.
fn flush<W: io::Write>(writer: &mut W) -> bool
    ensures { Keeps (W.contents writer.old) (W.contents writer.new) }
{
    for _ in 0..u64::MAX {
        match writer.flush() {
            Ok(()) => return true,
            Err(error) => {
                if !is_interrupted(&error) {
                    return false;
                }
            }
        }
    }
    false
}

impl<W: io::Write> Sink for Gathering<W> {
    ghost seen = { gathered_seen W.contents };

    ghost handed_first = { λ s. elim (W.contents s.writer)
        as (λ known. Grows known (append_known known s.gathered.items))
        [ None ↦ tt | Some held ↦ ap Some (take_at held s.gathered.items (length held) refl) ] };

    fn write(&mut self, piece: &[u8]) -> Result<usize, OutFault> {
        if self.gathered.len() >= ROOM {
            self.hand_on()?;
        }
        match self.gathered.extend_from_slice(piece) {
            Ok(()) => Ok(piece.len()),
            Err(_) => Err(OutFault::OutOfMemory),
        }
    }

    fn flush(&mut self) -> Result<(), OutFault> {
        self.hand_on()?;
        if flush(&mut self.writer) {
            return Ok(());
        }
        self.faults = self.faults.saturating_add(1);
        Err(OutFault::Failed)
    }

    fn faults(&self) -> u64 {
        self.faults
    }
}
