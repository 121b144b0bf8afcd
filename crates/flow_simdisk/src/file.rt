// One file.

ghost use Rattle.std.specs.Prelude.{◌≡◌, ◌+◌, ◌*◌, ◌<◌, ◌≤◌, ◌^◌, [], IfOk, OnOk, OnErr, length, map};
ghost use Rattle.std.specs.List.{All};
ghost use Rattle.flow_simdisk.specs.declared.TheConstants.{FILE_BYTES};
ghost use Rattle.flow_simdisk.specs.Disk.{written, empty_file, joined, synced, seen_bytes, lose_write, lose_file};
ghost use Rattle.flow_simdisk.specs.Stored.{FitsFile, IsThere, CanRestore, write_in, file_in, losing, GoesOn};

use crate::overlay::{put_all_over, put_over};
use crate::state::FileState;
use crate::write::{Kept, Write, draw_fate, note};
use flow_base::memory::NoMemory;
use flow_base::text::Text;
use flow_draw::Draws;
use std::alloc::Global;
use std::marker::Model;

/// A file: its durable bytes, the writes after them, each of a byte or more, and the bytes that a program sees. Contracts
/// see the durable bytes and the writes.
#[derive(Drop)]
pub struct File {
    durable: Vec<u8>,
    unsynced: Vec<Write>,
    seen: Vec<u8>,
}

impl Model for File {
    ghost use Rattle.flow_simdisk.specs.Disk.{File as Seen};
    ghost use Rattle.flow_simdisk.specs.Stored.{IsWhole};

    ghost Value = { Seen };

    ghost view = { λ f. record { durable = f.durable.items; unsynced = f.unsynced.items } };

    ghost invariant = { λ f. IsWhole f.durable.items f.unsynced.items f.seen.items };
}

impl File {
    /// A file without a byte.
    pub fn new(alloc: Global) -> File
        ensures { result ≡ empty_file }
    {
        File {
            durable: Vec::new(alloc),
            unsynced: Vec::new(alloc),
            seen: Vec::new(alloc),
        }
    }

    /// A file of these durable bytes.
    pub fn of(alloc: Global, durable: Vec<u8>) -> Result<File, NoMemory>
        requires { length durable.items ≤ FILE_BYTES }
        ensures { IfOk result (λ f. f ≡ record { durable = durable.items; unsynced = [] }) }
    {
        let seen = durable.to_vec(alloc)?;
        Ok(File {
            durable,
            unsynced: Vec::new(alloc),
            seen,
        })
    }

    /// The bytes that a program sees.
    pub fn seen(&self) -> &[u8]
        ensures bytes { result.now ≡ seen_bytes self.now }
        ensures fits { length (seen_bytes self.now) ≤ FILE_BYTES }
    {
        &self.seen
    }

    /// How many writes are unsynced.
    pub fn unsynced(&self) -> usize
        ensures { result ≡ length self.now.unsynced }
    {
        self.unsynced.len()
    }

    /// A write joins the unsynced ones. Unchanged on an error.
    pub fn write(&mut self, write: Write) -> Result<(), NoMemory>
        requires { FitsFile write }
        ensures joined { OnOk result (self.new ≡ joined self.old write) }
        ensures unchanged { OnErr result (self.new ≡ self.old) }
    {
        self.unsynced.reserve(1)?;
        keep(&mut self.seen, write.offset as usize, write.text.bytes())?;
        self.unsynced.push(write)?;
        Ok(())
    }

    /// All that a program sees becomes durable. Unchanged on an error.
    pub fn sync(&mut self) -> Result<(), NoMemory>
        ensures synced { OnOk result (self.new ≡ synced self.old) }
        ensures there { IsThere self.old → IsThere (synced self.old) }
        ensures unchanged { OnErr result (self.new ≡ self.old) }
    {
        self.durable.resize(self.seen.len(), 0)?;
        put_all_over(&mut self.durable, &self.unsynced);
        self.unsynced.clear();
        Ok(())
    }

    /// The file of this name as plain data.
    pub fn state(&self, alloc: Global, name: &[u8]) -> Result<FileState, NoMemory>
        requires { length name.now ≤ 65535 }
        ensures name { IfOk result (λ s. s.name ≡ name.now) }
        ensures file { IfOk result (λ s. file_in s ≡ self.now) }
        ensures fits { IfOk result (λ s. IsThere self.now → CanRestore s) }
    {
        Ok(FileState {
            name: Text::new(alloc, name)?,
            durable: self.durable.to_vec(alloc)?,
            unsynced: listed(alloc, &self.unsynced)?,
        })
    }

    /// The file of this plain data.
    pub fn restore(
        alloc: Global,
        durable: Vec<u8>,
        unsynced: Vec<(u32, Text)>,
    ) -> Result<File, NoMemory>
        requires durable { length durable.items ≤ FILE_BYTES }
        requires writes { All FitsFile (map write_in unsynced.items) }
        ensures { IfOk result (λ f.
            f ≡ record { durable = durable.items; unsynced = map write_in unsynced.items }) }
    {
        let mut file = File::of(alloc, durable)?;
        for (offset, text) in unsynced {
            file.write(Write { offset, text })?;
        }
        Ok(file)
    }

    /// What a loss of power leaves of the file of this name; the fates of its writes are added to the list. On an error
    /// words may have been drawn.
    pub fn lose(
        &self,
        alloc: Global,
        name: &[u8],
        draws: &mut Draws,
        fates: &mut Vec<Kept>,
    ) -> Result<Vec<u8>, NoMemory>
        requires name { length name.now ≤ 65535 }
        requires room { draws.old.used + 2 * length self.now.unsynced < 2 ^ 63 }
        ensures lost { IfOk result (λ left. GoesOn
            (λ word qs. lose_file word qs fates.old.items name.now self.now)
            draws.old left.items fates.new.items draws.new) }
        ensures drawn { draws.new
            ≡ record draws.old { used = draws.new.used; noted = draws.new.noted } }
        ensures few { draws.new.used ≤ draws.old.used + 2 * length self.now.unsynced }
        ensures fits { IfOk result (λ left. length left.items ≤ FILE_BYTES) }
    {
        let mut left = self.durable.to_vec(alloc)?;
        for write in self.unsynced.iter() {
            lose_write(alloc, name, write, &mut left, draws, fates)?;
        }
        Ok(left)
    }
}

/// The writes as plain data.
fn listed(alloc: Global, writes: &[Write]) -> Result<Vec<(u32, Text)>, NoMemory>
    ensures { IfOk result (λ list. map write_in list.items ≡ writes.now) }
{
    let mut list = Vec::new(alloc);
    for write in writes.iter() {
        list.push((write.offset, write.text.copy(alloc)?))?;
    }
    Ok(list)
}

/// What a loss of power does to a write of the file of this name, of which so much is left.
fn lose_write(
    alloc: Global,
    name: &[u8],
    write: &Write,
    left: &mut Vec<u8>,
    draws: &mut Draws,
    fates: &mut Vec<Kept>,
) -> Result<(), NoMemory>
    requires name { length name.now ≤ 65535 }
    requires fits { FitsFile write.now }
    requires short { length left.old.items ≤ FILE_BYTES }
    requires room { draws.old.used + 2 < 2 ^ 63 }
    ensures lost { OnOk result (GoesOn
        (λ word qs. lose_write word name.now
        (losing left.old.items qs fates.old.items) write.now)
        draws.old left.new.items fates.new.items draws.new) }
    ensures drawn { draws.new
        ≡ record draws.old { used = draws.new.used; noted = draws.new.noted } }
    ensures few { draws.new.used ≤ draws.old.used + 2 }
    ensures fits { OnOk result (length left.new.items ≤ FILE_BYTES) }
{
    let kept = draw_fate(write, draws);
    fates.push(note(alloc, name, write, kept)?)?;
    keep(
        left,
        write.offset as usize,
        &write.text.bytes()[..kept as usize],
    )
}

/// Writes bytes from an offset on, so that they end by 1,048,576 bytes. Unchanged on an error.
fn keep(left: &mut Vec<u8>, offset: usize, bytes: &[u8]) -> Result<(), NoMemory>
    requires { offset + length bytes.now ≤ FILE_BYTES }
    ensures written { OnOk result (left.new.items ≡ written left.old.items offset bytes.now) }
    ensures unchanged { OnErr result (left.new.items ≡ left.old.items) }
{
    if !bytes.is_empty() {
        left.resize(left.len().max(offset + bytes.len()), 0)?;
        put_over(left, offset, bytes);
    }
    Ok(())
}
