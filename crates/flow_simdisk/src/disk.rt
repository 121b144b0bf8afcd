// A disk.

ghost use Rattle.std.specs.Prelude.{◌≡◌, ◌+◌, ◌-◌, ◌*◌, ◌<◌, ◌≤◌, ◌^◌, [], IfOk, OnOk, OnErr, length, min, nat_lt, take, drop};
ghost use Rattle.std.specs.List.{All};
ghost use Rattle.flow_draw.specs.Words.{word_in};
ghost use Rattle.flow_simdisk.specs.declared.TheConstants.{FILE_BYTES};
ghost use Rattle.flow_simdisk.specs.Asks.{ReadCall, WriteCall, SyncCall, SizeCall};
ghost use Rattle.flow_simdisk.specs.Disk.{Serves, seen_bytes, file_named, with_file, lose_next, lose_file, power_lost};
ghost use Rattle.flow_simdisk.specs.Stored.{FitsFile, HasFiles, CanRestore, HasRisingNames, file_in, files_in, in_order_of_names, files_of, with_joined, with_synced, most_words, HasCome, GoesOn};

use crate::ask::DiskReply;
use crate::file::File;
use crate::state::{DiskState, FileState};
use crate::write::{Kept, Write};
use flow_base::memory::NoMemory;
use flow_base::text::Text;
use flow_draw::Draws;
use std::alloc::Global;
use std::collections::BTreeMap;
use std::marker::Model;

/// The disk of a process: files by the bytes of their names. Contracts see how many of its next requests fail, and the
/// files in the order of their names, each with its durable bytes and its unsynced writes.
#[derive(Drop)]
pub struct Disk {
    alloc: Global,
    fails: u32,
    files: BTreeMap<Vec<u8>, File>,
}

impl Model for Disk {
    ghost use Rattle.flow_simdisk.specs.Disk.{Disk as Seen};
    ghost use Rattle.flow_simdisk.specs.Stored.{HasFiles, files_of};

    ghost Value = { Seen };

    ghost view = { λ d. record { fails = d.fails; files = files_of d.files.entries } };

    ghost invariant = { λ d. HasFiles d.files.entries };
}

impl Disk {
    /// No files, and no request fails.
    pub fn new(alloc: Global) -> Result<Disk, NoMemory>
        ensures { IfOk result (λ d. d ≡ record { fails = 0; files = [] }) }
    {
        Ok(Disk::none_of(alloc, 0))
    }

    /// No files, and so many requests fail.
    fn none_of(alloc: Global, fails: u32) -> Disk
        ensures { result ≡ record { fails = fails; files = [] } }
    {
        Disk {
            alloc,
            fails,
            files: BTreeMap::new(alloc),
        }
    }

    /// So many of the next requests fail, in place of those that were to fail before.
    pub fn fail_next(&mut self, n: u32)
        ensures { self.new ≡ record self.old { fails = n } }
    {
        self.fails = n;
    }

    /// Whether the request is one of those that fail, of which there is one fewer then.
    fn fails(&mut self) -> bool
        ensures fails { result ≡ nat_lt 0 self.old.fails }
        ensures fewer { self.new ≡ record self.old { fails = self.old.fails - 1 } }
    {
        if self.fails == 0 {
            return false;
        }
        self.fails -= 1;
        true
    }

    /// The bytes that a program sees in a file.
    fn seen(&self, name: &Text) -> &[u8]
        ensures bytes { result.now ≡ seen_bytes (file_named self.now.files name.now) }
        ensures fits { length result.now ≤ FILE_BYTES }
    {
        match self.files.get(name.bytes()) {
            Some(file) => file.seen(),
            None => &[],
        }
    }

    /// Reads so many bytes, up to 65,535, of a file from an offset in bytes on, fewer where the file ends. `Failed`, and
    /// nothing read, exactly while requests fail. Unchanged on an error.
    pub fn read(&mut self, name: &Text, offset: u32, count: u32) -> Result<DiskReply, NoMemory>
        requires { count ≤ 65535 }
        ensures served { IfOk result (Serves (ReadCall name.now offset count) self.old self.new) }
        ensures unchanged { OnErr result (self.new ≡ self.old) }
    {
        if self.fails() {
            return Ok(DiskReply::Failed);
        }
        let bytes = part(self.seen(name), offset as usize, count as usize);
        Ok(DiskReply::Text(Text::new(self.alloc, bytes)?))
    }

    /// Writes a text into a file at an offset in bytes, so that it ends by 1,048,576 bytes: a text with a byte joins the
    /// unsynced writes of the file. `Failed`, and nothing written, exactly while requests fail. Unchanged on an error.
    pub fn write(&mut self, name: Text, offset: u32, text: Text) -> Result<DiskReply, NoMemory>
        requires { offset + length text ≤ FILE_BYTES }
        ensures served { IfOk result (Serves (WriteCall name offset text) self.old self.new) }
        ensures unchanged { OnErr result (self.new ≡ self.old) }
    {
        if self.fails() {
            return Ok(DiskReply::Failed);
        }
        if !text.bytes().is_empty() {
            self.put(&name, Write { offset, text })?;
        }
        Ok(DiskReply::Done)
    }

    /// A write joins the unsynced ones of a file. Unchanged on an error.
    fn put(&mut self, name: &Text, write: Write) -> Result<(), NoMemory>
        requires { FitsFile write }
        ensures joined { OnOk result (self.new ≡ with_joined self.old name.now write) }
        ensures unchanged { OnErr result (self.new ≡ self.old) }
    {
        match self.files.get_mut(name.bytes()) {
            Some(file) => file.write(write),
            None => {
                let mut file = File::new(self.alloc);
                file.write(write)?;
                self.files.insert(name.bytes().to_vec(self.alloc)?, file)?;
                Ok(())
            }
        }
    }

    /// Makes all bytes that a program sees in a file durable, where it is there. `Failed`, and nothing done, exactly while
    /// requests fail. Unchanged on an error.
    pub fn sync(&mut self, name: &Text) -> Result<DiskReply, NoMemory>
        ensures served { IfOk result (Serves (SyncCall name.now) self.old self.new) }
        ensures unchanged { OnErr result (self.new ≡ self.old) }
    {
        if self.fails() {
            return Ok(DiskReply::Failed);
        }
        self.settle(name)?;
        Ok(DiskReply::Done)
    }

    /// All bytes of a file that is there become durable. Unchanged on an error.
    fn settle(&mut self, name: &Text) -> Result<(), NoMemory>
        ensures synced { OnOk result (self.new ≡ with_synced self.old name.now) }
        ensures unchanged { OnErr result (self.new ≡ self.old) }
    {
        let Some(file) = self.files.get_mut(name.bytes()) else {
            return Ok(());
        };
        file.sync()
    }

    /// The number of bytes that a program sees in a file. `Failed` exactly while requests fail.
    pub fn size(&mut self, name: &Text) -> DiskReply
        ensures { Serves (SizeCall name.now) self.old self.new result }
    {
        if self.fails() {
            return DiskReply::Failed;
        }
        DiskReply::Size(self.seen(name).len() as u32)
    }

    /// The disk as plain data, its files in the order of the bytes of their names.
    pub fn state(&self) -> Result<DiskState, NoMemory>
        ensures fails { IfOk result (λ s. s.fails ≡ self.now.fails) }
        ensures files { IfOk result (λ s. files_in s.files.items ≡ self.now.files) }
        ensures fits { IfOk result (λ s. All CanRestore s.files.items) }
        ensures rising { OnOk result (HasRisingNames self.now.files) }
    {
        let mut files = Vec::new(self.alloc);
        for (name, file) in self.files.iter() {
            files.push(file.state(self.alloc, name)?)?;
        }
        Ok(DiskState {
            fails: self.fails,
            files,
        })
    }

    /// The disk of this plain data, in which each file has a byte or a write, no byte is past 1,048,576, and each write has
    /// a byte.
    pub fn restore(alloc: Global, state: DiskState) -> Result<Disk, NoMemory>
        requires { All CanRestore state.files.items }
        ensures { let files = in_order_of_names (files_in state.files.items) in
            IfOk result (λ d. d ≡ record { fails = state.fails; files = files }) }
    {
        let mut disk = Disk::none_of(alloc, state.fails);
        for file in state.files {
            disk.place(file)?;
        }
        Ok(disk)
    }

    /// A file of this plain data takes its place.
    fn place(&mut self, state: FileState) -> Result<(), NoMemory>
        requires { CanRestore state }
        ensures { let files = with_file self.old.files state.name (file_in state) in
            OnOk result (self.new ≡ record self.old { files = files }) }
    {
        let file = File::restore(self.alloc, state.durable, state.unsynced)?;
        self.files
            .insert(state.name.bytes().to_vec(self.alloc)?, file)?;
        Ok(())
    }

    /// The most words that a loss of power would take, up to the greatest number there is.
    pub fn most_words(&self) -> u64
        ensures { result ≡ min (most_words self.now.files) (2 ^ 64 - 1) }
    {
        let mut words: u64 = 0;
        for (_, file) in self.files.iter() {
            words = words.saturating_add((file.unsynced() as u64).saturating_mul(2));
        }
        words
    }

    /// A loss of power: by drawn words, file by file in the order of names and write by write, a write stays, is lost,
    /// or only its first bytes stay; gives what became of each. On an error the disk is unchanged, and words may have been
    /// drawn.
    pub fn kill(&mut self, draws: &mut Draws) -> Result<Vec<Kept>, NoMemory>
        requires { draws.old.used + most_words self.old.files < 2 ^ 63 }
        ensures lost { let lost = power_lost (word_in draws.old) self.old.files in
            IfOk result (λ fates. HasCome lost draws.old self.new.files fates.items draws.new) }
        ensures fails { self.new.fails ≡ self.old.fails }
        ensures drawn { draws.new
            ≡ record draws.old { used = draws.new.used; noted = draws.new.noted } }
        ensures unchanged { OnErr result (self.new ≡ self.old) }
    {
        let mut fates = Vec::new(self.alloc);
        let mut files = BTreeMap::new(self.alloc);
        for (name, file) in self.files.iter() {
            lose_file(self.alloc, name, file, draws, &mut fates, &mut files)?;
        }
        self.files = files;
        Ok(fates)
    }
}

/// What a loss of power leaves of a file joins what it left of those before. On an error words may have been drawn.
fn lose_file(
    alloc: Global,
    name: &[u8],
    file: &File,
    draws: &mut Draws,
    fates: &mut Vec<Kept>,
    files: &mut BTreeMap<Vec<u8>, File>,
) -> Result<(), NoMemory>
    requires name { length name.now ≤ 65535 }
    requires room { draws.old.used + 2 * length file.now.unsynced < 2 ^ 63 }
    ensures lost { OnOk result (GoesOn
        (λ word qs. lose_next (files_of files.old.entries) name.now
        (lose_file word qs fates.old.items name.now file.now))
        draws.old (files_of files.new.entries) fates.new.items draws.new) }
    ensures drawn { draws.new
        ≡ record draws.old { used = draws.new.used; noted = draws.new.noted } }
    ensures few { draws.new.used ≤ draws.old.used + 2 * length file.now.unsynced }
    ensures there { OnOk result (HasFiles files.old.entries → HasFiles files.new.entries) }
{
    let left = file.lose(alloc, name, draws, fates)?;
    if !left.is_empty() {
        files.insert(name.to_vec(alloc)?, File::of(alloc, left)?)?;
    }
    Ok(())
}

/// So many bytes from an offset on, fewer where there are fewer.
fn part(bytes: &[u8], offset: usize, count: usize) -> &[u8]
    ensures part { result.now ≡ take count (drop offset bytes.now) }
    ensures short { length result.now ≤ count }
{
    let rest = &bytes[offset.min(bytes.len())..];
    &rest[..count.min(rest.len())]
}
