// Tests of flow_base.

ghost use Rattle.std.specs.Prelude.{◌≡◌, None, IfOk, IsTrue, map, string_bytes};
ghost use Rattle.flow_base.specs.MemoryFiles.{are_distinct};

use flow_base::fault::OutFault;
use flow_base::files::Files;
use flow_base::input::read_file;
use flow_base::mem_files::MemFiles;
use flow_base::mem_sink::MemSink;
use flow_base::memory::NoMemory;
use flow_base::name::{Name, is_name};
use flow_base::output::write_whole;
use flow_base::sink::Sink;
use flow_base::text::Text;
use std::alloc::Global;

fn file(alloc: Global, name: &str, bytes: &[u8]) -> Result<(String, Vec<u8>), NoMemory>
    ensures { IfOk result (λ f. string_bytes f.0 ≡ name.now) }
{
    let owned = name.to_string(alloc)?;
    Ok((owned, bytes.to_vec(alloc)?))
}

fn both(alloc: Global) -> Result<Vec<(String, Vec<u8>)>, NoMemory>
    ensures { IfOk result (λ files.
        IsTrue (are_distinct (map (λ f. string_bytes f.0) files.items))) }
{
    let first = file(alloc, "a", b"hello")?;
    let second = file(alloc, "b", b"there")?;
    Ok(vec![in alloc; first, second]?)
}

fn two_files(alloc: Global, failing: Vec<u64>) -> Result<MemFiles, NoMemory> {
    let files = both(alloc)?;
    Ok(MemFiles::new(alloc, files, failing))
}

// Whether these bytes are read of the file of that name, to one past the limit.
fn reads(alloc: Global, files: &mut MemFiles, (name, limit): (&str, usize), wanted: &[u8]) -> bool {
    let read = read_file(alloc, files, name, limit);
    match &read {
        Ok(bytes) => bytes.as_slice() == wanted,
        Err(_) => false,
    }
}

fn fails_to_read(alloc: Global, files: &mut MemFiles, (name, limit): (&str, usize)) -> bool {
    read_file(alloc, files, name, limit).err() == Some(OutFault::Failed)
}

fn reads_to_the_limit(alloc: Global, files: &mut MemFiles) -> bool {
    reads(alloc, files, ("b", 3), b"ther")
        && reads(alloc, files, ("b", 9), b"there")
        && files.faults() == 0
}

fn reads_two(alloc: Global) -> Result<bool, NoMemory> {
    let mut files = two_files(alloc, Vec::new(alloc))?;
    Ok(reads_to_the_limit(alloc, &mut files))
}

#[test]
fn reads_to_one_byte_past_the_limit(rt: HostRuntime) -> Result<(), NoMemory> {
    assert!(rt; reads_two(rt.alloc())?);
    Ok(())
}

fn misses_a_name(alloc: Global, files: &mut MemFiles) -> bool {
    fails_to_read(alloc, files, ("c", 3)) && files.faults() == 1
}

fn misses_the_third(alloc: Global) -> Result<bool, NoMemory> {
    let mut files = two_files(alloc, Vec::new(alloc))?;
    Ok(misses_a_name(alloc, &mut files))
}

#[test]
fn a_name_that_is_not_there_fails(rt: HostRuntime) -> Result<(), NoMemory> {
    assert!(rt; misses_the_third(rt.alloc())?);
    Ok(())
}

fn fails_as_listed(alloc: Global, files: &mut MemFiles) -> bool {
    fails_to_read(alloc, files, ("a", 9)) && files.faults() == 1
}

fn third_call_fails(alloc: Global) -> Result<bool, NoMemory> {
    let mut files = two_files(alloc, vec![in alloc; 3]?)?;
    Ok(fails_as_listed(alloc, &mut files))
}

#[test]
fn a_listed_read_fails(rt: HostRuntime) -> Result<(), NoMemory> {
    assert!(rt; third_call_fails(rt.alloc())?);
    Ok(())
}

// A sink that takes one byte at a time, and fails when it has as many as it takes.
#[derive(Drop)]
struct Trickle {
    bytes: Vec<u8>,
    takes: usize,
    faults: u64,
}

impl Sink for Trickle {
    ghost seen = { λ s. record { written = None; handed = None; faults = s.faults } };

    ghost handed_first = { λ s. tt };

    fn write(&mut self, piece: &[u8]) -> Result<usize, OutFault> {
        if self.bytes.len() >= self.takes {
            self.faults = self.faults.saturating_add(1);
            return Err(OutFault::Failed);
        }
        let [first, ..] = piece else {
            return Ok(0);
        };
        if self.bytes.push(*first).is_err() {
            return Err(OutFault::OutOfMemory);
        }
        Ok(1)
    }

    fn flush(&mut self) -> Result<(), OutFault> {
        Ok(())
    }

    fn faults(&self) -> u64 {
        self.faults
    }
}

fn takes_four(out: &mut Trickle) -> bool {
    write_whole(out, b"one") == Ok(())
        && write_whole(out, b"two") == Err(OutFault::Failed)
        && out.bytes.as_slice() == b"onet".as_slice()
        && out.faults() == 1
}

fn takes_byte_by_byte(alloc: Global) -> bool {
    let mut out = Trickle {
        bytes: Vec::new(alloc),
        takes: 4,
        faults: 0,
    };
    takes_four(&mut out)
}

#[test]
fn a_short_write_goes_on(rt: HostRuntime) {
    assert!(rt; takes_byte_by_byte(rt.alloc()));
}

fn takes_one(out: &mut MemSink) -> bool {
    write_whole(out, b"one") == Ok(())
        && write_whole(out, b"two") == Err(OutFault::Failed)
        && out.flush() == Ok(())
        && out.bytes() == b"one".as_slice()
        && out.faults() == 1
}

fn second_write_fails(alloc: Global) -> Result<bool, NoMemory> {
    let mut out = MemSink::new(alloc, vec![in alloc; 2]?);
    Ok(takes_one(&mut out))
}

#[test]
fn a_listed_write_takes_nothing(rt: HostRuntime) -> Result<(), NoMemory> {
    assert!(rt; second_write_fails(rt.alloc())?);
    Ok(())
}

fn text_holds(alloc: Global) -> Result<bool, NoMemory> {
    let text = Text::new(alloc, b"a\xffb")?;
    let copy = text.copy(alloc)?;
    Ok(copy.bytes() == b"a\xffb".as_slice())
}

fn name_holds(alloc: Global) -> Result<bool, NoMemory> {
    let name = Name::new(alloc, b"_x9")?;
    let copy = name.copy(alloc)?;
    Ok(copy.bytes() == b"_x9".as_slice())
}

#[test]
fn texts_and_names_hold_their_bytes(rt: HostRuntime) -> Result<(), NoMemory> {
    let alloc = rt.alloc();
    assert!(rt; text_holds(alloc)?);
    assert!(rt; is_name(b"_x9") && !is_name(b"9x") && !is_name(b"a b") && !is_name(b""));
    assert!(rt; name_holds(alloc)?);
    Ok(())
}
