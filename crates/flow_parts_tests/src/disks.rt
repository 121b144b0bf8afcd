// Tests of flow_simdisk.

ghost use Rattle.std.specs.Prelude.{◌≤◌, length};

use flow_base::memory::NoMemory;
use flow_base::text::Text;
use flow_draw::Draws;
use flow_draw::question::Question;
use flow_simdisk::{Disk, DiskReply, DiskState, FileState, Kept};
use std::alloc::Global;

fn is_done(reply: &DiskReply) -> bool {
    match reply {
        DiskReply::Done => true,
        _ => false,
    }
}

fn is_failed(reply: &DiskReply) -> bool {
    match reply {
        DiskReply::Failed => true,
        _ => false,
    }
}

fn is_size(reply: &DiskReply, size: u32) -> bool {
    match reply {
        DiskReply::Size(told) => *told == size,
        _ => false,
    }
}

// How many bytes a text has, where one is told.
fn text_length(reply: &DiskReply) -> Option<usize> {
    match reply {
        DiskReply::Text(text) => Some(text.bytes().len()),
        _ => None,
    }
}

fn is_text(reply: &DiskReply, wanted: &[u8]) -> bool {
    match reply {
        DiskReply::Text(text) => text.bytes() == wanted,
        _ => false,
    }
}

// What a write of a few bytes answers.
fn write(
    alloc: Global,
    disk: &mut Disk,
    name: &Text,
    offset: u32,
    bytes: &[u8],
) -> Result<DiskReply, NoMemory>
    requires few { length bytes.now ≤ 100 }
    requires within { offset ≤ 1048476 }
{
    let named = name.copy(alloc)?;
    let text = Text::new(alloc, bytes)?;
    disk.write(named, offset, text)
}

fn writes(
    alloc: Global,
    disk: &mut Disk,
    name: &Text,
    offset: u32,
    bytes: &[u8],
) -> Result<bool, NoMemory>
    requires few { length bytes.now ≤ 100 }
    requires within { offset ≤ 1048476 }
{
    let reply = write(alloc, disk, name, offset, bytes)?;
    Ok(is_done(&reply))
}

fn has_size(disk: &mut Disk, name: &Text, size: u32) -> bool {
    let reply = disk.size(name);
    is_size(&reply, size)
}

// Whether these bytes are read, of nine from an offset on.
fn reads(disk: &mut Disk, name: &Text, offset: u32, wanted: &[u8]) -> Result<bool, NoMemory> {
    let reply = disk.read(name, offset, 9)?;
    Ok(is_text(&reply, wanted))
}

fn writes_past_the_end(alloc: Global, disk: &mut Disk, name: &Text) -> Result<bool, NoMemory> {
    Ok(
        has_size(disk, name, 0)
            && writes(alloc, disk, name, 2, b"ab")?
            && has_size(disk, name, 4)
            && reads(disk, name, 1, b"\0ab")?,
    )
}

fn writes_no_byte(alloc: Global, disk: &mut Disk, name: &Text) -> Result<bool, NoMemory> {
    Ok(writes(alloc, disk, name, 9, b"")? && has_size(disk, name, 4) && reads(disk, name, 7, b"")?)
}

fn sees_writes(alloc: Global, disk: &mut Disk, name: &Text) -> Result<bool, NoMemory> {
    Ok(writes_past_the_end(alloc, disk, name)? && writes_no_byte(alloc, disk, name)?)
}

fn sees_writes_alone(alloc: Global) -> Result<bool, NoMemory> {
    let name = Text::new(alloc, b"f")?;
    let mut disk = Disk::new(alloc)?;
    sees_writes(alloc, &mut disk, &name)
}

#[test]
fn reads_see_unsynced_writes(rt: HostRuntime) -> Result<(), NoMemory> {
    assert!(rt; sees_writes_alone(rt.alloc())?);
    Ok(())
}

fn fails_to_sync(disk: &mut Disk, name: &Text) -> Result<bool, NoMemory> {
    let reply = disk.sync(name)?;
    Ok(is_failed(&reply))
}

fn fails_to_write(alloc: Global, disk: &mut Disk, name: &Text) -> Result<bool, NoMemory> {
    let reply = write(alloc, disk, name, 0, b"a")?;
    Ok(is_failed(&reply))
}

fn fails_to_read(disk: &mut Disk, name: &Text) -> Result<bool, NoMemory> {
    let reply = disk.read(name, 0, 1)?;
    Ok(is_failed(&reply))
}

fn fails_to_size(disk: &mut Disk, name: &Text) -> bool {
    let reply = disk.size(name);
    is_failed(&reply)
}

// Power is lost, where few words are drawn: what became of the unsynced writes.
fn kill(disk: &mut Disk, draws: &mut Draws) -> Result<Option<Vec<Kept>>, NoMemory> {
    if disk.most_words() >= 1000 || draws.used() >= 1000 {
        return Ok(None);
    }
    Ok(Some(disk.kill(draws)?))
}

// Whether a loss of power finds no unsynced write.
fn loses_nothing(disk: &mut Disk, draws: &mut Draws) -> Result<bool, NoMemory> {
    let told = kill(disk, draws)?;
    match &told {
        Some(fates) => Ok(fates.is_empty()),
        None => Ok(false),
    }
}

fn fails_twice(alloc: Global, disk: &mut Disk, name: &Text) -> Result<bool, NoMemory> {
    disk.fail_next(2);
    Ok(fails_to_sync(disk, name)? && fails_to_write(alloc, disk, name)? && has_size(disk, name, 0))
}

// A loss of power uses up no failure.
fn fails_after_a_loss(disk: &mut Disk, name: &Text, draws: &mut Draws) -> Result<bool, NoMemory> {
    disk.fail_next(1);
    Ok(loses_nothing(disk, draws)? && fails_to_read(disk, name)? && has_size(disk, name, 0))
}

fn uses_up(
    alloc: Global,
    disk: &mut Disk,
    name: &Text,
    draws: &mut Draws,
) -> Result<bool, NoMemory> {
    Ok(fails_twice(alloc, disk, name)? && fails_after_a_loss(disk, name, draws)?)
}

fn uses_up_with(alloc: Global, draws: &mut Draws) -> Result<bool, NoMemory> {
    let name = Text::new(alloc, b"f")?;
    let mut disk = Disk::new(alloc)?;
    uses_up(alloc, &mut disk, &name, draws)
}

fn uses_up_alone(alloc: Global) -> Result<bool, NoMemory> {
    let mut draws = Draws::new(alloc, 0, vec![in alloc; 0]?);
    uses_up_with(alloc, &mut draws)
}

#[test]
fn a_sync_uses_up_a_failure(rt: HostRuntime) -> Result<(), NoMemory> {
    assert!(rt; uses_up_alone(rt.alloc())?);
    Ok(())
}

fn syncs(disk: &mut Disk, name: &Text) -> Result<bool, NoMemory> {
    let reply = disk.sync(name)?;
    Ok(is_done(&reply))
}

// A write becomes durable.
fn settles(alloc: Global, disk: &mut Disk, name: &Text) -> Result<bool, NoMemory> {
    Ok(writes(alloc, disk, name, 0, b"abc")? && syncs(disk, name)?)
}

fn is_fate(fate: &Kept, (offset, length, kept): (u32, u32, u32)) -> bool {
    fate.name.bytes() == b"f".as_slice()
        && fate.offset == offset
        && fate.length == length
        && fate.kept == kept
}

fn are_fates(fates: &[Kept]) -> bool {
    match fates {
        [first, second] => is_fate(first, (1, 2, 1)) && is_fate(second, (5, 1, 0)),
        _ => false,
    }
}

/// What a loss of power asks of a write of two bytes, which stays in part, and of one that is lost.
const LOSS: [Question; 3] = [Question::Among(3), Question::Among(2), Question::Among(3)];

// Of two writes a loss of power keeps one byte.
fn loses_by_words(disk: &mut Disk, draws: &mut Draws) -> Result<bool, NoMemory> {
    let told = kill(disk, draws)?;
    match &told {
        Some(fates) => Ok(
            draws.used() == 3 && draws.noted() == LOSS.as_slice() && are_fates(fates),
        ),
        None => Ok(false),
    }
}

fn writes_three(alloc: Global, disk: &mut Disk, name: &Text) -> Result<bool, NoMemory> {
    Ok(
        settles(alloc, disk, name)?
            && writes(alloc, disk, name, 1, b"xy")?
            && writes(alloc, disk, name, 5, b"z")?,
    )
}

fn loses_power(
    alloc: Global,
    disk: &mut Disk,
    name: &Text,
    draws: &mut Draws,
) -> Result<bool, NoMemory> {
    Ok(
        writes_three(alloc, disk, name)?
            && loses_by_words(disk, draws)?
            && reads(disk, name, 0, b"axc")?,
    )
}

fn loses_power_with(alloc: Global, draws: &mut Draws) -> Result<bool, NoMemory> {
    let name = Text::new(alloc, b"f")?;
    let mut disk = Disk::new(alloc)?;
    loses_power(alloc, &mut disk, &name, draws)
}

fn loses_power_alone(alloc: Global) -> Result<bool, NoMemory> {
    let mut draws = Draws::noting(alloc, 0, vec![in alloc; 5, 3, 4]?, 4)?;
    loses_power_with(alloc, &mut draws)
}

#[test]
fn a_loss_of_power_by_drawn_words(rt: HostRuntime) -> Result<(), NoMemory> {
    assert!(rt; loses_power_alone(rt.alloc())?);
    Ok(())
}

// A durable write, one that isn't, and a failure to come.
fn writes_and_fails(alloc: Global, disk: &mut Disk, name: &Text) -> Result<bool, NoMemory> {
    let is_written = settles(alloc, disk, name)? && writes(alloc, disk, name, 4, b"z")?;
    disk.fail_next(1);
    Ok(is_written)
}

fn restored(alloc: Global, disk: &Disk) -> Result<Disk, NoMemory> {
    Disk::restore(alloc, disk.state()?)
}

fn is_unsynced(writes: &[(u32, Text)]) -> bool {
    match writes {
        [write] => write.0 == 4,
        _ => false,
    }
}

fn are_files(files: &[FileState]) -> bool {
    match files {
        [file] => file.durable.as_slice() == b"abc".as_slice() && is_unsynced(&file.unsynced),
        _ => false,
    }
}

fn is_state(state: &DiskState) -> bool {
    state.fails == 0 && are_files(&state.files)
}

fn keeps_parts(disk: &Disk) -> Result<bool, NoMemory> {
    let state = disk.state()?;
    Ok(is_state(&state))
}

fn goes_on(disk: &mut Disk, name: &Text) -> Result<bool, NoMemory> {
    Ok(fails_to_size(disk, name) && has_size(disk, name, 5) && keeps_parts(disk)?)
}

fn goes_on_again(alloc: Global, disk: &Disk, name: &Text) -> Result<bool, NoMemory> {
    let mut again = restored(alloc, disk)?;
    goes_on(&mut again, name)
}

fn restores(alloc: Global, disk: &mut Disk, name: &Text) -> Result<bool, NoMemory> {
    Ok(writes_and_fails(alloc, disk, name)? && goes_on_again(alloc, disk, name)?)
}

fn restores_alone(alloc: Global) -> Result<bool, NoMemory> {
    let name = Text::new(alloc, b"f")?;
    let mut disk = Disk::new(alloc)?;
    restores(alloc, &mut disk, &name)
}

#[test]
fn restores_parts(rt: HostRuntime) -> Result<(), NoMemory> {
    assert!(rt; restores_alone(rt.alloc())?);
    Ok(())
}

fn writes_often(alloc: Global, disk: &mut Disk, name: &Text) -> Result<bool, NoMemory> {
    let hundred = [7u8; 100];
    for count in 0..100_000u32 {
        let offset = count.wrapping_mul(9_999) % 1_048_476;
        if !writes(alloc, disk, name, offset, &hundred)? {
            return Ok(false);
        }
    }
    Ok(true)
}

// How many bytes are read from an offset on.
fn length_from(disk: &mut Disk, name: &Text, offset: u32) -> Result<Option<usize>, NoMemory> {
    let reply = disk.read(name, offset, 65_535)?;
    Ok(text_length(&reply))
}

// How many bytes are read, piece by piece.
fn length_read(disk: &mut Disk, name: &Text) -> Result<Option<usize>, NoMemory> {
    let mut seen = 0usize;
    for piece in 0..17u32 {
        let Some(length) = length_from(disk, name, piece * 65_535)? else {
            return Ok(None);
        };
        seen = seen.saturating_add(length);
    }
    Ok(Some(seen))
}

// All that was written is made durable, and read.
fn reads_much(disk: &mut Disk, name: &Text) -> Result<bool, NoMemory> {
    if !syncs(disk, name)? {
        return Ok(false);
    }
    match length_read(disk, name)? {
        Some(seen) => Ok(seen > 1_000_000),
        None => Ok(false),
    }
}

fn writes_much(alloc: Global, disk: &mut Disk, name: &Text) -> Result<bool, NoMemory> {
    Ok(writes_often(alloc, disk, name)? && reads_much(disk, name)?)
}

fn writes_much_alone(alloc: Global) -> Result<bool, NoMemory> {
    let name = Text::new(alloc, b"f")?;
    let mut disk = Disk::new(alloc)?;
    writes_much(alloc, &mut disk, &name)
}

#[test]
fn many_small_writes(rt: HostRuntime) -> Result<(), NoMemory> {
    assert!(rt; writes_much_alone(rt.alloc())?);
    Ok(())
}
