// Whether a world can be made of a state, for tests that make one of what another told.

ghost use Rattle.std.specs.Prelude.{◌≡◌, ◌<◌, ◌≤◌, ◌^◌, true, length, map, IfOk, OnOk};
ghost use Rattle.std.specs.List.{AllByRecursion};
ghost use Rattle.flow_worldfile.specs.Worlds.{IsInRange, seen};
ghost use Rattle.flow_heapstate.specs.State.{parts_kept};
ghost use Rattle.flow_heapstate.specs.Sound.{SoundHeap};
ghost use Rattle.flow_simdisk.specs.Stored.{FitsFile, files_in, write_in};
ghost use Rattle.flow_simnet.specs.Links.{AreBelow};
ghost use Rattle.flow_saved.specs.Requests.{IsAllowed};
ghost use Rattle.flow_saved.specs.Saved.{process_saved, saved_of};
ghost use Rattle.flow_saved.specs.CanResume.{CanCome, CanResume, CanRun, IsStored, PortsOnce};

use flow_base::ids::{CellId, ProcId};
use flow_base::text::Text;
use flow_heapstate::judging::is_sound;
use flow_heapstate::state::HeapState;
use flow_saved::{PendingEvent, ProcState, What, WorldState};
use flow_simdisk::{DiskAsk, FILE_BYTES, FileState};
use flow_worldfile::World0;
use std::alloc::Global;
use std::test::Fail;

// An error where something doesn't hold.
fn holds(is: bool) -> Result<(), Fail>
    ensures { OnOk result (is ≡ true) }
{
    if is {
        return Ok(());
    }
    Err(Fail::from("not a state that can go on"))
}

fn is_sound_heap(alloc: Global, heap: &HeapState) -> Result<(), Fail>
    ensures { OnOk result (SoundHeap (parts_kept heap.now)) }
{
    let sound = is_sound(alloc, heap)?;
    holds(sound)
}

#[tactic(auto, using(crate::proofs::Once::few_once))]
// One port at most.
fn ports_once(ports: &[(u16, CellId)]) -> Result<(), Fail>
    ensures { OnOk result (PortsOnce ports.now) }
{
    holds(ports.len() < 2)
}

fn write_fits(offset: u32, text: &Text) -> Result<(), Fail>
    ensures { OnOk result (FitsFile (record { offset = offset; text = text.now })) }
{
    let length = text.bytes().len();
    holds(length > 0)?;
    holds(offset as usize + length <= FILE_BYTES)
}

fn writes_fit(writes: &[(u32, Text)]) -> Result<(), Fail>
    ensures { OnOk result (AllByRecursion FitsFile (map write_in writes.now)) }
{
    for write in writes {
        write_fits(write.0, &write.1)?;
    }
    Ok(())
}

#[tactic(auto, using(crate::proofs::Once::all_fit))]
fn files_stored(files: &[FileState]) -> Result<(), Fail>
    ensures { OnOk result (AllByRecursion (λ f. IsStored f.1) (files_in files.now)) }
{
    for file in files {
        holds(file.durable.len() <= FILE_BYTES)?;
        holds(!file.durable.is_empty() || !file.unsynced.is_empty())?;
        writes_fit(&file.unsynced)?;
    }
    Ok(())
}

fn process_runs(alloc: Global, state: &ProcState) -> Result<(), Fail>
    ensures { OnOk result (CanRun (process_saved state.now)) }
{
    is_sound_heap(alloc, &state.heap)?;
    ports_once(&state.ports)?;
    files_stored(&state.disk.files)
}

fn processes_run(alloc: Global, states: &[ProcState]) -> Result<(), Fail>
    ensures { OnOk result (AllByRecursion CanRun (map process_saved states.now)) }
{
    for state in states {
        process_runs(alloc, state)?;
    }
    Ok(())
}

fn is_file(name: &Text) -> Result<(), Fail>
    ensures some { OnOk result (1 ≤ length name.now) }
    ensures few { OnOk result (length name.now ≤ 255) }
{
    let length = name.bytes().len();
    holds(1 <= length)?;
    holds(length <= 255)
}

fn is_allowed(ask: &DiskAsk) -> Result<(), Fail>
    ensures { OnOk result (IsAllowed ask.now) }
{
    match ask {
        DiskAsk::Read(name, offset, count) => {
            is_file(name)?;
            holds(*offset as usize <= FILE_BYTES)?;
            holds(*count <= 65535)
        }
        DiskAsk::Write(name, offset, text) => {
            is_file(name)?;
            holds(*offset as usize + text.bytes().len() <= FILE_BYTES)
        }
        DiskAsk::Sync(name) | DiskAsk::Size(name) => is_file(name),
    }
}

fn can_come(what: &What) -> Result<(), Fail>
    ensures { OnOk result (CanCome what.now) }
{
    match what {
        What::Boot(_) | What::Timer(..) | What::Arrival(_) => Ok(()),
        What::Ask(_, _, ask) => is_allowed(ask),
    }
}

fn all_come(events: &[PendingEvent]) -> Result<(), Fail>
    ensures { OnOk result (AllByRecursion (λ e. CanCome e.what) events.now) }
{
    for event in events {
        can_come(&event.what)?;
    }
    Ok(())
}

fn are_below(processes: u8, links: &[(ProcId, ProcId)]) -> Result<(), Fail>
    ensures { OnOk result (AreBelow processes links.now) }
{
    for (p, q) in links {
        holds(p.0 < processes)?;
        holds(q.0 < processes)?;
    }
    Ok(())
}

// What it takes but for the file.
fn rest_goes(alloc: Global, processes: u8, state: &WorldState) -> Result<(), Fail>
    ensures time { OnOk result (state.now.time < 2 ^ 63) }
    ensures words { OnOk result (state.now.words ≤ 2 ^ 62) }
    ensures cuts { OnOk result (AreBelow processes state.now.cuts.items) }
    ensures pending { OnOk result (AllByRecursion (λ e. CanCome e.what) state.now.pending.items) }
    ensures count { OnOk result (length state.now.processes.items ≡ processes) }
    ensures processes { OnOk result
        (AllByRecursion CanRun (map process_saved state.now.processes.items)) }
{
    holds(state.time < 1 << 63)?;
    holds(state.words <= 1 << 62)?;
    are_below(processes, &state.cuts)?;
    all_come(&state.pending)?;
    holds(state.processes.len() == usize::from(processes))?;
    processes_run(alloc, &state.processes)
}

/// The state, of which a world can be made, where the file that it tells is this one; an error where none can.
pub(crate) fn resumable(alloc: Global, file: World0, state: WorldState) -> Result<WorldState, Fail>
    requires { IsInRange (seen file) }
    ensures { IfOk result (λ s. CanResume (saved_of s)) }
{
    holds(state.world0 == file)?;
    rest_goes(alloc, file.processes, &state)?;
    Ok(WorldState {
        world0: file,
        ..state
    })
}
