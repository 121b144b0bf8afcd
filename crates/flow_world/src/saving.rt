// What a world between events tells of itself, as plain data.

ghost use Rattle.std.specs.Prelude.{◌≡◌, ◌≤◌, ◌^◌, IfOk, map};
ghost use Rattle.std.specs.List.{AllByRecursion};
ghost use Rattle.flow_worldfile.specs.Worlds.{seen as file_seen};
ghost use Rattle.flow_heapstate.specs.State.{NumbersRise, parts_kept, parts_of};
ghost use Rattle.flow_saved.specs.Saved.{process_saved, saved_of};
ghost use Rattle.flow_saved.specs.CanResume.{HasGivenFew, HasNumberedFew};
ghost use Rattle.flow_world.specs.Changes.{seen};
ghost use Rattle.flow_world.specs.Saving.{IsOnWay, WhatTold, EventsTold, OutsideTold, ProcessTold, ProcessesTold};

use crate::outside::{self, Outside};
use crate::place::Place;
use flow_base::ids::ProcId;
use flow_base::memory::NoMemory;
use flow_heapstate::state::HeapState;
use flow_machine::machine::Machine;
use flow_saved::{PendingEvent, ProcState, What, WorldState};
use flow_simdisk::{Disk, DiskAsk};
use flow_simnet::{NetState, Packet};
use flow_timers::Timers;
use flow_worldfile::World0;
use std::alloc::Global;

/// The last number that is told of what was given and of the words drawn.
const LAST_TOLD: u64 = 1 << 62;

/// A copy of a file.
fn file_copied(alloc: Global, file: &World0) -> Result<World0, NoMemory>
    ensures { IfOk result (λ w. file_seen w ≡ file_seen file.now) }
{
    Ok(World0 {
        seed: file.seed,
        words: Vec::from_slice(alloc, &file.words)?,
        processes: file.processes,
        events: file.events,
        turns: file.turns,
        latency: file.latency,
        loss: file.loss,
        diskdelay: file.diskdelay,
        script: Vec::from_slice(alloc, &file.script)?,
    })
}

/// A copy of a request.
fn ask_copied(alloc: Global, ask: &DiskAsk) -> Result<DiskAsk, NoMemory>
    ensures { IfOk result (λ a. a ≡ ask.now) }
{
    Ok(match ask {
        DiskAsk::Read(name, offset, count) => DiskAsk::Read(name.copy(alloc)?, *offset, *count),
        DiskAsk::Write(name, offset, text) => {
            DiskAsk::Write(name.copy(alloc)?, *offset, text.copy(alloc)?)
        }
        DiskAsk::Sync(name) => DiskAsk::Sync(name.copy(alloc)?),
        DiskAsk::Size(name) => DiskAsk::Size(name.copy(alloc)?),
    })
}

/// A copy of the packet of this number, for this process, that is on its way; in no run is it missing.
fn packet_on_way(
    alloc: Global,
    on_way: &[Packet],
    to: ProcId,
    number: u64,
) -> Result<Packet, NoMemory>
    ensures { IfOk result (λ p. IsOnWay on_way.now to.0 number p) }
{
    let Ok(place) = on_way.binary_search_by_key(&number, |packet| packet.number) else {
        return Err(NoMemory);
    };
    let packet = &on_way[place];
    if packet.number != number || packet.to != to {
        return Err(NoMemory);
    }
    Ok(Packet {
        number,
        from: packet.from,
        to,
        port: packet.port,
        text: packet.text.copy(alloc)?,
    })
}

/// What happens at a pending event.
fn what_told(alloc: Global, on_way: &[Packet], what: &outside::What) -> Result<What, NoMemory>
    ensures { IfOk result (λ x. WhatTold on_way.now what.now x) }
{
    Ok(match what {
        outside::What::Boots(p) => What::Boot(*p),
        outside::What::Rings(p, cell) => What::Timer(*p, *cell),
        outside::What::Arrives(p, number) => {
            What::Arrival(packet_on_way(alloc, on_way, *p, *number)?)
        }
        outside::What::Answers(p, cell, asked) => {
            What::Ask(*p, *cell, ask_copied(alloc, asked.ask())?)
        }
    })
}

/// The pending events, in the order in which they come.
fn events_told(
    alloc: Global,
    on_way: &[Packet],
    timers: &Timers<outside::What>,
) -> Result<Vec<PendingEvent>, NoMemory>
    ensures { IfOk result (λ v. EventsTold on_way.now timers.now.pending v.items) }
{
    let mut told = Vec::new(alloc);
    for (time, number, what) in timers.entries()? {
        told.push(PendingEvent {
            time,
            number,
            what: what_told(alloc, on_way, what)?,
        })?;
    }
    Ok(told)
}

/// The heap of a process. Want of memory too where a number was given that isn't told.
fn heap_told(machine: &Machine) -> Result<HeapState, NoMemory>
    ensures told { IfOk result (λ s. NumbersRise machine.now.process.heap
        → parts_kept s ≡ parts_of machine.now.process.heap) }
    ensures cells { IfOk result (λ s. s.cells_made ≤ 2 ^ 62) }
    ensures actors { IfOk result (λ s. s.actors_made ≤ 2 ^ 62) }
{
    let heap = machine.state()?;
    if heap.cells_made > LAST_TOLD || heap.actors_made > LAST_TOLD {
        return Err(NoMemory);
    }
    Ok(heap)
}

/// A process and its disk. Want of memory too where a number was given that isn't told.
fn process_told(alloc: Global, place: &Place, disk: &Disk) -> Result<ProcState, NoMemory>
    ensures told { IfOk result (λ s. ProcessTold place.now disk.now (process_saved s)) }
    ensures few { IfOk result (λ s. HasNumberedFew (process_saved s)) }
{
    Ok(ProcState {
        up: place.up,
        heap: heap_told(&place.machine)?,
        ports: place.ports.listed(alloc)?,
        disk: disk.state()?,
    })
}

/// The processes by number; in no world is a disk missing. Want of memory too where a number was given that isn't told.
fn processes_told(
    alloc: Global,
    places: &[Place],
    disks: &[Disk],
) -> Result<Vec<ProcState>, NoMemory>
    ensures told { IfOk result (λ v.
        ProcessesTold places.now disks.now (map process_saved v.items)) }
    ensures few { IfOk result (λ v. AllByRecursion HasNumberedFew (map process_saved v.items)) }
{
    let mut told = Vec::new(alloc);
    for place in places {
        let Some(disk) = disks.get(told.len()) else {
            return Err(NoMemory);
        };
        told.push(process_told(alloc, place, disk)?)?;
    }
    Ok(told)
}

/// A world of this file, in which so many events have run and so many lines of the script are done. Want of memory too where a
/// number was given, or words were drawn, that aren't told.
pub fn world_told(
    alloc: Global,
    file: &World0,
    ran: u32,
    done: u32,
    places: &[Place],
    outside: &Outside,
) -> Result<WorldState, NoMemory>
    ensures file { IfOk result (λ s. file_seen s.world0 ≡ file_seen file.now) }
    ensures events { IfOk result (λ s. s.events ≡ ran) }
    ensures script { IfOk result (λ s. s.script ≡ done) }
    ensures outside { IfOk result (λ s. OutsideTold (seen outside.now) (saved_of s)) }
    ensures processes { IfOk result (λ s.
        ProcessesTold places.now (seen outside.now).disks (saved_of s).processes) }
    ensures few { IfOk result (λ s. HasGivenFew (saved_of s)) }
{
    let (words, made) = (outside.draws.used(), outside.timers.made());
    if words > LAST_TOLD || made > LAST_TOLD || outside.net.sent() > LAST_TOLD {
        return Err(NoMemory);
    }
    let NetState {
        packets,
        cuts,
        on_way,
    } = outside.net.state()?;
    let pending = events_told(alloc, &on_way, &outside.timers)?;
    let processes = processes_told(alloc, places, &outside.disks)?;
    Ok(WorldState {
        world0: file_copied(alloc, file)?,
        events: ran,
        time: outside.time,
        script: done,
        words,
        made,
        packets,
        cuts,
        pending,
        processes,
    })
}
