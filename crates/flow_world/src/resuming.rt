// A world that goes on from a state that was kept.

ghost use Rattle.std.specs.Prelude.{◌≡◌, ◌<◌, ◌≤◌, ◌++◌, length, map, IfOk, OnOk};
ghost use Rattle.std.specs.List.{AllByRecursion, flat_map};
ghost use Rattle.flow_saved.specs.Saved.{process_saved, saved_of};
ghost use Rattle.flow_saved.specs.CanResume.{CanCome, CanRun, CanResume};
ghost use Rattle.flow_timers.specs.Moments.{event_of};
ghost use Rattle.flow_world.specs.Changes.{seen};
ghost use Rattle.flow_world.specs.Resuming.{what_made, event_made, packets_in, disk_made, outside_made, PlaceMade, PlacesMade, ScriptLeft};

use crate::asked::Asked;
use crate::outside::{self, Outside};
use crate::place::Place;
use crate::ports::Ports;
use crate::script::Script;
use flow_base::ids::ProcId;
use flow_base::memory::NoMemory;
use flow_draw::Draws;
use flow_machine::machine::Machine;
use flow_saved::{PendingEvent, ProcState, What, WorldState};
use flow_simdisk::Disk;
use flow_simnet::{Net, NetState, Packet};
use flow_timers::Timers;
use flow_worldfile::World0;
use std::alloc::Global;

/// What happens at a pending event; the packet that it brings joins the list.
fn what_made(what: What, packets: &mut Vec<Packet>) -> Result<outside::What, NoMemory>
    requires { CanCome what }
    ensures made { IfOk result (λ w. w ≡ what_made what) }
    ensures packets { OnOk result (packets.new.items ≡ packets.old.items ++ packets_in what) }
{
    Ok(match what {
        What::Boot(p) => outside::What::Boots(p),
        What::Timer(p, cell) => outside::What::Rings(p, cell),
        What::Arrival(packet) => {
            let (to, number) = (packet.to, packet.number);
            packets.push(packet)?;
            outside::What::Arrives(to, number)
        }
        What::Ask(p, cell, ask) => outside::What::Answers(p, cell, Asked::new(ask)),
    })
}

/// A pending event as it is entered.
type Entry = (u64, u64, outside::What);

/// The pending events, and the packets that they bring.
fn events_made(
    alloc: Global,
    pending: Vec<PendingEvent>,
) -> Result<(Vec<Entry>, Vec<Packet>), NoMemory>
    requires { AllByRecursion (λ e. CanCome e.what) pending.items }
    ensures entries { IfOk result (λ r. map event_of r.0.items ≡ map event_made pending.items) }
    ensures packets { IfOk result (λ r.
        r.1.items ≡ flat_map (λ e. packets_in e.what) pending.items) }
{
    let mut entries = Vec::new(alloc);
    let mut packets = Vec::new(alloc);
    for event in pending {
        let PendingEvent { time, number, what } = event;
        let what = what_made(what, &mut packets)?;
        entries.push((time, number, what))?;
    }
    Ok((entries, packets))
}

/// A process of so many, up to 64, by its number, and its disk.
fn process_made(
    alloc: Global,
    me: ProcId,
    processes: u8,
    state: ProcState,
) -> Result<(Place, Disk), NoMemory>
    requires mine { me.0 < processes }
    requires few { processes ≤ 64 }
    requires can { CanRun (process_saved state) }
    ensures place { IfOk result (λ r. PlaceMade processes me.0 (process_saved state) r.0) }
    ensures disk { IfOk result (λ r. r.1 ≡ disk_made (process_saved state).disk) }
{
    let ProcState {
        up,
        heap,
        ports,
        disk,
    } = state;
    let disk = Disk::restore(alloc, disk)?;
    let ports = Ports::of(alloc, &ports)?;
    let machine = Machine::restore(alloc, me, processes, heap)?;
    Ok((Place { up, machine, ports }, disk))
}

/// The processes by number, and their disks.
fn processes_made(
    alloc: Global,
    processes: u8,
    states: Vec<ProcState>,
) -> Result<(Vec<Place>, Vec<Disk>), NoMemory>
    requires few { processes ≤ 64 }
    requires count { length states.items ≡ processes }
    requires can { AllByRecursion CanRun (map process_saved states.items) }
    ensures places { IfOk result (λ r.
        PlacesMade processes 0 (map process_saved states.items) r.0.items) }
    ensures disks { IfOk result (λ r.
        r.1.items ≡ map (λ p. disk_made p.disk) (map process_saved states.items)) }
{
    let mut places = Vec::new(alloc);
    let mut disks = Vec::new(alloc);
    let mut number: u8 = 0;
    for state in states {
        let (place, disk) = process_made(alloc, ProcId(number), processes, state)?;
        places.push(place)?;
        disks.push(disk)?;
        number += 1;
    }
    Ok((places, disks))
}

/// What stands in the world of a state, and its file.
pub fn world_made(
    alloc: Global,
    state: WorldState,
) -> Result<(World0, Vec<Place>, Outside, Script), NoMemory>
    requires { CanResume (saved_of state) }
    ensures file { IfOk result (λ r. r.0 ≡ state.world0) }
    ensures places { IfOk result (λ r. let s = saved_of state in
        PlacesMade s.file.processes 0 s.processes r.1.items) }
    ensures outside { IfOk result (λ r. seen r.2 ≡ outside_made (saved_of state)) }
    ensures script { IfOk result (λ r.
        ScriptLeft state.world0.script.items state.script r.3) }
{
    let WorldState {
        world0,
        events: _,
        time,
        script,
        words,
        made,
        packets,
        cuts,
        pending,
        processes,
    } = state;
    let script = Script::after(Vec::from_slice(alloc, &world0.script)?, script)?;
    let listed = Vec::from_slice(alloc, &world0.words)?;
    let (entries, on_way) = events_made(alloc, pending)?;
    let timers = Timers::restore(alloc, made, entries)?;
    let links = NetState {
        packets,
        cuts,
        on_way,
    };
    let net = Net::restore(alloc, world0.processes, world0.latency, world0.loss, links)?;
    let (places, disks) = processes_made(alloc, world0.processes, processes)?;
    let outside = Outside {
        alloc,
        time,
        timers,
        net,
        disks,
        draws: Draws::at(alloc, world0.seed, listed, words),
        disk_delay: world0.diskdelay,
    };
    Ok((world0, places, outside, script))
}
