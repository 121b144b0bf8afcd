// What stands in a world before its first event.

ghost use Rattle.std.specs.Prelude.{◌≡◌, ◌<◌, ◌≤◌, [], length, replicate, IfOk};
ghost use Rattle.flow_worldfile.specs.Worlds.{IsInRange, seen as file_seen};
ghost use Rattle.flow_world.specs.Changes.{seen};
ghost use Rattle.flow_world.specs.Starting.{AreFresh, ScriptInOrder, boots, outside_at_start};

use crate::outside::{Outside, What};
use crate::place::Place;
use crate::ports::Ports;
use crate::script::Script;
use flow_base::ids::ProcId;
use flow_base::memory::NoMemory;
use flow_draw::Draws;
use flow_machine::machine::Machine;
use flow_simdisk::Disk;
use flow_simnet::Net;
use flow_timers::Timers;
use flow_worldfile::World0;
use std::alloc::Global;

// So many processes that never ran, up to 64.
fn fresh_places(alloc: Global, processes: u8) -> Result<Vec<Place>, NoMemory>
    requires { processes ≤ 64 }
    ensures count { IfOk result (λ places. length places.items ≡ processes) }
    ensures fresh { IfOk result (λ places. AreFresh processes 0 places.items) }
{
    let mut places = Vec::new(alloc);
    for number in 0..processes {
        places.push(Place {
            up: false,
            machine: Machine::new(alloc, ProcId(number), processes)?,
            ports: Ports::new(alloc),
        })?;
    }
    Ok(places)
}

// So many disks without files.
fn fresh_disks(alloc: Global, processes: u8) -> Result<Vec<Disk>, NoMemory>
    ensures { IfOk result (λ disks.
        disks.items ≡ replicate processes (record { fails = 0; files = [] })) }
{
    let mut disks = Vec::new(alloc);
    for _number in 0..processes {
        disks.push(Disk::new(alloc)?)?;
    }
    Ok(disks)
}

// A boot of each of so many processes, pending at time 0 in the order of their numbers.
fn first_boots(alloc: Global, processes: u8) -> Result<Timers<What>, NoMemory>
    ensures { IfOk result (λ timers. timers ≡ boots processes) }
{
    let mut timers = Timers::new(alloc)?;
    for number in 0..processes {
        timers.add(0, What::Boots(ProcId(number)))?;
    }
    Ok(timers)
}

// A boot of each of so many processes, up to 64, their disks, and the processes, which never ran.
fn first_parts(
    alloc: Global,
    processes: u8,
) -> Result<(Timers<What>, Vec<Disk>, Vec<Place>), NoMemory>
    requires { processes ≤ 64 }
    ensures timers { IfOk result (λ r. r.0 ≡ boots processes) }
    ensures disks { IfOk result (λ r.
        r.1.items ≡ replicate processes (record { fails = 0; files = [] })) }
    ensures count { IfOk result (λ r. length r.2.items ≡ processes) }
    ensures fresh { IfOk result (λ r. AreFresh processes 0 r.2.items) }
{
    let timers = first_boots(alloc, processes)?;
    let disks = fresh_disks(alloc, processes)?;
    let places = fresh_places(alloc, processes)?;
    Ok((timers, disks, places))
}

/// What stands in the world of a file before its first event, with room for so many notes: its processes, what is outside of
/// them, and its script.
pub fn first_state(
    alloc: Global,
    file: &World0,
    room: usize,
) -> Result<(Vec<Place>, Outside, Script), NoMemory>
    requires { IsInRange (file_seen file.now) }
    ensures count { IfOk result (λ r. length r.0.items ≡ file.now.processes) }
    ensures places { IfOk result (λ r. AreFresh file.now.processes 0 r.0.items) }
    ensures outside { IfOk result (λ r. seen r.1 ≡ outside_at_start room file.now) }
    ensures room { IfOk result (λ r. (seen r.1).draws.room ≡ room) }
    ensures script { IfOk result (λ r. ScriptInOrder file.now.script.items r.2) }
{
    let script = Script::new(Vec::from_slice(alloc, &file.script)?)?;
    let words = Vec::from_slice(alloc, &file.words)?;
    let draws = Draws::noting(alloc, file.seed, words, room)?;
    let net = Net::new(alloc, file.processes, file.latency, file.loss)?;
    let (timers, disks, places) = first_parts(alloc, file.processes)?;
    let outside = Outside {
        alloc,
        time: 0,
        timers,
        net,
        disks,
        draws,
        disk_delay: file.diskdelay,
    };
    Ok((places, outside, script))
}
