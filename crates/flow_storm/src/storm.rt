// A world under a storm.

ghost use Rattle.std.specs.Prelude.{◌≡◌, ◌+◌, ◌*◌, ◌^◌, ◌<◌, ◌≤◌, [], ◌∷◌, ◌++◌, length, map, Decides, OnOk};
ghost use Rattle.flow_worldfile.specs.Worlds.{IsInRange, most_orders, order_of, seen, timed};
ghost use Rattle.flow_storm.specs.Storms.{orders, storm_of};

use crate::strike::{Fault, Strike};
use flow_base::memory::NoMemory;
use flow_draw::Draws;
use flow_worldfile::World0;
use flow_worldfile::world::{Act, At};
use std::alloc::Global;

/// So many faults, at times up to a horizon, in ticks.
#[derive(Clone, Copy, PartialEq, Eq)]
pub struct Storm {
    pub faults: u32,
    pub horizon: u64,
}

/// The most faults of a storm.
pub const MOST_FAULTS: u32 = 1_000;

/// The greatest horizon.
pub const MOST_HORIZON: u64 = 1_000_000_000;

/// The most of the requests of a disk that one fault lets fail.
const DISK_FAILS: u64 = 1_000_000;

// The most orders of a script.
const MOST_ORDERS: u64 = 10_000;

// The first word of a storm.
const FIRST_WORD: u64 = 1 << 40;

// Puts an act behind a script.
fn push_act(script: &mut Vec<At>, time: u64, act: Act) -> Result<(), NoMemory>
    ensures { OnOk result (map timed script.new.items
        ≡ map timed script.old.items ++ timed (record { time = time; act = act }) ∷ []) }
{
    script.push(At { time, act })?;
    Ok(())
}

// Puts an act and one that comes later behind a script.
fn push_pair(script: &mut Vec<At>, strike: Strike, act: Act, later: Act) -> Result<(), NoMemory>
    requires soon { strike.time + strike.length < 2 ^ 63 }
    ensures { OnOk result (map timed script.new.items
        ≡ map timed script.old.items
        ++ (strike.time, order_of act) ∷ (strike.time + strike.length, order_of later) ∷ []) }
{
    push_act(script, strike.time, act)?;
    push_act(script, strike.time + strike.length, later)
}

// Puts the orders of a fault behind a script.
fn push_orders(script: &mut Vec<At>, strike: Strike) -> Result<(), NoMemory>
    requires soon { strike.time + strike.length < 2 ^ 63 }
    ensures { OnOk result (map timed script.new.items ≡ map timed script.old.items ++ orders strike) }
{
    let process = strike.process;
    match strike.fault {
        Fault::Crash => push_pair(script, strike, Act::Kill(process), Act::Boot(process)),
        Fault::CutOff => push_pair(
            script,
            strike,
            Act::Cut(process, strike.other),
            Act::Heal(process, strike.other),
        ),
        Fault::Stop => push_pair(script, strike, Act::Stop(process), Act::Boot(process)),
        Fault::Disk => {
            let fails = strike.length.min(DISK_FAILS) as u32;
            push_act(script, strike.time, Act::DiskFail(process, fails))
        }
    }
}

/// Whether a world's script has room for a storm: two orders for each fault, and 10,000 at most.
pub fn has_room(world: &World0, storm: Storm) -> bool
    ensures { Decides result (length world.now.script.items + 2 * storm.faults ≤ most_orders) }
{
    world.script.len() as u64 + 2 * u64::from(storm.faults) <= MOST_ORDERS
}

/// Gives a world this seed, and puts the faults of its storm behind the script. With one fault more the script only grows at
/// its end.
pub fn add_storm(alloc: Global, world: &mut World0, seed: u64, storm: Storm) -> Result<(), NoMemory>
    requires range { IsInRange (seen world.old) }
    requires horizon { storm.horizon ≤ 1000000000 }
    requires room { length world.old.script.items + 2 * storm.faults ≤ most_orders }
    ensures storm { OnOk result (seen world.new
        ≡ storm_of seed storm.faults storm.horizon (seen world.old)) }
    ensures range { OnOk result (IsInRange (seen world.new)) }
{
    let mut draws = Draws::at(alloc, seed, Vec::new(alloc), FIRST_WORD);
    for _fault in 0..storm.faults {
        let strike = Strike::drawn(&mut draws, world.processes, storm.horizon);
        push_orders(&mut world.script, strike)?;
    }
    world.seed = seed;
    Ok(())
}
