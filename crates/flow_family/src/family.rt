// Families of worlds.

ghost use Rattle.std.specs.Prelude.{◌≡◌, ◌+◌, ◌*◌, ◌≤◌, length, Decides, IfOk};
ghost use Rattle.flow_worldfile.specs.Worlds.{IsInRange, most_orders, seen};
ghost use Rattle.flow_family.specs.Families.{IsFamily, orders_of_down, orders_of_storm, world_of};

use flow_base::memory::NoMemory;
use flow_shrink::copied;
use flow_storm::{Storm, add_storm};
use flow_worldfile::World0;
use std::alloc::Global;

/// Worlds that differ from one by the seeds from one to another, each under its storm where there is one. Where it says how long
/// a process is down, in ticks, each of them is run again with a loss of power at each moment of its run.
#[derive(Clone, Copy, PartialEq, Eq)]
pub struct Family {
    pub from: u64,
    pub to: u64,
    pub storm: Option<Storm>,
    pub down: Option<u64>,
}

/// The most ticks for which a process is down.
pub const MOST_DOWN: u64 = 1_000_000_000;

// The most orders of a script.
const MOST_ORDERS: u64 = 10_000;

// How many orders so many faults may put behind a script.
fn orders_of(faults: u32) -> u64
    ensures { result ≡ 2 * faults }
{
    2 * u64::from(faults)
}

impl Family {
    // How many orders its storm may put there.
    fn orders_of_storm(&self) -> u64
        ensures { result ≡ orders_of_storm self.now.storm }
    {
        match self.storm {
            None => 0,
            Some(storm) => orders_of(storm.faults),
        }
    }

    // How many orders a loss of power puts there.
    fn orders_of_down(&self) -> u64
        ensures { result ≡ orders_of_down self.now.down }
    {
        match self.down {
            None => 0,
            Some(_) => 2,
        }
    }

    /// Whether a world's script has room for a storm and a loss of power: for 10,000 orders at most.
    pub fn has_room(&self, world: &World0) -> bool
        ensures { Decides result (length world.now.script.items
            + orders_of_storm self.now.storm + orders_of_down self.now.down ≤ most_orders) }
    {
        let script = u64::try_from(world.script.len());
        match script {
            Ok(script) => script
                .saturating_add(self.orders_of_storm())
                .saturating_add(self.orders_of_down())
                <= MOST_ORDERS,
            Err(_) => false,
        }
    }

    // The world of a seed.
    fn seeded(&self, alloc: Global, world: &World0, seed: u64) -> Result<World0, NoMemory>
        requires { IsFamily self.now (seen world.now) }
        ensures world { IfOk result (λ w. seen w ≡ world_of self.now seed (seen world.now)) }
        ensures range { IfOk result (λ w. IsInRange (seen w)) }
    {
        let mut own = copied(alloc, world)?;
        match self.storm {
            Some(storm) => add_storm(alloc, &mut own, seed, storm)?,
            None => own.seed = seed,
        }
        Ok(own)
    }

    /// The world of a seed, with room for a loss of power behind its script.
    pub fn world_of(&self, alloc: Global, world: &World0, seed: u64) -> Result<World0, NoMemory>
        requires { IsFamily self.now (seen world.now) }
        ensures world { IfOk result (λ w. seen w ≡ world_of self.now seed (seen world.now)) }
        ensures range { IfOk result (λ w. IsInRange (seen w)) }
        ensures room { IfOk result (λ w. length (seen w).script + orders_of_down self.now.down
            ≤ most_orders) }
    {
        let own = self.seeded(alloc, world, seed)?;
        Ok(own)
    }
}
