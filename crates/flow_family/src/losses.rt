// Losses of power.

ghost use Rattle.std.specs.Prelude.{◌≡◌, ◌+◌, ◌^◌, ◌≤◌, ◌<◌, length, IfOk};
ghost use Rattle.flow_worldfile.specs.Worlds.{IsInRange, most_orders, seen};
ghost use Rattle.flow_family.specs.Families.{is_borne, with_loss};

use flow_base::ids::ProcId;
use flow_base::memory::NoMemory;
use flow_shrink::copied;
use flow_worldfile::World0;
use flow_worldfile::world::{Act, At};
use std::alloc::Global;

/// A process loses power at a time, in ticks.
#[derive(Clone, Copy, PartialEq, Eq)]
pub struct PowerLoss {
    pub process: ProcId,
    pub time: u64,
}

// The last time at which a script may order an act.
const LAST_TIME: u64 = 1 << 62;

/// Whether a process that loses power at a time can boot so many ticks later: at time 2^62 at most.
pub fn is_borne(time: u64, down: u64) -> bool
    ensures { result ≡ is_borne time down }
{
    u128::from(time) + u128::from(down) <= u128::from(LAST_TIME)
}

// A world with a loss of power behind its script.
fn lossy(alloc: Global, world: &World0, loss: PowerLoss, down: u64) -> Result<World0, NoMemory>
    requires { loss.time + down ≤ 2 ^ 62 }
    ensures { IfOk result (λ w. seen w ≡ with_loss down loss (seen world.now)) }
{
    let mut own = copied(alloc, world)?;
    own.script.push(At {
        time: loss.time,
        act: Act::Kill(loss.process),
    })?;
    own.script.push(At {
        time: loss.time + down,
        act: Act::Boot(loss.process),
    })?;
    Ok(own)
}

/// A world with a loss of power behind its script: the process boots so many ticks later.
pub fn with_loss(
    alloc: Global,
    world: &World0,
    loss: PowerLoss,
    down: u64,
) -> Result<World0, NoMemory>
    requires range { IsInRange (seen world.now) }
    requires room { length (seen world.now).script + 2 ≤ most_orders }
    requires process { loss.process.0 < (seen world.now).processes }
    requires borne { loss.time + down ≤ 2 ^ 62 }
    ensures world { IfOk result (λ w. seen w ≡ with_loss down loss (seen world.now)) }
    ensures range { IfOk result (λ w. IsInRange (seen w)) }
{
    let own = lossy(alloc, world, loss, down)?;
    Ok(own)
}
