// What is outside of the processes.

ghost use Rattle.std.specs.Prelude.{◌<◌, ◌≤◌};

use crate::asked::Asked;
use flow_base::ids::{CellId, ProcId};
use flow_draw::Draws;
use flow_simdisk::Disk;
use flow_simnet::Net;
use flow_timers::Timers;
use std::alloc::Global;

/// What happens when a pending event comes: a process boots; a timer of a process sets a cell; the packet of this number
/// comes to a process; or the disk of a process answers into a cell.
#[derive(Drop)]
pub enum What {
    Boots(ProcId),
    Rings(ProcId, CellId),
    Arrives(ProcId, u64),
    Answers(ProcId, CellId, Asked),
}

/// The last time at which an event may come, in ticks.
pub const LAST_TIME: u64 = (1 << 63) - 1;

/// The world beside its processes: the time in ticks, the pending events, the links, the disk of each process, the drawn
/// words, and the range of a disk's delays.
#[derive(Drop)]
pub struct Outside {
    pub alloc: Global,
    pub time: u64,
    pub timers: Timers<What>,
    pub net: Net,
    pub disks: Vec<Disk>,
    pub draws: Draws,
    pub disk_delay: (u64, u64),
    ghost early: { time < 9223372036854775808 },
    ghost delays: { disk_delay.0 < disk_delay.1 },
    ghost soon: { disk_delay.1 ≤ 1000000000 },
}
