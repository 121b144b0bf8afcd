// What stands in a world between events.

use flow_base::ids::{CellId, ProcId};
use flow_heapstate::state::HeapState;
use flow_simdisk::{DiskAsk, DiskState};
use flow_simnet::Packet;
use flow_worldfile::World0;

/// What happens when a pending event comes: a process boots; a timer of a process sets a cell; a packet comes to the process that it
/// is for; or the disk of a process answers a request into a cell.
#[derive(Drop)]
pub enum What {
    Boot(ProcId),
    Timer(ProcId, CellId),
    Arrival(Packet),
    Ask(ProcId, CellId, DiskAsk),
}

/// A pending event: its time in ticks, its number, from 1 in the order of making, and what happens then.
#[derive(Drop)]
pub struct PendingEvent {
    pub time: u64,
    pub number: u64,
    pub what: What,
}

/// A process: whether it is up, its heap, the ports that it listens at with their streams, by rising port, and its disk.
#[derive(Drop)]
pub struct ProcState {
    pub up: bool,
    pub heap: HeapState,
    pub ports: Vec<(u16, CellId)>,
    pub disk: DiskState,
}

/// A world between events.
#[derive(Drop)]
pub struct WorldState {
    /// The file that describes it before its first event.
    pub world0: World0,
    /// How many events have run.
    pub events: u32,
    /// The time in ticks.
    pub time: u64,
    /// How many lines of the script are done, in the order of time and then of the file.
    pub script: u32,
    /// How many words were drawn.
    pub words: u64,
    /// How many pending events were made.
    pub made: u64,
    /// How many packets were sent.
    pub packets: u64,
    /// The cut links, each once with the lesser process first, rising.
    pub cuts: Vec<(ProcId, ProcId)>,
    /// The pending events by time, and at one time by number; a packet on its way stands with its event.
    pub pending: Vec<PendingEvent>,
    /// The processes by number.
    pub processes: Vec<ProcState>,
}
