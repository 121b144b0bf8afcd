// Simulated worlds, as world files describe them.

ghost use Rattle.std.specs.Prelude.{◌≡◌, Some};
ghost use Rattle.flow_worldfile.specs.Faults.{fault_text};
ghost use Rattle.flow_worldfile.specs.declared.world.WorldFault.TheVariants.{OutOfMemory};

use flow_base::ids::ProcId;
use std::alloc::AllocFailed;
use std::error::Error;
use std::fmt;

/// What a script does to a process, to the link between two, or to a disk.
#[derive(Clone, Copy, PartialEq, Eq)]
pub enum Act {
    Kill(ProcId),
    Stop(ProcId),
    Boot(ProcId),
    Cut(ProcId, ProcId),
    Heal(ProcId, ProcId),
    /// So many of the disk's next requests fail.
    DiskFail(ProcId, u32),
}

/// One act of a script, and the time at which it comes.
#[derive(Clone, Copy, PartialEq, Eq)]
pub struct At {
    pub time: u64,
    pub act: Act,
}

/// A world before its first event: what is drawn, how many processes there are, how long the run and
/// one event may last, how long packets and disk requests take, and what a script does. Times are the
/// world's own; a delay is drawn from the first number of its pair up to below the second.
#[derive(PartialEq, Drop)]
pub struct World0 {
    /// The seed of the words that are drawn when those of the list are used up.
    pub seed: u64,
    pub words: Vec<u32>,
    pub processes: u8,
    /// The greatest number of events.
    pub events: u32,
    /// The greatest number of turns of one event.
    pub turns: u32,
    pub latency: (u64, u64),
    /// How many of a thousand packets are lost.
    pub loss: u16,
    pub diskdelay: (u64, u64),
    pub script: Vec<At>,
}

/// Why a text is no world file: the number of its first line that breaks a rule, from 1, with the
/// rule. Or it has more than 1,048,576 bytes, or there was no memory.
#[derive(Clone, Copy, PartialEq, Eq)]
pub enum WorldFault {
    /// The line has none of the forms of a line.
    Form(u32),
    /// A number is out of its range, or the line is one too many of its kind.
    Range(u32),
    /// The line says again what may be said once.
    Twice(u32),
    /// The line names a process that isn't there.
    NoProcess(u32),
    TooLarge,
    OutOfMemory,
}

impl fmt::Display for WorldFault {
    ghost output = { λ fault. Some (fault_text fault) };

    fn fmt<W: fmt::Write>(&self, f: &mut fmt::Formatter<W>) -> fmt::Result {
        match self {
            WorldFault::Form(line) => write!(f, "W1 at line {line}"),
            WorldFault::Range(line) => write!(f, "W2 at line {line}"),
            WorldFault::Twice(line) => write!(f, "W3 at line {line}"),
            WorldFault::NoProcess(line) => write!(f, "W4 at line {line}"),
            WorldFault::TooLarge => write!(f, "L10"),
            WorldFault::OutOfMemory => write!(f, "out of memory"),
        }
    }
}

// As it is displayed.
impl fmt::Debug for WorldFault {
    fn fmt<W: fmt::Write>(&self, f: &mut fmt::Formatter<W>) -> fmt::Result {
        fmt::Display::fmt(self, f)
    }
}

impl Error for WorldFault {}

impl<T: Drop> From<AllocFailed<T>> for WorldFault {
    ghost from_gives = { λ _ fault. fault ≡ OutOfMemory };

    fn from(_error: AllocFailed<T>) -> WorldFault {
        WorldFault::OutOfMemory
    }
}
