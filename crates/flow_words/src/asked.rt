// What words ask for.

ghost use Rattle.std.specs.Prelude.{◌≡◌};
ghost use Rattle.flow_words.specs.declared.asked.WordsFault.TheVariants.{OutOfMemory};

use flow_base::memory::NoMemory;
use flow_monitor::Want;
use std::alloc::{AllocError, AllocFailed};

/// A word that is a command.
#[derive(Clone, Copy)]
pub enum CommandWord {
    Format,
    Check,
    Compile,
    Run,
    Exec,
    Bench,
    Shrink,
    Debug,
    Upgrade,
}

/// What a command line asks for.
#[derive(Drop)]
pub enum Asked<'a> {
    /// The canonical text of the program of a file.
    Format(&'a str),
    /// Whether the program of a file passes all rules.
    Check(&'a str),
    /// The classes of the program of a file.
    Compile(&'a str),
    /// A run of the program of a file.
    Run(RunWords<'a>),
    /// A run of the class text of a file.
    Exec(RunWords<'a>),
    /// The summary of a run of the program with so many clients, 1 to 10,000, in the world of this seed.
    Bench(u32, u64),
    /// The world of a file with as little of its script as a monitor still stops the program of a file at.
    Shrink(ShrinkWords<'a>),
    /// The state of a run of the program of a file after so many events, 0 to 1,000,000, as the program's text has it.
    Debug(DebugWords<'a>),
    /// The class text of a file as class text of the newest version.
    Upgrade(&'a str),
}

/// A run that is asked for: the files of what is run and of its world, whether frames are told after each event, and the
/// monitors that are wanted, with their limits.
#[derive(Drop)]
pub struct RunWords<'a> {
    pub what: &'a str,
    pub world: &'a str,
    pub frames: bool,
    pub wanted: Vec<Want>,
}

/// A world that is to be made smaller: the files of the program and of the world, and the monitor, with its limit.
#[derive(Drop)]
pub struct ShrinkWords<'a> {
    pub program: &'a str,
    pub world: &'a str,
    pub want: Want,
}

/// A state that is asked for: the files of the program and of the world, and after how many events.
#[derive(Drop)]
pub struct DebugWords<'a> {
    pub program: &'a str,
    pub world: &'a str,
    pub most: u32,
}

/// Why words can't be read: they ask for nothing that there is, or there was no memory.
#[derive(Clone, Copy, PartialEq, Eq)]
pub enum WordsFault {
    Usage,
    OutOfMemory,
}

impl From<NoMemory> for WordsFault {
    ghost from_gives = { λ _ fault. fault ≡ OutOfMemory };

    fn from(_error: NoMemory) -> WordsFault {
        WordsFault::OutOfMemory
    }
}

impl From<AllocError> for WordsFault {
    ghost from_gives = { λ _ fault. fault ≡ OutOfMemory };

    fn from(_error: AllocError) -> WordsFault {
        WordsFault::OutOfMemory
    }
}

impl<T: Drop> From<AllocFailed<T>> for WordsFault {
    ghost from_gives = { λ _ fault. fault ≡ OutOfMemory };

    fn from(_error: AllocFailed<T>) -> WordsFault {
        WordsFault::OutOfMemory
    }
}
