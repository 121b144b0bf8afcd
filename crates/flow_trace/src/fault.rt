// Why nothing was read.

ghost use Rattle.std.specs.Prelude.{◌≡◌};
ghost use Rattle.flow_trace.specs.declared.fault.LineFault.TheVariants.{OutOfMemory};

use flow_base::memory::NoMemory;
use std::error::Error;
use std::fmt;

/// Why nothing was read: the bytes are none that are printed, or there was no memory.
#[derive(Clone, Copy, PartialEq, Eq, Debug)]
pub enum LineFault {
    Form,
    OutOfMemory,
}

impl fmt::Display for LineFault {
    fn fmt<W: fmt::Write>(&self, f: &mut fmt::Formatter<W>) -> fmt::Result {
        match self {
            LineFault::Form => write!(f, "not in form"),
            LineFault::OutOfMemory => write!(f, "out of memory"),
        }
    }
}

impl Error for LineFault {}

impl From<NoMemory> for LineFault {
    ghost from_gives = { λ _ fault. fault ≡ OutOfMemory };

    fn from(_error: NoMemory) -> LineFault {
        LineFault::OutOfMemory
    }
}
