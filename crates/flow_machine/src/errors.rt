// Why a burst broke off.

ghost use Rattle.std.specs.Prelude.{◌≡◌};
ghost use Rattle.flow_machine.specs.Cause.{fault_of, fault_in};

use crate::host::RunFault;
use flow_base::fault::OutFault;
use flow_base::memory::NoMemory;
use flow_steps::errors::Fault;
use std::error::Error;
use std::fmt;

impl fmt::Display for RunFault {
    fn fmt<W: fmt::Write>(&self, f: &mut fmt::Formatter<W>) -> fmt::Result {
        match self {
            RunFault::Failed => write!(f, "failed"),
            RunFault::OutOfMemory => write!(f, "out of memory"),
            RunFault::Stuck => write!(f, "led stuck by its classes"),
        }
    }
}

// As it is displayed.
impl fmt::Debug for RunFault {
    fn fmt<W: fmt::Write>(&self, f: &mut fmt::Formatter<W>) -> fmt::Result {
        fmt::Display::fmt(self, f)
    }
}

impl Error for RunFault {}

impl From<Fault> for RunFault {
    ghost from_gives = { λ e f. f ≡ fault_in e };

    fn from(error: Fault) -> RunFault {
        match error {
            Fault::OutOfMemory => RunFault::OutOfMemory,
            Fault::Stuck => RunFault::Stuck,
        }
    }
}

impl From<NoMemory> for RunFault {
    ghost use Rattle.flow_machine.specs.declared.host.RunFault.TheVariants as run;

    ghost from_gives = { λ _ f. f ≡ run.OutOfMemory };

    fn from(_error: NoMemory) -> RunFault {
        RunFault::OutOfMemory
    }
}

impl From<OutFault> for RunFault {
    ghost from_gives = { λ e f. f ≡ fault_of e };

    fn from(error: OutFault) -> RunFault {
        match error {
            OutFault::Failed => RunFault::Failed,
            OutFault::OutOfMemory => RunFault::OutOfMemory,
        }
    }
}
