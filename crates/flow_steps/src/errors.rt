// Why a step broke off.

ghost use Rattle.std.specs.Prelude.{◌≡◌};
ghost use Rattle.flow_steps.specs.declared.errors.Fault.TheVariants.{OutOfMemory};

use flow_base::memory::NoMemory;
use std::alloc::{AllocError, AllocFailed};

/// Why a process broke off a step.
#[derive(Clone, Copy, PartialEq, Eq)]
pub enum Fault {
    /// There was no memory, or what counts, numbers or keeps something came to the end of its numbers.
    OutOfMemory,
    /// Something wasn't there, or didn't fit: no valid class comes here.
    Stuck,
}

impl From<NoMemory> for Fault {
    ghost from_gives = { λ _ e. e ≡ OutOfMemory };

    fn from(_error: NoMemory) -> Fault {
        Fault::OutOfMemory
    }
}

impl From<AllocError> for Fault {
    ghost from_gives = { λ _ e. e ≡ OutOfMemory };

    fn from(_error: AllocError) -> Fault {
        Fault::OutOfMemory
    }
}

impl<T: Drop> From<AllocFailed<T>> for Fault {
    ghost from_gives = { λ _ e. e ≡ OutOfMemory };

    fn from(_error: AllocFailed<T>) -> Fault {
        Fault::OutOfMemory
    }
}
