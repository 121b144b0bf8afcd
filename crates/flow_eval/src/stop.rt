// Why there is no value.

use flow_base::ids::ErrorCode;
use flow_base::memory::NoMemory;
use std::alloc::{AllocError, AllocFailed};

/// Why an expression or a function has no value: an error was thrown, a turn was needed and none was
/// left, or there was no memory.
#[derive(Clone, Copy, PartialEq, Eq)]
pub enum Stop {
    Thrown(ErrorCode),
    Spent,
    OutOfMemory,
}

/// The same, and that what has no type was met: then an expression means nothing.
#[derive(Clone, Copy, PartialEq, Eq)]
pub enum Halt {
    Thrown(ErrorCode),
    Spent,
    NoMeaning,
    OutOfMemory,
}

impl From<NoMemory> for Halt {
    ghost use Rattle.std.specs.Prelude.{◌≡◌};
    ghost use Rattle.flow_eval.specs.declared.stop.Halt.TheVariants.{OutOfMemory};

    ghost from_gives = { λ _ e. e ≡ OutOfMemory };

    fn from(_error: NoMemory) -> Halt {
        Halt::OutOfMemory
    }
}

impl From<AllocError> for Halt {
    ghost use Rattle.std.specs.Prelude.{◌≡◌};
    ghost use Rattle.flow_eval.specs.declared.stop.Halt.TheVariants.{OutOfMemory};

    ghost from_gives = { λ _ e. e ≡ OutOfMemory };

    fn from(_error: AllocError) -> Halt {
        Halt::OutOfMemory
    }
}

impl<T: Drop> From<AllocFailed<T>> for Halt {
    ghost use Rattle.std.specs.Prelude.{◌≡◌};
    ghost use Rattle.flow_eval.specs.declared.stop.Halt.TheVariants.{OutOfMemory};

    ghost from_gives = { λ _ e. e ≡ OutOfMemory };

    fn from(_error: AllocFailed<T>) -> Halt {
        Halt::OutOfMemory
    }
}
