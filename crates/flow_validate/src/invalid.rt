// Why a class program is refused.

use flow_base::memory::NoMemory;
use std::alloc::{AllocError, AllocFailed};

/// Why a class program is refused: the first rule that it breaks, 1 to 8 for V1 to V8, and the place of the class that breaks it,
/// from 0, where it is one; or there was no memory to tell.
#[derive(Clone, Copy, PartialEq, Eq)]
pub enum Invalid {
    Rule { rule: u8, class: Option<u32> },
    OutOfMemory,
}

impl From<NoMemory> for Invalid {
    ghost use Rattle.std.specs.Prelude.{◌≡◌};
    ghost use Rattle.flow_validate.specs.declared.invalid.Invalid.TheVariants.{OutOfMemory};

    ghost from_gives = { λ _ e. e ≡ OutOfMemory };

    fn from(_error: NoMemory) -> Invalid {
        Invalid::OutOfMemory
    }
}

impl From<AllocError> for Invalid {
    ghost use Rattle.std.specs.Prelude.{◌≡◌};
    ghost use Rattle.flow_validate.specs.declared.invalid.Invalid.TheVariants.{OutOfMemory};

    ghost from_gives = { λ _ e. e ≡ OutOfMemory };

    fn from(_error: AllocError) -> Invalid {
        Invalid::OutOfMemory
    }
}

impl<T: Drop> From<AllocFailed<T>> for Invalid {
    ghost use Rattle.std.specs.Prelude.{◌≡◌};
    ghost use Rattle.flow_validate.specs.declared.invalid.Invalid.TheVariants.{OutOfMemory};

    ghost from_gives = { λ _ e. e ≡ OutOfMemory };

    fn from(_error: AllocFailed<T>) -> Invalid {
        Invalid::OutOfMemory
    }
}
