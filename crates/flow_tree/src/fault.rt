// What a refusal of a program names.

use flow_base::memory::NoMemory;
use flow_base::place::Place;
use std::alloc::{AllocError, AllocFailed};

/// A rule that a program text can break: S1 to S5 of its spelling and form, L1 to L9 of its size,
/// K1 to K12 of its meaning.
#[derive(Clone, Copy, PartialEq, Eq, Debug)]
pub enum Rule {
    S(u8),
    L(u8),
    K(u8),
}

/// Why a program text is refused: a rule and the place where it fails; or a local that is used after
/// a wait since its declaration, with the places of the use, the declared name and the wait; or
/// there was no memory to tell.
#[derive(Clone, Copy, PartialEq, Eq, Debug)]
pub enum SourceFault {
    Refused {
        rule: Rule,
        at: Place,
    },
    AcrossWait {
        at: Place,
        declared: Place,
        wait: Place,
    },
    OutOfMemory,
}

impl From<NoMemory> for SourceFault {
    ghost use Rattle.std.specs.Prelude.{◌≡◌};
    ghost use Rattle.flow_tree.specs.declared.fault.SourceFault.TheVariants.{OutOfMemory};

    ghost from_gives = { λ _ e. e ≡ OutOfMemory };

    fn from(_error: NoMemory) -> SourceFault {
        SourceFault::OutOfMemory
    }
}

impl From<AllocError> for SourceFault {
    ghost use Rattle.std.specs.Prelude.{◌≡◌};
    ghost use Rattle.flow_tree.specs.declared.fault.SourceFault.TheVariants.{OutOfMemory};

    ghost from_gives = { λ _ e. e ≡ OutOfMemory };

    fn from(_error: AllocError) -> SourceFault {
        SourceFault::OutOfMemory
    }
}

impl<T: Drop> From<AllocFailed<T>> for SourceFault {
    ghost use Rattle.std.specs.Prelude.{◌≡◌};
    ghost use Rattle.flow_tree.specs.declared.fault.SourceFault.TheVariants.{OutOfMemory};

    ghost from_gives = { λ _ e. e ≡ OutOfMemory };

    fn from(_error: AllocFailed<T>) -> SourceFault {
        SourceFault::OutOfMemory
    }
}
