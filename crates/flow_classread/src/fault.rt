// Why a class text is refused.

use flow_base::memory::NoMemory;
use flow_base::name::Name;

/// Why a class text is refused.
#[derive(Drop)]
pub enum ClassFault {
    /// C1: no class text begins so, and the line where it fails, from 1.
    Form(u32),
    /// C2: the classes break a rule, 1 to 8 for V1 to V8, and the name of the class that breaks it, where it is one.
    Invalid { rule: u8, class: Option<Name> },
    /// L11: there are more than 16,777,216 bytes.
    TooLarge,
    /// There was no memory to tell.
    OutOfMemory,
}

impl From<NoMemory> for ClassFault {
    ghost use Rattle.std.specs.Prelude.{◌≡◌};
    ghost use Rattle.flow_classread.specs.declared.fault.ClassFault.TheVariants.{OutOfMemory};

    ghost from_gives = { λ _ e. e ≡ OutOfMemory };

    fn from(_error: NoMemory) -> ClassFault {
        ClassFault::OutOfMemory
    }
}
