// The rules of class programs.

ghost use Rattle.std.specs.Prelude.{◌≡◌};
ghost use Rattle.flow_valid.specs.Validity.{number};

/// A rule of class programs, V1 to V8, by what it is about.
#[derive(Clone, Copy, PartialEq, Eq)]
pub enum ClassRule {
    /// V1: records and functions keep the rules of a program's.
    Declarations,
    /// V2: names of classes are new, there is a `main`, and types of slots and locals are known.
    Heads,
    /// V3: what is named is there.
    Names,
    /// V4: the last instructions lead forward.
    Edges,
    /// V5: each group is chosen at one place.
    Groups,
    /// V6: a catcher leads forward, to a local that takes an error, and drops distinct locals.
    Catchers,
    /// V7: expressions and what takes their values fit.
    Types,
    /// V8: what is read is filled.
    Reads,
}

impl ClassRule {
    /// The number of the rule behind its letter, from 1 to 8.
    pub fn number(self) -> u8
        ensures { result ≡ number self }
    {
        match self {
            ClassRule::Declarations => 1,
            ClassRule::Heads => 2,
            ClassRule::Names => 3,
            ClassRule::Edges => 4,
            ClassRule::Groups => 5,
            ClassRule::Catchers => 6,
            ClassRule::Types => 7,
            ClassRule::Reads => 8,
        }
    }
}
