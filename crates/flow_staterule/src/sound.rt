// Programs that keep the rule on state too.

ghost use Rattle.std.specs.Prelude.{◌≡◌};
ghost use Rattle.flow_staterule.specs.Answer.{JudgesUses};

use crate::rule::first_lost;
use flow_tree::decl::Program;
use flow_tree::fault::SourceFault;
use flow_types::check::Typed;
use std::alloc::Global;

/// A program that keeps the rules K1 to K12, L8 and U1.
#[derive(Drop)]
pub struct Sound {
    typed: Typed,
}

/// A program, where no use of a local comes after a wait since its declaration. Otherwise it is refused: by the first such
/// use in the order of the text, with the place where its local is declared and that of the first wait between them.
pub fn check_state(alloc: Global, typed: Typed) -> Result<Sound, SourceFault>
    ensures { JudgesUses typed result }
{
    match first_lost(alloc, &typed.program().decls)? {
        Some(lost) => Err(SourceFault::AcrossWait {
            at: lost.at,
            declared: lost.declared,
            wait: lost.wait,
        }),
        None => Ok(Sound { typed }),
    }
}

impl Sound {
    /// The program with its variables.
    pub fn typed(&self) -> &Typed
        ensures { result.now ≡ self.now.typed }
    {
        &self.typed
    }

    /// The program.
    pub fn program(&self) -> &Program
        ensures { result.now ≡ self.now.typed.program }
    {
        self.typed.program()
    }
}
