// A boot in any world.

ghost use Rattle.std.specs.Prelude.{ℕ};
ghost use Rattle.flow_class.specs.Classes.{RawTree};
ghost use Rattle.flow_code.specs.declared.program.Code.{Code};
ghost use Rattle.flow_restore_laws.specs.Rest.Booting.{BootFollows};

use flow_machine::host::Host;

/// The call of `main` in memory and the burst that follows are a boot of the class machine and its burst, with the lines that
/// the host wrote.
pub fn boots_refine<H: Host>()
    ensures { (code : Code) (processes : ℕ) (r : RawTree)
        → BootFollows H.serves H.shows H.wrote code processes r }
{}
