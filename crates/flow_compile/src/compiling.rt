// The classes of a sound program.

ghost use Rattle.std.specs.Prelude.{IfOk};
ghost use Rattle.flow_tree.specs.DeclView.{program_of};
ghost use Rattle.flow_class.specs.View.{raw_of};
ghost use Rattle.flow_lower.specs.Compiled.{Compiles};
ghost use Rattle.flow_compile.specs.Right.{IsAccepted, IsRight};

use flow_compile_laws::laws::traces::compile_preserves_traces;
use flow_lower::{CompileFault, lower_program};
use flow_lowering_laws::laws::programs::compiled_classes_carry_program;
use flow_staterule::Sound;
use flow_valid::program::ClassProgram;
use flow_validity_laws::laws::compiled_classes_are_valid;
use std::alloc::Global;

/// The classes of a program that the front accepts: those of its actors, in the order of the text, beside its records and
/// functions. They are valid, have the program's shape and carry each actor; in every world they have exactly the program's traces,
/// and show at each boundary of events exactly what its text says. A program is refused exactly where the weight of an actor is
/// above 60,000, at the first such actor.
pub fn compile(alloc: Global, sound: &Sound) -> Result<ClassProgram, CompileFault>
    requires { IsAccepted sound.now.typed.program }
    ensures classes { Compiles raw_of (program_of sound.now.typed.program) result }
    ensures right { IfOk result (λ c. IsRight (program_of sound.now.typed.program) (raw_of c)) }
{
    compiled_classes_are_valid();
    compiled_classes_carry_program();
    compile_preserves_traces();
    match lower_program(alloc, sound) {
        Ok(raw) => Ok(ClassProgram::new(raw)),
        Err(fault) => Err(fault),
    }
}
