// Compilation preserves what a program does.

ghost use Rattle.flow_compile_laws.specs.Traces.{TracesPreserved, TracesReflected, ObservationsPreserved, ObservationsReflected};

use crate::laws::simulation::classes_simulate_program;
use flow_lowering_laws::laws::programs::compiled_classes_carry_program;

/// Of a program that the front accepts and the classes that it is compiled to the same is seen in every
/// world: the lines of the trace, and at each boundary of events the unfinished actors and the branches
/// at which they wait; and so both ways.
pub fn compile_preserves_traces()
    ensures traces { TracesPreserved }
    ensures traces_back { TracesReflected }
    ensures views { ObservationsPreserved }
    ensures views_back { ObservationsReflected }
{
    compiled_classes_carry_program();
    classes_simulate_program();
}
