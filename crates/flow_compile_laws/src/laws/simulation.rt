// The core law.

ghost use Rattle.flow_compile_laws.specs.Simulation.Carried.{TracesOfText, TracesOfClasses, ObservationsOfText, ObservationsOfClasses};

/// Of a program and classes of its shape that carry its actors the same is seen in every world: the lines
/// of the trace, and at each boundary of events the unfinished actors and the branches at which they wait.
pub fn classes_simulate_program()
    ensures traces { TracesOfText }
    ensures traces_back { TracesOfClasses }
    ensures views { ObservationsOfText }
    ensures views_back { ObservationsOfClasses }
{}
