// Steps of actors.

ghost use Rattle.flow_burst_refinement.specs.Enabled.Allowing.{StepAllowed, MakingAllowed, ValuesThere};

/// An actor of valid classes that takes its next step may do so by what it stands at, and what it evaluates refers to what is
/// there; so may a process make what it asks for.
pub fn actor_steps_are_enabled()
    ensures step { StepAllowed }
    ensures values { ValuesThere }
    ensures making { MakingAllowed }
{}
