// New numbers.

ghost use Rattle.flow_step_refinement.specs.Effects.Numbers as law;

/// The number of the next cell is that of no port's stream; and nothing waits for the next actor, where waiters and operands agree
/// and tasks are in order.
pub fn numbers_are_new()
    ensures port { law.PortFree }
    ensures actor { law.ActorFree }
{}
