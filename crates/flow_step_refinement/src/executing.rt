// Steps of actors.

ghost use Rattle.flow_operation_refinement.specs.Placing.{ForActors};
ghost use Rattle.flow_step_refinement.specs.Executing as law;

/// A step of an actor in memory, by what stands in the code where it stands, is a row of steps of the
/// class machine that ask nothing of the world; or it asks something: an effect, a call statement, a
/// method, or an operand by an effect.
pub fn actor_steps_refine()
    ensures { ForActors law.StepFollows }
{}
