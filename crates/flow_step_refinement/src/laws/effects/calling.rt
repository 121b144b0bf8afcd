// Call statements.

ghost use Rattle.flow_operation_refinement.specs.Placing.{ForActors};
ghost use Rattle.flow_step_refinement.specs.Effects.Calling as law;

/// A step in memory by a call statement is a step of the class machine: a value is printed, a text is sent to a port of a process,
/// a value or an error is sent into a cell, an actor is cancelled.
pub fn world_calls_refine()
    ensures predefined { ForActors law.PredefinedStep }
    ensures void { ForActors law.VoidStep }
    ensures method { ForActors law.MethodStep }
    ensures method_of { ForActors law.MethodOfStep }
{}
