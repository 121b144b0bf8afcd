// Call statements of plain functions.

ghost use Rattle.flow_operation_refinement.specs.Placing.{ForActors};
ghost use Rattle.flow_step_refinement.specs.Calling as law;

/// A call statement of a plain function in memory is a step of the class machine; its arguments come to
/// the same.
pub fn function_calls_refine()
    ensures arguments { law.ArgumentsFollow }
    ensures function { ForActors law.FunctionStep }
{}
