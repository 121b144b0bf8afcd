// Waits of actors that run.

ghost use Rattle.flow_operation_refinement.specs.Placing.{ForActors};
ghost use Rattle.flow_step_refinement.specs.Choosing as law;

/// An actor that comes to its wait in memory stands there. The next operand by its value is two steps of
/// the class machine, by which it is asked for and kept; and where all are kept, one, by which one that
/// is ready is taken or the actor waits.
pub fn choices_refine()
    ensures begins { ForActors law.ChoiceBegins }
    ensures operand { ForActors law.OperandStep }
    ensures wait { ForActors law.WaitStep }
{}
