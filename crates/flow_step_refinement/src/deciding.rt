// Steps by which an actor decides where it goes on.

ghost use Rattle.flow_operation_refinement.specs.Placing.{ForActors};
ghost use Rattle.flow_step_refinement.specs.Deciding as law;

/// A test and the end of an actor with a value, in memory, are each a step of the class machine.
pub fn tests_and_returns_refine()
    ensures test { ForActors law.TestStep }
    ensures ends { ForActors law.ReturnStep }
{}
