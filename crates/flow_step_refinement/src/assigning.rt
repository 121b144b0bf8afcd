// Variables of actors that get values.

ghost use Rattle.flow_operation_refinement.specs.Placing.{ForActors};
ghost use Rattle.flow_step_refinement.specs.Assigning as law;

/// Where an actor aims in memory a value goes as it does by the path in the frame; an assignment in
/// memory is a step of the class machine, and a new cell in a place is two: it is made, and stored.
pub fn assignments_refine()
    ensures path { ForActors law.PathPut }
    ensures set { ForActors law.SetStep }
    ensures empty { ForActors law.EmptyStep }
    ensures cell { ForActors law.NewStep }
{}
