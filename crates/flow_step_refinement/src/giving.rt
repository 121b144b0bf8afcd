// Tasks by which actors go on.

ghost use Rattle.flow_operation_refinement.specs.Placing.{ForActors};
ghost use Rattle.flow_step_refinement.specs.Giving as law;

/// An actor whose task is next in memory takes its steps from where its frame stands. A branch that gets
/// what it took, the result of an effect that is stored and an operand that is kept are each a step of
/// the class machine, after which the actor goes on at once or other tasks come first.
pub fn actor_tasks_refine()
    ensures runs { ForActors law.RunBegins }
    ensures waits { ForActors law.RunAtWait }
    ensures gives { ForActors law.GiveGoes }
    ensures throws { ForActors law.GiveThrows }
    ensures stores { ForActors law.StoreDone }
    ensures keeps { ForActors law.KeepGoes }
{}
