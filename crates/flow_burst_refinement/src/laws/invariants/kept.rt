// What a process keeps from step to step.

ghost use Rattle.flow_class.specs.Classes.{RawTree};
ghost use Rattle.flow_burst_refinement.specs.Invariants.Invariant.{StepKeeps, LinesKeep, AmongKept};

/// What a process of valid classes keeps, and what the laws of its steps in memory ask of it, stays so by each step that doesn't
/// stop the event and by lines that the world writes; and it holds at each boundary of a run.
pub fn steps_preserve_invariant()
    ensures steps { (r : RawTree) → StepKeeps r }
    ensures lines { (r : RawTree) → LinesKeep r }
    ensures among { (r : RawTree) → AmongKept r }
{}
