// Actors that go on.

ghost use Rattle.flow_operation_refinement.specs.Placing.{ForActors};
ghost use Rattle.flow_operation_refinement.specs.Continuing as law;
ghost use Rattle.flow_operation_refinement.specs.Carried as steps;
ghost use Rattle.flow_operation_refinement.specs.Evaluated.{ThrowStep};

/// An actor in memory that goes on, at once or by its task, goes on in the process: elsewhere, at a block, where a pass of a loop
/// begins, after values that it leaves over, after locals that it drops, and at a branch with its value.
pub fn moves_refine()
    ensures gone { ForActors law.GoneOn }
    ensures values { ForActors law.ValuesLeft }
    ensures locals { ForActors law.LocalsDropped }
    ensures block { ForActors law.WentTo }
    ensures pass { ForActors law.PassBegan }
    ensures bound { ForActors law.ValueBound }
{}

/// A step in memory by a drop of locals, a jump, a pass of a loop, a `throw` or an evaluation that fails or needs a turn that isn't left is a step of the class machine, after which the actor goes on at
/// once, with its own task the newest, or other tasks come first.
pub fn simple_instructions_refine()
    ensures noted { ForActors steps.NotedFollows }
    ensures thrown { ForActors steps.ErrorThrown }
    ensures spent { ForActors steps.RanOut }
    ensures drop { ForActors steps.DropStep }
    ensures goto { ForActors steps.GotoStep }
    ensures pass { ForActors steps.PassStep }
    ensures throw { ForActors ThrowStep }
{}
