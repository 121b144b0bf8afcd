// Actors that leave their waits, and branches that are taken.

ghost use Rattle.flow_operation_refinement.specs.Matching.{Always};
ghost use Rattle.flow_operation_refinement.specs.Placing.{ForActors};
ghost use Rattle.flow_operation_refinement.specs.Taking as law;

/// An actor in memory leaves its wait as it does in the process that is shown; a branch takes what its cell gives, where a turn is
/// left, with the line, and the actor leaves its wait.
pub fn waits_refine()
    ensures withdrawn { ForActors law.ActorWithdrawn }
    ensures told { ForActors law.FrameTold }
    ensures left { ForActors law.LeftFor }
    ensures taken { Always law.ContentTaken }
    ensures branch { ForActors law.BranchFollows }
{}
