// Where actors stand.

ghost use Rattle.flow_operation_refinement.specs.Coded as law;

/// Where the code has an actor stand is where its frame does, by what the code is coded from: in the same block, with its catch
/// part, and at the same wait.
pub fn control_points_refine()
    ensures { law.StandFollows }
{}
