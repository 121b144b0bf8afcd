// What becomes of the places of frames.

ghost use Rattle.flow_operation_refinement.specs.Placing.{ForActors};
ghost use Rattle.flow_operation_refinement.specs.Placing as law;

/// A place of a frame in memory holds what that of the frame holds that it shows; so it is after a value is put into a place,
/// after locals are emptied by number, and after all locals or all places are emptied and dropped, the last one first.
pub fn places_refine()
    ensures seen { ForActors law.PlaceSeen }
    ensures put { ForActors law.PlacePut }
    ensures taken { ForActors law.LocalsTaken }
    ensures locals { ForActors law.LocalsLost }
    ensures all { ForActors law.AllLost }
{}
