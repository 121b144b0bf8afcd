// What lasts from event to event.

ghost use Rattle.flow_class.specs.Classes.{RawTree};
ghost use Rattle.flow_invariants.specs.Fitting.Laws.{AreValid};
ghost use Rattle.flow_world_refinement.specs.Invariants.{WorldInvariantStarts, WorldInvariantStays};

/// In the world of a file in range each process keeps what it has to, and all that is to come comes by a time that programs
/// can tell: before the first event, and, for valid classes, after each.
pub fn worlds_preserve_invariant()
    ensures start { (r : RawTree) → WorldInvariantStarts r }
    ensures event { (r : RawTree) → AreValid r → WorldInvariantStays r }
{}
