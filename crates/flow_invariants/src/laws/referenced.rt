// Laws of what refers to the cells of a process.

ghost use Rattle.flow_class.specs.Classes.{RawTree};
ghost use Rattle.flow_invariants.specs.Fitting.Laws.{AreValid};
ghost use Rattle.flow_invariants.specs.Referenced.{StatesReferred};

/// No cell of a process of valid classes is without a reference, and a future refers to the result of each
/// unfinished actor that isn't marked as cancelled, unless it is void: at each boundary of a run in the world of a
/// file in range.
pub fn cells_stay_referenced()
    ensures states { (r : RawTree) → AreValid r → StatesReferred r }
{}
