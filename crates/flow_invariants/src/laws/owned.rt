// Laws of what a process owns.

ghost use Rattle.flow_class.specs.Classes.{RawTree};
ghost use Rattle.flow_invariants.specs.Fitting.Laws.{AreValid};
ghost use Rattle.flow_invariants.specs.Owned.{StepsUnset, ProcessesOwn, StatesOwn};

/// The cell of the result of an unfinished actor, and that of an open request, is unset: each step keeps
/// it so, of any classes. So a process of valid classes owns what it made a cell for: the cell is an unset
/// single result, or of a port a stream, and its promise side is referred to once. It is so of each
/// process at each boundary of a run in the world of a file in range.
pub fn processes_own_their_cells()
    ensures steps { StepsUnset }
    ensures processes { ProcessesOwn }
    ensures states { (r : RawTree) → AreValid r → StatesOwn r }
{}
