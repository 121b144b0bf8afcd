// Laws of the runs of valid classes: what a process keeps within an event, and at its end.

ghost use Rattle.flow_class.specs.Classes.{RawTree};
ghost use Rattle.flow_invariants.specs.Unmarked.{AreWhole, StatesRest, StepsKeep};

/// Valid classes as they are written, with a callback in each group, in the world of a file in range. Within an
/// event, unless it is stopped, an actor that is marked as cancelled runs, a future refers to the result of each
/// other unfinished actor, unless it is void, each cell is referred to, and what the process made a cell for is
/// its own. At each boundary of the run no unfinished actor is marked, so that a future refers to the result of
/// each, unless it is void.
pub fn boundaries_have_no_marked_actor()
    ensures steps { (r : RawTree) → AreWhole r → StepsKeep r }
    ensures states { (r : RawTree) → AreWhole r → StatesRest r }
{}
