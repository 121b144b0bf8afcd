// Laws of actors that nobody refers to any more.

ghost use Rattle.flow_class.specs.Classes.{RawTree};
ghost use Rattle.flow_invariants.specs.Ended.{StatesEnd};
ghost use Rattle.flow_invariants.specs.Unmarked.{AreWhole};

/// In each event, unless it is spent, of a run of valid classes in the world of a file in range: an actor whose last future goes
/// within the event, so that between two steps no future refers to its result, has ended at the end of the event.
pub fn unreferred_actors_end()
    ensures states { (r : RawTree) → AreWhole r → StatesEnd r }
{}
