// The laws of events.

ghost use Rattle.flow_class.specs.Classes.{RawTree};
ghost use Rattle.flow_world_refinement.specs.Events.{Happening, SpentHappening};

use flow_trace::out::LineOut;

/// An event that runs in memory is the next event of the definitions, with its lines, and so is one that is spent.
pub fn events_refine<L: LineOut>()
    ensures runs { (r : RawTree) → Happening L.puts r }
    ensures spent { (r : RawTree) → SpentHappening L.puts r }
{}
