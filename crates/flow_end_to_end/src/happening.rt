// Laws of events.

ghost use Rattle.flow_class.specs.Classes.{RawTree};
ghost use Rattle.flow_invariants.specs.Fitting.Laws.{AreValid};
ghost use Rattle.flow_world.specs.Watching.{hears};
ghost use Rattle.flow_end_to_end.specs.Events.{MemoryWorldInvariantStarts, MemoryWorldInvariantStays, EventFailsInPart};

use flow_trace::out::LineOut;

/// What a world keeps so that no event is stuck it has before its first event, and after each event.
pub fn worlds_preserve_memory_invariant()
    ensures starts { (r : RawTree) → MemoryWorldInvariantStarts r }
    ensures stays { (r : RawTree) → AreValid r → MemoryWorldInvariantStays r }
{}

/// An event that a panel hears and that fails isn't stuck, and what it put is a first part of the lines of the event.
pub fn failed_events_put_first_parts<L: LineOut>()
    ensures { (r : RawTree) → EventFailsInPart (hears L.puts) r }
{}
