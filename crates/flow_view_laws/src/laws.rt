// What is told of a program between events.

ghost use Rattle.flow_world.specs.FaultedLines.{tells};
ghost use Rattle.flow_world.specs.Skipping.{unkept};
ghost use Rattle.flow_view_laws.specs.Skipped.{SkipsView};
ghost use Rattle.flow_view_laws.specs.Viewed.{ProgramsViewed};

use flow_trace::out::LineOut;

/// Between events what the frames of a world in memory tell of the actors of a program, by the places of its waits, is the view of the state
/// of the run by the program's own text after as many events: where each unfinished actor waits, at which cells, and what its variables hold.
pub fn boundaries_show_source<L: LineOut>()
    ensures { ProgramsViewed L.puts }
{}

/// So it is after events that ran without a line, as `World::run_events` runs them.
pub fn skipped_events_show_source()
    ensures { ProgramsViewed (tells unkept) }
{}

/// What is told after so many events that ran without a line, by how the run ended if it did, is the view of the program's own state after as
/// many events, or after the last one where there are fewer; or an event was spent, and then the program's own trace ends so as early.
pub fn skipped_events_tell_view()
    ensures { SkipsView }
{}
