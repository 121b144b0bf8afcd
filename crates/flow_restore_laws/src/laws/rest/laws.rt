// Laws of worlds in memory between events.

ghost use Rattle.flow_world.specs.FaultedLines.{tells};
ghost use Rattle.flow_world.specs.Skipping.{unkept};
ghost use Rattle.flow_restore_laws.specs.Rest.Boundary.{ClassesRest, ProgramsRest};
ghost use Rattle.flow_restore_laws.specs.Rest.Counted.{ClassesCount, ProgramsCount};

use flow_trace::out::LineOut;

/// Between events each process of a world in memory that runs valid classes is at rest: its kept counts are the references of the
/// process that it shows, waiters and callbacks agree, no task is left, no unfinished actor is marked, a future refers to the
/// result of each, unless it is void, and each cell is referred to. What it shows is the state of the run by the definitions
/// after as many events.
pub fn boundaries_rest<L: LineOut>()
    ensures classes { ClassesRest L.puts }
    ensures programs { ProgramsRest L.puts }
{}

/// So it is after events that ran without a line, as `World::run_events` runs them.
pub fn skipped_events_rest()
    ensures classes { ClassesRest (tells unkept) }
    ensures programs { ProgramsRest (tells unkept) }
{}

/// Between events the count of live actors of a world in memory that runs valid classes is the number of unfinished actors of the
/// state of the run after as many events: of the classes by the definitions, and of a program by its text.
pub fn live_counts_unfinished_actors<L: LineOut>()
    ensures classes { ClassesCount L.puts }
    ensures programs { ProgramsCount L.puts }
{}
