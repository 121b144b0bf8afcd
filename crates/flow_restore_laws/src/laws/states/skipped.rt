// Laws of runs that go on from a boundary, also after events that ran without a line.

ghost use Rattle.flow_world.specs.FaultedLines.{tells};
ghost use Rattle.flow_world.specs.Skipping.{unkept};
ghost use Rattle.flow_restore_laws.specs.States.Resumed.{ClassesRestAlike, ProgramsRestAlike};
ghost use Rattle.flow_restore_laws.specs.States.Skipped.{ClassesGoOnward, ProgramsGoOnward, ClassesSkip, ProgramsSkip};
ghost use Rattle.flow_restore_laws.specs.States.Worlds.{ClassesTold, ProgramsTold};

use flow_trace::out::LineOut;

/// What memory tells of each process is sound also after events that ran without a line, as `World::run_events` runs them.
pub fn skipped_states_are_sound()
    ensures classes { ClassesTold (tells unkept) }
    ensures programs { ProgramsTold (tells unkept) }
{}

/// And any processes may be made again between such events.
pub fn skipped_worlds_rest_alike()
    ensures classes { ClassesRestAlike (tells unkept) }
    ensures programs { ProgramsRestAlike (tells unkept) }
{}

/// From each boundary of a run of valid classes, or of a program's, in which any processes may be made again, events may go on in memory
/// as the run of the definitions does from the state after as many events.
pub fn boundaries_go_on<L: LineOut>()
    ensures classes { ClassesGoOnward L.puts }
    ensures programs { ProgramsGoOnward L.puts }
{}

/// So they may after events that ran without a line.
pub fn skipped_boundaries_go_on()
    ensures classes { ClassesGoOnward (tells unkept) }
    ensures programs { ProgramsGoOnward (tells unkept) }
{}

/// What is put of a world after events that ran without a line is the rest of what is shown of the classes, or of the program's text, cut
/// where a monitor says Stop.
pub fn skipped_runs_go_on_alike<L: LineOut>()
    ensures classes { ClassesSkip L.puts }
    ensures programs { ProgramsSkip L.puts }
{}
