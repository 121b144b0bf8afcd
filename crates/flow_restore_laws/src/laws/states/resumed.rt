// Laws of runs in which processes are made again between events.

ghost use Rattle.flow_restore_laws.specs.States.Resumed.{ClassesRestAlike, ProgramsRestAlike, ClassesGoOn, ProgramsGoOn};

use flow_trace::out::LineOut;

/// In a run of valid classes, or of a program's, any processes may be replaced between events by what `Machine::restore` makes of
/// what `Machine::state` tells of them: at each boundary memory is at rest where the run of the definitions is, what it tells is
/// sound, and the next event doesn't go astray.
pub fn restored_worlds_rest_alike<L: LineOut>()
    ensures classes { ClassesRestAlike L.puts }
    ensures programs { ProgramsRestAlike L.puts }
{}

/// From each boundary of such a run on the lines that are put are the rest of those that are shown of the classes, or of the
/// program's text, up to the last one.
pub fn restored_runs_go_on_alike<L: LineOut>()
    ensures classes { ClassesGoOn L.puts }
    ensures programs { ProgramsGoOn L.puts }
{}
