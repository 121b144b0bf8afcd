// Laws of worlds in memory between events.

ghost use Rattle.flow_restore_laws.specs.States.Worlds.{ClassesTold, ProgramsTold};

use flow_trace::out::LineOut;

/// Between events what `Machine::state` tells of each process of a world in memory that runs valid classes is sound, as
/// `is_sound` decides, so that `Machine::restore` takes it; and the process's own heap rests with the same parts, each reference
/// counted.
pub fn told_states_are_sound<L: LineOut>()
    ensures classes { ClassesTold L.puts }
    ensures programs { ProgramsTold L.puts }
{}
