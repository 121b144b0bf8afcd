// What runs a program in worlds.

ghost use Rattle.std.specs.Prelude.{◌≡◌, List, IfOk, OnOk};
ghost use Rattle.flow_trace.specs.declared.line.Line.{Line};
ghost use Rattle.flow_worldfile.specs.Worlds.{World, IsInRange, seen};
ghost use Rattle.flow_sweep.specs.Sweeps.{Hearing, Tries};

use crate::ran::Ran;
use flow_base::memory::NoMemory;
use flow_worldfile::World0;

/// What runs a program in one world after another, where the same monitors hear each run from its begin.
pub trait Trials {
    /// What no run changes, unless there is no memory, as the program that is run.
    ghost Kept: { Type 0 } = { Unit {0} };

    ghost kept: { Self → Self.Kept };

    /// What has to be so that its runs mean that, and stays so.
    ghost ready: { Self → Type 0 } = { λ t. Unit {0} };

    /// The lines of the trace of a world, in order, to the last.
    ghost means: { Self.Kept → World → List Line → Type 0 };

    /// Who hears each run, at its begin, and what is looked for in its lines.
    ghost hearing: { Self.Kept → Hearing };

    /// Runs a world that is in range to its end, and where the times of its events are asked for, tells them, rising, each once.
    fn run(&mut self, world: &World0, timed: bool) -> Result<(Ran, Vec<u64>), NoMemory>
        requires range { IsInRange (seen world.now) }
        requires ready { ready self.old }
        ensures tries { IfOk result (λ r. Tries (Self.means (Self.kept self.old))
            (Self.hearing (Self.kept self.old)) (seen world.now) timed r.0 r.1.items) }
        ensures ready { OnOk result (ready self.new) }
        ensures kept { OnOk result (Self.kept self.new ≡ Self.kept self.old) };
}
