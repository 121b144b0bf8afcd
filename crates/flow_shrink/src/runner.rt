// What runs worlds again and again.

ghost use Rattle.std.specs.Prelude.{◌≡◌, ℕ, List, Decides, IfOk, OnOk};
ghost use Rattle.flow_base.specs.Faults.{next_count};
ghost use Rattle.flow_trace.specs.declared.line.Line.{Line};
ghost use Rattle.flow_worldfile.specs.Worlds.{World, IsInRange, seen};
ghost use Rattle.flow_shrink.specs.Shrinking.{Stops};

use flow_base::memory::NoMemory;
use flow_monitor::Monitor;
use flow_worldfile::World0;

/// What runs worlds, one after another, where a monitor hears each.
pub trait Runner {
    /// What no run changes, unless there is no memory, as the program that is run.
    ghost Kept: { Type 0 } = { Unit {0} };

    ghost kept: { Self → Self.Kept };

    /// What has to be so that its runs mean that, and stays so.
    ghost ready: { Self → Type 0 } = { λ r. Unit {0} };

    /// The lines of the trace of a world, in order, to the last.
    ghost means: { Self.Kept → World → List Line → Type 0 };

    /// How many runs there were. At 2^64 - 1 the count stands still.
    ghost count: { Self → ℕ };

    /// Runs a world that is in range, and hands the monitor back, which hears its lines until it says Done or Stop, with
    /// whether it said Stop in an event that isn't spent. Where there is no memory the monitor is dropped.
    fn run(
        &mut self,
        world: &World0,
        monitor: Box<dyn Monitor>,
    ) -> Result<(bool, Box<dyn Monitor>), NoMemory>
        requires range { IsInRange (seen world.now) }
        requires ready { ready self.old }
        ensures stopped { IfOk result (λ r. Decides r.0
            (Stops (Self.means (Self.kept self.old) (seen world.now)) (ear monitor))) }
        ensures begun { IfOk result (λ r. begun r.1 ≡ begun monitor) }
        ensures ready { OnOk result (ready self.new) }
        ensures counted { count self.new ≡ next_count (count self.old) }
        ensures kept { OnOk result (Self.kept self.new ≡ Self.kept self.old) };

    /// How many runs there were.
    fn runs(&self) -> u64
        ensures { result ≡ count self.now };
}
