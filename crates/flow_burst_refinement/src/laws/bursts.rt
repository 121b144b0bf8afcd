// Bursts.

ghost use Rattle.std.specs.Prelude.{ℕ};
ghost use Rattle.flow_class.specs.Classes.{RawTree};
ghost use Rattle.flow_code.specs.declared.program.Code.{Code};
ghost use Rattle.flow_burst_refinement.specs.Bursts.{BurstFollows};

use flow_machine::host::Host;

/// A burst in memory is a burst of the class machine in the world that the host shows, where each task that is done in memory is a
/// row of its steps: the host wrote its lines, and afterwards memory and the host show its process and its world, at rest, or the
/// event is spent in both.
pub fn bursts_refine_if_tasks_do<H: Host>()
    ensures { (code : Code) (processes : ℕ) (r : RawTree)
        → BurstFollows H.serves H.shows H.wrote code processes r }
{}
