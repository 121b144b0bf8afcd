// Events that are brought.

ghost use Rattle.std.specs.Prelude.{ℕ};
ghost use Rattle.flow_class.specs.Classes.{RawTree};
ghost use Rattle.flow_code.specs.declared.program.Code.{Code};
ghost use Rattle.flow_burst_refinement.specs.Programs.Delivering.{EventFollows, EventRests};

use flow_machine::host::Host;

/// The burst of an event that was brought to a process in memory is a burst of the class machine, or spent as it is; where it
/// rests then, it rests for the next event.
pub fn delivered_bursts_refine<H: Host>()
    ensures follows { (code : Code) (processes : ℕ) (r : RawTree)
        → EventFollows H.serves H.shows H.wrote code processes r }
    ensures rests { (code : Code) (processes : ℕ) (r : RawTree)
        → EventRests H.serves H.shows H.wrote code processes r }
{}
