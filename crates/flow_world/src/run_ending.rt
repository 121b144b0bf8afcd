// How a run ends that monitors hear.

ghost use Rattle.std.specs.Prelude.{◌≡◌, IfOk, length};
ghost use Rattle.flow_world.specs.WatchedTraces.{IsEnding, last_line};

use crate::ending::Ending;
use flow_base::memory::NoMemory;
use flow_base::name::Name;
use flow_monitor::Audience;
use flow_trace::line::Line;
use std::alloc::Global;

/// How a run ends: by itself, or since the monitor of this number said Stop in an event that wasn't spent.
#[derive(Clone, Copy, PartialEq, Eq)]
pub enum RunEnding {
    Own(Ending),
    Stopped(usize),
}

impl RunEnding {
    /// The last line of the trace.
    #[tactic(auto, using(flow_monitor::proofs::Naming::monitor_name))]
    pub(crate) fn line<P: Audience>(self, alloc: Global, panel: &P) -> Result<Line, NoMemory>
        requires { IsEnding self (length (P.ears panel.now)) }
        ensures { IfOk result (λ l. l ≡ last_line (P.ears panel.now) self) }
    {
        match self {
            RunEnding::Own(end) => Ok(end.line()),
            RunEnding::Stopped(k) => Ok(Line::EndStop(Name::new(alloc, panel.name(k).as_bytes())?)),
        }
    }
}
