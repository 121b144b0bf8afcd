// The monitor live.

ghost use Rattle.std.specs.Prelude.{◌≡◌, codes};
ghost use Rattle.flow_monitor.specs.Shipped.{live_of, live_first, live_ear, counts_after};

use crate::counts::Counts;
use crate::errors::stop_above;
use crate::heard::process_after;
use crate::monitor::{Heard, Monitor};
use flow_base::ids::ProcId;
use flow_trace::line::Line;

/// Counts the actors that live, by the lines of each process, and says Stop where they are more than its limit together.
/// A line is of the process of the last event line that names just one.
#[derive(Drop)]
pub struct Live {
    counts: Counts,
    process: ProcId,
    limit: u64,
}

impl Live {
    /// It takes no memory.
    pub fn new() -> Live
        ensures { live_of result.counts.counts result.process.0 result.limit ≡ live_first 0 }
    {
        Live {
            counts: Counts::new(),
            process: ProcId(0),
            limit: 0,
        }
    }
}

// What a line makes of the counts.
fn count(counts: &mut Counts, process: ProcId, line: &Line)
    ensures { counts.new.counts ≡ counts_after line.now process.0 counts.old.counts }
{
    match line {
        Line::Start(..) => counts.add(process),
        Line::Finish(_) | Line::Fail(..) => counts.take(process),
        Line::Kill(_, _, killed) => counts.clear(*killed),
        _ => {}
    }
}

impl Monitor for Live {
    ghost label = { λ m. codes "live" };

    ghost ear = { λ m. live_ear (live_of m.counts.counts m.process.0 m.limit) };

    ghost begun = { λ m limit. live_ear (live_first limit) };

    fn name(&self) -> &str {
        "live"
    }

    fn begin(&mut self, limit: u64) {
        *self = Live::new();
        self.limit = limit;
    }

    fn line(&mut self, line: &Line) -> Heard {
        count(&mut self.counts, self.process, line);
        self.process = process_after(self.process, line);
        stop_above(u128::from(self.limit), self.counts.total())
    }
}
