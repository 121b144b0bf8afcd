// The monitor late.

ghost use Rattle.std.specs.Prelude.{◌≡◌, codes};
ghost use Rattle.flow_lab_monitors.specs.Watching.{event_time, late_ear};

use flow_monitor::{Heard, Monitor};
use flow_trace::line::Line;

/// The time of an event by its line, in ticks; none of other lines.
pub fn event_time(line: &Line) -> Option<u64>
    ensures { result ≡ event_time line.now }
{
    match line {
        Line::Boot(_, t, ..) | Line::Kill(_, t, ..) | Line::Stop(_, t, ..) => Some(*t),
        Line::Cut(_, t, ..) | Line::Heal(_, t, ..) | Line::DiskFail(_, t, ..) => Some(*t),
        Line::Timer(_, t, ..) | Line::Arrival(_, t, ..) | Line::Read(_, t, ..) => Some(*t),
        Line::Write(_, t, ..) | Line::Sync(_, t, ..) | Line::Size(_, t, ..) => Some(*t),
        _ => None,
    }
}

/// Says Stop at an event whose time is above its limit, in ticks.
#[derive(Drop)]
pub struct Late {
    limit: u64,
}

impl Late {
    /// It takes no memory.
    pub fn new() -> Late
        ensures { result ≡ record { limit = 0 } }
    {
        Late { limit: 0 }
    }
}

impl Monitor for Late {
    ghost label = { λ m. codes "late" };

    ghost ear = { λ m. late_ear m.limit };

    ghost begun = { λ m. late_ear };

    fn name(&self) -> &str {
        "late"
    }

    fn begin(&mut self, limit: u64) {
        self.limit = limit;
    }

    fn line(&mut self, line: &Line) -> Heard {
        match event_time(line) {
            None => Heard::Go,
            Some(time) => {
                if self.limit < time {
                    Heard::Stop
                } else {
                    Heard::Go
                }
            }
        }
    }
}
