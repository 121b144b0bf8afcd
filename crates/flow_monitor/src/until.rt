// The monitor until.

ghost use Rattle.std.specs.Prelude.{◌≡◌, codes};
ghost use Rattle.flow_monitor.specs.Shipped.{until_ear};

use crate::heard::event_number;
use crate::monitor::{Heard, Monitor};
use flow_trace::line::Line;

/// Says Stop at the event line whose number is its limit. Events are numbered from 1, so that 0 never comes.
#[derive(Drop)]
pub struct Until {
    limit: u64,
}

impl Until {
    /// It takes no memory.
    pub fn new() -> Until
        ensures { result ≡ record { limit = 0 } }
    {
        Until { limit: 0 }
    }
}

impl Monitor for Until {
    ghost label = { λ m. codes "until" };

    ghost ear = { λ m. until_ear m.limit };

    ghost begun = { λ m. until_ear };

    fn name(&self) -> &str {
        "until"
    }

    fn begin(&mut self, limit: u64) {
        self.limit = limit;
    }

    fn line(&mut self, line: &Line) -> Heard {
        match event_number(line) {
            None => Heard::Go,
            Some(number) => {
                if number == self.limit {
                    Heard::Stop
                } else {
                    Heard::Go
                }
            }
        }
    }
}
