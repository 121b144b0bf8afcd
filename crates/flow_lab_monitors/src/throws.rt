// The monitor throws.

ghost use Rattle.std.specs.Prelude.{◌≡◌, codes};
ghost use Rattle.flow_lab_monitors.specs.Watching.{throws_ear, throws_says};

use flow_base::ids::ErrorCode;
use flow_monitor::{Heard, Monitor};
use flow_trace::line::Line;

/// Says Stop at the throw of the error that is its limit: an assertion of the program.
#[derive(Drop)]
pub struct Throws {
    limit: u64,
}

impl Throws {
    /// It takes no memory.
    pub fn new() -> Throws
        ensures { result ≡ record { limit = 0 } }
    {
        Throws { limit: 0 }
    }
}

impl Monitor for Throws {
    ghost label = { λ m. codes "throws" };

    ghost ear = { λ m. throws_ear m.limit };

    ghost begun = { λ m. throws_ear };

    fn name(&self) -> &str {
        "throws"
    }

    fn begin(&mut self, limit: u64) {
        self.limit = limit;
    }

    fn line(&mut self, line: &Line) -> Heard {
        match line {
            Line::Throw(_, ErrorCode(error)) => {
                if u64::from(*error) == self.limit {
                    Heard::Stop
                } else {
                    Heard::Go
                }
            }
            _ => Heard::Go,
        }
    }
}
