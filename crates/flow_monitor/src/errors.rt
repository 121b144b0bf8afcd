// The monitor errors.

ghost use Rattle.std.specs.Prelude.{◌≡◌, codes};
ghost use Rattle.flow_monitor.specs.Shipped.{ErrorsState, errors_ear, errors_step, errors_says, stop_above};

use crate::monitor::{Heard, Monitor};
use flow_trace::line::Line;

/// Says Stop at the throw by which the number of throws is above its limit, and Done at the first kill.
#[derive(Drop)]
pub struct Errors {
    thrown: u64,
    limit: u64,
}

impl Errors {
    /// It takes no memory.
    pub fn new() -> Errors
        ensures { result ≡ record { thrown = 0; limit = 0 } }
    {
        Errors {
            thrown: 0,
            limit: 0,
        }
    }
}

/// Stop where a number is above a limit, and else Go.
pub(crate) fn stop_above(limit: u128, count: u128) -> Heard
    ensures { result ≡ stop_above limit count }
{
    if limit < count {
        Heard::Stop
    } else {
        Heard::Go
    }
}

impl Monitor for Errors {
    ghost label = { λ m. codes "errors" };

    ghost ear = { λ m. errors_ear (record { thrown = m.thrown; limit = m.limit }) };

    ghost begun = { λ m limit. errors_ear (record { thrown = 0; limit = limit }) };

    fn name(&self) -> &str {
        "errors"
    }

    fn begin(&mut self, limit: u64) {
        self.thrown = 0;
        self.limit = limit;
    }

    fn line(&mut self, line: &Line) -> Heard {
        match line {
            Line::Throw(..) => {
                self.thrown = self.thrown.saturating_add(1);
                stop_above(u128::from(self.limit), u128::from(self.thrown))
            }
            Line::Kill(..) => Heard::Done,
            _ => Heard::Go,
        }
    }
}
