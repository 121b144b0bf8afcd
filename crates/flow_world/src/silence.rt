// Lines that nobody keeps.

ghost use Rattle.flow_world.specs.Skipping.{unkept};

use flow_base::fault::OutFault;
use flow_trace::line::Line;
use flow_trace::out::LineOut;

/// Where a line goes that nobody keeps. It always succeeds.
#[derive(Drop)]
pub struct Silence;

impl LineOut for Silence {
    ghost puts = { unkept };

    ghost faults = { λ _. 0 };

    ghost kept = { λ _. record {} };

    fn put(&mut self, _line: &Line) -> Result<(), OutFault> {
        Ok(())
    }

    fn faults(&self) -> u64 {
        0
    }
}
