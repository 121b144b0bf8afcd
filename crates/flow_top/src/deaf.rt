// Who hears a run that none of the monitors at hand hears as a panel.

ghost use Rattle.flow_top.specs.Deaf.{ears_of};

use flow_monitor::Audience;
use flow_trace::line::Line;

/// An audience that hears nothing: nobody at all, or one who is deaf.
#[derive(Drop)]
pub enum Deaf {
    Nobody,
    One,
}

impl Audience for Deaf {
    ghost ears = { ears_of };

    fn hear(&mut self, _line: &Line) -> Option<usize> {
        None
    }

    fn name(&self, _k: usize) -> &str {
        match self {
            Deaf::Nobody => unreachable!(),
            Deaf::One => "deaf",
        }
    }
}
