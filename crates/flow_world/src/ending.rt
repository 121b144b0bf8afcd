// How a run ends.

ghost use Rattle.std.specs.Prelude.{◌≡◌};
ghost use Rattle.flow_world.specs.Ends.{end_line};

use flow_trace::line::Line;

/// How a run ends: nothing is left that could come, as many events as the bound have run, or an event needed more turns
/// than one may take.
#[derive(Clone, Copy, PartialEq, Eq)]
pub enum Ending {
    Idle,
    Bound,
    Spent,
}

impl Ending {
    /// The last line of the trace.
    pub fn line(self) -> Line
        ensures { result ≡ end_line self }
    {
        match self {
            Ending::Idle => Line::EndIdle,
            Ending::Bound => Line::EndBound,
            Ending::Spent => Line::EndSpent,
        }
    }
}
