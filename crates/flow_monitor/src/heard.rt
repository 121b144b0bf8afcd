// Which lines monitors hear, and what event lines name.

ghost use Rattle.std.specs.Prelude.{◌≡◌, option_map};
ghost use Rattle.flow_monitor.specs.Heard.{is_heard, event_number, event_process, process_after};

use flow_base::ids::ProcId;
use flow_trace::line::Line;

/// Whether monitors hear a line: each but the first and the last one of a trace, frames and callbacks.
pub fn is_heard(line: &Line) -> bool
    ensures { result ≡ is_heard line.now }
{
    !matches!(
        line,
        Line::Head
            | Line::Frame(..)
            | Line::Callback(..)
            | Line::EndIdle
            | Line::EndBound
            | Line::EndSpent
            | Line::EndStop(_)
    )
}

/// The number of an event, from 1, by its line; none of other lines.
pub fn event_number(line: &Line) -> Option<u64>
    ensures { result ≡ event_number line.now }
{
    match line {
        Line::Boot(n, ..) | Line::Kill(n, ..) | Line::Stop(n, ..) | Line::Cut(n, ..) => Some(*n),
        Line::Heal(n, ..) | Line::DiskFail(n, ..) | Line::Timer(n, ..) => Some(*n),
        Line::Arrival(n, ..) | Line::Read(n, ..) | Line::Write(n, ..) => Some(*n),
        Line::Sync(n, ..) | Line::Size(n, ..) => Some(*n),
        _ => None,
    }
}

/// The process of an event, where its line names just one: each but those of links; none of other lines.
pub fn event_process(line: &Line) -> Option<ProcId>
    ensures { option_map (λ p. p.0) result ≡ event_process line.now }
{
    match line {
        Line::Boot(_, _, p) | Line::Kill(_, _, p) | Line::Stop(_, _, p) => Some(*p),
        Line::DiskFail(_, _, p, _) | Line::Timer(_, _, p, _) => Some(*p),
        Line::Arrival(_, _, p, _) | Line::Read(_, _, p, _, _) => Some(*p),
        Line::Write(_, _, p, _, _) | Line::Sync(_, _, p, _, _) => Some(*p),
        Line::Size(_, _, p, _, _) => Some(*p),
        _ => None,
    }
}

/// The process of the last event line that names just one, by the one before this line.
pub fn process_after(process: ProcId, line: &Line) -> ProcId
    ensures { result.0 ≡ process_after process.0 line.now }
{
    match event_process(line) {
        Some(named) => named,
        None => process,
    }
}
