// Lines that are counted and not kept.

ghost use Rattle.std.specs.Prelude.{◌≡◌, ◌+◌, [], IfOk, IsErrOf};
ghost use Rattle.flow_base.specs.declared.fault.OutFault.TheVariants.{Failed};
ghost use Rattle.flow_trace.specs.Groups.{is_event};
ghost use Rattle.flow_top.specs.Summary.{is_start, is_throw, is_print, one_if, CountsLine};

use flow_base::fault::OutFault;
use flow_trace::line::Line;
use flow_trace::out::LineOut;

/// How many lines of some kinds were put: events, starts of actors, errors thrown, lines of `trace`. At its end a count
/// takes no more.
#[derive(Clone, Copy, Drop)]
pub struct Counts {
    pub events: u64,
    pub starts: u64,
    pub throws: u64,
    pub prints: u64,
}

impl Counts {
    /// No line yet.
    pub fn new() -> Counts
        ensures { result ≡ record { events = 0; starts = 0; throws = 0; prints = 0 } }
    {
        Counts {
            events: 0,
            starts: 0,
            throws: 0,
            prints: 0,
        }
    }
}

/// Whether a line is an event's.
pub fn is_event(line: &Line) -> bool
    ensures { result ≡ is_event line.now }
{
    match line {
        Line::Boot(..) | Line::Kill(..) | Line::Stop(..) | Line::Cut(..) => true,
        Line::Heal(..) | Line::DiskFail(..) | Line::Timer(..) | Line::Arrival(..) => true,
        Line::Read(..) | Line::Write(..) | Line::Sync(..) | Line::Size(..) => true,
        _ => false,
    }
}

fn is_start(line: &Line) -> bool
    ensures { result ≡ is_start line.now }
{
    matches!(line, Line::Start(..))
}

fn is_throw(line: &Line) -> bool
    ensures { result ≡ is_throw line.now }
{
    matches!(line, Line::Throw(..))
}

fn is_print(line: &Line) -> bool
    ensures { result ≡ is_print line.now }
{
    matches!(
        line,
        Line::PrintInt(..) | Line::PrintBool(..) | Line::PrintText(..)
    )
}

// A count and one more, where there is one.
fn counted(count: u64, more: bool) -> Result<u64, OutFault>
    ensures counts { IfOk result (λ n. n ≡ count + one_if more) }
    ensures never_fails { IsErrOf result Failed → ⊥ }
{
    if !more {
        return Ok(count);
    }
    match count.checked_add(1) {
        Some(next) => Ok(next),
        None => Err(OutFault::OutOfMemory),
    }
}

impl LineOut for Counts {
    ghost puts = { CountsLine };

    ghost faults = { λ _. 0 };

    ghost kept = { λ _. record {} };

    fn put(&mut self, line: &Line) -> Result<(), OutFault> {
        *self = Counts {
            events: counted(self.events, is_event(line))?,
            starts: counted(self.starts, is_start(line))?,
            throws: counted(self.throws, is_throw(line))?,
            prints: counted(self.prints, is_print(line))?,
        };
        Ok(())
    }

    fn faults(&self) -> u64 {
        0
    }
}
