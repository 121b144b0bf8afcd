// What is kept of the lines of a run.

ghost use Rattle.std.specs.Prelude.{◌≡◌, ◌+◌, IfOk, OnOk};
ghost use Rattle.flow_trace.specs.Groups.{is_event};
ghost use Rattle.flow_trials.specs.Trying.{HearsLine, heard_after, heard_by, heard_nothing, one_if, times_after};

use flow_base::fault::OutFault;
use flow_base::memory::NoMemory;
use flow_cover::{Cover, Marks};
use flow_family::add_time;
use flow_sweep::{Ended, Ran};
use flow_trace::line::Line;
use flow_trace::out::LineOut;
use std::alloc::Global;

/// The times of the events of a run, where they are asked for, how many events there are, and which branches it takes, of those that
/// are looked after. No line is kept.
#[derive(Drop)]
pub(crate) struct Hears<'a> {
    pub(crate) cover: &'a Cover,
    pub(crate) timed: bool,
    pub(crate) times: Vec<u64>,
    pub(crate) events: u64,
    pub(crate) marks: Marks,
}

// Adds the time of an event, where times are asked for.
fn keep_time(timed: bool, times: &mut Vec<u64>, line: &Line) -> Result<(), NoMemory>
    ensures { OnOk result (times.new.items ≡ times_after timed line.now times.old.items) }
{
    if timed {
        add_time(times, line)?;
    }
    Ok(())
}

// Whether a line is an event's.
fn is_event(line: &Line) -> bool
    ensures { result ≡ is_event line.now }
{
    match line {
        Line::Boot(..) | Line::Kill(..) | Line::Stop(..) | Line::Cut(..) => true,
        Line::Heal(..) | Line::DiskFail(..) | Line::Timer(..) | Line::Arrival(..) => true,
        Line::Read(..) | Line::Write(..) | Line::Sync(..) | Line::Size(..) => true,
        _ => false,
    }
}

// How many events there are with a line more. At its end a count takes no more.
fn counted(events: u64, line: &Line) -> Result<u64, NoMemory>
    ensures { IfOk result (λ n. n ≡ events + one_if (is_event line.now)) }
{
    if !is_event(line) {
        return Ok(events);
    }
    match events.checked_add(1) {
        Some(more) => Ok(more),
        None => Err(NoMemory),
    }
}

impl<'a> Hears<'a> {
    // Before the first line of a run.
    pub(crate) fn new(alloc: Global, cover: &'a Cover, timed: bool) -> Result<Hears<'a>, NoMemory>
        ensures { IfOk result (λ h. heard_by h ≡ heard_nothing cover.now timed) }
    {
        let marks = Marks::new(alloc, cover)?;
        Ok(Hears {
            cover,
            timed,
            times: Vec::new(alloc),
            events: 0,
            marks,
        })
    }

    // Hears a line.
    fn hear(&mut self, line: &Line) -> Result<(), NoMemory>
        ensures { OnOk result (heard_by self.new ≡ heard_after line.now (heard_by self.old)) }
    {
        keep_time(self.timed, &mut self.times, line)?;
        self.events = counted(self.events, line)?;
        self.marks.hear(self.cover, line)
    }

    // What a run came to that ended so, and the times of its events.
    pub(crate) fn told(self, ended: Ended) -> (Ran, Vec<u64>)
        ensures ended { result.0.ended ≡ ended }
        ensures events { result.0.events ≡ self.entry.events }
        ensures shown { result.0.shown.items ≡ self.entry.marks.taken }
        ensures times { result.1.items ≡ self.entry.times.items }
    {
        let Hears {
            cover: _,
            timed: _,
            times,
            events,
            marks,
        } = self;
        (
            Ran {
                ended,
                events,
                shown: marks.taken(),
            },
            times,
        )
    }
}

impl<'a> LineOut for Hears<'a> {
    ghost puts = { λ old line answer new. HearsLine (heard_by old) line answer (heard_by new) };

    ghost faults = { λ h. 0 };

    ghost kept = { λ h. record {} };

    fn put(&mut self, line: &Line) -> Result<(), OutFault> {
        match self.hear(line) {
            Ok(()) => Ok(()),
            Err(_) => Err(OutFault::OutOfMemory),
        }
    }

    fn faults(&self) -> u64 {
        0
    }
}
