// The monitor held.

ghost use Rattle.std.specs.Prelude.{◌≡◌, codes};
ghost use Rattle.flow_lab_monitors.specs.Watching.{text_says, change_of, counts_changed, held_ear, held_first, held_of};

use flow_base::ids::ProcId;
use flow_monitor::counts::Counts;
use flow_monitor::heard::process_after;
use flow_monitor::{Heard, Monitor};
use flow_trace::line::Line;

/// What a line says of the things that processes hold: one is got or given back by the process that runs, or a process is
/// killed.
#[derive(Clone, Copy, PartialEq, Eq)]
pub enum Change {
    Got,
    Given,
    Lost(ProcId),
    Stays,
}

/// Counts what processes say that they hold: a printed text that begins with `+` is one more for the process, `-` one less,
/// where there is one, and a kill leaves it none. Says Stop where they are more than its limit together. A line is of the
/// process of the last event line that names just one.
#[derive(Drop)]
pub struct Held {
    counts: Counts,
    process: ProcId,
    limit: u64,
}

impl Held {
    /// It takes no memory.
    pub fn new() -> Held
        ensures { held_of result.counts.counts result.process.0 result.limit ≡ held_first 0 }
    {
        Held {
            counts: Counts::new(),
            process: ProcId(0),
            limit: 0,
        }
    }
}

// What a printed text says.
fn text_says(text: &[u8]) -> Change
    ensures { result ≡ text_says text.now }
{
    match text.first() {
        Some(43) => Change::Got,
        Some(45) => Change::Given,
        _ => Change::Stays,
    }
}

// What a line says.
fn change_of(line: &Line) -> Change
    ensures { result ≡ change_of line.now }
{
    match line {
        Line::PrintText(_, text) => text_says(text.bytes()),
        Line::Kill(_, _, killed) => Change::Lost(*killed),
        _ => Change::Stays,
    }
}

impl Held {
    // Counts what a line says.
    fn count(&mut self, change: Change)
        ensures counts { self.new.counts.counts
            ≡ counts_changed change self.old.process.0 self.old.counts.counts }
        ensures process { self.new.process ≡ self.old.process }
        ensures limit { self.new.limit ≡ self.old.limit }
    {
        match change {
            Change::Got => self.counts.add(self.process),
            Change::Given => self.counts.take(self.process),
            Change::Lost(killed) => self.counts.clear(killed),
            Change::Stays => {}
        }
    }
}

impl Monitor for Held {
    ghost label = { λ m. codes "held" };

    ghost ear = { λ m. held_ear (held_of m.counts.counts m.process.0 m.limit) };

    ghost begun = { λ m limit. held_ear (held_first limit) };

    fn name(&self) -> &str {
        "held"
    }

    fn begin(&mut self, limit: u64) {
        *self = Held::new();
        self.limit = limit;
    }

    fn line(&mut self, line: &Line) -> Heard {
        self.count(change_of(line));
        self.process = process_after(self.process, line);
        if u128::from(self.limit) < self.counts.total() {
            Heard::Stop
        } else {
            Heard::Go
        }
    }
}
