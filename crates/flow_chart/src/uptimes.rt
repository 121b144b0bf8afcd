// When processes are up.

ghost use Rattle.std.specs.Prelude.{◌≡◌, get_or, None, OnOk};
ghost use Rattle.flow_chart.specs.Drawing.{bar, goes_up, goes_down, up_after, no_uptimes};

use flow_base::ids::ProcId;
use flow_base::memory::NoMemory;
use flow_trace::line::Line;
use std::alloc::Global;
use std::marker::Model;

/// A time when a process is up, by its first and its last row.
#[derive(Clone, Copy)]
pub struct Bar {
    pub process: u8,
    pub first: u32,
    pub last: u32,
}

/// For each process the row of its boot, while it is up, and the times that are over. Contracts see it as these.
#[derive(Drop)]
pub struct Uptimes {
    since: [Option<u32>; 256],
    over: Vec<Bar>,
}

impl Model for Uptimes {
    ghost use Rattle.flow_chart.specs.Drawing.{Uptimes};

    ghost Value = { Uptimes };

    ghost view = { λ u. record { since = u.since; over = u.over.items } };
}

/// The time of a process that is up since a row, if it is.
pub(crate) fn bar_since(process: u8, since: Option<u32>, last: u32) -> Option<Bar>
    ensures { result ≡ bar process since last }
{
    match since {
        Some(first) => Some(Bar {
            process,
            first,
            last,
        }),
        None => None,
    }
}

impl Uptimes {
    /// No process is up yet. It takes no memory.
    pub(crate) fn new(alloc: Global) -> Uptimes
        ensures { result ≡ no_uptimes }
    {
        Uptimes {
            since: [None; 256],
            over: Vec::new(alloc),
        }
    }

    /// The times that are over, in the order in which they ended.
    pub(crate) fn over(&self) -> &[Bar]
        ensures { result.now ≡ self.now.over }
    {
        &self.over
    }

    /// The time of a process that is still up at a row, if it is.
    pub(crate) fn still(&self, process: u8, row: u32) -> Option<Bar>
        ensures { result ≡ bar process (get_or self.now.since process None) row }
    {
        bar_since(process, self.since[usize::from(process)], row)
    }

    // A process boots in a row.
    fn goes_up(&mut self, process: ProcId, row: u32)
        ensures { self.new ≡ goes_up process.0 row self.old }
    {
        let place = usize::from(process.0);
        if self.since[place].is_none() {
            self.since[place] = Some(row);
        }
    }

    // A process is killed in a row.
    fn goes_down(&mut self, process: ProcId, row: u32) -> Result<(), NoMemory>
        ensures { OnOk result (self.new ≡ goes_down process.0 row self.old) }
    {
        let bar = self.still(process.0, row);
        self.since[usize::from(process.0)] = None;
        if let Some(bar) = bar {
            self.over.push(bar)?;
        }
        Ok(())
    }

    /// A line that stands in a row.
    pub(crate) fn hear(&mut self, line: &Line, row: u32) -> Result<(), NoMemory>
        ensures { OnOk result (self.new ≡ up_after line.now row self.old) }
    {
        match line {
            Line::Boot(_, _, process) => {
                self.goes_up(*process, row);
                Ok(())
            }
            Line::Kill(_, _, process) => self.goes_down(*process, row),
            _ => Ok(()),
        }
    }
}
