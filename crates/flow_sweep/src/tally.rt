// How many runs ended how.

ghost use Rattle.std.specs.Prelude.{◌≡◌, ◌+◌, ◌++◌, replicate, slice_get, IfOk, OnOk};
ghost use Rattle.flow_sweep.specs.Sweeps.{counted, counts_text, no_tally, number_line, one_ended, status_of, tallied, with_shown};

use crate::ran::{Ended, Ran};
use flow_base::memory::NoMemory;
use itoa::Buffer;
use std::alloc::Global;
use std::marker::Model;

/// How many runs were made, how many events they had, how many of them ended how, and how many show each thing that is looked
/// for. At its end a count takes no more.
#[derive(Drop)]
pub struct Tally {
    pub runs: u64,
    pub events: u64,
    pub stopped: u64,
    pub spent: u64,
    pub bound: u64,
    pub idle: u64,
    pub shown: Vec<u64>,
}

impl Model for Tally {
    ghost use Rattle.flow_sweep.specs.Sweeps.{Tally};

    ghost Value = { Tally };

    ghost view = { λ t. record {
      runs = t.runs;
      events = t.events;
      stopped = t.stopped;
      spent = t.spent;
      bound = t.bound;
      idle = t.idle;
      shown = t.shown.items;
    } };
}

// The sum of two counts, where there is one.
fn sum(count: u64, more: u64) -> Result<u64, NoMemory>
    ensures { IfOk result (λ n. n ≡ count + more) }
{
    match count.checked_add(more) {
        Some(sum) => Ok(sum),
        None => Err(NoMemory),
    }
}

// A count of a thing, of this number, with one run more, which shows these.
fn counted(shown: &[bool], thing: usize, count: u64) -> Result<u64, NoMemory>
    ensures { IfOk result (λ n. n ≡ counted (slice_get shown.now thing) count) }
{
    match shown.get(thing).copied() {
        Some(true) => sum(count, 1),
        Some(false) | None => Ok(count),
    }
}

// One run more, which shows these things.
fn add_shown(counts: &mut Vec<u64>, shown: &[bool]) -> Result<(), NoMemory>
    ensures { OnOk result (counts.new.items ≡ with_shown shown.now 0 counts.old.items) }
{
    for k in 0..counts.len() {
        counts[k] = counted(shown, k, counts[k])?;
    }
    Ok(())
}

// Adds a word and a number as a line.
fn push_number(text: &mut Vec<u8>, word: &[u8], n: u64) -> Result<(), NoMemory>
    ensures { OnOk result (text.new.items ≡ text.old.items ++ number_line word.now n) }
{
    text.extend_from_slice(word)?;
    text.extend_from_slice(b" ")?;
    text.extend_from_slice(Buffer::new().format(n).as_bytes())?;
    text.extend_from_slice(b"\n")?;
    Ok(())
}

impl Tally {
    /// No run yet, and so many things that are looked for.
    pub fn new(alloc: Global, things: usize) -> Result<Tally, NoMemory>
        ensures { IfOk result (λ t. t ≡ no_tally things) }
    {
        Ok(Tally {
            runs: 0,
            events: 0,
            stopped: 0,
            spent: 0,
            bound: 0,
            idle: 0,
            shown: vec![in alloc; 0; things]?,
        })
    }

    // One more that ended so.
    fn add_end(&mut self, ended: &Ended) -> Result<(), NoMemory>
        ensures { OnOk result (self.new ≡ one_ended ended.now self.old) }
    {
        match ended {
            Ended::Stopped(_) => self.stopped = sum(self.stopped, 1)?,
            Ended::Spent => self.spent = sum(self.spent, 1)?,
            Ended::Bound => self.bound = sum(self.bound, 1)?,
            Ended::Idle => self.idle = sum(self.idle, 1)?,
        }
        Ok(())
    }

    /// Adds a run.
    pub fn add(&mut self, ran: &Ran) -> Result<(), NoMemory>
        ensures { OnOk result (self.new ≡ tallied ran.now self.old) }
    {
        self.runs = sum(self.runs, 1)?;
        self.events = sum(self.events, ran.events)?;
        add_shown(&mut self.shown, &ran.shown)?;
        self.add_end(&ran.ended)
    }

    /// A line for each count.
    pub fn text(&self, alloc: Global) -> Result<Vec<u8>, NoMemory>
        ensures { IfOk result (λ text. text.items ≡ counts_text self.now) }
    {
        let mut text = Vec::new(alloc);
        push_number(&mut text, b"runs", self.runs)?;
        push_number(&mut text, b"events", self.events)?;
        push_number(&mut text, b"stop", self.stopped)?;
        push_number(&mut text, b"spent", self.spent)?;
        push_number(&mut text, b"bound", self.bound)?;
        push_number(&mut text, b"idle", self.idle)?;
        Ok(text)
    }

    /// The status: 8 where a run was stopped, else 4 where an event of one was spent, else 0.
    pub fn status(&self) -> u8
        ensures { result ≡ status_of self.now }
    {
        if self.stopped > 0 {
            return 8;
        }
        if self.spent > 0 {
            return 4;
        }
        0
    }
}
