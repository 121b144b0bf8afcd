// What the lines of a world file say, while it is read.

ghost use Rattle.std.specs.Prelude.{◌≡◌, ◌↔◌, [], IsTrue, OnOk, IfErr};
ghost use Rattle.flow_worldfile.specs.Directives.{InRange, Names};
ghost use Rattle.flow_worldfile.specs.Worlds.{said, seen, world_of};
ghost use Rattle.flow_worldfile.specs.Reading.{HasRoom, is_repeated};
ghost use Rattle.flow_worldfile.specs.Drafts.{drafted, added, LineRead};

use crate::directive::Directive;
use crate::forms::directive;
use crate::lines::is_passed_over;
use crate::world::{At, World0, WorldFault};
use std::alloc::Global;

/// The greatest number of `word` lines.
const MOST_WORDS: usize = 100_000;

/// The greatest number of `at` lines.
const MOST_ORDERS: usize = 10_000;

/// What the lines so far say. What may be said once is none until a line says it.
#[derive(Drop)]
pub struct Draft {
    pub seed: Option<u64>,
    pub processes: Option<u8>,
    pub events: Option<u32>,
    pub turns: Option<u32>,
    pub latency: Option<(u64, u64)>,
    pub diskdelay: Option<(u64, u64)>,
    pub loss: Option<u16>,
    pub words: Vec<u32>,
    pub script: Vec<At>,
}

impl Draft {
    /// What no line says.
    pub fn new(alloc: Global) -> Draft
        ensures { drafted result ≡ said [] }
    {
        Draft {
            seed: None,
            processes: None,
            events: None,
            turns: None,
            latency: None,
            diskdelay: None,
            loss: None,
            words: Vec::new(alloc),
            script: Vec::new(alloc),
        }
    }

    /// Whether one more such line may stand.
    fn has_room(&self, line: &Directive) -> bool
        ensures { IsTrue result ↔ HasRoom (drafted self.now) line.now }
    {
        match line {
            Directive::Word(_) => self.words.len() < MOST_WORDS,
            Directive::At(..) => self.script.len() < MOST_ORDERS,
            _ => true,
        }
    }

    /// Whether such a line stood already, and may not stand again.
    fn is_repeated(&self, line: &Directive) -> bool
        ensures { result ≡ is_repeated (drafted self.now) line.now }
    {
        match line {
            Directive::Seed(_) => self.seed.is_some(),
            Directive::Processes(_) => self.processes.is_some(),
            Directive::Events(_) => self.events.is_some(),
            Directive::Turns(_) => self.turns.is_some(),
            Directive::Latency(..) => self.latency.is_some(),
            Directive::DiskDelay(..) => self.diskdelay.is_some(),
            Directive::Loss(_) => self.loss.is_some(),
            Directive::Word(_) | Directive::At(..) => false,
        }
    }

    /// Adds what a line says, where there are `count` processes.
    fn add(&mut self, line: Directive, count: u8) -> Result<(), WorldFault>
        requires in_range { InRange line }
        requires named { Names count line }
        ensures added { OnOk result (drafted self.new ≡ added (drafted self.old) line) }
        ensures memory { IfErr result (λ fault. fault ≡ WorldFault.OutOfMemory) }
    {
        match line {
            Directive::Seed(n) => self.seed = Some(n as u64),
            Directive::Processes(n) => self.processes = Some(n as u8),
            Directive::Events(n) => self.events = Some(n as u32),
            Directive::Turns(n) => self.turns = Some(n as u32),
            Directive::Latency(lo, hi) => self.latency = Some((lo as u64, hi as u64)),
            Directive::DiskDelay(lo, hi) => self.diskdelay = Some((lo as u64, hi as u64)),
            Directive::Loss(n) => self.loss = Some(n as u16),
            Directive::Word(n) => self.words.push(n as u32)?,
            Directive::At(time, order) => self.script.push(At {
                time: time as u64,
                act: order.act(count),
            })?,
        }
        Ok(())
    }

    /// Reads line `number`, where there are `count` processes.
    pub fn read(&mut self, line: &[u8], number: u32, count: u8) -> Result<(), WorldFault>
        ensures { LineRead count number (drafted self.old) line.now result (drafted self.new) }
    {
        if is_passed_over(line) {
            return Ok(());
        }
        let Some(line) = directive(line) else {
            return Err(WorldFault::Form(number));
        };
        if !line.is_in_range() || !self.has_room(&line) {
            return Err(WorldFault::Range(number));
        }
        if self.is_repeated(&line) {
            return Err(WorldFault::Twice(number));
        }
        if !line.names(count) {
            return Err(WorldFault::NoProcess(number));
        }
        self.add(line, count)
    }

    /// The world of what was said, with a default for what wasn't.
    pub fn world(self) -> World0
        ensures { seen result ≡ world_of (drafted self) }
    {
        World0 {
            seed: self.seed.unwrap_or(0),
            words: self.words,
            processes: self.processes.unwrap_or(1),
            events: self.events.unwrap_or(1000),
            turns: self.turns.unwrap_or(100_000),
            latency: self.latency.unwrap_or((1, 2)),
            loss: self.loss.unwrap_or(0),
            diskdelay: self.diskdelay.unwrap_or((1, 2)),
            script: self.script,
        }
    }
}
