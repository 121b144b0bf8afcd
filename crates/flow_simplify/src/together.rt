// Monitors that hear as one.

ghost use Rattle.std.specs.Prelude.{◌≡◌, ℕ, codes, Some};
ghost use Rattle.flow_monitor.specs.Ears.{ear_hears};
ghost use Rattle.flow_simplify.specs.Together.{both_ears, both_say, says, still};

use flow_monitor::{Heard, Monitor};
use flow_trace::line::Line;

/// A monitor that begins with a limit of its own, whichever it is told.
#[derive(Drop)]
pub struct Limited {
    monitor: Box<dyn Monitor>,
    limit: u64,
}

impl Limited {
    /// This monitor, with this limit.
    pub fn new(monitor: Box<dyn Monitor>, limit: u64) -> Limited
        ensures { (told : ℕ) → ⟦<Limited as Monitor>⟧.begun result told ≡ begun monitor limit }
    {
        Limited { monitor, limit }
    }
}

impl Monitor for Limited {
    ghost label = { λ m. codes "limited" };

    ghost ear = { λ m. (Monitor-box m.monitor).ear m.monitor.value };

    ghost begun = { λ m limit. (Monitor-box m.monitor).begun m.monitor.value m.limit };

    fn name(&self) -> &str {
        "limited"
    }

    fn begin(&mut self, _limit: u64) {
        self.monitor.begin(self.limit);
    }

    fn line(&mut self, line: &Line) -> Heard {
        self.monitor.line(line)
    }
}

// A monitor, and whether it still hears.
#[derive(Drop)]
struct Hearer {
    monitor: Box<dyn Monitor>,
    hears: bool,
}

// What two say together.
fn both_say(first: Heard, second: Heard) -> Heard
    ensures { result ≡ both_say first second }
{
    match (first, second) {
        (Heard::Stop, _) => Heard::Stop,
        (Heard::Go, Heard::Stop) => Heard::Stop,
        (Heard::Go, Heard::Go) => Heard::Go,
        (Heard::Go, Heard::Done) => Heard::Go,
        (Heard::Done, said) => said,
    }
}

impl Hearer {
    // Hears a line, unless it has heard enough.
    fn line(&mut self, line: &Line) -> Heard
        ensures said { result ≡ says line.now (still self.old.hears (ear self.old.monitor)) }
        ensures kept { still self.new.hears (ear self.new.monitor)
            ≡ ear_hears line.now (still self.old.hears (ear self.old.monitor)) }
        ensures begun { begun self.new.monitor ≡ begun self.old.monitor }
    {
        if !self.hears {
            return Heard::Done;
        }
        let said = self.monitor.line(line);
        self.hears = matches!(said, Heard::Go);
        said
    }
}

/// Two monitors that hear a run as one: it says Stop where one of them does, and Done where both have heard enough. More than two
/// are such of such.
#[derive(Drop)]
pub struct Both {
    first: Hearer,
    second: Hearer,
}

impl Both {
    /// These two, which begin with the limit that it is told.
    pub fn new(first: Box<dyn Monitor>, second: Box<dyn Monitor>) -> Both
        ensures { (limit : ℕ) → ⟦<Both as Monitor>⟧.begun result limit
            ≡ both_ears (Some (begun first limit)) (Some (begun second limit)) }
    {
        Both {
            first: Hearer {
                monitor: first,
                hears: true,
            },
            second: Hearer {
                monitor: second,
                hears: true,
            },
        }
    }
}

impl Monitor for Both {
    ghost label = { λ m. codes "both" };

    ghost ear = { λ m. both_ears
        (still m.first.hears ((Monitor-box m.first.monitor).ear m.first.monitor.value))
        (still m.second.hears ((Monitor-box m.second.monitor).ear m.second.monitor.value)) };

    ghost begun = { λ m limit. both_ears
        (Some ((Monitor-box m.first.monitor).begun m.first.monitor.value limit))
        (Some ((Monitor-box m.second.monitor).begun m.second.monitor.value limit)) };

    fn name(&self) -> &str {
        "both"
    }

    fn begin(&mut self, limit: u64) {
        self.first.monitor.begin(limit);
        self.first.hears = true;
        self.second.monitor.begin(limit);
        self.second.hears = true;
    }

    fn line(&mut self, line: &Line) -> Heard {
        let first = self.first.line(line);
        let second = self.second.line(line);
        both_say(first, second)
    }
}
