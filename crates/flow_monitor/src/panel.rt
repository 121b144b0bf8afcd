// A panel of monitors that hear a trace together.

ghost use Rattle.std.specs.Prelude.{◌≡◌, ℕ, List, [], ◌∷◌, option_map, map, Some, None, ◌<◌, length};
ghost use Rattle.std.specs.String.{string_bytes};
ghost use Rattle.std.proofs.Props.{props};
ghost use Rattle.flow_monitor.specs.Ears.{Ears, IsMonitorName, ear_hears, says_stop, kept_if, is_stop, or_here, after, first_stop, first_below, name_at};

use crate::monitor::{Heard, Monitor};
use flow_trace::line::Line;
use std::alloc::Global;

/// Who hears the lines of a trace and may say that it is to stop: monitors, numbered from 0.
pub trait Audience {
    /// Their names, and what they say.
    ghost ears: { Self → Ears };

    /// Tells the line to each that still hears; one that says Done or Stop at it hears no more. Answers the first that
    /// says Stop.
    fn hear(&mut self, line: &Line) -> Option<usize>
        ensures ears { ears self.new ≡ after line.now (ears self.old) }
        ensures stop { result ≡ first_stop line.now (ears self.old) };

    /// The name of a number. Numbers and names stay when one hears no more.
    fn name(&self, k: usize) -> &str
        requires { k < length (ears self.now) }
        ensures name { result.now ≡ name_at (ears self.now) k }
        ensures form { IsMonitorName (name_at (ears self.now) k) };
}

// A monitor with its name, which stays where the monitor is dropped.
#[derive(Drop)]
pub(crate) struct Seat {
    pub(crate) name: String,
    pub(crate) monitor: Option<Box<dyn Monitor>>,
    ghost form: { IsMonitorName (string_bytes name) } by { Prim.hlevel props },
}

// Tells a monitor a line.
#[tactic(auto, using(crate::proofs::Keeping::kept_after, crate::proofs::Keeping::stops_by))]
fn ask(monitor: &mut dyn Monitor, line: &Line) -> Heard
    ensures kept { kept_if result (ear monitor.new) ≡ ear_hears line.now (Some (ear monitor.old)) }
    ensures stop { is_stop result ≡ says_stop line.now (Some (ear monitor.old)) }
{
    monitor.line(line)
}

impl Seat {
    // Tells the line, and says whether the answer is Stop. One that says Done or Stop is dropped.
    fn hear(&mut self, line: &Line) -> bool
        ensures name { string_bytes self.new.name ≡ string_bytes self.old.name }
        ensures kept { option_map ear self.new.monitor
            ≡ ear_hears line.now (option_map ear self.old.monitor) }
        ensures stop { result ≡ says_stop line.now (option_map ear self.old.monitor) }
    {
        let Some(mut monitor) = self.monitor.take() else {
            return false;
        };
        match ask(&mut *monitor, line) {
            Heard::Go => {
                self.monitor = Some(monitor);
                false
            }
            Heard::Done => false,
            Heard::Stop => true,
        }
    }
}

fn or_here(first: Option<usize>, here: bool, k: usize) -> Option<usize>
    ensures { result ≡ or_here first here k }
{
    match first {
        Some(i) => Some(i),
        None => { if here { Some(k) } else { None } }
    }
}

// Tells each the line, and answers the first that says Stop.
fn tell(seats: &mut [Seat], line: &Line) -> Option<usize>
    ensures ears { map (λ s. record { name = string_bytes s.name; ear = option_map ear s.monitor })
        seats.new ≡ after line.now (map (λ s. record {
          name = string_bytes s.name;
          ear = option_map ear s.monitor;
        }) seats.old) }
    ensures stop { result ≡ first_stop line.now (map (λ s. record {
      name = string_bytes s.name;
      ear = option_map ear s.monitor;
    }) seats.old) }
{
    let mut first = None;
    for (k, seat) in seats.iter_mut().enumerate() {
        first = or_here(first, seat.hear(line), k);
    }
    first
}

// The name of one.
fn name_of(seats: &[Seat], k: usize) -> &str
    requires { k < length seats.now }
    ensures name { result.now ≡ name_at (map (λ s. record {
      name = string_bytes s.name;
      ear = option_map ear s.monitor;
    }) seats.now) k }
    ensures form { IsMonitorName result.now }
{
    seats[k].name.as_str()
}

/// Monitors that hear a trace together. One that says Done or Stop is dropped at once.
#[derive(Drop)]
pub struct Panel {
    pub(crate) seats: Vec<Seat>,
}

impl Panel {
    /// A panel of no monitor. It takes no memory.
    pub fn empty(alloc: Global) -> Panel
        ensures { ⟦<Panel as Audience>⟧.ears result ≡ [] }
    {
        Panel {
            seats: Vec::new(alloc),
        }
    }
}

impl Audience for Panel {
    ghost ears = { λ p. map (λ s. record {
      name = string_bytes s.name;
      ear = option_map (λ m. (Monitor-box m).ear m.value) s.monitor;
    }) p.seats.items };

    fn hear(&mut self, line: &Line) -> Option<usize> {
        tell(&mut self.seats, line)
    }

    fn name(&self, k: usize) -> &str {
        name_of(&self.seats, k)
    }
}
