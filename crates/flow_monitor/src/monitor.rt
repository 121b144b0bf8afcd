// What hears the lines of a trace.

ghost use Rattle.std.specs.Prelude.{◌≡◌, ℕ, List, [], ◌∷◌};
ghost use Rattle.flow_monitor.specs.Ears.{Ear, IsMonitorName, ear_after};

use flow_trace::line::Line;

/// What a monitor says at a line: that it hears on, that it has heard enough, or that the run is to stop.
#[derive(Clone, Copy, PartialEq, Eq)]
pub enum Heard {
    Go,
    Done,
    Stop,
}

/// What hears the lines of a trace, one after another. It means what it says at a line that comes after some others.
pub trait Monitor: Drop {
    ghost label: { Self → List ℕ };

    ghost ear: { Self → Ear };

    /// The ear that it has once it has begun with a limit.
    ghost begun: { Self → ℕ → Ear };

    /// Its name: 1 to 32 letters from a to z.
    fn name(&self) -> &str
        ensures name { result.now ≡ label self.now }
        ensures form { IsMonitorName (label self.now) };

    /// Begins anew with a limit.
    fn begin(&mut self, limit: u64)
        ensures name { label self.new ≡ label self.old }
        ensures ear { ear self.new ≡ begun self.old limit }
        ensures begun { begun self.new ≡ begun self.old };

    /// Hears a line, and says what is to become of it and of the run.
    fn line(&mut self, line: &Line) -> Heard
        ensures name { label self.new ≡ label self.old }
        ensures said { result ≡ ear self.old [] line.now }
        ensures ear { ear self.new ≡ ear_after line.now (ear self.old) }
        ensures begun { begun self.new ≡ begun self.old };
}
