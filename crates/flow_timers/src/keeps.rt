// Which pending events stay.

ghost use Rattle.std.specs.Prelude.{◌≡◌, Bool};

/// Says of what happens at an event whether it stays.
pub trait Keeps<T> {
    ghost keeps: { Self → T → Bool };

    /// Whether an event stays at which this happens.
    fn keeps(&self, what: &T) -> bool
        ensures { result ≡ keeps self.now what.now };
}
