// Laws of the verdict on a program text.

ghost use Rattle.std.specs.Prelude.{ℕ, List};
ghost use Rattle.flow_front.specs.Laws.{OneVerdict};

/// A text has one verdict at most: it is one program at most, is refused by one rule at one place at most, loses a local at one
/// use of it at most, is never both a program and none, and never two of sound, refused and losing a local.
pub fn one_verdict()
    ensures { (text : List ℕ) → OneVerdict text }
{}
