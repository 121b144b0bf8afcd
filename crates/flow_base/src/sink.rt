// Where bytes go.

ghost use Rattle.std.specs.Prelude.{◌≡◌, ◌<◌, ◌≤◌, length, IfOk, OnOk};
ghost use Rattle.std.specs.Io.KnownBytes.{Keeps, WriteAppends};
ghost use Rattle.flow_base.specs.Bytes.{Grows};
ghost use Rattle.flow_base.specs.Faults.{HasCause, Rose};
ghost use Rattle.flow_base.specs.Seen.{SinkSeen};

use crate::fault::OutFault;

/// A place that bytes are written to, which hands them on at once or later. It may tell what was
/// written and what of it was handed on; an object that tells nothing, as standard output, has
/// `None` there. What was handed on is a first part of what was written, and stays. The count of
/// faults never falls; at 2^64 - 1 it stands still.
pub trait Sink {
    /// What is known of it: the bytes written and handed on so far, and the count of faults.
    ghost seen: { Self → SinkSeen };

    /// Takes a first part of the piece, and says how many bytes that was: none of a piece with bytes
    /// is a fault, by the count. A write that fails takes nothing.
    fn write(&mut self, piece: &[u8]) -> Result<usize, OutFault>
        ensures count { IfOk result (λ n. n ≤ length piece.now) }
        ensures bytes { WriteAppends (seen self.old).written (seen self.new).written result
            piece.now }
        ensures handed { Grows (seen self.old).handed (seen self.new).handed }
        ensures stuck { IfOk result (λ n. n ≡ 0 → 0 < length piece.now
            → Rose (seen self.old).faults (seen self.new).faults) }
        ensures cause { HasCause (seen self.old).faults (seen self.new).faults result };

    /// Hands on what was written, which doesn't change.
    fn flush(&mut self) -> Result<(), OutFault>
        ensures bytes { Keeps (seen self.old).written (seen self.new).written }
        ensures handed { Grows (seen self.old).handed (seen self.new).handed }
        ensures all { OnOk result ((seen self.new).handed ≡ (seen self.new).written) }
        ensures cause { HasCause (seen self.old).faults (seen self.new).faults result };

    /// How often it has failed.
    fn faults(&self) -> u64
        ensures { result ≡ (seen self.now).faults };

    /// What was handed on is a first part of what was written.
    ghost handed_first: { (s : Self) → Grows (seen s).handed (seen s).written };
}
