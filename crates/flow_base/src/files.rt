// Files that are read by name.

ghost use Rattle.std.specs.Prelude.{◌≡◌, ◌<◌, ◌≤◌, [], length, take, IfOk, OnErr};
ghost use Rattle.std.specs.Io.KnownBytes.{IsAtEnd};
ghost use Rattle.flow_base.specs.Asked.{AsksFor};
ghost use Rattle.flow_base.specs.Faults.{Counts};
ghost use Rattle.flow_base.specs.Seen.{FilesSeen, Opens, ReadsOn, opening_at};

use crate::fault::OutFault;
use crate::ids::FileNo;

/// Files that are opened by name and read from their start, each opening at a position of its own.
/// An object may tell of a name that it is missing, or which bytes it has, and tell nothing of
/// others; what it tells of a name doesn't change. What was read by each opening is always told. The
/// count of faults rises by one with each call that fails, and with no other; at 2^64 - 1 it stands
/// still.
pub trait Files {
    /// What is known of them: what is told of each name, the openings, the names asked for and the
    /// count of faults.
    ghost seen: { Self → FilesSeen };

    /// Opens the file of that name at its start. A name that is missing is a fault. The number is
    /// how many files were opened before.
    fn open_file(&mut self, name: &str) -> Result<FileNo, OutFault>
        ensures opens { Opens (seen self.old) name.now result (seen self.new) }
        ensures content { (seen self.new).content ≡ (seen self.old).content }
        ensures asked { AsksFor (seen self.old).asked (seen self.new).asked name.now result }
        ensures counted { Counts (seen self.old).faults (seen self.new).faults result };

    /// Reads bytes of an opened file from its position on into the front of the buffer, says how
    /// many, and moves the position behind them. None into a buffer with room is the file's end. A
    /// read that fails reads nothing.
    fn read(&mut self, file: FileNo, buf: &mut [u8]) -> Result<usize, OutFault>
        requires { file.0 < length (seen self.old).openings }
        ensures count { IfOk result (λ n. n ≤ length buf.new) }
        ensures reads { IfOk result (λ n. ReadsOn (seen self.old).openings
            (seen self.new).openings file.0 (take n buf.new)) }
        ensures end { IfOk result (λ n. n ≡ 0 → 0 < length buf.new
            → IsAtEnd (opening_at (seen self.new).openings file.0).left) }
        ensures unread { OnErr result (ReadsOn (seen self.old).openings (seen self.new).openings
            file.0 []) }
        ensures content { (seen self.new).content ≡ (seen self.old).content }
        ensures asked { (seen self.new).asked ≡ (seen self.old).asked }
        ensures counted { Counts (seen self.old).faults (seen self.new).faults result };

    /// How often it has failed.
    fn faults(&self) -> u64
        ensures { result ≡ (seen self.now).faults };
}
