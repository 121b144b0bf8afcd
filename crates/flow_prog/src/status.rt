// The status of the program.

ghost use Rattle.std.specs.Prelude.{◌≡◌, ◌≢◌, map, string_bytes, IfOk, IfErr, OnErr};
ghost use Rattle.std.specs.IoError.{error_kind};
ghost use Rattle.std.specs.Io.KnownBytes.{Keeps};
ghost use Rattle.flow_base.specs.Bytes.{Grows};
ghost use Rattle.flow_prog.specs.Status.{wordless};
ghost use Rattle.flow_top.specs.Answers.{Answers};

use flow_base::files::Files;
use flow_base::sink::Sink;
use flow_monitor::Monitor;
use flow_top::flow_main;
use std::alloc::Global;
use std::io;

/// There was no memory.
pub const NO_MEMORY: u8 = 7;

/// The words of the command line can't be had.
pub const NO_WORDS: u8 = 14;

/// Does what the words say and gives the status. Where the words can't be had, nothing is read or
/// written.
pub fn answer<F: Files, S: Sink>(
    alloc: Global,
    words: io::Result<Vec<String>>,
    files: &mut F,
    out: &mut S,
    monitors: Vec<Box<dyn Monitor>>,
) -> u8
    ensures words { IfOk words (λ given. Answers (map string_bytes given.items)
        (map (λ m. record { name = label m; begun = begun m }) monitors.items)
        (F.seen files.old) (F.seen files.new) (S.seen out.old) (S.seen out.new) result) }
    ensures handed { Grows (S.seen out.old).handed (S.seen out.new).handed }
    ensures wordless { IfErr words (λ error. result ≡ wordless (error_kind error)) }
    ensures unread { OnErr words (F.seen files.new ≡ F.seen files.old) }
    ensures unwritten { OnErr words (S.seen out.new ≡ S.seen out.old) }
{
    match words {
        Ok(words) => flow_main(alloc, &words, files, out, monitors),
        Err(error) => {
            if error.kind() == io::ErrorKind::OutOfMemory {
                NO_MEMORY
            } else {
                NO_WORDS
            }
        }
    }
}

/// Hands on what was gathered before memory was wanting. After a write that failed nothing more is
/// written, and after a whole text nothing is left.
pub fn hand_on_rest<S: Sink>(status: u8, out: &mut S)
    ensures kept { Keeps (S.seen out.old).written (S.seen out.new).written }
    ensures handed { Grows (S.seen out.old).handed (S.seen out.new).handed }
    ensures no_more { status ≢ 7 → S.seen out.new ≡ S.seen out.old }
{
    if status == NO_MEMORY {
        let _ = out.flush();
    }
}

/// Whether a status says that a text is refused, the words are no command, or a file can't be read.
pub fn is_noted(status: u8) -> bool {
    match status {
        1 | 2 | 3 | 5 | 9 | 10 => true,
        _ => false,
    }
}

/// Whether a status says that a program is accepted, and what it is asked for is carried out.
pub fn is_accepted(status: u8) -> bool {
    match status {
        0 | 4 | 8 => true,
        _ => false,
    }
}
