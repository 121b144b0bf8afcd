// Writing a whole piece.

ghost use Rattle.std.specs.Prelude.{OnOk};
ghost use Rattle.std.specs.Io.KnownBytes.{Appends};
ghost use Rattle.flow_base.specs.Bytes.{AppendsPart, Grows};
ghost use Rattle.flow_base.specs.Faults.{HasCause};

use crate::fault::OutFault;
use crate::sink::Sink;

/// Writes the whole piece, going on after each short write. What was written is always a first part
/// of it. `Failed` comes only where the sink's count rose.
pub fn write_whole<S: Sink>(out: &mut S, piece: &[u8]) -> Result<(), OutFault>
    ensures whole { OnOk result (Appends (S.seen out.old).written (S.seen out.new).written
        piece.now) }
    ensures part { AppendsPart (S.seen out.old).written (S.seen out.new).written piece.now }
    ensures handed { Grows (S.seen out.old).handed (S.seen out.new).handed }
    ensures cause { HasCause (S.seen out.old).faults (S.seen out.new).faults result }
{
    let mut rest = piece;
    while !rest.is_empty() {
        let count = out.write(rest)?;
        if count == 0 {
            return Err(OutFault::Failed);
        }
        rest = &rest[count..];
    }
    Ok(())
}
