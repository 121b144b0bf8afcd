// Lines that go out in words.

ghost use Rattle.std.specs.Prelude.{◌≡◌, OnOk};
ghost use Rattle.std.specs.Borrow.{GName};
ghost use Rattle.std.specs.Io.KnownBytes.{Appends};
ghost use Rattle.std.proofs.Props.{props};
ghost use Rattle.flow_base.specs.Bytes.{AppendsPart, Grows};
ghost use Rattle.flow_base.specs.Faults.{HasCause};
ghost use Rattle.flow_explain.specs.Living.{told_nothing};
ghost use Rattle.flow_explain.specs.Writing.{WritesWords};
ghost use Rattle.flow_explain.specs.Words.{in_words};

use crate::living::Telling;
use crate::pieces::LineBytes;
use crate::texts::ActorText;
use flow_base::fault::OutFault;
use flow_base::output::write_whole;
use flow_base::sink::Sink;
use flow_trace::line::Line;
use flow_trace::out::LineOut;
use std::alloc::Global;
use std::snapshot::Snapshot;

/// Lines that are written to a sink in words as they are put, each by one call where the sink takes it whole; the actors of the
/// program that they are told by; what they told so far; and the sink as it was before the first of them: what was written
/// then stays. Who made it takes it apart again, to go on with the sink.
pub struct WordsOut<'t, 'a, S: Sink> {
    pub out: &'a mut S,
    pub texts: &'t [ActorText],
    pub told: Telling,
    pub line: LineBytes,
    pub before: Snapshot<S>,
    ghost grown: { Grows (S.seen before.value).written
        (S.seen out.now).written } by { Prim.hlevel props },
    ghost handed: { Grows (S.seen before.value).handed
        (S.seen out.now).handed } by { Prim.hlevel props },
}

impl<'t, 'a, S: Sink> WordsOut<'t, 'a, S> {
    /// Over a sink that lines are to go to from now on, told by these actors, after what was told so far. It takes no memory.
    pub fn new(
        alloc: Global,
        texts: &'t [ActorText],
        told: Telling,
        out: &'a mut S,
    ) -> WordsOut<'t, 'a, S>
        ensures same_sink { (result.out.ghost_name ≡ out.entry.ghost_name)
            × (result.out.now ≡ out.old) }
        ensures before { result.before.value ≡ out.old }
        ensures texts { result.texts.now ≡ texts.now }
        ensures told { result.told ≡ told }
    {
        let before = Snapshot::of(&*out);
        WordsOut {
            out,
            texts,
            told,
            line: LineBytes::new(alloc),
            before,
        }
    }
}

impl<'t, 'a, S: Sink> LineOut for WordsOut<'t, 'a, S> {
    ghost puts = { λ old line answer new. (new.before.value ≡ old.before.value)
        × WritesWords
        (record { texts = old.texts.now; told = old.told; written = (S.seen old.out.now).written })
        line answer
        (record { texts = new.texts.now; told = new.told; written = (S.seen new.out.now).written }) };

    ghost faults = { λ w. (S.seen w.out.now).faults };

    ghost Kept = { GName × S };

    ghost kept = { λ w. (w.out.ghost_name, w.before.value) };

    fn put(&mut self, line: &Line) -> Result<(), OutFault> {
        let Ok(()) = self.line.tell(self.texts, &self.told, line) else {
            return Err(OutFault::OutOfMemory);
        };
        let Ok(()) = self.told.hear(self.texts, line) else {
            return Err(OutFault::OutOfMemory);
        };
        write_whole(self.out, self.line.bytes())
    }

    fn faults(&self) -> u64 {
        self.out.faults()
    }
}

/// Writes lines in words, from the first to the last, told by these actors; or, where a write fails or there is no memory, a first
/// part of their bytes. `Failed` comes only where the sink's count of faults rose.
pub fn write_words<S: Sink>(
    alloc: Global,
    texts: &[ActorText],
    lines: &[Line],
    out: &mut S,
) -> Result<(), OutFault>
    ensures whole { OnOk result (Appends (S.seen out.old).written (S.seen out.new).written
        (in_words texts.now told_nothing lines.now)) }
    ensures part { AppendsPart (S.seen out.old).written (S.seen out.new).written
        (in_words texts.now told_nothing lines.now) }
    ensures cause { HasCause (S.seen out.old).faults (S.seen out.new).faults result }
{
    let Ok(told) = Telling::new(alloc) else {
        return Err(OutFault::OutOfMemory);
    };
    let mut words = WordsOut::new(alloc, texts, told, out);
    let answer = put_lines(lines, &mut words);
    let WordsOut {
        out,
        texts: _,
        told: _,
        line: _,
        before: _,
    } = words;
    // No effect at run time. The proof reads what the sink is from this use of `out`.
    let _ = &*out;
    answer
}

// Puts lines, from the first to the last, or up to one that fails.
fn put_lines<S: Sink>(lines: &[Line], words: &mut WordsOut<'_, '_, S>) -> Result<(), OutFault>
    ensures whole { OnOk result (Appends (S.seen words.old.out.now).written
        (S.seen words.new.out.now).written
        (in_words words.old.texts.now words.old.told lines.now)) }
    ensures part { AppendsPart (S.seen words.old.out.now).written (S.seen words.new.out.now).written
        (in_words words.old.texts.now words.old.told lines.now) }
    ensures cause { HasCause (S.seen words.old.out.now).faults (S.seen words.new.out.now).faults
        result }
    ensures name { words.new.out.ghost_name ≡ words.old.out.ghost_name }
{
    for line in lines {
        words.put(line)?;
    }
    Ok(())
}
