// Reading a line.

ghost use Rattle.std.specs.Prelude.{◌≡◌, ◌⊎◌, ◌↔◌, ℕ, List, [], ◌∷◌, ◌++◌, IsTrue, IfOk, Err};
ghost use Rattle.flow_trace.specs.Bytes.{IsLine, Spells, OneSpelling, OneLine};
ghost use Rattle.flow_trace.specs.Reading.{line_in};
ghost use Rattle.flow_trace.specs.declared.line.Line.{Line};
ghost use Rattle.flow_trace.specs.declared.fault.LineFault.TheVariants.{Form};

use crate::buffer::{LineBuf, print_line};
use crate::fault::LineFault;
use crate::line::Line;
use crate::reading::line_from;
use crate::scan::split_words;
use flow_base::memory::NoMemory;
use std::alloc::Global;

// Whether the bytes are those printed, but for the line feed at their end.
fn is_cut(bytes: &[u8], printed: &[u8]) -> bool
    ensures { IsTrue result ↔ (bytes.now ++ 10 ∷ [] ≡ printed.now) }
{
    match printed {
        [body @ .., last] => *last == b'\n' && bytes == body,
        [] => false,
    }
}

// Whether the bytes are those printed, with or without the line feed at their end.
fn is_spelled(bytes: &[u8], printed: &[u8]) -> bool
    ensures { IsTrue result ↔ ((bytes.now ≡ printed.now) ⊎ (bytes.now ++ 10 ∷ [] ≡ printed.now)) }
{
    bytes == printed || is_cut(bytes, printed)
}

// The line that the bytes would be, if they are a printed line's.
fn guess(alloc: Global, bytes: &[u8]) -> Result<Option<Line>, NoMemory>
    ensures { IfOk result (λ line. line ≡ line_in bytes.now) }
{
    let words = split_words(alloc, bytes)?;
    line_from(alloc, &words)
}

/// Reads a line, with or without its line feed. It accepts exactly the bytes that `print_line` gives:
/// `Form` comes where no line has these bytes.
pub fn read_line(alloc: Global, bytes: &[u8]) -> Result<Line, LineFault>
    ensures spelled { IfOk result (λ line. Spells line bytes.now) }
    ensures range { IfOk result (λ line. IsLine line) }
    ensures every { (line : Line) → IsLine line → Spells line bytes.now
        → IfOk result (λ found. found ≡ line) }
    ensures form { result ≡ Err Form → (line : Line) → IsLine line → Spells line bytes.now → ⊥ }
{
    let Some(line) = guess(alloc, bytes)? else {
        return Err(LineFault::Form);
    };
    let mut printed = LineBuf::new(alloc)?;
    print_line(&line, &mut printed);
    if !is_spelled(bytes, printed.bytes()) {
        return Err(LineFault::Form);
    }
    Ok(line)
}

/// Two different lines have different bytes, and no bytes are those of two lines, one with its line feed
/// and one without.
pub fn one_spelling_each()
    ensures spelling { OneSpelling }
    ensures line { OneLine }
{}
