// Reading a world file.

ghost use Rattle.std.specs.Prelude.{ℕ, ◌≤◌, ◌≡◌, length, MatchOption, MatchResult, IfOk};
ghost use Rattle.flow_worldfile.specs.Lines.{lines};
ghost use Rattle.flow_worldfile.specs.Reading.{Counts, IsCount, IsFileOf, ReadsWorld};
ghost use Rattle.flow_worldfile.specs.declared.TheConstants.{WORLD_BYTES};
ghost use Rattle.flow_worldfile.specs.Worlds.{World, seen, IsInRange};
ghost use Rattle.flow_worldfile.specs.Drafts.{LinesRead};

use crate::WORLD_BYTES;
use crate::draft::Draft;
use crate::forms::directive;
use crate::lines::first_line;
use crate::world::{World0, WorldFault};
use std::alloc::Global;

/// The count of processes that a line gives.
#[tactic(auto, using(crate::proofs::FormLemmas::formless, crate::proofs::FormLemmas::no_count, crate::proofs::FormLemmas::count_out_of_range, crate::proofs::FormLemmas::count_given))]
fn count_in(line: &[u8]) -> Option<u8>
    ensures { MatchOption result ((n : ℕ) → Counts line.now n → ⊥) (Counts line.now) }
{
    let Some(said) = directive(line) else {
        return None;
    };
    let Some(count) = said.processes() else {
        return None;
    };
    if !said.is_in_range() {
        return None;
    }
    Some(count as u8)
}

/// The count of processes of a text: that of the first line which gives one, or 1.
fn count_of(text: &[u8]) -> u8
    ensures { IsCount (lines text.now) result }
{
    let mut rest = text;
    while !rest.is_empty() {
        let (line, more) = first_line(rest);
        if let Some(count) = count_in(line) {
            return count;
        }
        rest = more;
    }
    1
}

/// What the lines of a text say, where there are `count` processes.
fn read_lines(alloc: Global, text: &[u8], count: u8) -> Result<Draft, WorldFault>
    requires { length text.now ≤ WORLD_BYTES }
    ensures { LinesRead count text.now result }
{
    let mut draft = Draft::new(alloc);
    let mut rest = text;
    let mut number: u32 = 0;
    while !rest.is_empty() {
        let (line, more) = first_line(rest);
        number += 1;
        if let Err(fault) = draft.read(line, number, count) {
            return Err(fault);
        }
        rest = more;
    }
    Ok(draft)
}

/// The world of a text, or why it is no world file.
fn world_in(alloc: Global, bytes: &[u8]) -> Result<World0, WorldFault>
    ensures { ReadsWorld bytes.now result }
{
    if bytes.len() > WORLD_BYTES {
        return Err(WorldFault::TooLarge);
    }
    match read_lines(alloc, bytes, count_of(bytes)) {
        Ok(draft) => Ok(draft.world()),
        Err(fault) => Err(fault),
    }
}

/// The world of a world file. A refusal names the first line that breaks a rule, and the first rule
/// that this line breaks. Passed over are lines that are empty but for spaces, or begin with `#`.
#[tactic(auto, using(crate::proofs::AnswerLemmas::in_range))]
pub fn read_world(alloc: Global, bytes: &[u8]) -> Result<World0, WorldFault>
    ensures answers { ReadsWorld bytes.now result }
    ensures in_range { IfOk result (λ world. IsInRange (seen world)) }

    // A world file is read, unless it is too large or memory is wanting.
    ensures read { (w : World) → IsFileOf bytes.now w → length bytes.now ≤ WORLD_BYTES
        → MatchResult result (λ world. seen world ≡ w) (λ fault. fault ≡ WorldFault.OutOfMemory) }
{
    world_in(alloc, bytes)
}
