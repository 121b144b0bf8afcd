// The summary of a run.

ghost use Rattle.std.specs.Prelude.{◌≡◌, ◌++◌, IfOk};
ghost use Rattle.flow_trace.specs.Bytes.{Bytes};
ghost use Rattle.flow_world.specs.Ends.{end_line};
ghost use Rattle.flow_top.specs.Summary.{number_line, bench_line, counts_text, summary_by};

use crate::counting::Counts;
use flow_base::memory::NoMemory;
use flow_trace::buffer::{LineBuf, print_line};
use flow_world::Ending;
use itoa::Buffer;
use std::alloc::Global;

// Adds a word and a number as a line.
fn push_number(text: &mut Vec<u8>, word: &[u8], n: u64) -> Result<(), NoMemory>
    ensures { IfOk result (λ _. text.new.items ≡ text.old.items ++ number_line word.now n) }
{
    text.extend_from_slice(word)?;
    text.extend_from_slice(b" ")?;
    text.extend_from_slice(Buffer::new().format(n).as_bytes())?;
    text.extend_from_slice(b"\n")?;
    Ok(())
}

// Adds the line of what was asked for.
fn push_bench(text: &mut Vec<u8>, clients: u32, seed: u64) -> Result<(), NoMemory>
    ensures { IfOk result (λ _. text.new.items ≡ text.old.items ++ bench_line clients seed) }
{
    text.extend_from_slice(b"bench ")?;
    text.extend_from_slice(Buffer::new().format(clients).as_bytes())?;
    text.extend_from_slice(b" ")?;
    text.extend_from_slice(Buffer::new().format(seed).as_bytes())?;
    text.extend_from_slice(b"\n")?;
    Ok(())
}

// Adds the lines of the counts.
fn push_counts(text: &mut Vec<u8>, counts: Counts) -> Result<(), NoMemory>
    ensures { IfOk result (λ _. text.new.items ≡ text.old.items ++ counts_text counts) }
{
    push_number(text, b"events", counts.events)?;
    push_number(text, b"starts", counts.starts)?;
    push_number(text, b"throws", counts.throws)?;
    push_number(text, b"prints", counts.prints)?;
    Ok(())
}

/// The summary of a run that was counted and ended so.
pub fn summary(
    alloc: Global,
    clients: u32,
    seed: u64,
    counts: Counts,
    ending: Ending,
) -> Result<Vec<u8>, NoMemory>
    ensures { IfOk result (λ text. text.items ≡ summary_by clients seed counts (end_line ending)) }
{
    let mut last = LineBuf::new(alloc)?;
    print_line(&ending.line(), &mut last);
    let mut text = Vec::new(alloc);
    push_bench(&mut text, clients, seed)?;
    push_counts(&mut text, counts)?;
    text.extend_from_slice(last.bytes())?;
    Ok(text)
}
