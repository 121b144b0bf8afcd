// What is warned of in a program that is accepted.

use crate::telling::put_remark;
use flow_base::memory::NoMemory;
use flow_warning::{Held, Warning};
use itoa::Buffer;
use std::alloc::Global;

// What becomes of what a local holds.
fn lost_words(held: Held) -> &'static [u8] {
    match held {
        Held::Future =>
            b"warning: a wait comes before any use of this future: it is dropped there, which cancels the actor whose result it is",
        Held::Stream => b"warning: a wait comes before any use of this stream: it is dropped there",
        Held::Promise =>
            b"warning: a wait comes before any use of this promise: it is dropped there, and who waits for it gets error 1100",
    }
}

// What becomes of what nobody uses.
fn unused_words(held: Held) -> &'static [u8] {
    match held {
        Held::Future =>
            b"warning: some way leads out of its scope without a use of this future: it is dropped there, which cancels the actor whose result it is",
        Held::Stream => b"warning: some way leads out of its scope without a use of this stream",
        Held::Promise =>
            b"warning: some way leads out of its scope without a use of this promise: it is dropped there, and who waits for it gets error 1100",
    }
}

fn put_warning(
    out: &mut Vec<u8>,
    name: &str,
    text: &[u8],
    warning: Warning,
) -> Result<(), NoMemory> {
    match warning {
        Warning::Lost { held, at, wait } => {
            put_remark(out, name, text, at, lost_words(held))?;
            put_remark(out, name, text, wait, b"the wait")?;
            out.extend_from_slice(b"help: declare it with `state`\n")?;
        }
        Warning::Unused { held, at } => {
            put_remark(out, name, text, at, unused_words(held))?;
            out.extend_from_slice(
                b"help: wait for it, or declare it with `state` where it shall live on\n",
            )?;
        }
        Warning::Endless { at } => {
            put_remark(
                out,
                name,
                text,
                at,
                b"warning: this loop comes round for ever without a wait: a run ends `end spent`",
            )?;
            out.extend_from_slice(b"help: wait in it, or leave it by `break` or `return`\n")?;
        }
    }
    Ok(())
}

// How many warnings are told at most.
const TOLD: usize = 20;

/// The note on what is warned of in a program with this name and text: the first twenty, and how many more there are.
pub fn warning_note(
    alloc: Global,
    name: &str,
    text: &[u8],
    warnings: &[Warning],
) -> Result<Vec<u8>, NoMemory> {
    let mut out = Vec::new(alloc);
    for warning in warnings.iter().take(TOLD) {
        put_warning(&mut out, name, text, *warning)?;
    }
    if warnings.len() > TOLD {
        let more = warnings.len().saturating_sub(TOLD);
        out.extend_from_slice(b"warnings that aren't told: ")?;
        out.extend_from_slice(Buffer::new().format(more).as_bytes())?;
        out.extend_from_slice(b"\n")?;
    }
    Ok(out)
}
