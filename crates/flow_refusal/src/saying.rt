// What a note says beyond the first place: other places, and how it is mended.

use crate::telling::put_remark;
use crate::version::{NEWER, asks_for_two};
use crate::words::{SCRIPT_WORDS, class_key, mend_words, program_key, world_key};
use flow_base::memory::NoMemory;
use flow_classread::fault::ClassFault;
use flow_hint::{Hint, world_hint};
use flow_tree::fault::SourceFault;
use flow_worldfile::WorldFault;
use std::alloc::Global;

/// The sentence of a rule with what is said beyond it.
pub fn sentence(alloc: Global, rule: &str, hint: &Hint) -> Result<Vec<u8>, NoMemory> {
    let mut out = Vec::new(alloc);
    if !hint.alone {
        out.extend_from_slice(rule.as_bytes())?;
        if !hint.words.is_empty() {
            out.extend_from_slice(b": ")?;
        }
    }
    out.extend_from_slice(&hint.words)?;
    Ok(out)
}

// Adds a line of advice.
fn put_help(out: &mut Vec<u8>, words: &[u8]) -> Result<(), NoMemory> {
    out.extend_from_slice(b"help: ")?;
    out.extend_from_slice(words)?;
    out.extend_from_slice(b"\n")?;
    Ok(())
}

// Adds what is advised, or else how the rule of this name is mended.
fn put_mend(out: &mut Vec<u8>, hint: &Hint, key: &str) -> Result<(), NoMemory> {
    for words in &hint.help {
        put_help(out, words)?;
    }
    if !hint.help.is_empty() {
        return Ok(());
    }
    match mend_words(key) {
        Some(words) => put_help(out, words.as_bytes()),
        None => Ok(()),
    }
}

/// What is said beyond the first place of a fault of a program.
pub fn program_more(
    alloc: Global,
    name: &str,
    text: &[u8],
    fault: &SourceFault,
    hint: &Hint,
) -> Result<Vec<u8>, NoMemory> {
    let mut out = Vec::new(alloc);
    for remark in &hint.remarks {
        put_remark(&mut out, name, text, remark.at, &remark.words)?;
    }
    put_mend(&mut out, hint, &program_key(alloc, fault)?)?;
    Ok(out)
}

// What is said of a class text that lacks the forms of a later version, and nothing of another one.
fn class_hint(alloc: Global, text: &[u8], fault: &ClassFault) -> Result<Hint, NoMemory> {
    let mut hint = Hint::new(alloc);
    if let ClassFault::Form(line) = fault {
        if asks_for_two(alloc, text, *line)? {
            hint.advise(NEWER.as_bytes().to_vec(alloc)?)?;
        }
    }
    Ok(hint)
}

/// How the fault of a class text is mended.
pub fn class_more(alloc: Global, text: &[u8], fault: &ClassFault) -> Result<Vec<u8>, NoMemory> {
    let mut out = Vec::new(alloc);
    put_mend(
        &mut out,
        &class_hint(alloc, text, fault)?,
        &class_key(alloc, fault)?,
    )?;
    Ok(out)
}

/// How the fault of a world file is mended. Where a line has no form, it is told too where the forms stand.
pub fn world_more(alloc: Global, text: &[u8], fault: WorldFault) -> Result<Vec<u8>, NoMemory> {
    let mut out = Vec::new(alloc);
    put_mend(&mut out, &world_hint(alloc, text, fault)?, world_key(fault))?;
    if let WorldFault::Form(_) = fault {
        put_mend(&mut out, &Hint::new(alloc), world_key(fault))?;
    }
    Ok(out)
}

/// What is said of a script that has too many lines, and how that is mended.
pub fn script_words(alloc: Global) -> Result<Vec<u8>, NoMemory> {
    let mut out = Vec::new(alloc);
    out.extend_from_slice(SCRIPT_WORDS.as_bytes())?;
    if let Some(words) = mend_words("L13") {
        out.extend_from_slice(b"\nhelp: ")?;
        out.extend_from_slice(words.as_bytes())?;
    }
    Ok(out)
}
