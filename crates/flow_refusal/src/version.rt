// Which version of class text a form asks for.

use flow_base::memory::NoMemory;
use flow_classread::fault::ClassFault;
use flow_classread::read::read_classes;
use std::alloc::Global;

/// How a text is mended that asks for the forms of version 2.
pub const NEWER: &str = "this form stands in a text that begins with `classes 2`";

// A text without the blanks at its begin.
fn unindented(text: &[u8]) -> &[u8] {
    match text.iter().position(|byte| !byte.is_ascii_whitespace()) {
        Some(begin) => text.get(begin..).unwrap_or(text),
        None => b"",
    }
}

// What stands in a text behind this word and a blank.
fn behind_word<'a>(text: &'a [u8], word: &[u8]) -> Option<&'a [u8]> {
    let rest = unindented(text).strip_prefix(word)?;
    let next = unindented(rest);
    if next.len() < rest.len() {
        Some(next)
    } else {
        None
    }
}

// The text in version 2, where it begins with `classes 1`.
fn in_version_two(alloc: Global, text: &[u8]) -> Result<Option<Vec<u8>>, NoMemory> {
    let Some(version) = behind_word(text, b"classes") else {
        return Ok(None);
    };
    let Some(rest) = version.strip_prefix(b"1".as_slice()) else {
        return Ok(None);
    };
    let Some(before) = text.get(..text.len().saturating_sub(version.len())) else {
        return Ok(None);
    };
    let mut newer = before.to_vec(alloc)?;
    newer.extend_from_slice(b"2")?;
    newer.extend_from_slice(rest)?;
    Ok(Some(newer))
}

/// Whether a class text of version 1 that no class text goes on from at this line goes on there in version 2.
pub fn asks_for_two(alloc: Global, text: &[u8], line: u32) -> Result<bool, NoMemory> {
    let Some(newer) = in_version_two(alloc, text)? else {
        return Ok(false);
    };
    match read_classes(alloc, &newer) {
        Err(ClassFault::Form(other)) => Ok(other > line),
        Err(ClassFault::OutOfMemory) => Err(NoMemory),
        Err(ClassFault::Invalid { .. }) => Ok(true),
        Err(ClassFault::TooLarge) => Ok(false),
        Ok(_) => Ok(true),
    }
}
