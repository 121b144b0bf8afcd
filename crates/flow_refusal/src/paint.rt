// Colours of a note.

use flow_base::memory::NoMemory;
use std::alloc::Global;

const BOLD: &[u8] = b"\x1b[1m";

const RED: &[u8] = b"\x1b[1;31m";

const BLUE: &[u8] = b"\x1b[1;34m";

const PLAIN: &[u8] = b"\x1b[0m";

// Whether a line is the mark under a place.
fn is_mark(line: &[u8]) -> bool {
    match line {
        [before @ .., b'^'] => before.iter().all(|byte| *byte == b' ' || *byte == b'\t'),
        _ => false,
    }
}

// Adds a line between a colour and its end.
fn put_painted(out: &mut Vec<u8>, colour: &[u8], line: &[u8]) -> Result<(), NoMemory> {
    out.extend_from_slice(colour)?;
    out.extend_from_slice(line)?;
    out.extend_from_slice(PLAIN)?;
    Ok(())
}

// Adds a line in the colour of what it is.
fn put_line(out: &mut Vec<u8>, line: &[u8], name: &[u8]) -> Result<(), NoMemory> {
    if is_mark(line) {
        return put_painted(out, RED, line);
    }
    if line.starts_with(b"help:") {
        return put_painted(out, BLUE, line);
    }
    if !name.is_empty() && line.starts_with(name) {
        return put_painted(out, BOLD, line);
    }
    out.extend_from_slice(line)?;
    Ok(())
}

/// A note in colours, on a file of this name: its places bold, marks red, advice blue.
pub fn painted(alloc: Global, note: &[u8], name: &str) -> Result<Vec<u8>, NoMemory> {
    let mut out = Vec::new(alloc);
    for (number, line) in note.split(|byte| *byte == b'\n').enumerate() {
        if number > 0 {
            out.push(b'\n')?;
        }
        put_line(&mut out, line, name.as_bytes())?;
    }
    Ok(out)
}
