// Notes on where actors wait.

use flow_base::memory::NoMemory;
use flow_base::place::Place;
use flow_refusal::put_wait;
use std::alloc::Global;

// A number with one more digit.
fn more(number: u32, digit: u8) -> u32 {
    number
        .saturating_mul(10)
        .saturating_add(u32::from(digit.saturating_sub(b'0')))
}

// The place that `LINE:COLUMN` tells. How many bytes stand before it isn't told.
fn place_of(word: &[u8]) -> Place {
    let mut place = Place {
        line: 0,
        column: 0,
        byte: 0,
    };
    let mut behind = false;
    for byte in word {
        if *byte == b':' {
            behind = true;
        } else if behind {
            place.column = more(place.column, *byte);
        } else {
            place.line = more(place.line, *byte);
        }
    }
    place
}

// Adds the note on the actor of a line `actor P A NAME G at LINE:COLUMN`.
fn put_line(
    alloc: Global,
    out: &mut Vec<u8>,
    line: &[u8],
    file: &str,
    text: &[u8],
) -> Result<(), NoMemory> {
    let mut words = Vec::new(alloc);
    for word in line.split(|byte| *byte == b' ') {
        words.push(word)?;
    }
    match words.as_slice() {
        [_, process, actor, name, _, _, at] => {
            put_wait(out, file, text, process, actor, name, place_of(at))
        }
        _ => Ok(()),
    }
}

/// The notes on the actors of these lines: where each waits in the text of this file.
pub fn waits_note(
    alloc: Global,
    lines: &[u8],
    file: &str,
    text: &[u8],
) -> Result<Vec<u8>, NoMemory> {
    let mut out = Vec::new(alloc);
    for line in lines.split(|byte| *byte == b'\n') {
        put_line(alloc, &mut out, line, file, text)?;
    }
    Ok(out)
}
