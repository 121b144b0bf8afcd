// What is said of a line of a world file that breaks a rule.

use crate::hint::{Hint, words};
use flow_base::memory::NoMemory;
use flow_worldfile::WorldFault;
use itoa::Buffer;
use std::alloc::Global;

/// The forms of lines by their first word, those of an `at` line by the word of its order, with the ranges of their numbers.
const LINES: &str = "\
seed|`seed n`: n is below 2^64
processes|`processes n`: n is 1 to 64
events|`events n`: n is 0 to 1,000,000
turns|`turns n`: n is 1 to 1,000,000
latency|`latency lo hi`: lo is below hi, hi at most 1,000,000,000
diskdelay|`diskdelay lo hi`: lo is below hi, hi at most 1,000,000,000
loss|`loss n`: n of a thousand packets, 0 to 1,000
word|`word n`: n is below 2^32, and there are at most 100,000 such lines
kill|`at t kill p`: t is at most 2^62, and there are at most 10,000 such lines
stop|`at t stop p`: t is at most 2^62, and there are at most 10,000 such lines
boot|`at t boot p`: t is at most 2^62, and there are at most 10,000 such lines
cut|`at t cut p q`: t is at most 2^62, and there are at most 10,000 such lines
heal|`at t heal p q`: t is at most 2^62, and there are at most 10,000 such lines
diskfail|`at t diskfail p n`: t is at most 2^62, n at most 1,000,000, and there are at most 10,000 such lines
";

const WORDS: &str =
    "a line begins with `seed`, `processes`, `events`, `turns`, `latency`, `diskdelay`, `loss`, `word` or `at`";

const ORDERS: &str =
    "behind `at t` stands `kill p`, `stop p`, `boot p`, `cut p q`, `heal p q` or `diskfail p n`";

// The line of a text with a number, from 1.
fn line_of(text: &[u8], number: u32) -> &[u8] {
    let mut line: u32 = 1;
    for part in text.split(|byte| *byte == b'\n') {
        if line == number {
            return part;
        }
        line = line.saturating_add(1);
    }
    &[]
}

// Whether a field of a line is this word.
fn is_field(field: &[u8], word: &[u8]) -> bool {
    field == word
}

// What the table says of a line with one of its words among its fields.
fn form_of(line: &[u8]) -> Option<&'static str> {
    for row in LINES.lines() {
        if let Some((word, form)) = row.split_once('|') {
            for field in line.split(|byte| *byte == b' ' || *byte == b':' || *byte == b'\t') {
                if is_field(field, word.as_bytes()) {
                    return Some(form);
                }
            }
        }
    }
    None
}

// Whether a line begins with `at`.
fn is_order(line: &[u8]) -> bool {
    for field in line.split(|byte| *byte == b' ' || *byte == b':') {
        if !field.is_empty() {
            return is_field(field, b"at");
        }
    }
    false
}

// The number of the first line that begins with the first word of this one, where one stands before it.
fn first_such(text: &[u8], number: u32) -> Option<u32> {
    let word = first_field(line_of(text, number));
    let mut line: u32 = 1;
    for part in text.split(|byte| *byte == b'\n') {
        if line >= number {
            return None;
        }
        if first_field(part) == word {
            return Some(line);
        }
        line = line.saturating_add(1);
    }
    None
}

fn first_field(line: &[u8]) -> &[u8] {
    for field in line.split(|byte| *byte == b' ') {
        if !field.is_empty() {
            return field;
        }
    }
    &[]
}

// Advises by the form of a line, behind these words.
fn on_line(
    alloc: Global,
    text: &[u8],
    number: u32,
    begin: &[u8],
    hint: &mut Hint,
) -> Result<(), NoMemory> {
    let line = line_of(text, number);
    let advice = match form_of(line) {
        Some(form) => form,
        None => if is_order(line) { ORDERS } else { WORDS },
    };
    let mut told = words(alloc, &[begin])?;
    told.extend_from_slice(advice.as_bytes())?;
    hint.advise(told)
}

/// What is said of the fault of a world file beyond its rule.
pub fn world_hint(alloc: Global, text: &[u8], fault: WorldFault) -> Result<Hint, NoMemory> {
    let mut hint = Hint::new(alloc);
    match fault {
        WorldFault::Form(line) => on_line(alloc, text, line, b"", &mut hint)?,
        WorldFault::Range(line) => {
            on_line(
                alloc,
                text,
                line,
                b"keep to the range of its word: ",
                &mut hint,
            )?
        }
        WorldFault::Twice(line) => {
            if let Some(first) = first_such(text, line) {
                hint.advise(words(
                    alloc,
                    &[
                        b"keep one of them: line ",
                        Buffer::new().format(first).as_bytes(),
                        b" says it first",
                    ],
                )?)?;
            }
        }
        WorldFault::NoProcess(_) | WorldFault::TooLarge | WorldFault::OutOfMemory => {}
    }
    Ok(hint)
}
