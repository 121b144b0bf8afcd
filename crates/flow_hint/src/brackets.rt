// The bracket that is still open.

use crate::source::Source;
use flow_tree::token::{Sign, Word};

// Whether the token with this number is a closing bracket.
fn closes(source: Source<'_>, number: usize) -> bool {
    source.is_sign(number, Sign::CloseRound)
        || source.is_sign(number, Sign::CloseCurly)
        || source.is_sign(number, Sign::CloseSquare)
}

// Whether it is an opening one.
fn opens(source: Source<'_>, number: usize) -> bool {
    source.is_sign(number, Sign::OpenRound)
        || source.is_sign(number, Sign::OpenCurly)
        || source.is_sign(number, Sign::OpenSquare)
}

/// The number of the innermost bracket that is open in front of the token with this number.
pub fn still_open(source: Source<'_>, before: usize) -> Option<usize> {
    let mut closed: usize = 0;
    for back in 0..before {
        let at = before.saturating_sub(back).saturating_sub(1);
        if closes(source, at) {
            closed = closed.saturating_add(1);
        }
        if opens(source, at) {
            if closed == 0 {
                return Some(at);
            }
            closed = closed.saturating_sub(1);
        }
    }
    None
}

/// Whether a bracket is that of a record.
pub fn is_of_record(source: Source<'_>, open: Option<usize>) -> bool {
    let Some(open) = open else {
        return false;
    };
    match open.checked_sub(2) {
        Some(first) => source.is_word(first, Word::Struct),
        None => false,
    }
}
