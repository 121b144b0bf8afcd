// Quoted texts.

ghost use Rattle.std.specs.Prelude.{◌≡◌, ◌+◌, ◌<◌, ◌^◌, length, slice_index, IfOk, IfSome, true, false};
ghost use Rattle.flow_tree.specs.Spelling.{plain_byte, escaped, hex_value, begins_gap};
ghost use Rattle.flow_lex.specs.Next.{Next, PieceAt, InsideAt};

use crate::scan::{after, past};
use flow_base::memory::NoMemory;
use flow_base::place::Place;
use flow_base::text::Text;
use flow_tree::fault::{Rule, SourceFault};
use flow_tree::token::Token;
use std::alloc::Global;

fn is_plain(b: u8) -> bool
    ensures { result ≡ plain_byte b }
{
    if b == b'"' || b == b'\\' {
        return false;
    }
    (b >= 32 && b <= 126) || b >= 128
}

fn unescaped(c: u8) -> Option<u8>
    ensures { result ≡ escaped c }
{
    match c {
        b'n' => Some(b'\n'),
        b't' => Some(b'\t'),
        b'"' => Some(b'"'),
        b'\\' => Some(b'\\'),
        _ => None,
    }
}

fn hex_digit(c: u8) -> Option<u8>
    ensures value { result ≡ hex_value c }
    ensures small { IfSome result (λ d. d < 16) }
{
    match c {
        b'0'..=b'9' => Some(c - b'0'),
        b'a'..=b'f' => Some(c - 87),
        b'A'..=b'F' => Some(c - 55),
        _ => None,
    }
}

// The byte that the first piece of the text spells, and the length of its spelling.
fn piece_at(text: &[u8]) -> Option<(u8, usize)>
    ensures { PieceAt text.now result }
{
    if text.len() == 0 {
        return None;
    }
    if is_plain(text[0]) {
        return Some((text[0], 1));
    }
    if text[0] != b'\\' || text.len() < 2 {
        return None;
    }
    if let Some(b) = unescaped(text[1]) {
        return Some((b, 2));
    }
    if text[1] != b'x' || text.len() < 4 {
        return None;
    }
    let Some(high) = hex_digit(text[2]) else {
        return None;
    };
    let Some(low) = hex_digit(text[3]) else {
        return None;
    };
    Some((16 * high + low, 4))
}

// What the pieces hold with which the text begins, and how long they are.
fn inside(alloc: Global, text: &[u8]) -> Result<(Vec<u8>, usize), NoMemory>
    ensures { IfOk result (λ x. InsideAt text.now x.0.items x.1) }
{
    let mut held = Vec::new(alloc);
    let mut n = 0;
    while let Some((b, length)) = piece_at(after(text, n)) {
        held.push(b)?;
        n += length;
    }
    Ok((held, n))
}

fn refused(number: u8, at: Place) -> SourceFault
    ensures { result ≡ SourceFault.Refused (Rule.S number) at }
{
    SourceFault::Refused {
        rule: Rule::S(number),
        at,
    }
}

/// The quoted text with which a text goes on.
pub fn text_token(alloc: Global, text: &[u8], at: Place) -> Result<(Token, usize), SourceFault>
    requires some { 0 < length text.now }
    requires first { slice_index text.now 0 ≡ 34 }
    requires apart { begins_gap text.now ≡ false }
    requires line { at.line + length text.now < 2 ^ 32 }
    requires column { at.column + length text.now < 2 ^ 32 }
    requires byte { at.byte + length text.now < 2 ^ 32 }
    ensures { Next text.now at result }
{
    let (held, n) = inside(alloc, after(text, 1))?;
    let rest = after(text, n + 1);
    if rest.len() == 0 {
        return Err(refused(2, at));
    }
    if rest[0] == b'\n' {
        return Err(refused(2, at));
    }
    if rest[0] != b'"' {
        return Err(refused(1, past(at, text, n + 1)));
    }
    let bytes = held.as_slice();
    if bytes.len() > Text::LIMIT {
        return Err(refused(4, at));
    }
    Ok((Token::Text(Text::new(alloc, bytes)?), n + 2))
}
