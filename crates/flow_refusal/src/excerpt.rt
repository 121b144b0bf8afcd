// The part of a text around a place, with a mark under it.

ghost use Rattle.std.specs.Prelude.{◌≡◌, ◌<◌, ◌≤◌, ◌==◌, ◌∷◌, ◌++◌, [], not, length, map, take, drop, position, IfOk, IfSome};
ghost use Rattle.std.specs.List.{position_or_len};
ghost use Rattle.std.specs.Str.{is_utf8};
ghost use Rattle.flow_refusal.specs.Note.{first_feed, until_feed, behind_feed, lines_on, line_at, is_continuation, cut, shown, window, under, excerpt};

use flow_base::memory::NoMemory;
use flow_base::place::Place;

/// About how many bytes are shown before a place.
const BEFORE: usize = 60;

/// About how many bytes are shown of a line.
const SHOWN: usize = 120;

// The place of the first line feed, where there is one.
fn feed(text: &[u8]) -> Option<usize>
    ensures place { result ≡ position (λ b. b == 10) text.now }
    ensures within { IfSome result (λ place. place < length text.now) }
{
    text.iter().position(|byte| *byte == b'\n')
}

// How many bytes stand before the first line feed; all, where there is none.
#[tactic(auto, using(crate::proofs::Feeds::found, crate::proofs::Feeds::missing))]
fn first_feed(text: &[u8]) -> usize
    ensures count { result ≡ first_feed text.now }
    ensures bound { result ≤ length text.now }
{
    match feed(text) {
        Some(at) => at,
        None => text.len(),
    }
}

/// The bytes of a text from so many on, or none.
pub fn from(text: &[u8], start: usize) -> &[u8]
    ensures { result.now ≡ drop start text.now }
{
    if start > text.len() {
        return &text[text.len()..];
    }
    &text[start..]
}

/// The first so many bytes of a text, or all.
pub fn first(text: &[u8], count: usize) -> &[u8]
    ensures { result.now ≡ take count text.now }
{
    if count > text.len() {
        return text;
    }
    &text[..count]
}

// What stands behind the first line feed.
fn behind_feed(text: &[u8]) -> &[u8]
    ensures { result.now ≡ behind_feed text.now }
{
    from(text, first_feed(text).saturating_add(1))
}

// What stands before the first line feed.
fn until_feed(text: &[u8]) -> &[u8]
    ensures { result.now ≡ until_feed text.now }
{
    first(text, first_feed(text))
}

/// The line of a text with a number, from 1, without its line feed.
pub fn line_at(text: &[u8], number: u32) -> &[u8]
    ensures { result.now ≡ line_at text.now number }
{
    let mut rest = text;
    let mut left = number.saturating_sub(1);
    while left > 0 {
        rest = behind_feed(rest);
        left -= 1;
    }
    until_feed(rest)
}

// Whether a byte goes on a character of UTF-8.
fn is_continuation(byte: u8) -> bool
    ensures { result ≡ is_continuation byte }
{
    byte > 127 && byte < 192
}

// The place of the first byte that begins a character, where there is one.
fn character(text: &[u8]) -> Option<usize>
    ensures place { result ≡ position (λ b. not (is_continuation b)) text.now }
    ensures within { IfSome result (λ place. place < length text.now) }
{
    text.iter().position(|byte| !is_continuation(*byte))
}

// How many bytes stand before the first that begins a character; all, where there is none.
#[tactic(auto, using(crate::proofs::Feeds::character_found, crate::proofs::Feeds::character_missing))]
fn skipped(text: &[u8]) -> usize
    ensures count { result ≡ position_or_len (λ b. not (is_continuation b)) text.now }
    ensures bound { result ≤ length text.now }
{
    match character(text) {
        Some(at) => at,
        None => text.len(),
    }
}

// Where a line is cut that is cut so many bytes behind its begin.
fn cut(line: &[u8], count: usize) -> usize
    ensures { result ≡ cut line.now count }
{
    let at = count.min(line.len());
    at.saturating_add(skipped(from(line, at)))
}

// Whether a line is UTF-8.
#[tactic(auto, using(crate::proofs::Feeds::utf8_is, crate::proofs::Feeds::utf8_not))]
fn is_utf8(line: &[u8]) -> bool
    ensures { result ≡ is_utf8 line.now }
{
    match str::from_utf8(line) {
        Ok(_) => true,
        Err(_) => false,
    }
}

// A byte as it is shown of a line that is UTF-8, or isn't.
fn shown(whole: bool, byte: u8) -> u8
    ensures { result ≡ shown whole byte }
{
    if byte == b'\t' || (whole && byte > 127) {
        return byte;
    }
    if byte < 32 || byte > 126 {
        return b'?';
    }
    byte
}

// Adds bytes as they are shown of such a line.
fn put_shown(out: &mut Vec<u8>, whole: bool, bytes: &[u8]) -> Result<(), NoMemory>
    ensures { IfOk result (λ _. out.new.items ≡ out.old.items ++ map (shown whole) bytes.now) }
{
    for byte in bytes {
        out.push(shown(whole, *byte))?;
    }
    Ok(())
}

/// Adds the part of a line around a column, so many bytes behind its begin.
pub fn put_window(out: &mut Vec<u8>, line: &[u8], before: usize) -> Result<(), NoMemory>
    ensures { IfOk result (λ _. out.new.items ≡ out.old.items ++ window line.now before) }
{
    let rest = from(line, cut(line, before.saturating_sub(BEFORE)));
    put_shown(out, is_utf8(line), first(rest, cut(rest, SHOWN)))
}

// Adds what stands under a byte.
fn put_under(out: &mut Vec<u8>, whole: bool, byte: u8) -> Result<(), NoMemory>
    ensures { IfOk result (λ _. out.new.items ≡ out.old.items ++ under whole (byte ∷ [])) }
{
    if byte == b'\t' {
        out.push(b'\t')?;
        return Ok(());
    }
    if whole && is_continuation(byte) {
        return Ok(());
    }
    out.push(b' ')?;
    Ok(())
}

// Adds what stands under these bytes.
#[tactic(auto, using(crate::proofs::Feeds::under_next, crate::proofs::Feeds::under_end))]
fn put_indent(out: &mut Vec<u8>, whole: bool, bytes: &[u8]) -> Result<(), NoMemory>
    ensures { IfOk result (λ _. out.new.items ≡ out.old.items ++ under whole bytes.now) }
{
    for byte in bytes {
        put_under(out, whole, *byte)?;
    }
    Ok(())
}

/// Adds the line of a place, around it, and a mark under the place.
pub fn put_excerpt(out: &mut Vec<u8>, text: &[u8], at: Place) -> Result<(), NoMemory>
    ensures { IfOk result (λ _. out.new.items ≡ out.old.items ++ excerpt text.now at) }
{
    let before = at.column.saturating_sub(1) as usize;
    let line = line_at(text, at.line);
    put_window(out, line, before)?;
    out.push(b'\n')?;
    let begin = cut(line, before.saturating_sub(BEFORE));
    put_indent(out, is_utf8(line), from(first(line, before), begin))?;
    out.extend_from_slice(b"^\n")?;
    Ok(())
}
