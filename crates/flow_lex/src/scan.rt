// Runs of bytes, blanks and comments.

ghost use Rattle.std.specs.Prelude.{◌≡◌, ℕ, ◌+◌, ◌^◌, ◌<◌, ◌≤◌, ◌++◌, ◌∷◌, [], length, drop, take, List, IfSome};
ghost use Rattle.std.specs.List.{prefix_len};
ghost use Rattle.flow_base.specs.Names.{digit, name_byte};
ghost use Rattle.flow_tree.specs.Spelling.{is_blank, in_line, close_position, begins_close, begins_gap, gap_length};
ghost use Rattle.flow_tree.specs.Lexing.{place_after};

use flow_base::name::{is_digit, is_name_byte};
use flow_base::place::Place;

fn is_blank_byte(b: u8) -> bool
    ensures { result ≡ is_blank b }
{
    matches!(b, 9 | 10 | 13 | 32)
}

fn is_in_line(b: u8) -> bool
    ensures { result ≡ in_line b }
{
    b != b'\n'
}

/// How many bytes that may stand in a name begin the text.
pub fn name_len(text: &[u8]) -> usize
    ensures { result ≡ prefix_len name_byte text.now }
{
    text.iter().take_while(|b| is_name_byte(**b)).count()
}

/// How many digits begin the text.
pub fn digits_len(text: &[u8]) -> usize
    ensures { result ≡ prefix_len digit text.now }
{
    text.iter().take_while(|b| is_digit(**b)).count()
}

fn line_len(text: &[u8]) -> usize
    ensures length { result ≡ prefix_len in_line text.now }
    ensures within { result ≤ length text.now }
{
    text.iter().take_while(|b| is_in_line(**b)).count()
}

/// The text past its first n bytes.
pub fn after(text: &[u8], n: usize) -> &[u8]
    requires { n ≤ length text.now }
    ensures { result.now ≡ drop n text.now }
{
    &text[n..]
}

/// The first n bytes of the text.
pub fn front(text: &[u8], n: usize) -> &[u8]
    requires { n ≤ length text.now }
    ensures { result.now ≡ take n text.now }
{
    &text[..n]
}

fn is_close(text: &[u8]) -> bool
    ensures { result ≡ begins_close text.now }
{
    text.len() > 1 && text[0] == b'*' && text[1] == b'/'
}

// How many bytes stand before the first `*/`.
#[tactic(auto, using(crate::proofs::Places::close_step, crate::proofs::Places::close_within))]
fn find_close(text: &[u8]) -> Option<usize>
    ensures first { result ≡ close_position text.now }
    ensures within { IfSome result (λ at. at + 2 ≤ length text.now) }
{
    for at in 0..text.len() {
        if is_close(after(text, at)) {
            return Some(at);
        }
    }
    None
}

/// Whether a blank or a comment begins the text.
pub fn is_gap(text: &[u8]) -> bool
    ensures { result ≡ begins_gap text.now }
{
    match text {
        [] => false,
        [b] => is_blank_byte(*b),
        [b, c, ..] => is_blank_byte(*b) || (*b == b'/' && (*c == b'/' || *c == b'*')),
    }
}

/// The length of the blank or comment that begins the text, or 0.
pub fn gap_len(text: &[u8]) -> usize
    ensures length { result ≡ gap_length text.now }
    ensures within { result ≤ length text.now }
{
    if text.len() > 0 && is_blank_byte(text[0]) {
        return 1;
    }
    if text.len() < 2 || text[0] != b'/' {
        return 0;
    }
    if text[1] == b'/' {
        return line_len(after(text, 2)) + 2;
    }
    if text[1] != b'*' {
        return 0;
    }
    match find_close(after(text, 2)) {
        Some(at) => at + 4,
        None => 0,
    }
}

// The place past one more byte.
fn past_byte(at: Place, b: u8) -> Place
    requires line { at.line + 1 < 2 ^ 32 }
    requires column { at.column + 1 < 2 ^ 32 }
    requires byte { at.byte + 1 < 2 ^ 32 }
    ensures place { (before : List ℕ) → at ≡ place_after before → result
        ≡ place_after (before ++ b ∷ []) }
    ensures line { result.line ≤ at.line + 1 }
    ensures column { result.column ≤ at.column + 1 }
    ensures byte { result.byte ≡ at.byte + 1 }
{
    if b == b'\n' {
        return Place {
            line: at.line + 1,
            column: 1,
            byte: at.byte + 1,
        };
    }
    Place {
        line: at.line,
        column: at.column + 1,
        byte: at.byte + 1,
    }
}

/// The place past the first n bytes of the text.
#[tactic(auto, using(crate::proofs::Places::past_step))]
pub fn past(at: Place, text: &[u8], n: usize) -> Place
    requires within { n ≤ length text.now }
    requires line { at.line + n < 2 ^ 32 }
    requires column { at.column + n < 2 ^ 32 }
    requires byte { at.byte + n < 2 ^ 32 }
    ensures { (before : List ℕ) → at ≡ place_after before → result
        ≡ place_after (before ++ take n text.now) }
{
    let bytes = front(text, n);
    let mut place = at;
    for b in bytes {
        place = past_byte(place, *b);
    }
    place
}
