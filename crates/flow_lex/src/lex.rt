// The lexer.

ghost use Rattle.std.specs.Prelude.{◌≡◌, ◌+◌, ◌≤◌, ◌<◌, ◌^◌, ◌-◌, length};
ghost use Rattle.flow_tree.specs.Spelling.{gap_length};
ghost use Rattle.flow_tree.specs.Lexing.{Lexed};
ghost use Rattle.flow_lex.specs.Next.{Next};

use crate::number::number_token;
use crate::quoted::text_token;
use crate::scan::{after, gap_len, is_gap, past};
use crate::sign::sign_token;
use crate::word::name_token;
use flow_base::name::{is_digit, is_letter};
use flow_base::place::Place;
use flow_tree::fault::{Rule, SourceFault};
use flow_tree::token::{Spot, Token, Tokens};
use std::alloc::Global;

/// The tokens of a program text with their places, or its lexical refusal: S1 for a byte that begins
/// no token or that a quoted text may not hold, S2 for a quoted text that its line doesn't close, S3
/// for a comment that is not closed, S4 for a number, a name or a text past its bounds. The refusal
/// is the first one from the left. Want of memory is the only other answer.
pub fn lex(alloc: Global, bytes: &[u8]) -> Result<Tokens, SourceFault>
    requires { length bytes.now ≤ 2 ^ 32 - 2 }
    ensures { Lexed bytes.now result }
{
    let mut spots = Vec::new(alloc);
    let mut rest = bytes;
    let mut at = Place {
        line: 1,
        column: 1,
        byte: 0,
    };
    while rest.len() > 0 {
        let gap = gap_len(rest);
        if gap > 0 {
            at = past(at, rest, gap);
            rest = after(rest, gap);
        } else {
            let (token, n) = token_at(alloc, rest, at)?;
            spots.push(Spot { token, at })?;
            at = past(at, rest, n);
            rest = after(rest, n);
        }
    }
    Ok(Tokens { spots, end: at })
}

// The token with which a text goes on, and its length.
fn token_at(alloc: Global, text: &[u8], at: Place) -> Result<(Token, usize), SourceFault>
    requires some { 0 < length text.now }
    requires no_gap { gap_length text.now ≡ 0 }
    requires line { at.line + length text.now < 2 ^ 32 }
    requires column { at.column + length text.now < 2 ^ 32 }
    requires byte { at.byte + length text.now < 2 ^ 32 }
    ensures { Next text.now at result }
{
    if is_gap(text) {
        return Err(SourceFault::Refused {
            rule: Rule::S(3),
            at,
        });
    }
    if is_letter(text[0]) {
        return name_token(alloc, text, at);
    }
    if is_digit(text[0]) {
        return number_token(text, at);
    }
    if text[0] == b'"' {
        return text_token(alloc, text, at);
    }
    sign_token(text, at)
}
