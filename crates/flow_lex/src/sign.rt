// Signs.

ghost use Rattle.std.specs.Prelude.{◌≡◌, ◌<◌, length, slice_index, bytes_eq, take, IfSome, true, false};
ghost use Rattle.std.specs.List.{find};
ghost use Rattle.flow_tree.specs.declared.token.Sign as signs;
ghost use Rattle.flow_tree.specs.Spelling.{sign_bytes, begins_gap};
ghost use Rattle.flow_lex.specs.Next.{Next, sign_byte};

use crate::scan::front;
use flow_base::place::Place;
use flow_tree::fault::{Rule, SourceFault};
use flow_tree::token::{Sign, Token};

// The sign of these bytes.
fn sign_of(bytes: &[u8]) -> Option<Sign>
    ensures { result ≡ find (λ s. bytes_eq (sign_bytes s) bytes.now) Sign.ALL }
{
    Sign::ALL
        .iter()
        .copied()
        .find(|sign| sign.spelling() == bytes)
}

// The sign of the first two bytes.
fn long_sign(text: &[u8]) -> Option<Sign>
    ensures none { result ≡ None → 1 < length text.now → (s : signs.Sign) → sign_bytes s
        ≡ take 2 text.now → ⊥ }
    ensures some { IfSome result (λ s. (1 < length text.now) × (sign_bytes s ≡ take 2 text.now)) }
{
    if text.len() < 2 {
        return None;
    }
    sign_of(front(text, 2))
}

/// The sign with which a text goes on: of two bytes, or else of one.
pub fn sign_token(text: &[u8], at: Place) -> Result<(Token, usize), SourceFault>
    requires some { 0 < length text.now }
    requires first { sign_byte (slice_index text.now 0) ≡ true }
    requires apart { begins_gap text.now ≡ false }
    ensures { Next text.now at result }
{
    if let Some(sign) = long_sign(text) {
        return Ok((Token::Sign(sign), 2));
    }
    if let Some(sign) = sign_of(front(text, 1)) {
        return Ok((Token::Sign(sign), 1));
    }
    Err(SourceFault::Refused {
        rule: Rule::S(1),
        at,
    })
}
