// Numbers.

ghost use Rattle.std.specs.Prelude.{◌≡◌, ℕ, pos, ◌+◌, ◌*◌, ◌^◌, ◌<◌, ◌≤◌, length, take, slice_index, MatchOption, true, false};
ghost use Rattle.std.specs.List.{list_all};
ghost use Rattle.std.specs.Str.Parse.{digits_value};
ghost use Rattle.std.specs.Char.{digit_value};
ghost use Rattle.flow_base.specs.Names.{digit};
ghost use Rattle.flow_tree.specs.Spelling.{begins_gap};
ghost use Rattle.flow_lex.specs.Next.{Next, FoundNumber};

use crate::scan::{digits_len, front};
use flow_base::place::Place;
use flow_tree::fault::{Rule, SourceFault};
use flow_tree::token::Token;

// The length of the number that begins the text: a zero stands alone.
#[tactic(auto, using(crate::proofs::Numbers::finds_zero, crate::proofs::Numbers::finds_number))]
fn number_len(text: &[u8]) -> usize
    requires some { 0 < length text.now }
    requires first { digit (slice_index text.now 0) ≡ true }
    ensures { FoundNumber text.now result }
{
    if text[0] == b'0' {
        return 1;
    }
    digits_len(text)
}

// The value with one more digit, where it fits.
#[tactic(auto, using(crate::proofs::Numbers::digit_value_of))]
fn with_digit(value: u64, b: u8) -> Option<u64>
    requires { digit b ≡ true }
    ensures { MatchOption result (2 ^ 64 ≤ value * 10 + digit_value b)
        (λ n. n ≡ value * 10 + digit_value b) }
{
    let Some(tens) = value.checked_mul(10) else {
        return None;
    };
    tens.checked_add(u64::from(b - b'0'))
}

// The value of these digits, where it is below 2^64.
fn value_of(digits: &[u8]) -> Option<u64>
    requires { list_all digit digits.now ≡ true }
    ensures { MatchOption result (2 ^ 64 ≤ digits_value 10 digits.now)
        (λ n. n ≡ digits_value 10 digits.now) }
{
    let mut value = 0;
    for b in digits {
        let Some(next) = with_digit(value, *b) else {
            return None;
        };
        value = next;
    }
    Some(value)
}

// The value of these digits, where it is a 64-bit int.
fn int_of(digits: &[u8]) -> Option<i64>
    requires { list_all digit digits.now ≡ true }
    ensures { MatchOption result (2 ^ 63 ≤ digits_value 10 digits.now)
        (λ n. (digits_value 10 digits.now < 2 ^ 63) × (n ≡ pos (digits_value 10 digits.now))) }
{
    let Some(value) = value_of(digits) else {
        return None;
    };
    i64::try_from(value).ok()
}

/// The number with which a text goes on.
pub fn number_token(text: &[u8], at: Place) -> Result<(Token, usize), SourceFault>
    requires some { 0 < length text.now }
    requires first { digit (slice_index text.now 0) ≡ true }
    requires apart { begins_gap text.now ≡ false }
    ensures { Next text.now at result }
{
    let n = number_len(text);
    let Some(value) = int_of(front(text, n)) else {
        return Err(SourceFault::Refused {
            rule: Rule::S(4),
            at,
        });
    };
    Ok((Token::Number(value), n))
}
