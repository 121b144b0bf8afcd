// Whole expressions of class text, and what stands around them.

ghost use Rattle.std.specs.Prelude.{◌≡◌, ◌↔◌, ℕ, suc, ◌+◌, ◌<◌, ◌≤◌, length, false, IfOk, IsTrue, Some};
ghost use Rattle.std.specs.List.{list_all};
ghost use Rattle.flow_base.specs.Names.{digit};
ghost use Rattle.flow_tree.specs.declared.limits.TheConstants.{OF_CLASS_TEXT};
ghost use Rattle.flow_tree.specs.GrammarAnswer.{place_at};
ghost use Rattle.flow_tree.specs.View.{expr_of, exprs_of};
ghost use Rattle.flow_class.specs.Places.{is_number};
ghost use Rattle.flow_parse.specs.Reading.{token_at, Any, Answer};
ghost use Rattle.flow_parse.specs.Follow.{ExprEnds};
ghost use Rattle.flow_classprint.specs.ClassGrammar.{WholeRule};
ghost use Rattle.flow_classread.specs.Rising.{AreRising};
ghost use Rattle.flow_classread.specs.Parts.{Ended, Test, Args};
ghost use Rattle.flow_classread.specs.Strays.{names_place, place_is_named, is_far, IsLone, IsFirstStray, Reaches};

use crate::token::place_here;
use flow_base::name::is_digit;
use flow_base::place::Place;
use flow_exprs::token::place;
use flow_parse::token::{expr, is_sign, refused, sign};
use flow_tree::expr::Expr;
use flow_tree::fault::{Rule, SourceFault};
use flow_tree::token::{Sign, Token, Tokens};
use std::alloc::Global;

fn are_all_digits(bytes: &[u8]) -> bool
    ensures { result ≡ list_all digit bytes.now }
{
    bytes.iter().all(|byte| is_digit(*byte))
}

// One or more digits with no zero in front.
fn is_number(bytes: &[u8]) -> bool
    ensures { result ≡ is_number bytes.now }
{
    match bytes {
        [] => false,
        [digit] => is_digit(*digit),
        [first, ..] => *first != b'0' && are_all_digits(bytes),
    }
}

// Whether the name is one of a slot or a local, whatever its number.
fn names_place(name: &[u8]) -> bool
    ensures { result ≡ names_place name.now }
{
    match name.split_first() {
        Some((first, rest)) => (*first == b's' || *first == b'l') && is_number(rest),
        None => false,
    }
}

fn token_names_place(token: &Token) -> bool
    ensures { result ≡ place_is_named (Some token.now) }
{
    match token {
        Token::Name(name) => names_place(name.bytes()),
        Token::Number(_) | Token::Text(_) | Token::Word(_) | Token::Sign(_) => false,
    }
}

// Whether a place with a number from 2^32 on is named here.
fn is_far(tokens: &Tokens, at: usize) -> bool
    ensures { result ≡ is_far (token_at tokens.now.spots.items at) }
{
    match tokens.spots.get(at) {
        Some(spot) => token_names_place(&spot.token) && place_here(tokens, at).is_none(),
        None => false,
    }
}

// Whether this name would be a variable: no bracket follows that makes it a call.
fn is_lone(tokens: &Tokens, at: usize) -> bool
    requires { at < length tokens.now.spots.items }
    ensures { IsTrue result ↔ IsLone tokens.now.spots.items at }
{
    is_far(tokens, at) && !is_sign(tokens, at + 1, Sign::OpenRound)
}

// Whether it is one that no dot stands before.
fn is_stray(tokens: &Tokens, at: usize, after_dot: bool) -> bool
    requires { at < length tokens.now.spots.items }
    ensures { IsTrue result ↔ ((after_dot ≡ false) × IsLone tokens.now.spots.items at) }
{
    !after_dot && is_lone(tokens, at)
}

// Whether a token stands here, before this place.
fn stands_before(tokens: &Tokens, at: usize, until: Place) -> bool
    ensures { IsTrue result ↔ ((at < length tokens.now.spots.items)
        × ((place_at tokens.now at).byte < until.byte)) }
{
    at < tokens.spots.len() && place(tokens, at).byte < until.byte
}

// The first token, from one on and before a place, that as a variable names a place with a number from 2^32 on. Behind a dot it is
// a field.
fn first_stray(tokens: &Tokens, from: usize, until: Place) -> Option<usize>
    requires within { from ≤ length tokens.now.spots.items }
    requires rising { AreRising tokens.now }
    ensures { IsFirstStray tokens.now from until.byte result }
{
    let mut at = from;
    let mut after_dot = false;
    'names: while stands_before(tokens, at, until) {
        if is_stray(tokens, at, after_dot) {
            return Some(at);
        }
        after_dot = is_sign(tokens, at, Sign::Dot);
        at += 1;
    }
    None
}

// Where the reading of an expression ended, or failed; want of memory ends it nowhere.
fn reach(tokens: &Tokens, read: &Result<(Expr, usize), SourceFault>) -> Option<Place>
    ensures { Reaches tokens.now read.now result }
{
    match read {
        Ok((_expr, to)) => Some(place(tokens, *to)),
        Err(SourceFault::Refused { at, .. }) => Some(*at),
        Err(_) => None,
    }
}

/// A whole expression, and the number of the token after it. A variable doesn't name a place with a number from 2^32 on: the token
/// after it is refused with S5 if it is the first one that is refused.
pub fn whole(alloc: Global, tokens: &Tokens, at: usize) -> Result<(Expr, usize), SourceFault>
    requires within { at ≤ length tokens.now.spots.items }
    requires rising { AreRising tokens.now }
    ensures reads { Answer OF_CLASS_TEXT WholeRule ExprEnds (λ r. expr_of r.0) (λ r. r.1) tokens.now
        at result }
    ensures moves { IfOk result (λ r. (at < r.1) × (r.1 ≤ length tokens.now.spots.items)) }
{
    let read = expr(alloc, tokens, at, 1);
    let Some(until) = reach(tokens, &read) else {
        return read;
    };
    match first_stray(tokens, at, until) {
        Some(stray) => Err(refused(tokens, Rule::S(5), stray + 1)),
        None => read,
    }
}

/// `expr ";"`.
pub fn ended(alloc: Global, tokens: &Tokens, at: usize) -> Result<(Expr, usize), SourceFault>
    requires within { at ≤ length tokens.now.spots.items }
    requires rising { AreRising tokens.now }
    ensures reads { Answer OF_CLASS_TEXT Ended Any (λ r. expr_of r.0) (λ r. r.1) tokens.now at
        result }
    ensures moves { IfOk result (λ r. (at < r.1) × (r.1 ≤ length tokens.now.spots.items)) }
{
    let (value, at) = whole(alloc, tokens, at)?;
    let to = sign(tokens, at, Sign::Semicolon)?;
    Ok((value, to))
}

/// `"(" expr ")"`.
pub fn test(alloc: Global, tokens: &Tokens, at: usize) -> Result<(Expr, usize), SourceFault>
    requires within { at ≤ length tokens.now.spots.items }
    requires rising { AreRising tokens.now }
    ensures reads { Answer OF_CLASS_TEXT Test Any (λ r. expr_of r.0) (λ r. r.1) tokens.now at
        result }
    ensures moves { IfOk result (λ r. (at < r.1) × (r.1 ≤ length tokens.now.spots.items)) }
{
    let at = sign(tokens, at, Sign::OpenRound)?;
    let (value, at) = whole(alloc, tokens, at)?;
    let to = sign(tokens, at, Sign::CloseRound)?;
    Ok((value, to))
}

/// The arguments of a call behind its opening bracket, with the closing one.
pub fn arguments(
    alloc: Global,
    tokens: &Tokens,
    at: usize,
) -> Result<(Vec<Expr>, usize), SourceFault>
    requires within { at ≤ length tokens.now.spots.items }
    requires rising { AreRising tokens.now }
    ensures reads { Answer OF_CLASS_TEXT Args Any (λ r. exprs_of r.0.items) (λ r. r.1) tokens.now at
        result }
    ensures moves { IfOk result (λ r. (at < r.1) × (r.1 ≤ length tokens.now.spots.items)) }
{
    let mut args = Vec::new(alloc);
    if is_sign(tokens, at, Sign::CloseRound) {
        return Ok((args, at + 1));
    }
    let (first, to) = whole(alloc, tokens, at)?;
    args.push(first)?;
    let mut at = to;
    'items: while is_sign(tokens, at, Sign::Comma) {
        let (next, to) = whole(alloc, tokens, at + 1)?;
        args.push(next)?;
        at = to;
    }
    let to = sign(tokens, at, Sign::CloseRound)?;
    Ok((args, to))
}
