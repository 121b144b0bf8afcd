// What could stand at a place.

ghost use Rattle.std.specs.Prelude.{◌≡◌, ◌≢◌, ◌+◌, ◌<◌, ◌≤◌, length, take, ℕ, IfOk, IfSome};
ghost use Rattle.flow_tree.specs.GrammarToken.{Good};
ghost use Rattle.flow_tree.specs.GrammarDecl.{ProgramRule};
ghost use Rattle.flow_tree.specs.GrammarAnswer.{place_at};
ghost use Rattle.flow_tree.specs.declared.limits.TheConstants.{TOKENS};
ghost use Rattle.flow_parse.specs.ParseAnswer.{FailsAtAll};
ghost use Rattle.flow_expected.specs.Expected.{IsReached, Decides, CouldStand, Picks};

use crate::kind::Kind;
use flow_base::memory::NoMemory;
use flow_base::place::Place;
use flow_exprs::token::place;
use flow_parse::parse::parse;
use flow_tree::fault::{Rule, SourceFault};
use flow_tree::limits::TOKENS;
use flow_tree::token::{Spot, Tokens};
use std::alloc::Global;

// Whether some program begins with all of these tokens, where one does with those before the last.
fn begins_one(alloc: Global, tokens: &Tokens, last: usize) -> Result<bool, NoMemory>
    requires one_more { length tokens.now.spots.items ≡ last + 1 }
    requires few { last < TOKENS }
    requires reached { IsReached tokens.now last }
    requires apart { place_at tokens.now last ≢ tokens.now.end }
    ensures { IfOk result (λ fits. Decides fits
        (Good (ProgramRule tokens.now.end) 2 tokens.now.spots.items)) }
{
    match parse(alloc, tokens) {
        Ok(_) => Ok(true),
        Err(
            SourceFault::Refused {
                rule: Rule::S(_),
                at,
            },
        ) => Ok(!is_same(at, tokens.spots[last].at)),
        Err(
            SourceFault::Refused {
                rule: Rule::L(_),
                at: _,
            },
        ) => Ok(true),
        Err(
            SourceFault::Refused {
                rule: Rule::K(_),
                at: _,
            },
        ) => Ok(true),
        Err(SourceFault::AcrossWait { .. }) => Ok(true),
        Err(SourceFault::OutOfMemory) => Err(NoMemory),
    }
}

// Whether these are one place.
fn is_same(one: Place, other: Place) -> bool
    ensures { Decides result (one ≡ other) }
{
    one == other
}

// A place that is another one.
fn other_than(at: Place) -> Place
    ensures { result ≢ at }
{
    let byte = if at.byte == 0 { 1 } else { 0 };
    Place { byte, ..at }
}

/// Those of these kinds of which a token could stand in place of the one of this number, counted from
/// 0, or at the end: with it, behind the tokens before it, some program begins. The tokens are those
/// of a text that is refused at no token before.
pub fn could_stand(
    alloc: Global,
    tokens: Tokens,
    number: usize,
    kinds: &[Kind],
) -> Result<Vec<Kind>, NoMemory>
    requires within { number ≤ length tokens.spots.items }
    requires few { number < TOKENS }
    requires reached { IsReached tokens number }
    ensures { IfOk result (λ found. Picks (CouldStand tokens number) kinds.now found.items) }
{
    let at = place(&tokens, number);
    let mut tokens = tokens;
    tokens.spots.truncate(number);
    tokens.end = other_than(at);
    let mut found = Vec::new(alloc);
    for kind in kinds {
        let token = kind.token(alloc)?;
        tokens.spots.push(Spot { token, at })?;
        if begins_one(alloc, &tokens, number)? {
            found.push(*kind)?;
        }
        tokens.spots.truncate(number);
    }
    Ok(found)
}

/// A place at which a text is refused by S5, and what could stand there.
#[derive(Drop)]
pub struct Expected {
    /// The number of the token that stands there, counted from 0; that of the end is the count of tokens.
    pub number: usize,
    pub kinds: Vec<Kind>,
}

/// Where these tokens are refused by S5, and those of these kinds of which a token could stand there;
/// none where they aren't refused so, or where they are 200,000 and fail at their end.
#[tactic(auto, using(crate::proofs::Reached::reached_first, crate::proofs::Reached::refused_there))]
pub fn at_refusal(
    alloc: Global,
    tokens: Tokens,
    kinds: &[Kind],
) -> Result<Option<Expected>, NoMemory>
    ensures kinds { IfOk result (λ found. IfSome found (λ e.
        Picks (CouldStand tokens e.number) kinds.now e.kinds.items)) }
    ensures reached { IfOk result (λ found. IfSome found (λ e. IsReached tokens e.number)) }
    ensures refused { IfOk result (λ found. IfSome found (λ e.
        FailsAtAll tokens (place_at tokens e.number))) }
{
    match parse(alloc, &tokens) {
        Err(
            SourceFault::Refused {
                rule: Rule::S(_),
                at,
            },
        ) => {
            let number = first_at(&tokens, at);
            if number >= TOKENS {
                return Ok(None);
            }
            let kinds = could_stand(alloc, tokens, number, kinds)?;
            Ok(Some(Expected { number, kinds }))
        }
        Err(SourceFault::OutOfMemory) => Err(NoMemory),
        _ => Ok(None),
    }
}

// The number of the first token at this place, or the count of them where none is.
fn first_at(tokens: &Tokens, at: Place) -> usize
    ensures within { result ≤ length tokens.now.spots.items }
    ensures first { (j : ℕ) → j < result → place_at tokens.now j ≢ at }
    ensures there { result < length tokens.now.spots.items → place_at tokens.now result ≡ at }
{
    let mut number = 0;
    while number < tokens.spots.len() {
        if is_same(place(tokens, number), at) {
            return number;
        }
        number += 1;
    }
    number
}
