// Groups of class text, and their callbacks.

ghost use Rattle.std.specs.Prelude.{◌≡◌, ◌+◌, ◌<◌, ◌≤◌, length, map, codes, IfOk};
ghost use Rattle.flow_tree.specs.declared.token.Token.TheVariants as token;
ghost use Rattle.flow_tree.specs.declared.limits.TheConstants.{BRANCHES, OF_CLASS_TEXT};
ghost use Rattle.flow_tree.specs.View.{expr_of};
ghost use Rattle.flow_class.specs.View.{callback_of, group_of};
ghost use Rattle.flow_parse.specs.Reading.{Any, Answer};
ghost use Rattle.flow_parse.specs.Follow.{NotBefore};
ghost use Rattle.flow_classprint.specs.ClassGrammar.{IntoRule, CallbackRule, GroupsRule};
ghost use Rattle.flow_classread.specs.Rising.{AreRising};
ghost use Rattle.flow_classread.specs.Parts.{Operand, Callbacks, GroupPart};

use crate::expr::test;
use crate::token::{numbered, said, says, slotted, target};
use flow_class::class::{Callback, Group, Slotted};
use flow_parse::token::{is_sign, is_word, refused, sign, word};
use flow_tree::expr::Expr;
use flow_tree::fault::{Rule, SourceFault};
use flow_tree::limits::BRANCHES;
use flow_tree::token::{Sign, Tokens, Word};
use std::alloc::Global;

// `[ "into" place ]`.
fn into(tokens: &Tokens, at: usize) -> Result<(Option<Slotted>, usize), SourceFault>
    requires within { at ≤ length tokens.now.spots.items }
    ensures reads { Answer OF_CLASS_TEXT IntoRule (NotBefore (token.Name (codes "into"))) (λ r. r.0)
        (λ r. r.1) tokens.now at result }
    ensures moves { IfOk result (λ r. (at ≤ r.1) × (r.1 ≤ length tokens.now.spots.items)) }
{
    if !says(tokens, at, b"into") {
        return Ok((None, at));
    }
    let (place, to) = slotted(tokens, at + 1)?;
    Ok((Some(place), to))
}

// `( "wait" | "waitNext" ) "(" expr ")"`.
fn operand(alloc: Global, tokens: &Tokens, at: usize) -> Result<(bool, Expr, usize), SourceFault>
    requires within { at ≤ length tokens.now.spots.items }
    requires rising { AreRising tokens.now }
    ensures reads { Answer OF_CLASS_TEXT Operand Any (λ r. (r.0, expr_of r.1)) (λ r. r.2) tokens.now
        at result }
    ensures moves { IfOk result (λ r. (at < r.2) × (r.2 ≤ length tokens.now.spots.items)) }
{
    if is_word(tokens, at, Word::WaitNext) {
        let (of, to) = test(alloc, tokens, at + 1)?;
        return Ok((true, of, to));
    }
    let at = word(tokens, at, Word::Wait)?;
    let (of, to) = test(alloc, tokens, at)?;
    Ok((false, of, to))
}

// The callback of this number, and the number of the token after it.
fn callback(
    alloc: Global,
    tokens: &Tokens,
    at: usize,
    n: u32,
) -> Result<(Callback, usize), SourceFault>
    requires within { at ≤ length tokens.now.spots.items }
    requires rising { AreRising tokens.now }
    ensures reads { Answer OF_CLASS_TEXT (CallbackRule n) Any (λ r. callback_of r.0) (λ r. r.1)
        tokens.now at result }
    ensures moves { IfOk result (λ r. (at < r.1) × (r.1 ≤ length tokens.now.spots.items)) }
{
    let at = numbered(tokens, at, b"callback", n)?;
    let (next, operand, at) = operand(alloc, tokens, at)?;
    let (into, at) = into(tokens, at)?;
    let at = said(tokens, at, b"goto")?;
    let (block, to) = target(tokens, at)?;
    let callback = Callback {
        next,
        operand,
        into,
        block,
    };
    Ok((callback, to))
}

// The callbacks of a group, the first with this number, with the brace that closes them: one at least, and 64 at most.
fn callbacks(
    alloc: Global,
    tokens: &Tokens,
    at: usize,
    from: u32,
) -> Result<(Vec<Callback>, usize), SourceFault>
    requires within { at ≤ length tokens.now.spots.items }
    requires rising { AreRising tokens.now }
    requires before { from ≤ at }
    ensures few { IfOk result (λ r. at + length r.0.items ≤ r.1) }
    ensures reads { Answer OF_CLASS_TEXT (Callbacks from) Any (λ r. map callback_of r.0.items)
        (λ r. r.1) tokens.now at result }
    ensures moves { IfOk result (λ r. (at < r.1) × (r.1 ≤ length tokens.now.spots.items)) }
{
    let mut callbacks = Vec::new(alloc);
    let (first, mut at) = callback(alloc, tokens, at, from)?;
    callbacks.push(first)?;
    let mut count = 1;
    'items: while !is_sign(tokens, at, Sign::CloseCurly) {
        if count == BRANCHES {
            return Err(refused(tokens, Rule::S(5), at));
        }
        let (next, to) = callback(alloc, tokens, at, from + count)?;
        callbacks.push(next)?;
        at = to;
        count += 1;
    }
    Ok((callbacks, at + 1))
}

// The callbacks of the group of this number, the first with that number.
fn group(
    alloc: Global,
    tokens: &Tokens,
    at: usize,
    number: u32,
    first: u32,
) -> Result<(Vec<Callback>, usize), SourceFault>
    requires within { at ≤ length tokens.now.spots.items }
    requires rising { AreRising tokens.now }
    requires before { first ≤ at }
    ensures reads { Answer OF_CLASS_TEXT (GroupPart number first) Any
        (λ r. map callback_of r.0.items) (λ r. r.1) tokens.now at result }
    ensures moves { IfOk result (λ r. (at < r.1) × (r.1 ≤ length tokens.now.spots.items)) }
    ensures few { IfOk result (λ r. at + length r.0.items ≤ r.1) }
{
    let at = numbered(tokens, at, b"group", number)?;
    let at = sign(tokens, at, Sign::OpenCurly)?;
    let (callbacks, to) = callbacks(alloc, tokens, at, first)?;
    Ok((callbacks, to))
}

/// Groups as far as they go, numbered from 1, and their callbacks from 0 through all of them.
pub fn groups(alloc: Global, tokens: &Tokens, at: usize) -> Result<(Vec<Group>, usize), SourceFault>
    requires within { at ≤ length tokens.now.spots.items }
    requires rising { AreRising tokens.now }
    ensures reads { Answer OF_CLASS_TEXT (GroupsRule 1 0) (NotBefore (token.Name (codes "group")))
        (λ r. map group_of r.0.items) (λ r. r.1) tokens.now at result }
    ensures moves { IfOk result (λ r. (at ≤ r.1) × (r.1 ≤ length tokens.now.spots.items)) }
{
    let mut groups = Vec::new(alloc);
    let mut at = at;
    let mut number = 1;
    let mut before = 0;
    'items: while says(tokens, at, b"group") {
        let (callbacks, to) = group(alloc, tokens, at, number, before)?;
        before += callbacks.len() as u32;
        groups.push(Group { callbacks })?;
        at = to;
        number += 1;
    }
    Ok((groups, at))
}
