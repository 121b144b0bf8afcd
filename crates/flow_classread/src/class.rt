// Classes of class text.

ghost use Rattle.std.specs.Prelude.{◌≡◌, ◌↔◌, ◌<◌, ◌≤◌, length, map, codes, IfOk, IsTrue, Some};
ghost use Rattle.std.specs.Bool.{OnTrue};
ghost use Rattle.flow_tree.specs.declared.token.Token.TheVariants as token;
ghost use Rattle.flow_tree.specs.declared.token.Word.TheVariants as word;
ghost use Rattle.flow_tree.specs.declared.limits.TheConstants.{OF_CLASS_TEXT};
ghost use Rattle.flow_tree.specs.View.{type_of, result_of};
ghost use Rattle.flow_tree.specs.DeclView.{slot_of};
ghost use Rattle.flow_class.specs.View.{block_of, class_of};
ghost use Rattle.flow_parse.specs.Reading.{token_at, Any, Answer};
ghost use Rattle.flow_parse.specs.Follow.{NotBefore};
ghost use Rattle.flow_classprint.specs.ClassGrammar.{NumberedRule, SlotRule, LocalRule, ResultRule, ClassRule};
ghost use Rattle.flow_classread.specs.Rising.{AreRising};
ghost use Rattle.flow_classread.specs.Parts.{Blocks};

use crate::block::block;
use crate::group::groups;
use crate::token::{number, numbered, said, says};
use flow_class::class::{Block, Class};
use flow_classprint::version::Version;
use flow_parse::token::{is_word, name, sign, ty};
use flow_tree::decl::Slot;
use flow_tree::fault::SourceFault;
use flow_tree::token::{Sign, Tokens, Word};
use flow_tree::ty::Ty;
use std::alloc::Global;

// The slot of this number: `"slot" number type name ";"`.
fn slot(alloc: Global, tokens: &Tokens, at: usize, n: u32) -> Result<(Slot, usize), SourceFault>
    requires within { at ≤ length tokens.now.spots.items }
    ensures reads { Answer OF_CLASS_TEXT (SlotRule n) Any (λ r. slot_of r.0) (λ r. r.1) tokens.now
        at result }
    ensures moves { IfOk result (λ r. (at < r.1) × (r.1 ≤ length tokens.now.spots.items)) }
{
    let at = numbered(tokens, at, b"slot", n)?;
    let (ty, at) = ty(alloc, tokens, at, 1)?;
    let (name, at) = name(alloc, tokens, at)?;
    let to = sign(tokens, at, Sign::Semicolon)?;
    Ok((
        Slot {
            ty,
            name: name.name,
        },
        to,
    ))
}

// The local of this number: `"local" number type ";"`.
fn local(alloc: Global, tokens: &Tokens, at: usize, n: u32) -> Result<(Ty, usize), SourceFault>
    requires within { at ≤ length tokens.now.spots.items }
    ensures reads { Answer OF_CLASS_TEXT (LocalRule n) Any (λ r. type_of r.0) (λ r. r.1) tokens.now
        at result }
    ensures moves { IfOk result (λ r. (at < r.1) × (r.1 ≤ length tokens.now.spots.items)) }
{
    let at = numbered(tokens, at, b"local", n)?;
    let (ty, at) = ty(alloc, tokens, at, 1)?;
    let to = sign(tokens, at, Sign::Semicolon)?;
    Ok((ty, to))
}

fn slots(alloc: Global, tokens: &Tokens, at: usize) -> Result<(Vec<Slot>, usize), SourceFault>
    requires within { at ≤ length tokens.now.spots.items }
    requires rising { AreRising tokens.now }
    ensures reads { Answer OF_CLASS_TEXT (NumberedRule SlotRule 0)
        (NotBefore (token.Name (codes "slot"))) (λ r. map slot_of r.0.items) (λ r. r.1) tokens.now
        at result }
    ensures moves { IfOk result (λ r. (at ≤ r.1) × (r.1 ≤ length tokens.now.spots.items)) }
{
    let mut slots = Vec::new(alloc);
    let mut at = at;
    let mut n = 0;
    'items: while says(tokens, at, b"slot") {
        let (next, to) = slot(alloc, tokens, at, n)?;
        slots.push(next)?;
        at = to;
        n = n + 1;
    }
    Ok((slots, at))
}

fn locals(alloc: Global, tokens: &Tokens, at: usize) -> Result<(Vec<Ty>, usize), SourceFault>
    requires within { at ≤ length tokens.now.spots.items }
    requires rising { AreRising tokens.now }
    ensures reads { Answer OF_CLASS_TEXT (NumberedRule LocalRule 0)
        (NotBefore (token.Name (codes "local"))) (λ r. map type_of r.0.items) (λ r. r.1) tokens.now
        at result }
    ensures moves { IfOk result (λ r. (at ≤ r.1) × (r.1 ≤ length tokens.now.spots.items)) }
{
    let mut locals = Vec::new(alloc);
    let mut at = at;
    let mut n = 0;
    'items: while says(tokens, at, b"local") {
        let (next, to) = local(alloc, tokens, at, n)?;
        locals.push(next)?;
        at = to;
        n = n + 1;
    }
    Ok((locals, at))
}

// Blocks, one at least.
fn blocks(
    alloc: Global,
    tokens: &Tokens,
    at: usize,
    version: Version,
) -> Result<(Vec<Block>, usize), SourceFault>
    requires within { at ≤ length tokens.now.spots.items }
    requires rising { AreRising tokens.now }
    ensures reads { Answer OF_CLASS_TEXT (Blocks version) (NotBefore (token.Name (codes "block")))
        (λ r. map block_of r.0.items) (λ r. r.1) tokens.now at result }
    ensures moves { IfOk result (λ r. (at < r.1) × (r.1 ≤ length tokens.now.spots.items)) }
{
    let mut blocks = Vec::new(alloc);
    let (first, mut at) = block(alloc, tokens, at, 0, version)?;
    blocks.push(first)?;
    let mut n = 1;
    'items: while says(tokens, at, b"block") {
        let (next, to) = block(alloc, tokens, at, n, version)?;
        blocks.push(next)?;
        at = to;
        n = n + 1;
    }
    Ok((blocks, at))
}

// Whether the word of no result stands here, which version 1 hasn't.
fn gives_nothing(tokens: &Tokens, at: usize, version: Version) -> bool
    ensures nothing { IsTrue result ↔ ((version ≡ Version.Two)
        × (token_at tokens.now.spots.items at ≡ Some (token.Word word.NoResult))) }
    ensures within { OnTrue result (at < length tokens.now.spots.items) }
{
    version == Version::Two && is_word(tokens, at, Word::NoResult)
}

// What a class gives: a type, or in version 2 the word of none.
fn gives(
    alloc: Global,
    tokens: &Tokens,
    at: usize,
    version: Version,
) -> Result<(Option<Ty>, usize), SourceFault>
    requires within { at ≤ length tokens.now.spots.items }
    ensures reads { Answer OF_CLASS_TEXT (ResultRule version) Any (λ r. result_of r.0) (λ r. r.1)
        tokens.now at result }
    ensures moves { IfOk result (λ r. (at < r.1) × (r.1 ≤ length tokens.now.spots.items)) }
{
    if gives_nothing(tokens, at, version) {
        return Ok((None, at + 1));
    }
    let (ty, to) = ty(alloc, tokens, at, 1)?;
    Ok((Some(ty), to))
}

/// The class of this version that begins here, and the number of the token after it.
pub fn class(
    alloc: Global,
    tokens: &Tokens,
    at: usize,
    version: Version,
) -> Result<(Class, usize), SourceFault>
    requires within { at ≤ length tokens.now.spots.items }
    requires rising { AreRising tokens.now }
    ensures reads { Answer OF_CLASS_TEXT (ClassRule version) Any (λ r. class_of r.0) (λ r. r.1)
        tokens.now at result }
    ensures moves { IfOk result (λ r. (at < r.1) × (r.1 ≤ length tokens.now.spots.items)) }
{
    let at = said(tokens, at, b"class")?;
    let (name, at) = name(alloc, tokens, at)?;
    let at = said(tokens, at, b"returns")?;
    let (returns, at) = gives(alloc, tokens, at, version)?;
    let at = said(tokens, at, b"params")?;
    let (params, at) = number(tokens, at)?;
    let at = sign(tokens, at, Sign::OpenCurly)?;
    let (slots, at) = slots(alloc, tokens, at)?;
    let (locals, at) = locals(alloc, tokens, at)?;
    let (blocks, at) = blocks(alloc, tokens, at, version)?;
    let (groups, at) = groups(alloc, tokens, at)?;
    let to = sign(tokens, at, Sign::CloseCurly)?;
    let class = Class {
        name: name.name,
        returns,
        params,
        slots,
        locals,
        blocks,
        groups,
    };
    Ok((class, to))
}
