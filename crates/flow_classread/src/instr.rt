// Instructions of class text.

ghost use Rattle.std.specs.Prelude.{◌≡◌, ◌↔◌, ◌+◌, ◌<◌, ◌≤◌, length, IfOk, IsTrue, OnSome, Some};
ghost use Rattle.std.specs.Bool.{OnTrue};
ghost use Rattle.std.specs.Option.{option_map};
ghost use Rattle.flow_tree.specs.declared.token.Token.TheVariants as token;
ghost use Rattle.flow_tree.specs.declared.token.Sign.TheVariants as sign;
ghost use Rattle.flow_tree.specs.declared.limits.TheConstants.{OF_CLASS_TEXT};
ghost use Rattle.flow_tree.specs.View.{expr_of};
ghost use Rattle.flow_class.specs.View.{instr_of, last_of};
ghost use Rattle.flow_parse.specs.Reading.{token_at, Any, Answer};
ghost use Rattle.flow_parse.specs.Follow.{NotBefore};
ghost use Rattle.flow_parse.specs.Openers.{AsFirst};
ghost use Rattle.flow_classprint.specs.ClassGrammar.{VarPathRule, CalleeRule, LocalsRule, InstrRule, LastRule};
ghost use Rattle.flow_classread.specs.Rising.{AreRising};
ghost use Rattle.flow_classread.specs.Tokens.{place_ident_at};
ghost use Rattle.flow_classread.specs.Parts.{SinglePart, Assignment, ActInstrPart, NewInstrPart, DropInstrPart, BranchPart, Returned, InstrToken};

use crate::expr::{arguments, ended, test};
use crate::token::{local, number, place_here, said, says, slotted, target};
use flow_base::memory::NoMemory;
use flow_class::class::{Instr, Last};
use flow_classprint::version::Version;
use flow_parse::simple::more_names;
use flow_parse::token::{is_sign, is_word, name, read_name, refused, sign, word};
use flow_tree::expr::Expr;
use flow_tree::fault::{Rule, SourceFault};
use flow_tree::stmt::Target;
use flow_tree::token::{Sign, Tokens, Word};
use flow_tree::ty::Ident;
use std::alloc::Global;

// The name of a slot or a local, if one stands here.
fn place_name(alloc: Global, tokens: &Tokens, at: usize) -> Result<Option<Ident>, NoMemory>
    ensures is { IfOk result (λ o. o ≡ place_ident_at tokens.now.spots.items at) }
    ensures within { IfOk result (λ o. OnSome o (at < length tokens.now.spots.items)) }
{
    match place_here(tokens, at) {
        Some(_) => read_name(alloc, tokens, at),
        None => Ok(None),
    }
}

// A path that begins with a slot or a local.
fn path(alloc: Global, tokens: &Tokens, at: usize) -> Result<(Vec<Ident>, usize), SourceFault>
    requires within { at ≤ length tokens.now.spots.items }
    ensures reads { Answer OF_CLASS_TEXT VarPathRule (NotBefore (token.Sign sign.Dot))
        (λ r. r.0.items) (λ r. r.1) tokens.now at result }
    ensures moves { IfOk result (λ r. (at < r.1) × (r.1 ≤ length tokens.now.spots.items)) }
{
    let Some(first) = place_name(alloc, tokens, at)? else {
        return Err(refused(tokens, Rule::S(5), at));
    };
    let (path, to) = more_names(alloc, tokens, first, at + 1)?;
    Ok((path, to))
}

// A path of one name.
fn single(alloc: Global, tokens: &Tokens, at: usize) -> Result<(Vec<Ident>, usize), SourceFault>
    requires within { at ≤ length tokens.now.spots.items }
    ensures reads { Answer OF_CLASS_TEXT SinglePart Any (λ r. r.0.items) (λ r. r.1) tokens.now at
        result }
    ensures moves { IfOk result (λ r. (at < r.1) × (r.1 ≤ length tokens.now.spots.items)) }
{
    let (first, to) = name(alloc, tokens, at)?;
    let mut path = Vec::new(alloc);
    path.push(first)?;
    Ok((path, to))
}

// What `act` calls: a name, or a path that begins with a slot or a local.
fn callee(alloc: Global, tokens: &Tokens, at: usize) -> Result<(Vec<Ident>, usize), SourceFault>
    requires within { at ≤ length tokens.now.spots.items }
    ensures reads { Answer OF_CLASS_TEXT CalleeRule (NotBefore (token.Sign sign.Dot))
        (λ r. r.0.items) (λ r. r.1) tokens.now at result }
    ensures moves { IfOk result (λ r. (at < r.1) × (r.1 ≤ length tokens.now.spots.items)) }
{
    match place_here(tokens, at) {
        Some(_) => path(alloc, tokens, at),
        None => single(alloc, tokens, at),
    }
}

/// `local { "," local }`.
pub fn locals(alloc: Global, tokens: &Tokens, at: usize) -> Result<(Vec<u32>, usize), SourceFault>
    requires within { at ≤ length tokens.now.spots.items }
    ensures reads { Answer OF_CLASS_TEXT LocalsRule (NotBefore (token.Sign sign.Comma))
        (λ r. r.0.items) (λ r. r.1) tokens.now at result }
    ensures moves { IfOk result (λ r. (at < r.1) × (r.1 ≤ length tokens.now.spots.items)) }
{
    let mut locals = Vec::new(alloc);
    let (first, mut at) = local(tokens, at)?;
    locals.push(first)?;
    'items: while is_sign(tokens, at, Sign::Comma) {
        let (next, to) = local(tokens, at + 1)?;
        locals.push(next)?;
        at = to;
    }
    Ok((locals, at))
}

// `path "=" expr ";"`.
fn assignment(
    alloc: Global,
    tokens: &Tokens,
    at: usize,
) -> Result<(Target, Expr, usize), SourceFault>
    requires within { at ≤ length tokens.now.spots.items }
    requires rising { AreRising tokens.now }
    ensures reads { Answer OF_CLASS_TEXT Assignment Any (λ r. (r.0.path.items, expr_of r.1))
        (λ r. r.2) tokens.now at result }
    ensures moves { IfOk result (λ r. (at < r.2) × (r.2 ≤ length tokens.now.spots.items)) }
{
    let (path, at) = path(alloc, tokens, at)?;
    let at = sign(tokens, at, Sign::Assign)?;
    let (value, to) = ended(alloc, tokens, at)?;
    Ok((Target { path }, value, to))
}

// `"act" call ";"`, behind its word.
fn act(alloc: Global, tokens: &Tokens, at: usize) -> Result<(Instr, usize), SourceFault>
    requires within { at ≤ length tokens.now.spots.items }
    requires rising { AreRising tokens.now }
    ensures reads { Answer OF_CLASS_TEXT ActInstrPart Any (λ r. instr_of r.0) (λ r. r.1) tokens.now
        at result }
    ensures moves { IfOk result (λ r. (at < r.1) × (r.1 ≤ length tokens.now.spots.items)) }
{
    let (path, at) = callee(alloc, tokens, at)?;
    let at = sign(tokens, at, Sign::OpenRound)?;
    let (args, at) = arguments(alloc, tokens, at)?;
    let to = sign(tokens, at, Sign::Semicolon)?;
    Ok((Instr::Act(Target { path }, args), to))
}

// `"new" place ";"`, behind its word.
fn new(tokens: &Tokens, at: usize) -> Result<(Instr, usize), SourceFault>
    requires within { at ≤ length tokens.now.spots.items }
    ensures reads { Answer OF_CLASS_TEXT NewInstrPart Any (λ r. instr_of r.0) (λ r. r.1) tokens.now
        at result }
    ensures moves { IfOk result (λ r. (at < r.1) × (r.1 ≤ length tokens.now.spots.items)) }
{
    let (place, at) = slotted(tokens, at)?;
    let to = sign(tokens, at, Sign::Semicolon)?;
    Ok((Instr::New(place), to))
}

// `"drop" locals ";"`, behind its word.
fn drop_locals(alloc: Global, tokens: &Tokens, at: usize) -> Result<(Instr, usize), SourceFault>
    requires within { at ≤ length tokens.now.spots.items }
    ensures reads { Answer OF_CLASS_TEXT DropInstrPart Any (λ r. instr_of r.0) (λ r. r.1) tokens.now
        at result }
    ensures moves { IfOk result (λ r. (at < r.1) × (r.1 ≤ length tokens.now.spots.items)) }
{
    let (locals, at) = locals(alloc, tokens, at)?;
    let to = sign(tokens, at, Sign::Semicolon)?;
    Ok((Instr::Drop(locals), to))
}

/// Whether an instruction begins here that isn't the last of a block.
pub fn begins_instr(tokens: &Tokens, at: usize) -> bool
    ensures { IsTrue result ↔ AsFirst InstrToken (token_at tokens.now.spots.items at) }
{
    says(tokens, at, b"set")
        || says(tokens, at, b"do")
        || says(tokens, at, b"new")
        || says(tokens, at, b"act")
        || says(tokens, at, b"drop")
}

/// An instruction that isn't the last of a block, and the number of the token after it.
pub fn instr(alloc: Global, tokens: &Tokens, at: usize) -> Result<(Instr, usize), SourceFault>
    requires within { at ≤ length tokens.now.spots.items }
    requires rising { AreRising tokens.now }
    ensures reads { Answer OF_CLASS_TEXT InstrRule Any (λ r. instr_of r.0) (λ r. r.1) tokens.now at
        result }
    ensures moves { IfOk result (λ r. (at < r.1) × (r.1 ≤ length tokens.now.spots.items)) }
{
    if says(tokens, at, b"set") {
        let (to, value, next) = assignment(alloc, tokens, at + 1)?;
        return Ok((Instr::Set(to, value), next));
    }
    if says(tokens, at, b"do") {
        let (to, value, next) = assignment(alloc, tokens, at + 1)?;
        return Ok((Instr::Effect(to, value), next));
    }
    if says(tokens, at, b"new") {
        let (instr, to) = new(tokens, at + 1)?;
        return Ok((instr, to));
    }
    if says(tokens, at, b"act") {
        let (instr, to) = act(alloc, tokens, at + 1)?;
        return Ok((instr, to));
    }
    let at = said(tokens, at, b"drop")?;
    let (instr, to) = drop_locals(alloc, tokens, at)?;
    Ok((instr, to))
}

// `"test" "(" expr ")" "goto" number "else" number ";"`, behind its word.
fn branch(alloc: Global, tokens: &Tokens, at: usize) -> Result<(Last, usize), SourceFault>
    requires within { at ≤ length tokens.now.spots.items }
    requires rising { AreRising tokens.now }
    ensures reads { Answer OF_CLASS_TEXT BranchPart Any (λ r. last_of r.0) (λ r. r.1) tokens.now at
        result }
    ensures moves { IfOk result (λ r. (at < r.1) × (r.1 ≤ length tokens.now.spots.items)) }
{
    let (condition, at) = test(alloc, tokens, at)?;
    let at = said(tokens, at, b"goto")?;
    let (yes, at) = number(tokens, at)?;
    let at = word(tokens, at, Word::Else)?;
    let (no, to) = target(tokens, at)?;
    Ok((Last::Test(condition, yes, no), to))
}

// Whether a `return` of this version gives nothing here.
fn is_bare(tokens: &Tokens, at: usize, version: Version) -> bool
    ensures bare { IsTrue result ↔ ((version ≡ Version.Two)
        × (token_at tokens.now.spots.items at ≡ Some (token.Sign sign.Semicolon))) }
    ensures within { OnTrue result (at < length tokens.now.spots.items) }
{
    version == Version::Two && is_sign(tokens, at, Sign::Semicolon)
}

// `[ expr ] ";"`, where version 2 alone has no expression.
fn returned(
    alloc: Global,
    tokens: &Tokens,
    at: usize,
    version: Version,
) -> Result<(Option<Expr>, usize), SourceFault>
    requires within { at ≤ length tokens.now.spots.items }
    requires rising { AreRising tokens.now }
    ensures reads { Answer OF_CLASS_TEXT (Returned version) Any (λ r. option_map expr_of r.0)
        (λ r. r.1) tokens.now at result }
    ensures moves { IfOk result (λ r. (at < r.1) × (r.1 ≤ length tokens.now.spots.items)) }
{
    if is_bare(tokens, at, version) {
        return Ok((None, at + 1));
    }
    let (value, to) = ended(alloc, tokens, at)?;
    Ok((Some(value), to))
}

/// The last instruction of a block of this version, and the number of the token after it.
pub fn last(
    alloc: Global,
    tokens: &Tokens,
    at: usize,
    version: Version,
) -> Result<(Last, usize), SourceFault>
    requires within { at ≤ length tokens.now.spots.items }
    requires rising { AreRising tokens.now }
    ensures reads { Answer OF_CLASS_TEXT (LastRule version) Any (λ r. last_of r.0) (λ r. r.1)
        tokens.now at result }
    ensures moves { IfOk result (λ r. (at < r.1) × (r.1 ≤ length tokens.now.spots.items)) }
{
    if says(tokens, at, b"goto") {
        let (block, to) = target(tokens, at + 1)?;
        return Ok((Last::Goto(block), to));
    }
    if says(tokens, at, b"pass") {
        let (block, to) = target(tokens, at + 1)?;
        return Ok((Last::Pass(block), to));
    }
    if says(tokens, at, b"test") {
        let (last, to) = branch(alloc, tokens, at + 1)?;
        return Ok((last, to));
    }
    if is_word(tokens, at, Word::Choose) {
        let (group, to) = target(tokens, at + 1)?;
        return Ok((Last::Choose(group), to));
    }
    if is_word(tokens, at, Word::Return) {
        let (value, to) = returned(alloc, tokens, at + 1, version)?;
        return Ok((Last::Return(value), to));
    }
    let at = word(tokens, at, Word::Throw)?;
    let (error, to) = ended(alloc, tokens, at)?;
    Ok((Last::Throw(error), to))
}
