// Blocks of class text.

ghost use Rattle.std.specs.Prelude.{◌≡◌, ◌<◌, ◌≤◌, length, map, codes, IfOk};
ghost use Rattle.std.specs.Option.{option_map};
ghost use Rattle.flow_tree.specs.declared.token.Token.TheVariants as token;
ghost use Rattle.flow_tree.specs.declared.token.Word.TheVariants as word;
ghost use Rattle.flow_tree.specs.declared.limits.TheConstants.{OF_CLASS_TEXT};
ghost use Rattle.flow_class.specs.View.{catcher_of, instr_of, last_of, block_of};
ghost use Rattle.flow_parse.specs.Reading.{Any, Answer};
ghost use Rattle.flow_parse.specs.Follow.{NotBefore};
ghost use Rattle.flow_classprint.specs.ClassGrammar.{ErrorRule, CatchRule, InstrsRule, BlockRule};
ghost use Rattle.flow_classread.specs.Rising.{AreRising};
ghost use Rattle.flow_classread.specs.Parts.{NotFirst, InstrToken, Dropped, CatcherPart, BlockBody};

use crate::instr::{begins_instr, instr, last, locals};
use crate::token::{local, number, numbered, said, says};
use flow_class::class::{Block, Catcher, Instr, Last};
use flow_classprint::version::Version;
use flow_parse::token::{is_sign, is_word, sign};
use flow_tree::fault::SourceFault;
use flow_tree::token::{Sign, Tokens, Word};
use std::alloc::Global;

// `[ "error" local ]`.
fn error(tokens: &Tokens, at: usize) -> Result<(Option<u32>, usize), SourceFault>
    requires within { at ≤ length tokens.now.spots.items }
    ensures reads { Answer OF_CLASS_TEXT ErrorRule (NotBefore (token.Name (codes "error")))
        (λ r. r.0) (λ r. r.1) tokens.now at result }
    ensures moves { IfOk result (λ r. (at ≤ r.1) × (r.1 ≤ length tokens.now.spots.items)) }
{
    if !says(tokens, at, b"error") {
        return Ok((None, at));
    }
    let (n, to) = local(tokens, at + 1)?;
    Ok((Some(n), to))
}

// Locals, or none, and the bracket that closes them.
fn dropped(alloc: Global, tokens: &Tokens, at: usize) -> Result<(Vec<u32>, usize), SourceFault>
    requires within { at ≤ length tokens.now.spots.items }
    ensures reads { Answer OF_CLASS_TEXT Dropped Any (λ r. r.0.items) (λ r. r.1) tokens.now at
        result }
    ensures moves { IfOk result (λ r. (at < r.1) × (r.1 ≤ length tokens.now.spots.items)) }
{
    if is_sign(tokens, at, Sign::CloseRound) {
        return Ok((Vec::new(alloc), at + 1));
    }
    let (locals, at) = locals(alloc, tokens, at)?;
    let to = sign(tokens, at, Sign::CloseRound)?;
    Ok((locals, to))
}

// `"catch" number [ "error" local ] "drop" "(" [ locals ] ")"`, behind its word.
fn catcher(alloc: Global, tokens: &Tokens, at: usize) -> Result<(Catcher, usize), SourceFault>
    requires within { at ≤ length tokens.now.spots.items }
    ensures reads { Answer OF_CLASS_TEXT CatcherPart Any (λ r. catcher_of r.0) (λ r. r.1) tokens.now
        at result }
    ensures moves { IfOk result (λ r. (at < r.1) × (r.1 ≤ length tokens.now.spots.items)) }
{
    let (block, at) = number(tokens, at)?;
    let (error, at) = error(tokens, at)?;
    let at = said(tokens, at, b"drop")?;
    let at = sign(tokens, at, Sign::OpenRound)?;
    let (drops, to) = dropped(alloc, tokens, at)?;
    Ok((
        Catcher {
            block,
            error,
            drops,
        },
        to,
    ))
}

// What stands between the number of a block and its brace: where its errors go on, or nothing.
fn caught(
    alloc: Global,
    tokens: &Tokens,
    at: usize,
) -> Result<(Option<Catcher>, usize), SourceFault>
    requires within { at ≤ length tokens.now.spots.items }
    ensures reads { Answer OF_CLASS_TEXT CatchRule (NotBefore (token.Word word.Catch))
        (λ r. option_map catcher_of r.0) (λ r. r.1) tokens.now at result }
    ensures moves { IfOk result (λ r. (at ≤ r.1) × (r.1 ≤ length tokens.now.spots.items)) }
{
    if !is_word(tokens, at, Word::Catch) {
        return Ok((None, at));
    }
    let (catcher, to) = catcher(alloc, tokens, at + 1)?;
    Ok((Some(catcher), to))
}

/// Instructions and the last one that were read.
#[derive(Drop)]
pub struct ReadBody {
    pub body: Vec<Instr>,
    pub last: Last,
    pub to: usize,
}

// Instructions, as far as they go.
fn instrs(alloc: Global, tokens: &Tokens, at: usize) -> Result<(Vec<Instr>, usize), SourceFault>
    requires within { at ≤ length tokens.now.spots.items }
    requires rising { AreRising tokens.now }
    ensures reads { Answer OF_CLASS_TEXT InstrsRule (NotFirst InstrToken)
        (λ r. map instr_of r.0.items) (λ r. r.1) tokens.now at result }
    ensures moves { IfOk result (λ r. (at ≤ r.1) × (r.1 ≤ length tokens.now.spots.items)) }
{
    let mut instrs = Vec::new(alloc);
    let mut at = at;
    'items: while begins_instr(tokens, at) {
        let (next, to) = instr(alloc, tokens, at)?;
        instrs.push(next)?;
        at = to;
    }
    Ok((instrs, at))
}

// `{ instr } last "}"`.
fn body(
    alloc: Global,
    tokens: &Tokens,
    at: usize,
    version: Version,
) -> Result<ReadBody, SourceFault>
    requires within { at ≤ length tokens.now.spots.items }
    requires rising { AreRising tokens.now }
    ensures reads { Answer OF_CLASS_TEXT (BlockBody version) Any
        (λ r. (map instr_of r.body.items, last_of r.last)) (λ r. r.to) tokens.now at result }
    ensures moves { IfOk result (λ r. (at < r.to) × (r.to ≤ length tokens.now.spots.items)) }
{
    let (body, at) = instrs(alloc, tokens, at)?;
    let (last, at) = last(alloc, tokens, at, version)?;
    let to = sign(tokens, at, Sign::CloseCurly)?;
    Ok(ReadBody { body, last, to })
}

/// The block of this number and version, and the number of the token after it.
pub fn block(
    alloc: Global,
    tokens: &Tokens,
    at: usize,
    n: u32,
    version: Version,
) -> Result<(Block, usize), SourceFault>
    requires within { at ≤ length tokens.now.spots.items }
    requires rising { AreRising tokens.now }
    ensures reads { Answer OF_CLASS_TEXT (BlockRule version n) Any (λ r. block_of r.0) (λ r. r.1)
        tokens.now at result }
    ensures moves { IfOk result (λ r. (at < r.1) × (r.1 ≤ length tokens.now.spots.items)) }
{
    let at = numbered(tokens, at, b"block", n)?;
    let (catcher, at) = caught(alloc, tokens, at)?;
    let at = sign(tokens, at, Sign::OpenCurly)?;
    let read = body(alloc, tokens, at, version)?;
    let block = Block {
        catcher,
        body: read.body,
        last: read.last,
    };
    Ok((block, read.to))
}
