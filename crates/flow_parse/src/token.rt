// Single tokens, types and expressions, each with what follows it.

ghost use Rattle.std.specs.Prelude.{◌≡◌, ◌↔◌, ℕ, ◌+◌, ◌<◌, ◌≤◌, length, IfOk, IsTrue, OnSome, Some};
ghost use Rattle.std.specs.Bool.{OnTrue};
ghost use Rattle.flow_tree.specs.GrammarAnswer.{place_at};
ghost use Rattle.flow_tree.specs.View.{type_of, expr_of};
ghost use Rattle.flow_tree.specs.Grammar.{TypeRule, ExprRule};
ghost use Rattle.flow_parse.specs.Reading.{token_at, Tok, Named, Any, AnswerAlways};
ghost use Rattle.flow_parse.specs.Openers.{AsFirst, NameToken, ExprToken, TypeToken, TypeWord, WaitToken};
ghost use Rattle.flow_exprs.specs.Answer.{ident_at};
ghost use Rattle.flow_parse.specs.Follow.{ExprEnds};

use flow_base::memory::NoMemory;
use flow_exprs::expr::parse_expr;
use flow_exprs::kind::{self, Kind};
use flow_exprs::token::{place, token_name};
use flow_exprs::ty::parse_type;
use flow_tree::expr::Expr;
use flow_tree::fault::{Rule, SourceFault};
use flow_tree::limits::DEPTH;
use flow_tree::token::{Sign, Token, Tokens, Word};
use flow_tree::ty::{Ident, Ty};
use std::alloc::Global;

/// The refusal by this rule at this token, or at the end.
pub fn refused(tokens: &Tokens, rule: Rule, k: usize) -> SourceFault
    ensures { result ≡ SourceFault.Refused rule (place_at tokens.now k) }
{
    SourceFault::Refused {
        rule,
        at: place(tokens, k),
    }
}

fn token_is_word(token: &Token, wanted: Word) -> bool
    ensures { IsTrue result ↔ (token.now ≡ Token.Word wanted) }
{
    match token {
        Token::Word(word) => *word == wanted,
        Token::Name(_) | Token::Number(_) | Token::Text(_) | Token::Sign(_) => false,
    }
}

fn token_is_sign(token: &Token, wanted: Sign) -> bool
    ensures { IsTrue result ↔ (token.now ≡ Token.Sign wanted) }
{
    match token {
        Token::Sign(sign) => *sign == wanted,
        Token::Name(_) | Token::Number(_) | Token::Text(_) | Token::Word(_) => false,
    }
}

/// Whether this word stands here.
pub fn is_word(tokens: &Tokens, at: usize, wanted: Word) -> bool
    ensures word { IsTrue result ↔ (token_at tokens.now.spots.items at ≡ Some (Token.Word wanted)) }
    ensures within { OnTrue result (at < length tokens.now.spots.items) }
{
    match tokens.spots.get(at) {
        Some(spot) => token_is_word(&spot.token, wanted),
        None => false,
    }
}

/// Whether this sign stands here.
pub fn is_sign(tokens: &Tokens, at: usize, wanted: Sign) -> bool
    ensures sign { IsTrue result ↔ (token_at tokens.now.spots.items at ≡ Some (Token.Sign wanted)) }
    ensures within { OnTrue result (at < length tokens.now.spots.items) }
{
    match tokens.spots.get(at) {
        Some(spot) => token_is_sign(&spot.token, wanted),
        None => false,
    }
}

/// Whether a name stands here.
pub fn is_name(tokens: &Tokens, at: usize) -> bool
    ensures name { IsTrue result ↔ AsFirst NameToken (token_at tokens.now.spots.items at) }
    ensures within { OnTrue result (at < length tokens.now.spots.items) }
{
    match tokens.spots.get(at) {
        Some(spot) => matches!(&spot.token, Token::Name(_)),
        None => false,
    }
}

/// Whether a wait begins here.
pub fn begins_wait(tokens: &Tokens, at: usize) -> bool
    ensures { IsTrue result ↔ AsFirst WaitToken (token_at tokens.now.spots.items at) }
{
    match tokens.spots.get(at) {
        Some(spot) => {
            token_is_word(&spot.token, Word::Wait) || token_is_word(&spot.token, Word::WaitNext)
        }
        None => false,
    }
}

/// The number of the token after this sign; S5 where it doesn't stand here.
pub fn sign(tokens: &Tokens, at: usize, wanted: Sign) -> Result<usize, SourceFault>
    ensures reads { AnswerAlways (Tok (Token.Sign wanted)) Any (λ to. place_at tokens.now at)
        (λ to. to) tokens.now at result }
    ensures moves { IfOk result (λ to. (to ≡ at + 1) × (to ≤ length tokens.now.spots.items)) }
{
    if !is_sign(tokens, at, wanted) {
        return Err(refused(tokens, Rule::S(5), at));
    }
    Ok(at + 1)
}

/// The number of the token after this word; S5 where it doesn't stand here.
pub fn word(tokens: &Tokens, at: usize, wanted: Word) -> Result<usize, SourceFault>
    ensures reads { AnswerAlways (Tok (Token.Word wanted)) Any (λ to. place_at tokens.now at)
        (λ to. to) tokens.now at result }
    ensures moves { IfOk result (λ to. (to ≡ at + 1) × (to ≤ length tokens.now.spots.items)) }
{
    if !is_word(tokens, at, wanted) {
        return Err(refused(tokens, Rule::S(5), at));
    }
    Ok(at + 1)
}

/// The name that stands here, if one does.
pub fn read_name(alloc: Global, tokens: &Tokens, at: usize) -> Result<Option<Ident>, NoMemory>
    ensures is { IfOk result (λ o. o ≡ ident_at tokens.now.spots.items at) }
    ensures within { IfOk result (λ o. OnSome o (at < length tokens.now.spots.items)) }
{
    match tokens.spots.get(at) {
        Some(spot) => token_name(alloc, &spot.token, spot.at),
        None => Ok(None),
    }
}

/// The name that stands here, and the number of the token after it; S5 where none does.
pub fn name(alloc: Global, tokens: &Tokens, at: usize) -> Result<(Ident, usize), SourceFault>
    requires within { at ≤ length tokens.now.spots.items }
    ensures reads { AnswerAlways Named Any (λ r. r.0) (λ r. r.1) tokens.now at result }
    ensures moves { IfOk result (λ r. (r.1 ≡ at + 1) × (r.1 ≤ length tokens.now.spots.items)) }
{
    let Some(name) = read_name(alloc, tokens, at)? else {
        return Err(refused(tokens, Rule::S(5), at));
    };
    Ok((name, at + 1))
}

/// A type of this depth, and the number of the token after it.
pub fn ty(alloc: Global, tokens: &Tokens, at: usize, depth: u32) -> Result<(Ty, usize), SourceFault>
    requires within { at ≤ length tokens.now.spots.items }
    requires shallow { depth ≤ DEPTH }
    ensures reads { AnswerAlways (TypeRule depth) Any (λ r. type_of r.0) (λ r. r.1) tokens.now at
        result }
    ensures moves { IfOk result (λ r. (at < r.1) × (r.1 ≤ length tokens.now.spots.items)) }
{
    parse_type(alloc, tokens, at, depth)
}

/// An expression of this depth, and the number of the token after it. Below the greatest depth L5 is
/// refused where one begins, and S5 elsewhere.
pub fn expr(
    alloc: Global,
    tokens: &Tokens,
    at: usize,
    depth: u32,
) -> Result<(Expr, usize), SourceFault>
    requires within { at ≤ length tokens.now.spots.items }
    ensures reads { AnswerAlways (ExprRule 0 depth) ExprEnds (λ r. expr_of r.0) (λ r. r.1)
        tokens.now at result }
    ensures moves { IfOk result (λ r. (at < r.1) × (r.1 ≤ length tokens.now.spots.items)) }
{
    if depth <= DEPTH {
        return parse_expr(alloc, tokens, at, depth);
    }
    if begins_expr(tokens, at) {
        return Err(refused(tokens, Rule::L(5), at));
    }
    Err(refused(tokens, Rule::S(5), at))
}

/// Whether an expression may begin here.
pub fn begins_expr(tokens: &Tokens, at: usize) -> bool
    ensures within { OnTrue result (at < length tokens.now.spots.items) }
    ensures begins { IsTrue result ↔ AsFirst ExprToken (token_at tokens.now.spots.items at) }
{
    match kind::at(&tokens.spots, at) {
        Some(Kind::Leaf) | Some(Kind::Name) | Some(Kind::Void) | Some(Kind::Open) => true,
        Some(Kind::Not) => true,
        Some(Kind::Op(op)) => op == flow_tree::expr::Op::Sub,
        _ => false,
    }
}

/// Whether a type begins here.
pub fn begins_type(tokens: &Tokens, at: usize) -> bool
    ensures begins { IsTrue result ↔ AsFirst TypeToken (token_at tokens.now.spots.items at) }
    ensures within { OnTrue result (at < length tokens.now.spots.items) }
{
    let Some(spot) = tokens.spots.get(at) else {
        return false;
    };
    match &spot.token {
        Token::Name(_) => true,
        Token::Word(word) => is_type_word(*word),
        _ => false,
    }
}

/// Whether a type begins with this word.
pub fn is_type_word(word: Word) -> bool
    ensures { IsTrue result ↔ TypeWord word }
{
    match word {
        Word::Int | Word::Bool | Word::Str | Word::Void | Word::Error => true,
        Word::Future | Word::FutureStream | Word::Promise | Word::PromiseStream => true,
        Word::Vector => true,
        _ => false,
    }
}
