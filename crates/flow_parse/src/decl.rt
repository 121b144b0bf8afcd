// Declarations.

ghost use Rattle.std.specs.Prelude.{◌≡◌, ◌↔◌, ℕ, ◌+◌, ◌<◌, ◌≤◌, ◌^◌, length, IfOk, IsTrue, Some};
ghost use Rattle.flow_tree.specs.declared.token.Word.TheVariants as word;
ghost use Rattle.flow_tree.specs.declared.token.Token.TheVariants as token;
ghost use Rattle.flow_tree.specs.DeclView.{param_of, params_of, record_of, function_of, actor_of, decl_of};
ghost use Rattle.flow_tree.specs.View.{result_of};
ghost use Rattle.flow_tree.specs.GrammarDecl.{ParamRule, DeclRule};
ghost use Rattle.flow_parse.specs.Reading.{token_at, Any, Answer, AnswerAlways};
ghost use Rattle.flow_parse.specs.Openers.{AsFirst, DeclToken};
ghost use Rattle.flow_parse.specs.Parts.{AllFields, Params, Routine, Record, Function, Gives, Actor};
ghost use Rattle.flow_parse.specs.Views.{routine_out};

use crate::simple::{Around, Counts};
use crate::stmt::block;
use crate::token::{begins_type, is_sign, is_word, name, refused, sign, ty, word};
use flow_base::place::Place;
use flow_exprs::token::place;
use flow_tree::decl::{ActorDecl, Decl, FunctionDecl, Param, RecordDecl, RoutineKind};
use flow_tree::fault::{Rule, SourceFault};
use flow_tree::limits::Limits;
use flow_tree::stmt::Stmt;
use flow_tree::token::{Sign, Tokens, Word};
use flow_tree::ty::{Ident, Ty};
use std::alloc::Global;

// A parameter or a field, the one behind so many in its declaration.
fn param(
    alloc: Global,
    tokens: &Tokens,
    at: usize,
    before: u32,
    limits: Limits,
) -> Result<(Param, usize), SourceFault>
    requires within { at ≤ length tokens.now.spots.items }
    ensures reads { Answer limits (ParamRule (before + 1)) Any (λ r. param_of r.0) (λ r. r.1)
        tokens.now at result }
    ensures moves { IfOk result (λ r. (at < r.1) × (r.1 ≤ length tokens.now.spots.items)) }
    ensures few { IfOk result (λ r. before < limits.variables) }
{
    if before >= limits.variables {
        if begins_type(tokens, at) {
            return Err(refused(tokens, Rule::L(6), at));
        }
        return Err(refused(tokens, Rule::S(5), at));
    }
    let (ty, at) = ty(alloc, tokens, at, 1)?;
    let (name, to) = name(alloc, tokens, at)?;
    Ok((Param { ty, name }, to))
}

// The fields of a record, one or more, with the brace behind them.
fn fields(
    alloc: Global,
    tokens: &Tokens,
    at: usize,
    limits: Limits,
) -> Result<(Vec<Param>, usize), SourceFault>
    requires within { at ≤ length tokens.now.spots.items }
    ensures reads { Answer limits AllFields Any (λ r. params_of r.0.items) (λ r. r.1) tokens.now at
        result }
    ensures moves { IfOk result (λ r. (at < r.1) × (r.1 ≤ length tokens.now.spots.items)) }
{
    let mut fields = Vec::new(alloc);
    let (first, at) = param(alloc, tokens, at, 0, limits)?;
    fields.push(first)?;
    let mut at = sign(tokens, at, Sign::Semicolon)?;
    let mut before = 1;
    'items: while !is_sign(tokens, at, Sign::CloseCurly) {
        let (field, to) = param(alloc, tokens, at, before, limits)?;
        fields.push(field)?;
        at = sign(tokens, to, Sign::Semicolon)?;
        before += 1;
    }
    Ok((fields, at + 1))
}

// The parameters of a routine, with the bracket behind them.
fn params(
    alloc: Global,
    tokens: &Tokens,
    at: usize,
    limits: Limits,
) -> Result<(Vec<Param>, usize), SourceFault>
    requires within { at ≤ length tokens.now.spots.items }
    ensures reads { Answer limits Params Any (λ r. params_of r.0.items) (λ r. r.1) tokens.now at
        result }
    ensures moves { IfOk result (λ r. (at < r.1) × (r.1 ≤ length tokens.now.spots.items)) }
    ensures few { IfOk result (λ r. length r.0.items ≤ limits.variables) }
{
    let mut params = Vec::new(alloc);
    if is_sign(tokens, at, Sign::CloseRound) {
        return Ok((params, at + 1));
    }
    let (first, mut at) = param(alloc, tokens, at, 0, limits)?;
    params.push(first)?;
    let mut before = 1;
    'items: while is_sign(tokens, at, Sign::Comma) {
        let (next, to) = param(alloc, tokens, at + 1, before, limits)?;
        params.push(next)?;
        at = to;
        before += 1;
    }
    let to = sign(tokens, at, Sign::CloseRound)?;
    Ok((params, to))
}

/// The record that begins here, and the number of the token after it. It is refused at the first token with
/// which none begins: with S5, or with the least of L5 and L6 that can't be kept.
pub fn record(
    alloc: Global,
    tokens: &Tokens,
    at: usize,
    limits: Limits,
) -> Result<(RecordDecl, usize), SourceFault>
    requires within { at ≤ length tokens.now.spots.items }
    requires here { token_at tokens.now.spots.items at ≡ Some (token.Word word.Struct) }
    ensures reads { Answer limits Record Any (λ r. record_of r.0) (λ r. r.1) tokens.now at result }
    ensures moves { IfOk result (λ r. (at < r.1) × (r.1 ≤ length tokens.now.spots.items)) }
{
    let here = place(tokens, at);
    let (name, at) = name(alloc, tokens, at + 1)?;
    let at = sign(tokens, at, Sign::OpenCurly)?;
    let (fields, at) = fields(alloc, tokens, at, limits)?;
    let to = sign(tokens, at, Sign::Semicolon)?;
    let record = RecordDecl {
        at: here,
        name,
        fields,
    };
    Ok((record, to))
}

/// A name, parameters and a body that were read.
#[derive(Drop)]
pub struct ReadRoutine {
    pub name: Ident,
    pub params: Vec<Param>,
    pub body: Vec<Stmt>,
    pub close: Place,
    pub to: usize,
}

// How many parameters there are.
fn count(params: &Vec<Param>) -> u32
    requires { length params.now.items < 2 ^ 32 }
    ensures { result ≡ length params.now.items }
{
    params.len() as u32
}

fn routine(
    alloc: Global,
    tokens: &Tokens,
    at: usize,
    home: RoutineKind,
    limits: Limits,
) -> Result<ReadRoutine, SourceFault>
    requires within { at ≤ length tokens.now.spots.items }
    ensures reads { Answer limits (Routine home) Any routine_out (λ r. r.to) tokens.now at result }
    ensures moves { IfOk result (λ r. (at < r.to) × (r.to ≤ length tokens.now.spots.items)) }
{
    let (name, at) = name(alloc, tokens, at)?;
    let at = sign(tokens, at, Sign::OpenRound)?;
    let (params, at) = params(alloc, tokens, at, limits)?;
    let counts = Counts {
        statements: 0,
        variables: count(&params),
    };
    let around = Around {
        routine: home,
        depth: 2,
        counts,
        limits,
    };
    let read = block(alloc, tokens, at, around)?;
    Ok(ReadRoutine {
        name,
        params,
        body: read.body,
        close: read.close,
        to: read.to,
    })
}

/// The function of this kind that begins here, and the number of the token after it. It is refused at the
/// first token with which none begins: with S5, or with the least of L4 to L7 that can't be kept.
pub fn function(
    alloc: Global,
    tokens: &Tokens,
    at: usize,
    home: RoutineKind,
    limits: Limits,
) -> Result<(FunctionDecl, usize), SourceFault>
    requires within { at ≤ length tokens.now.spots.items }
    ensures reads { Answer limits (Function home) Any (λ r. function_of r.0) (λ r. r.1)
        tokens.now at result }
    ensures moves { IfOk result (λ r. (at < r.1) × (r.1 ≤ length tokens.now.spots.items)) }
{
    let here = place(tokens, at);
    let (returns, at) = ty(alloc, tokens, at, 1)?;
    let read = routine(alloc, tokens, at, home, limits)?;
    let function = FunctionDecl {
        at: here,
        returns,
        name: read.name,
        params: read.params,
        body: read.body,
        close: read.close,
    };
    Ok((function, read.to))
}

// What an actor gives: `"Future" "<" type ">"`, or `"void"` for nothing.
fn gives(alloc: Global, tokens: &Tokens, at: usize) -> Result<(Option<Ty>, usize), SourceFault>
    requires within { at ≤ length tokens.now.spots.items }
    ensures reads { AnswerAlways Gives Any (λ r. result_of r.0) (λ r. r.1) tokens.now at result }
    ensures moves { IfOk result (λ r. (at < r.1) × (r.1 ≤ length tokens.now.spots.items)) }
{
    if is_word(tokens, at, Word::NoResult) {
        return Ok((None, at + 1));
    }
    let at = word(tokens, at, Word::Future)?;
    let at = sign(tokens, at, Sign::Less)?;
    let (ty, at) = ty(alloc, tokens, at, 2)?;
    let to = sign(tokens, at, Sign::Greater)?;
    Ok((Some(ty), to))
}

fn actor(
    alloc: Global,
    tokens: &Tokens,
    at: usize,
    limits: Limits,
) -> Result<(ActorDecl, usize), SourceFault>
    requires within { at ≤ length tokens.now.spots.items }
    requires here { token_at tokens.now.spots.items at ≡ Some (token.Word word.Actor) }
    ensures reads { Answer limits Actor Any (λ r. actor_of r.0) (λ r. r.1) tokens.now at result }
    ensures moves { IfOk result (λ r. (at < r.1) × (r.1 ≤ length tokens.now.spots.items)) }
{
    let here = place(tokens, at);
    let (returns, at) = gives(alloc, tokens, at + 1)?;
    let read = routine(alloc, tokens, at, RoutineKind::Actor, limits)?;
    let actor = ActorDecl {
        at: here,
        returns,
        name: read.name,
        params: read.params,
        body: read.body,
        close: read.close,
    };
    Ok((actor, read.to))
}

/// Whether a declaration begins here.
pub fn begins_decl(tokens: &Tokens, at: usize) -> bool
    ensures { IsTrue result ↔ AsFirst DeclToken (token_at tokens.now.spots.items at) }
{
    is_word(tokens, at, Word::Struct) || is_word(tokens, at, Word::Actor) || begins_type(tokens, at)
}

/// The declaration that begins here, and the number of the token after it.
pub fn decl(
    alloc: Global,
    tokens: &Tokens,
    at: usize,
    limits: Limits,
) -> Result<(Decl, usize), SourceFault>
    requires within { at ≤ length tokens.now.spots.items }
    ensures reads { Answer limits DeclRule Any (λ r. decl_of r.0) (λ r. r.1) tokens.now at result }
    ensures moves { IfOk result (λ r. (at < r.1) × (r.1 ≤ length tokens.now.spots.items)) }
{
    if is_word(tokens, at, Word::Struct) {
        let (record, to) = record(alloc, tokens, at, limits)?;
        return Ok((Decl::Struct(record), to));
    }
    if is_word(tokens, at, Word::Actor) {
        let (actor, to) = actor(alloc, tokens, at, limits)?;
        return Ok((Decl::Actor(actor), to));
    }
    let (function, to) = function(alloc, tokens, at, RoutineKind::Function, limits)?;
    Ok((Decl::Function(function), to))
}
