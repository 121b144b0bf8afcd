// Declarations of variables, waits, paths, changes and calls.

ghost use Rattle.std.specs.Prelude.{◌≡◌, ◌↔◌, ℕ, ◌+◌, ◌<◌, ◌≤◌, length, IfOk, IsTrue, Some, None, false};
ghost use Rattle.std.specs.Bool.{OnTrue};
ghost use Rattle.flow_tree.specs.declared.token.Word.TheVariants as word;
ghost use Rattle.flow_tree.specs.declared.token.Sign.TheVariants as sign;
ghost use Rattle.flow_tree.specs.declared.token.Token.TheVariants as token;
ghost use Rattle.flow_tree.specs.View.{expr_of, exprs_of};
ghost use Rattle.flow_tree.specs.StmtView.{into_of, stmt_of};
ghost use Rattle.flow_tree.specs.Tree.{NamedType};
ghost use Rattle.flow_tree.specs.Body.{End};
ghost use Rattle.flow_parse.specs.Reading.{token_at, Any, Answer, AnswerAlways};
ghost use Rattle.flow_parse.specs.Follow.{ExprEnds, Before, NotBefore};
ghost use Rattle.flow_parse.specs.Parts.{Test, StatePart, IntoPart, OperandPart, WaitingPart, MoreNames, Args, ChangeRule, ChangedRule, DeclaredRule, ValuedRule, Unended, Init, Simple};
ghost use Rattle.flow_parse.specs.Views.{counts_of, Within, into_out, stmt_out, waiting_out, Stands};

use crate::build;
use crate::token::{begins_wait, expr, is_sign, is_word, name, read_name, refused, sign, ty};
use flow_base::place::Place;
use flow_exprs::token::place;
use flow_tree::decl::RoutineKind;
use flow_tree::expr::Expr;
use flow_tree::fault::{Rule, SourceFault};
use flow_tree::limits::{DEPTH, Limits};
use flow_tree::stmt::{Change, Into, Stmt, Waiting};
use flow_tree::token::{Sign, Tokens, Word};
use flow_tree::ty::{Ident, Ty};
use std::alloc::Global;

/// How many statements, and how many parameters and state variables, have begun in a routine.
#[derive(Clone, Copy)]
pub struct Counts {
    pub statements: u32,
    pub variables: u32,
}

/// Where a statement stands: in what routine, how deep, how many have begun in the routine before it, and within which limits.
#[derive(Clone, Copy)]
pub struct Around {
    pub routine: RoutineKind,
    pub depth: u32,
    pub counts: Counts,
    pub limits: Limits,
}

/// A declared variable that was read.
#[derive(Drop)]
pub struct ReadInto {
    pub into: Into,
    pub to: usize,
    pub counts: Counts,
}

/// A statement that was read: the number of the token after it, the counts there, and whether it ends
/// in an `if` that has no `else`.
#[derive(Drop)]
pub struct ReadStmt {
    pub stmt: Stmt,
    pub to: usize,
    pub counts: Counts,
    pub ends_if: bool,
}

/// A wait, and the variable that it declares, if it declares one.
#[derive(Drop)]
pub struct ReadWaiting {
    pub waiting: Waiting,
    pub to: usize,
    pub counts: Counts,
}

// Whether a state variable counts there.
fn counts_state(home: RoutineKind) -> bool
    ensures { IsTrue result ↔ (home ≡ RoutineKind.Actor) }
{
    match home {
        RoutineKind::Actor => true,
        RoutineKind::Function | RoutineKind::OldFunction => false,
    }
}

/// The word `state`, or nothing: whether it stands here, the number of the token after it, and the
/// counts there. In an actor L6 is refused at one state variable too many.
pub fn state(
    tokens: &Tokens,
    at: usize,
    home: RoutineKind,
    counts: Counts,
    limits: Limits,
) -> Result<(bool, usize, Counts), SourceFault>
    requires within { at ≤ length tokens.now.spots.items }
    ensures reads { Answer limits (StatePart home (counts_of counts))
        (NotBefore (token.Word word.State)) (λ r. (r.0, counts_of r.2)) (λ r. r.1) tokens.now at
        result }
    ensures moves { IfOk result (λ r. (at ≤ r.1) × (r.1 ≤ length tokens.now.spots.items)) }
{
    if !is_word(tokens, at, Word::State) {
        return Ok((false, at, counts));
    }
    if !counts_state(home) {
        return Ok((true, at + 1, counts));
    }
    if counts.variables >= limits.variables {
        return Err(refused(tokens, Rule::L(6), at));
    }
    let counts = Counts {
        statements: counts.statements,
        variables: counts.variables + 1,
    };
    Ok((true, at + 1, counts))
}

/// `[ "state" ] type name`.
pub fn into(
    alloc: Global,
    tokens: &Tokens,
    at: usize,
    around: Around,
) -> Result<ReadInto, SourceFault>
    requires within { at ≤ length tokens.now.spots.items }
    requires shallow { around.depth ≤ DEPTH }
    ensures reads { Answer around.limits (Within IntoPart around) Any into_out (λ r. r.to)
        tokens.now at result }
    ensures moves { IfOk result (λ r. (at < r.to) × (r.to ≤ length tokens.now.spots.items)) }
{
    let (state, at, counts) = state(tokens, at, around.routine, around.counts, around.limits)?;
    let (ty, at) = ty(alloc, tokens, at, around.depth)?;
    let (name, to) = name(alloc, tokens, at)?;
    Ok(ReadInto {
        into: Into { state, ty, name },
        to,
        counts,
    })
}

/// The path that begins with a name, from what stands behind that name: `{ "." name }`.
pub fn more_names(
    alloc: Global,
    tokens: &Tokens,
    first: Ident,
    at: usize,
) -> Result<(Vec<Ident>, usize), SourceFault>
    requires within { at ≤ length tokens.now.spots.items }
    ensures reads { AnswerAlways (MoreNames first) (NotBefore (token.Sign sign.Dot))
        (λ r. r.0.items) (λ r. r.1) tokens.now at result }
    ensures moves { IfOk result (λ r. (at ≤ r.1) × (r.1 ≤ length tokens.now.spots.items)) }
{
    let mut path = Vec::new(alloc);
    path.push(first)?;
    let mut at = at;
    'names: while is_sign(tokens, at, Sign::Dot) {
        let (next, to) = name(alloc, tokens, at + 1)?;
        path.push(next)?;
        at = to;
    }
    Ok((path, at))
}

/// `"(" expr ")"`.
pub fn test(
    alloc: Global,
    tokens: &Tokens,
    at: usize,
    depth: u32,
) -> Result<(Expr, usize), SourceFault>
    requires within { at ≤ length tokens.now.spots.items }
    ensures reads { AnswerAlways (Test depth) Any (λ r. expr_of r.0) (λ r. r.1) tokens.now at
        result }
    ensures moves { IfOk result (λ r. (at < r.1) × (r.1 ≤ length tokens.now.spots.items)) }
{
    let at = sign(tokens, at, Sign::OpenRound)?;
    let (test, at) = expr(alloc, tokens, at, depth)?;
    let to = sign(tokens, at, Sign::CloseRound)?;
    Ok((test, to))
}

/// `( "wait" | "waitNext" ) "(" expr ")"`.
pub fn operand(
    alloc: Global,
    tokens: &Tokens,
    at: usize,
    depth: u32,
) -> Result<(bool, Expr, usize), SourceFault>
    requires within { at ≤ length tokens.now.spots.items }
    requires shallow { depth ≤ DEPTH }
    ensures reads { AnswerAlways (OperandPart depth) Any (λ r. (r.0, expr_of r.1)) (λ r. r.2)
        tokens.now at result }
    ensures moves { IfOk result (λ r. (at < r.2) × (r.2 ≤ length tokens.now.spots.items)) }
{
    if is_word(tokens, at, Word::WaitNext) {
        let (of, to) = test(alloc, tokens, at + 1, depth + 1)?;
        return Ok((true, of, to));
    }
    if is_word(tokens, at, Word::Wait) {
        let (of, to) = test(alloc, tokens, at + 1, depth + 1)?;
        return Ok((false, of, to));
    }
    Err(refused(tokens, Rule::S(5), at))
}

/// The arguments of a call behind its opening bracket, with the closing one.
pub fn arguments(
    alloc: Global,
    tokens: &Tokens,
    at: usize,
    depth: u32,
) -> Result<(Vec<Expr>, usize), SourceFault>
    requires within { at ≤ length tokens.now.spots.items }
    ensures reads { AnswerAlways (Args depth) Any (λ r. exprs_of r.0.items) (λ r. r.1) tokens.now at
        result }
    ensures moves { IfOk result (λ r. (at < r.1) × (r.1 ≤ length tokens.now.spots.items)) }
{
    let mut args = Vec::new(alloc);
    if is_sign(tokens, at, Sign::CloseRound) {
        return Ok((args, at + 1));
    }
    let (first, to) = expr(alloc, tokens, at, depth)?;
    args.push(first)?;
    let mut at = to;
    'items: while is_sign(tokens, at, Sign::Comma) {
        let (next, to) = expr(alloc, tokens, at + 1, depth)?;
        args.push(next)?;
        at = to;
    }
    let to = sign(tokens, at, Sign::CloseRound)?;
    Ok((args, to))
}

/// A change of a variable: what follows its path.
pub fn change(
    alloc: Global,
    tokens: &Tokens,
    place: Place,
    path: Vec<Ident>,
    at: usize,
    depth: u32,
) -> Result<(Stmt, usize), SourceFault>
    requires within { at ≤ length tokens.now.spots.items }
    requires shallow { depth ≤ DEPTH }
    ensures reads { AnswerAlways (ChangeRule depth place path.items) ExprEnds (λ r. stmt_of r.0 End)
        (λ r. r.1) tokens.now at result }
    ensures stands { IfOk result (λ r. Stands r.0) }
    ensures moves { IfOk result (λ r. (at < r.1) × (r.1 ≤ length tokens.now.spots.items)) }
{
    if is_sign(tokens, at, Sign::PlusPlus) {
        return Ok((build::modify(place, path, Change::Up), at + 1));
    }
    if is_sign(tokens, at, Sign::MinusMinus) {
        return Ok((build::modify(place, path, Change::Down), at + 1));
    }
    if is_sign(tokens, at, Sign::PlusAssign) {
        let (value, to) = expr(alloc, tokens, at + 1, depth + 1)?;
        return Ok((build::modify(place, path, Change::Plus(value)), to));
    }
    if is_sign(tokens, at, Sign::MinusAssign) {
        let (value, to) = expr(alloc, tokens, at + 1, depth + 1)?;
        return Ok((build::modify(place, path, Change::Minus(value)), to));
    }
    let at = sign(tokens, at, Sign::Assign)?;
    let (value, to) = expr(alloc, tokens, at, depth + 1)?;
    Ok((build::assign(place, path, value), to))
}

// A change of a variable, or a call: what follows its path.
fn changed(
    alloc: Global,
    tokens: &Tokens,
    place: Place,
    path: Vec<Ident>,
    at: usize,
    depth: u32,
) -> Result<(Stmt, usize), SourceFault>
    requires within { at ≤ length tokens.now.spots.items }
    requires shallow { depth ≤ DEPTH }
    ensures reads { AnswerAlways (ChangedRule depth place path.items) ExprEnds
        (λ r. stmt_of r.0 End) (λ r. r.1) tokens.now at result }
    ensures stands { IfOk result (λ r. Stands r.0) }
    ensures moves { IfOk result (λ r. (at < r.1) × (r.1 ≤ length tokens.now.spots.items)) }
{
    if !is_sign(tokens, at, Sign::OpenRound) {
        return change(alloc, tokens, place, path, at, depth);
    }
    let (args, to) = arguments(alloc, tokens, at + 1, depth + 1)?;
    Ok((build::call(place, path, args), to))
}

/// A declaration of a variable, what follows the name: a value, or nothing.
pub fn declared(
    alloc: Global,
    tokens: &Tokens,
    place: Place,
    into: Into,
    at: usize,
    depth: u32,
) -> Result<(Stmt, usize), SourceFault>
    requires within { at ≤ length tokens.now.spots.items }
    requires shallow { depth ≤ DEPTH }
    ensures reads { AnswerAlways (DeclaredRule depth place (into_of into))
        (Before (token.Sign sign.Semicolon)) (λ r. stmt_of r.0 End) (λ r. r.1) tokens.now at
        result }
    ensures stands { IfOk result (λ r. Stands r.0) }
    ensures moves { IfOk result (λ r. (at ≤ r.1) × (r.1 ≤ length tokens.now.spots.items)) }
{
    if !is_sign(tokens, at, Sign::Assign) {
        return Ok((build::declare(place, into, None), at));
    }
    let (value, to) = expr(alloc, tokens, at + 1, depth + 1)?;
    Ok((build::declare(place, into, Some(value)), to))
}

// The same in a statement, where a wait may give the value.
fn valued(
    alloc: Global,
    tokens: &Tokens,
    place: Place,
    into: Into,
    at: usize,
    depth: u32,
) -> Result<(Stmt, usize), SourceFault>
    requires within { at ≤ length tokens.now.spots.items }
    requires shallow { depth ≤ DEPTH }
    ensures reads { AnswerAlways (ValuedRule depth place (into_of into))
        (Before (token.Sign sign.Semicolon)) (λ r. stmt_of r.0 End) (λ r. r.1) tokens.now at
        result }
    ensures stands { IfOk result (λ r. Stands r.0) }
    ensures moves { IfOk result (λ r. (at ≤ r.1) × (r.1 ≤ length tokens.now.spots.items)) }
{
    if !is_sign(tokens, at, Sign::Assign) {
        return Ok((build::declare(place, into, None), at));
    }
    let at = at + 1;
    if begins_wait(tokens, at) {
        let (next, operand, to) = operand(alloc, tokens, at, depth)?;
        return Ok((build::wait(place, Some(into), next, operand), to));
    }
    let (value, to) = expr(alloc, tokens, at, depth + 1)?;
    Ok((build::declare(place, into, Some(value)), to))
}

// A variable of the type and with the name that these names are.
fn named_into(ty: Ident, name: Ident) -> Into
    ensures { into_of result ≡ record { state = false; ty = NamedType ty.name; name = name } }
{
    Into {
        state: false,
        ty: Ty::Named(ty.name),
        name,
    }
}

/// A declaration of a variable or a change of one, without its semicolon.
pub fn init(
    alloc: Global,
    tokens: &Tokens,
    at: usize,
    around: Around,
) -> Result<ReadStmt, SourceFault>
    requires within { at ≤ length tokens.now.spots.items }
    requires shallow { around.depth ≤ DEPTH }
    ensures reads { Answer around.limits (Within Init around)
        (Before (token.Sign sign.Semicolon)) stmt_out (λ r. r.to) tokens.now at result }
    ensures stands { IfOk result (λ r. Stands r.stmt) }
    ensures closed { IfOk result (λ r. r.ends_if ≡ false) }
    ensures moves { IfOk result (λ r. (at < r.to) × (r.to ≤ length tokens.now.spots.items)) }
{
    let Some(first) = read_name(alloc, tokens, at)? else {
        let here = place(tokens, at);
        let read = into(alloc, tokens, at, around)?;
        let (stmt, to) = declared(alloc, tokens, here, read.into, read.to, around.depth)?;
        return Ok(ended(stmt, to, read.counts));
    };
    let here = first.at;
    let Some(second) = read_name(alloc, tokens, at + 1)? else {
        let (path, at) = more_names(alloc, tokens, first, at + 1)?;
        let (stmt, to) = change(alloc, tokens, here, path, at, around.depth)?;
        return Ok(ended(stmt, to, around.counts));
    };
    let (stmt, to) = declared(
        alloc,
        tokens,
        here,
        named_into(first, second),
        at + 2,
        around.depth,
    )?;
    Ok(ended(stmt, to, around.counts))
}

// A declaration, a change, a wait or a call, without its semicolon.
fn unended(
    alloc: Global,
    tokens: &Tokens,
    at: usize,
    around: Around,
) -> Result<ReadStmt, SourceFault>
    requires within { at ≤ length tokens.now.spots.items }
    requires shallow { around.depth ≤ DEPTH }
    ensures reads { Answer around.limits (Within Unended around)
        (Before (token.Sign sign.Semicolon)) stmt_out (λ r. r.to) tokens.now at result }
    ensures stands { IfOk result (λ r. Stands r.stmt) }
    ensures closed { IfOk result (λ r. r.ends_if ≡ false) }
    ensures moves { IfOk result (λ r. (at < r.to) × (r.to ≤ length tokens.now.spots.items)) }
{
    if begins_wait(tokens, at) {
        let here = place(tokens, at);
        let (next, operand, to) = operand(alloc, tokens, at, around.depth)?;
        return Ok(ended(build::wait(here, None, next, operand), to, around.counts));
    }
    let Some(first) = read_name(alloc, tokens, at)? else {
        let here = place(tokens, at);
        let read = into(alloc, tokens, at, around)?;
        let (stmt, to) = valued(alloc, tokens, here, read.into, read.to, around.depth)?;
        return Ok(ended(stmt, to, read.counts));
    };
    let here = first.at;
    let Some(second) = read_name(alloc, tokens, at + 1)? else {
        let (path, at) = more_names(alloc, tokens, first, at + 1)?;
        let (stmt, to) = changed(alloc, tokens, here, path, at, around.depth)?;
        return Ok(ended(stmt, to, around.counts));
    };
    let (stmt, to) = valued(
        alloc,
        tokens,
        here,
        named_into(first, second),
        at + 2,
        around.depth,
    )?;
    Ok(ended(stmt, to, around.counts))
}

/// A statement that ends in no `if`.
pub fn ended(stmt: Stmt, to: usize, counts: Counts) -> ReadStmt
    ensures is { result ≡ record { stmt = stmt; to = to; counts = counts; ends_if = false } }
    ensures same { result.stmt ≡ stmt }
    ensures closed { result.ends_if ≡ false }
    ensures moves { result.to ≡ to }
{
    ReadStmt {
        stmt,
        to,
        counts,
        ends_if: false,
    }
}

/// A declaration, a change, a wait or a call with its semicolon.
pub fn simple(
    alloc: Global,
    tokens: &Tokens,
    at: usize,
    around: Around,
) -> Result<ReadStmt, SourceFault>
    requires within { at ≤ length tokens.now.spots.items }
    requires shallow { around.depth ≤ DEPTH }
    ensures reads { Answer around.limits (Within Simple around) Any stmt_out (λ r. r.to) tokens.now
        at result }
    ensures stands { IfOk result (λ r. Stands r.stmt) }
    ensures closed { IfOk result (λ r. r.ends_if ≡ false) }
    ensures moves { IfOk result (λ r. (at < r.to) × (r.to ≤ length tokens.now.spots.items)) }
{
    let read = unended(alloc, tokens, at, around)?;
    match sign(tokens, read.to, Sign::Semicolon) {
        Ok(to) => Ok(ended(read.stmt, to, read.counts)),
        Err(fault) => {
            // By a call: else the drop is written out here, form by form.
            drop(read.stmt);
            Err(fault)
        }
    }
}

/// `[ [ "state" ] type name "=" ] ( "wait" | "waitNext" ) "(" expr ")"`.
pub fn waiting(
    alloc: Global,
    tokens: &Tokens,
    at: usize,
    around: Around,
) -> Result<ReadWaiting, SourceFault>
    requires within { at ≤ length tokens.now.spots.items }
    requires shallow { around.depth ≤ DEPTH }
    ensures reads { Answer around.limits (Within WaitingPart around) Any waiting_out (λ r. r.to)
        tokens.now at result }
    ensures moves { IfOk result (λ r. (at < r.to) × (r.to ≤ length tokens.now.spots.items)) }
{
    if begins_wait(tokens, at) {
        let (next, operand, to) = operand(alloc, tokens, at, around.depth)?;
        return Ok(ReadWaiting {
            waiting: Waiting {
                into: None,
                next,
                operand,
            },
            to,
            counts: around.counts,
        });
    }
    let read = into(alloc, tokens, at, around)?;
    let at = sign(tokens, read.to, Sign::Assign)?;
    let (next, operand, to) = operand(alloc, tokens, at, around.depth)?;
    Ok(ReadWaiting {
        waiting: Waiting {
            into: Some(read.into),
            next,
            operand,
        },
        to,
        counts: read.counts,
    })
}
