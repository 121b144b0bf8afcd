// Statements that leave: `break`, `continue`, `return` and `throw`.

ghost use Rattle.std.specs.Prelude.{◌≡◌, ℕ, ◌+◌, ◌<◌, ◌≤◌, length, IfOk, Some};
ghost use Rattle.std.specs.Option.{option_map};
ghost use Rattle.flow_tree.specs.declared.token.Word.TheVariants as word;
ghost use Rattle.flow_tree.specs.declared.token.Token.TheVariants as token;
ghost use Rattle.flow_tree.specs.View.{expr_of};
ghost use Rattle.flow_parse.specs.Reading.{token_at, Any, Answer, AnswerAlways};
ghost use Rattle.flow_parse.specs.Parts.{NoElse, MaybeExpr, Returned, Plain};
ghost use Rattle.flow_parse.specs.Views.{Within, stmt_out, Stands};

use crate::build;
use crate::simple::{Around, ReadStmt, ended};
use crate::token::{expr, is_sign, sign};
use flow_exprs::token::place;
use flow_tree::decl::RoutineKind;
use flow_tree::expr::Expr;
use flow_tree::fault::SourceFault;
use flow_tree::limits::DEPTH;
use flow_tree::token::{Sign, Tokens, Word};
use std::alloc::Global;

/// An expression, or nothing, and the semicolon behind it.
pub fn maybe_expr(
    alloc: Global,
    tokens: &Tokens,
    at: usize,
    depth: u32,
) -> Result<(Option<Expr>, usize), SourceFault>
    requires within { at ≤ length tokens.now.spots.items }
    ensures reads { AnswerAlways (MaybeExpr depth) Any (λ r. option_map expr_of r.0) (λ r. r.1)
        tokens.now at result }
    ensures moves { IfOk result (λ r. (at < r.1) × (r.1 ≤ length tokens.now.spots.items)) }
{
    if is_sign(tokens, at, Sign::Semicolon) {
        return Ok((None, at + 1));
    }
    let (expr, at) = expr(alloc, tokens, at, depth)?;
    let to = sign(tokens, at, Sign::Semicolon)?;
    Ok((Some(expr), to))
}

// What a `return` gives, which may be nothing where `return;` stands, and the semicolon behind it.
fn returned(
    alloc: Global,
    tokens: &Tokens,
    at: usize,
    home: RoutineKind,
    depth: u32,
) -> Result<(Option<Expr>, usize), SourceFault>
    requires within { at ≤ length tokens.now.spots.items }
    ensures reads { AnswerAlways (Returned home depth) Any (λ r. option_map expr_of r.0) (λ r. r.1)
        tokens.now at result }
    ensures moves { IfOk result (λ r. (at < r.1) × (r.1 ≤ length tokens.now.spots.items)) }
{
    if home.has_bare_return() {
        return maybe_expr(alloc, tokens, at, depth);
    }
    let (value, at) = expr(alloc, tokens, at, depth)?;
    let to = sign(tokens, at, Sign::Semicolon)?;
    Ok((Some(value), to))
}

/// `break;`, read at its first word.
pub fn break_stmt(tokens: &Tokens, at: usize, around: Around) -> Result<ReadStmt, SourceFault>
    requires within { at ≤ length tokens.now.spots.items }
    requires here { token_at tokens.now.spots.items at ≡ Some (token.Word word.Break) }
    ensures reads { Answer around.limits (Within Plain around) NoElse stmt_out (λ r. r.to)
        tokens.now at result }
    ensures stands { IfOk result (λ r. Stands r.stmt) }
    ensures moves { IfOk result (λ r. (at < r.to) × (r.to ≤ length tokens.now.spots.items)) }
{
    let here = place(tokens, at);
    let to = sign(tokens, at + 1, Sign::Semicolon)?;
    Ok(ended(build::break_stmt(here), to, around.counts))
}

/// `continue;`, read at its first word.
pub fn continue_stmt(tokens: &Tokens, at: usize, around: Around) -> Result<ReadStmt, SourceFault>
    requires within { at ≤ length tokens.now.spots.items }
    requires here { token_at tokens.now.spots.items at ≡ Some (token.Word word.Continue) }
    ensures reads { Answer around.limits (Within Plain around) NoElse stmt_out (λ r. r.to)
        tokens.now at result }
    ensures stands { IfOk result (λ r. Stands r.stmt) }
    ensures moves { IfOk result (λ r. (at < r.to) × (r.to ≤ length tokens.now.spots.items)) }
{
    let here = place(tokens, at);
    let to = sign(tokens, at + 1, Sign::Semicolon)?;
    Ok(ended(build::continue_stmt(here), to, around.counts))
}

/// `return` with what it gives, read at its first word.
pub fn return_stmt(
    alloc: Global,
    tokens: &Tokens,
    at: usize,
    around: Around,
) -> Result<ReadStmt, SourceFault>
    requires within { at ≤ length tokens.now.spots.items }
    requires shallow { around.depth ≤ DEPTH }
    requires here { token_at tokens.now.spots.items at ≡ Some (token.Word word.Return) }
    ensures reads { Answer around.limits (Within Plain around) NoElse stmt_out (λ r. r.to)
        tokens.now at result }
    ensures stands { IfOk result (λ r. Stands r.stmt) }
    ensures moves { IfOk result (λ r. (at < r.to) × (r.to ≤ length tokens.now.spots.items)) }
{
    let here = place(tokens, at);
    let (value, to) = returned(alloc, tokens, at + 1, around.routine, around.depth + 1)?;
    Ok(ended(build::return_stmt(here, value), to, around.counts))
}

/// `throw` with its error or without, read at its first word.
pub fn throw_stmt(
    alloc: Global,
    tokens: &Tokens,
    at: usize,
    around: Around,
) -> Result<ReadStmt, SourceFault>
    requires within { at ≤ length tokens.now.spots.items }
    requires shallow { around.depth ≤ DEPTH }
    requires here { token_at tokens.now.spots.items at ≡ Some (token.Word word.Throw) }
    ensures reads { Answer around.limits (Within Plain around) NoElse stmt_out (λ r. r.to)
        tokens.now at result }
    ensures stands { IfOk result (λ r. Stands r.stmt) }
    ensures moves { IfOk result (λ r. (at < r.to) × (r.to ≤ length tokens.now.spots.items)) }
{
    let here = place(tokens, at);
    let (error, to) = maybe_expr(alloc, tokens, at + 1, around.depth + 1)?;
    Ok(ended(build::throw_stmt(here, error), to, around.counts))
}
