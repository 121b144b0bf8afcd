// Statements.

ghost use Rattle.std.specs.Prelude.{◌≡◌, ◌↔◌, ℕ, ◌+◌, ◌<◌, ◌≤◌, length, IfOk, IfErr, IsTrue, Some, None, true};
ghost use Rattle.std.specs.Bool.{OnTrue};
ghost use Rattle.flow_tree.specs.declared.token.Word.TheVariants as word;
ghost use Rattle.flow_tree.specs.declared.token.Sign.TheVariants as sign;
ghost use Rattle.flow_tree.specs.declared.token.Token.TheVariants as token;
ghost use Rattle.flow_tree.specs.StmtView.{stmt_of};
ghost use Rattle.flow_tree.specs.Body.{End};
ghost use Rattle.flow_tree.specs.GrammarStmt.{one_statement};
ghost use Rattle.flow_tree.specs.GrammarAnswer.{place_at};
ghost use Rattle.flow_parse.specs.Reading.{token_at, Any, Answer, AnswerAlways};
ghost use Rattle.flow_parse.specs.Follow.{ExprEnds, NotBefore};
ghost use Rattle.flow_parse.specs.Openers.{AsFirst, IntoToken, StmtWord, StmtToken};
ghost use Rattle.flow_parse.specs.Beyond.{Beyond};
ghost use Rattle.flow_parse.specs.Parts.{NoElse, Assignment, Catch, AllWhens, StartPart, NextPart, Plain, One, BodyPart, Closing, Block, WhenPart, WhensPart};
ghost use Rattle.flow_parse.specs.Views.{counts_of, Within, stmt_out, body_out, block_out, when_out, whens_out, part_out, Stands};

use crate::build;
use crate::leaving::{break_stmt, continue_stmt, maybe_expr, return_stmt, throw_stmt};
use crate::simple::{
    Around, Counts, ReadStmt, change, ended, init, more_names, simple, test, waiting,
};
use crate::token::{
    begins_type, is_name, is_sign, is_type_word, is_word, name, refused, sign, word,
};
use flow_base::place::Place;
use flow_exprs::token::place;
use flow_tree::fault::{Rule, SourceFault};
use flow_tree::limits::{DEPTH, Limits};
use flow_tree::stmt::{Stmt, Waiting, When};
use flow_tree::token::{Sign, Token, Tokens, Word};
use flow_tree::ty::Ident;
use std::alloc::Global;

/// A body that was read.
#[derive(Drop)]
pub struct ReadBody {
    pub body: Vec<Stmt>,
    pub to: usize,
    pub counts: Counts,
    pub ends_if: bool,
}

/// Statements that were read, and the place of the brace that closes them.
#[derive(Drop)]
pub struct ReadBlock {
    pub body: Vec<Stmt>,
    pub to: usize,
    pub counts: Counts,
    pub close: Place,
}

/// A branch that was read.
#[derive(Drop)]
pub struct ReadWhen {
    pub at: Place,
    pub waiting: Waiting,
    pub body: Vec<Stmt>,
    pub to: usize,
    pub counts: Counts,
}

/// Branches that were read.
#[derive(Drop)]
pub struct ReadWhens {
    pub branches: Vec<When>,
    pub to: usize,
    pub counts: Counts,
}

/// An optional part of a `for` that was read.
#[derive(Drop)]
pub struct ReadPart {
    pub part: Option<Box<Stmt>>,
    pub to: usize,
    pub counts: Counts,
}

// Whether a statement begins with this word.
fn is_stmt_word(word: Word) -> bool
    ensures { IsTrue result ↔ StmtWord word }
{
    match word {
        Word::If | Word::While | Word::For | Word::Loop | Word::Break | Word::Continue => true,
        Word::Return | Word::Throw | Word::Try | Word::Choose => true,
        Word::State | Word::Wait | Word::WaitNext => true,
        _ => is_type_word(word),
    }
}

// Whether a declaration or a change of a variable begins here.
fn begins_init(tokens: &Tokens, at: usize) -> bool
    ensures begins { IsTrue result ↔ AsFirst IntoToken (token_at tokens.now.spots.items at) }
    ensures within { OnTrue result (at < length tokens.now.spots.items) }
{
    is_word(tokens, at, Word::State) || begins_type(tokens, at)
}

// Whether a statement begins with this token.
fn is_stmt_token(token: &Token) -> bool
    ensures { IsTrue result ↔ StmtToken token.now }
{
    match token {
        Token::Name(_) => true,
        Token::Word(word) => is_stmt_word(*word),
        Token::Sign(sign) => *sign == Sign::OpenCurly,
        Token::Number(_) | Token::Text(_) => false,
    }
}

// Whether a statement begins here.
fn begins_stmt(tokens: &Tokens, at: usize) -> bool
    ensures begins { IsTrue result ↔ AsFirst StmtToken (token_at tokens.now.spots.items at) }
    ensures within { OnTrue result (at < length tokens.now.spots.items) }
{
    match tokens.spots.get(at) {
        Some(spot) => is_stmt_token(&spot.token),
        None => false,
    }
}

// One more statement, which begins here: L4 where it is one too many, then L5 where it is too deep.
fn begin(
    tokens: &Tokens,
    at: usize,
    depth: u32,
    counts: Counts,
    limits: Limits,
) -> Result<Counts, SourceFault>
    ensures within { IfOk result (λ c. (depth ≤ DEPTH) × (counts.statements < limits.statements)) }
    ensures one { IfOk result (λ c. counts_of c ≡ one_statement (counts_of counts)) }
    ensures beyond { IfErr result (λ e. Beyond limits (counts_of counts) depth
        (place_at tokens.now at) e) }
{
    if counts.statements >= limits.statements {
        return Err(refused(tokens, Rule::L(4), at));
    }
    if depth > DEPTH {
        return Err(refused(tokens, Rule::L(5), at));
    }
    Ok(Counts {
        statements: counts.statements + 1,
        variables: counts.variables,
    })
}

// A statement in a list of statements.
#[cycle(stmt)]
fn stmt(alloc: Global, tokens: &Tokens, at: usize, around: Around) -> Result<ReadStmt, SourceFault>
    requires within { at ≤ length tokens.now.spots.items }
    requires shallow { around.depth ≤ 65 }
    ensures reads { Answer around.limits (Within One around) NoElse stmt_out (λ r. r.to) tokens.now
        at result }
    ensures stands { IfOk result (λ r. Stands r.stmt) }
    ensures moves { IfOk result (λ r. (at < r.to) × (r.to ≤ length tokens.now.spots.items)) }
{
    if !begins_stmt(tokens, at) {
        return Err(refused(tokens, Rule::S(5), at));
    }
    let counts = begin(tokens, at, around.depth, around.counts, around.limits)?;
    if !is_sign(tokens, at, Sign::OpenCurly) {
        let around = Around { counts, ..around };
        return plain(alloc, tokens, at, around);
    }
    let deeper = Around {
        depth: around.depth + 1,
        counts,
        ..around
    };
    let read = block(alloc, tokens, at, deeper)?;
    let here = place(tokens, at);
    Ok(ended(build::block(here, read.body), read.to, read.counts))
}

// The body of a statement or a branch.
#[cycle(stmt)]
fn body(alloc: Global, tokens: &Tokens, at: usize, around: Around) -> Result<ReadBody, SourceFault>
    requires within { at ≤ length tokens.now.spots.items }
    requires shallow { around.depth ≤ 65 }
    ensures reads { Answer around.limits (Within BodyPart around) NoElse body_out (λ r. r.to)
        tokens.now at result }
    ensures moves { IfOk result (λ r. (at < r.to) × (r.to ≤ length tokens.now.spots.items)) }
{
    if is_sign(tokens, at, Sign::OpenCurly) {
        let read = block(alloc, tokens, at, around)?;
        return Ok(ReadBody {
            body: read.body,
            to: read.to,
            counts: read.counts,
            ends_if: false,
        });
    }
    if !begins_stmt(tokens, at) {
        return Err(refused(tokens, Rule::S(5), at));
    }
    let counts = begin(tokens, at, around.depth, around.counts, around.limits)?;
    let around = Around { counts, ..around };
    let read = plain(alloc, tokens, at, around)?;
    let mut body = Vec::new(alloc);
    body.push(read.stmt)?;
    Ok(ReadBody {
        body,
        to: read.to,
        counts: read.counts,
        ends_if: read.ends_if,
    })
}

/// Statements in braces.
#[cycle(stmt)]
pub fn block(
    alloc: Global,
    tokens: &Tokens,
    at: usize,
    around: Around,
) -> Result<ReadBlock, SourceFault>
    requires within { at ≤ length tokens.now.spots.items }
    requires shallow { around.depth ≤ 65 }
    ensures reads { Answer around.limits (Within Block around) Any block_out (λ r. r.to) tokens.now
        at result }
    ensures moves { IfOk result (λ r. (at < r.to) × (r.to ≤ length tokens.now.spots.items)) }
{
    let at = sign(tokens, at, Sign::OpenCurly)?;
    stmts(alloc, tokens, at, around)
}

// Statements up to a closing brace, with it.
#[cycle(stmt)]
fn stmts(
    alloc: Global,
    tokens: &Tokens,
    at: usize,
    around: Around,
) -> Result<ReadBlock, SourceFault>
    requires within { at ≤ length tokens.now.spots.items }
    requires shallow { around.depth ≤ 65 }
    ensures reads { Answer around.limits (Within Closing around) Any block_out (λ r. r.to)
        tokens.now at result }
    ensures moves { IfOk result (λ r. (at < r.to) × (r.to ≤ length tokens.now.spots.items)) }
{
    let mut body = Vec::new(alloc);
    let mut at = at;
    let mut counts = around.counts;
    'items: while !is_sign(tokens, at, Sign::CloseCurly) {
        let around = Around { counts, ..around };
        let read = stmt(alloc, tokens, at, around)?;
        body.push(read.stmt)?;
        at = read.to;
        counts = read.counts;
    }
    Ok(ReadBlock {
        body,
        to: at + 1,
        counts,
        close: place(tokens, at),
    })
}

// A statement that is no block.
#[cycle(stmt)]
fn plain(alloc: Global, tokens: &Tokens, at: usize, around: Around) -> Result<ReadStmt, SourceFault>
    requires within { at ≤ length tokens.now.spots.items }
    requires shallow { around.depth ≤ DEPTH }
    ensures reads { Answer around.limits (Within Plain around) NoElse stmt_out (λ r. r.to)
        tokens.now at result }
    ensures stands { IfOk result (λ r. Stands r.stmt) }
    ensures moves { IfOk result (λ r. (at < r.to) × (r.to ≤ length tokens.now.spots.items)) }
{
    if is_word(tokens, at, Word::If) {
        return if_stmt(alloc, tokens, at, around);
    }
    if is_word(tokens, at, Word::While) {
        return while_stmt(alloc, tokens, at, around);
    }
    if is_word(tokens, at, Word::For) {
        return for_stmt(alloc, tokens, at, around);
    }
    if is_word(tokens, at, Word::Loop) {
        return loop_stmt(alloc, tokens, at, around);
    }
    if is_word(tokens, at, Word::Try) {
        return try_stmt(alloc, tokens, at, around);
    }
    if is_word(tokens, at, Word::Choose) {
        return choose(alloc, tokens, at, around);
    }
    if is_word(tokens, at, Word::Return) {
        return return_stmt(alloc, tokens, at, around);
    }
    if is_word(tokens, at, Word::Throw) {
        return throw_stmt(alloc, tokens, at, around);
    }
    if is_word(tokens, at, Word::Break) {
        return break_stmt(tokens, at, around);
    }
    if is_word(tokens, at, Word::Continue) {
        return continue_stmt(tokens, at, around);
    }
    let read = simple(alloc, tokens, at, around)?;
    Ok(ended(read.stmt, read.to, read.counts))
}

// An `else` belongs to the nearest `if` that has none.
#[cycle(stmt)]
fn if_stmt(
    alloc: Global,
    tokens: &Tokens,
    at: usize,
    around: Around,
) -> Result<ReadStmt, SourceFault>
    requires within { at ≤ length tokens.now.spots.items }
    requires shallow { around.depth ≤ DEPTH }
    requires here { token_at tokens.now.spots.items at ≡ Some (token.Word word.If) }
    ensures reads { Answer around.limits (Within Plain around) NoElse stmt_out (λ r. r.to)
        tokens.now at result }
    ensures stands { IfOk result (λ r. Stands r.stmt) }
    ensures moves { IfOk result (λ r. (at < r.to) × (r.to ≤ length tokens.now.spots.items)) }
{
    let here = place(tokens, at);
    let (test, at) = test(alloc, tokens, at + 1, around.depth + 1)?;
    let deeper = Around {
        depth: around.depth + 1,
        ..around
    };
    let then = body(alloc, tokens, at, deeper)?;
    if then.ends_if || !is_word(tokens, then.to, Word::Else) {
        return Ok(ReadStmt {
            stmt: build::if_stmt(here, test, then.body),
            to: then.to,
            counts: then.counts,
            ends_if: true,
        });
    }
    let deeper = Around {
        counts: then.counts,
        ..deeper
    };
    let other = body(alloc, tokens, then.to + 1, deeper)?;
    Ok(ReadStmt {
        stmt: build::if_else(here, test, then.body, other.body),
        to: other.to,
        counts: other.counts,
        ends_if: other.ends_if,
    })
}

#[cycle(stmt)]
fn while_stmt(
    alloc: Global,
    tokens: &Tokens,
    at: usize,
    around: Around,
) -> Result<ReadStmt, SourceFault>
    requires within { at ≤ length tokens.now.spots.items }
    requires shallow { around.depth ≤ DEPTH }
    requires here { token_at tokens.now.spots.items at ≡ Some (token.Word word.While) }
    ensures reads { Answer around.limits (Within Plain around) NoElse stmt_out (λ r. r.to)
        tokens.now at result }
    ensures stands { IfOk result (λ r. Stands r.stmt) }
    ensures moves { IfOk result (λ r. (at < r.to) × (r.to ≤ length tokens.now.spots.items)) }
{
    let here = place(tokens, at);
    let (test, at) = test(alloc, tokens, at + 1, around.depth + 1)?;
    let deeper = Around {
        depth: around.depth + 1,
        ..around
    };
    let read = body(alloc, tokens, at, deeper)?;
    Ok(ReadStmt {
        stmt: build::while_stmt(here, test, read.body),
        to: read.to,
        counts: read.counts,
        ends_if: read.ends_if,
    })
}

#[cycle(stmt)]
fn loop_stmt(
    alloc: Global,
    tokens: &Tokens,
    at: usize,
    around: Around,
) -> Result<ReadStmt, SourceFault>
    requires within { at ≤ length tokens.now.spots.items }
    requires shallow { around.depth ≤ DEPTH }
    requires here { token_at tokens.now.spots.items at ≡ Some (token.Word word.Loop) }
    ensures reads { Answer around.limits (Within Plain around) NoElse stmt_out (λ r. r.to)
        tokens.now at result }
    ensures stands { IfOk result (λ r. Stands r.stmt) }
    ensures moves { IfOk result (λ r. (at < r.to) × (r.to ≤ length tokens.now.spots.items)) }
{
    let here = place(tokens, at);
    let deeper = Around {
        depth: around.depth + 1,
        ..around
    };
    let read = body(alloc, tokens, at + 1, deeper)?;
    Ok(ReadStmt {
        stmt: build::loop_stmt(here, read.body),
        to: read.to,
        counts: read.counts,
        ends_if: read.ends_if,
    })
}

// A statement is put into a box before anything else may fail: at each way out of a function that has one by value its drop
// is written out, form by form.
fn boxed(alloc: Global, stmt: Stmt) -> Result<Box<Stmt>, SourceFault>
    ensures is { IfOk result (λ b. b.value ≡ stmt) }
    ensures memory { IfErr result (λ e. e ≡ SourceFault.OutOfMemory) }
{
    Ok(Box::new(alloc, stmt)?)
}

// The init of a `for`, if there is one, and the semicolon behind it.
fn start_part(
    alloc: Global,
    tokens: &Tokens,
    at: usize,
    around: Around,
) -> Result<ReadPart, SourceFault>
    requires within { at ≤ length tokens.now.spots.items }
    requires shallow { around.depth ≤ 65 }
    ensures reads { Answer around.limits (Within StartPart around) Any part_out (λ r. r.to)
        tokens.now at result }
    ensures moves { IfOk result (λ r. (at < r.to) × (r.to ≤ length tokens.now.spots.items)) }
{
    if is_sign(tokens, at, Sign::Semicolon) {
        return Ok(ReadPart {
            part: None,
            to: at + 1,
            counts: around.counts,
        });
    }
    if !begins_init(tokens, at) {
        return Err(refused(tokens, Rule::S(5), at));
    }
    let counts = begin(tokens, at, around.depth, around.counts, around.limits)?;
    let around = Around { counts, ..around };
    let read = init(alloc, tokens, at, around)?;
    let part = boxed(alloc, read.stmt)?;
    let to = sign(tokens, read.to, Sign::Semicolon)?;
    Ok(ReadPart {
        part: Some(part),
        to,
        counts: read.counts,
    })
}

// The step of a `for`, if there is one, and the bracket behind it.
fn next_part(
    alloc: Global,
    tokens: &Tokens,
    at: usize,
    depth: u32,
    counts: Counts,
    limits: Limits,
) -> Result<ReadPart, SourceFault>
    requires within { at ≤ length tokens.now.spots.items }
    requires shallow { depth ≤ 65 }
    ensures reads { Answer limits (NextPart depth (counts_of counts)) Any part_out (λ r. r.to)
        tokens.now at result }
    ensures moves { IfOk result (λ r. (at < r.to) × (r.to ≤ length tokens.now.spots.items)) }
{
    if is_sign(tokens, at, Sign::CloseRound) {
        return Ok(ReadPart {
            part: None,
            to: at + 1,
            counts,
        });
    }
    if !is_name(tokens, at) {
        return Err(refused(tokens, Rule::S(5), at));
    }
    let counts = begin(tokens, at, depth, counts, limits)?;
    let (stmt, at) = assignment(alloc, tokens, at, depth)?;
    let part = boxed(alloc, stmt)?;
    let to = sign(tokens, at, Sign::CloseRound)?;
    Ok(ReadPart {
        part: Some(part),
        to,
        counts,
    })
}

// A change of a variable.
fn assignment(
    alloc: Global,
    tokens: &Tokens,
    at: usize,
    depth: u32,
) -> Result<(Stmt, usize), SourceFault>
    requires within { at ≤ length tokens.now.spots.items }
    requires shallow { depth ≤ DEPTH }
    ensures reads { AnswerAlways (Assignment depth) ExprEnds (λ r. stmt_of r.0 End) (λ r. r.1)
        tokens.now at result }
    ensures moves { IfOk result (λ r. (at < r.1) × (r.1 ≤ length tokens.now.spots.items)) }
{
    let (first, at) = name(alloc, tokens, at)?;
    let here = first.at;
    let (path, at) = more_names(alloc, tokens, first, at)?;
    change(alloc, tokens, here, path, at, depth)
}

#[cycle(stmt)]
fn for_stmt(
    alloc: Global,
    tokens: &Tokens,
    at: usize,
    around: Around,
) -> Result<ReadStmt, SourceFault>
    requires within { at ≤ length tokens.now.spots.items }
    requires shallow { around.depth ≤ DEPTH }
    requires here { token_at tokens.now.spots.items at ≡ Some (token.Word word.For) }
    ensures reads { Answer around.limits (Within Plain around) NoElse stmt_out (λ r. r.to)
        tokens.now at result }
    ensures stands { IfOk result (λ r. Stands r.stmt) }
    ensures moves { IfOk result (λ r. (at < r.to) × (r.to ≤ length tokens.now.spots.items)) }
{
    let here = place(tokens, at);
    let at = sign(tokens, at + 1, Sign::OpenRound)?;
    let deeper = Around {
        depth: around.depth + 1,
        ..around
    };
    let start = start_part(alloc, tokens, at, deeper)?;
    let (test, at) = maybe_expr(alloc, tokens, start.to, around.depth + 1)?;
    let next = next_part(
        alloc,
        tokens,
        at,
        around.depth + 1,
        start.counts,
        around.limits,
    )?;
    let deeper = Around {
        counts: next.counts,
        ..deeper
    };
    let read = body(alloc, tokens, next.to, deeper)?;
    Ok(ReadStmt {
        stmt: build::for_stmt(here, start.part, test, next.part, read.body),
        to: read.to,
        counts: read.counts,
        ends_if: read.ends_if,
    })
}

// `"catch" "(" "Error" "&" name ")"`.
fn catch(alloc: Global, tokens: &Tokens, at: usize) -> Result<(Place, Ident, usize), SourceFault>
    requires within { at ≤ length tokens.now.spots.items }
    ensures reads { AnswerAlways Catch Any (λ r. (r.0, r.1)) (λ r. r.2) tokens.now at result }
    ensures moves { IfOk result (λ r. (at < r.2) × (r.2 ≤ length tokens.now.spots.items)) }
{
    let here = place(tokens, at);
    let at = word(tokens, at, Word::Catch)?;
    let at = sign(tokens, at, Sign::OpenRound)?;
    let at = word(tokens, at, Word::Error)?;
    let at = sign(tokens, at, Sign::Amp)?;
    let (error, at) = name(alloc, tokens, at)?;
    let to = sign(tokens, at, Sign::CloseRound)?;
    Ok((here, error, to))
}

#[cycle(stmt)]
fn try_stmt(
    alloc: Global,
    tokens: &Tokens,
    at: usize,
    around: Around,
) -> Result<ReadStmt, SourceFault>
    requires within { at ≤ length tokens.now.spots.items }
    requires shallow { around.depth ≤ DEPTH }
    requires here { token_at tokens.now.spots.items at ≡ Some (token.Word word.Try) }
    ensures reads { Answer around.limits (Within Plain around) NoElse stmt_out (λ r. r.to)
        tokens.now at result }
    ensures stands { IfOk result (λ r. Stands r.stmt) }
    ensures moves { IfOk result (λ r. (at < r.to) × (r.to ≤ length tokens.now.spots.items)) }
{
    let here = place(tokens, at);
    let deeper = Around {
        depth: around.depth + 1,
        ..around
    };
    let inner = block(alloc, tokens, at + 1, deeper)?;
    let (catch_at, error, at) = catch(alloc, tokens, inner.to)?;
    let deeper = Around {
        counts: inner.counts,
        ..deeper
    };
    let handler = block(alloc, tokens, at, deeper)?;
    let stmt = build::try_stmt(here, inner.body, catch_at, error, handler.body);
    Ok(ended(stmt, handler.to, handler.counts))
}

#[cycle(stmt)]
fn choose(
    alloc: Global,
    tokens: &Tokens,
    at: usize,
    around: Around,
) -> Result<ReadStmt, SourceFault>
    requires within { at ≤ length tokens.now.spots.items }
    requires shallow { around.depth ≤ DEPTH }
    requires here { token_at tokens.now.spots.items at ≡ Some (token.Word word.Choose) }
    ensures reads { Answer around.limits (Within Plain around) NoElse stmt_out (λ r. r.to)
        tokens.now at result }
    ensures stands { IfOk result (λ r. Stands r.stmt) }
    ensures moves { IfOk result (λ r. (at < r.to) × (r.to ≤ length tokens.now.spots.items)) }
{
    let here = place(tokens, at);
    let at = sign(tokens, at + 1, Sign::OpenCurly)?;
    let deeper = Around {
        depth: around.depth + 1,
        ..around
    };
    let read = whens(alloc, tokens, at, deeper)?;
    Ok(ended(build::choose(here, read.branches), read.to, read.counts))
}

// Branches, one at least, and the brace that closes them.
#[cycle(stmt)]
fn whens(
    alloc: Global,
    tokens: &Tokens,
    at: usize,
    around: Around,
) -> Result<ReadWhens, SourceFault>
    requires within { at ≤ length tokens.now.spots.items }
    requires shallow { around.depth ≤ 65 }
    ensures reads { Answer around.limits (Within AllWhens around) Any whens_out (λ r. r.to)
        tokens.now at result }
    ensures moves { IfOk result (λ r. (at < r.to) × (r.to ≤ length tokens.now.spots.items)) }
{
    let first = when(alloc, tokens, at, 0, around)?;
    let mut branches = Vec::new(alloc);
    let mut at = first.to;
    let mut counts = first.counts;
    let mut before = 1;
    branches.push(build::when_branch(first.at, first.waiting, first.body))?;
    'branches: while is_word(tokens, at, Word::When) {
        let around = Around { counts, ..around };
        let read = when(alloc, tokens, at, before, around)?;
        branches.push(build::when_branch(read.at, read.waiting, read.body))?;
        at = read.to;
        counts = read.counts;
        before += 1;
    }
    let to = sign(tokens, at, Sign::CloseCurly)?;
    Ok(ReadWhens {
        branches,
        to,
        counts,
    })
}

// The branch that stands behind so many.
#[cycle(stmt)]
fn when(
    alloc: Global,
    tokens: &Tokens,
    at: usize,
    before: u32,
    around: Around,
) -> Result<ReadWhen, SourceFault>
    requires within { at ≤ length tokens.now.spots.items }
    requires shallow { around.depth ≤ 65 }
    ensures reads { Answer around.limits (WhenPart around.routine around.depth (before + 1)
        (counts_of around.counts)) (NotBefore (token.Word word.Else)) when_out (λ r. r.to)
        tokens.now at result }
    ensures few { IfOk result (λ r. before < around.limits.branches) }
    ensures moves { IfOk result (λ r. (at < r.to) × (r.to ≤ length tokens.now.spots.items)) }
{
    if !is_word(tokens, at, Word::When) {
        return Err(refused(tokens, Rule::S(5), at));
    }
    if around.depth > DEPTH {
        return Err(refused(tokens, Rule::L(5), at));
    }
    if before >= around.limits.branches {
        return Err(refused(tokens, Rule::L(7), at));
    }
    let here = place(tokens, at);
    let at = sign(tokens, at + 1, Sign::OpenRound)?;
    let read = waiting(alloc, tokens, at, around)?;
    let at = sign(tokens, read.to, Sign::CloseRound)?;
    let deeper = Around {
        depth: around.depth + 1,
        counts: read.counts,
        ..around
    };
    let inner = body(alloc, tokens, at, deeper)?;
    Ok(ReadWhen {
        at: here,
        waiting: read.waiting,
        body: inner.body,
        to: inner.to,
        counts: inner.counts,
    })
}
