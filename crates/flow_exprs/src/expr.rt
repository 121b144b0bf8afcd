// Expressions.

ghost use Rattle.std.specs.Prelude.{◌≡◌, ◌↔◌, ℕ, suc, ◌+◌, ◌<◌, ◌≤◌, length, MatchResult, OnSome, IsTrue, Some, slice_get};
ghost use Rattle.std.specs.Bool.{OnTrue};
ghost use Rattle.std.specs.Option.{option_map};
ghost use Rattle.flow_tree.specs.Tree.{VoidExpr, VarExpr, NotExpr, NegExpr, BinaryExpr, ParenExpr, FieldExpr, MethodExpr, CallExpr, ByName, indexed};
ghost use Rattle.flow_tree.specs.View.{expr_of, exprs_of};
ghost use Rattle.flow_tree.specs.Grammar.{level, unary_level, dot_level, ExprRule};
ghost use Rattle.flow_tree.specs.declared.limits.TheConstants.{DEPTH};
ghost use Rattle.flow_tree.specs.GrammarAnswer.{ReaderAnswer};
ghost use Rattle.flow_exprs.specs.Kinds.{kind_at};
ghost use Rattle.flow_exprs.specs.Machine.{height};
ghost use Rattle.flow_exprs.specs.Answer.{primary_level, Answer, ArgsAnswer, GoesAnswer, RefusalIs, NoSign, next_op, leaf_of_word, leaf_of, leaf_at, ident_at};

use crate::kind::{self, Kind};
use crate::stop::Stop;
use crate::token::{place, token_name};
use flow_tree::expr::{Expr, Op};
use flow_tree::fault::{Rule, SourceFault};
use flow_tree::limits::DEPTH;
use flow_tree::token::{Spot, Token, Tokens, Word};
use flow_tree::ty::Ident;
use std::alloc::Global;

/// An expression that was read: its tree, how many of its nodes lie below one another, and the
/// number of the token after it.
#[derive(Drop)]
pub struct Read {
    pub expr: Expr,
    pub high: u32,
    pub to: usize,
}

/// The arguments of a call that were read, with the closing bracket: how many of their nodes lie
/// below one another, and the number of the token after them.
#[derive(Drop)]
pub struct ReadArgs {
    pub args: Vec<Expr>,
    pub high: u32,
    pub to: usize,
}

fn level_of(op: Op) -> u8
    ensures { result ≡ level op }
{
    match op {
        Op::Or => 0,
        Op::And => 1,
        Op::Eq | Op::Ne => 2,
        Op::Lt | Op::Le | Op::Gt | Op::Ge => 3,
        Op::Add | Op::Sub => 4,
        Op::Mul | Op::Div | Op::Rem => 5,
    }
}

// Whether a token of this kind stands here.
fn is_at(spots: &[Spot], at: usize, wanted: Kind) -> bool
    ensures kind { IsTrue result ↔ (kind_at spots.now at ≡ Some wanted) }
    ensures within { OnTrue result (at < length spots.now) }
{
    match kind::at(spots, at) {
        Some(kind) => kind == wanted,
        None => false,
    }
}

// The sign that stands here, if it is one between two operands, of this level or a higher one.
fn op_at(spots: &[Spot], at: usize, least: u8) -> Option<Op>
    ensures op { result ≡ next_op least (kind_at spots.now at) }
    ensures within { OnSome result (at < length spots.now) }
{
    match kind::at(spots, at) {
        Some(Kind::Op(op)) if level_of(op) >= least => Some(op),
        _ => None,
    }
}

// The expression that this word is.
fn word_leaf(word: Word) -> Option<Expr>
    ensures { option_map expr_of result ≡ leaf_of_word word }
{
    match word {
        Word::Yes => Some(Expr::Bool(true)),
        Word::No => Some(Expr::Bool(false)),
        _ => None,
    }
}

// The expression that this token is by itself.
fn token_leaf(alloc: Global, token: &Token) -> Result<Option<Expr>, Stop>
    ensures { MatchResult result (λ o. option_map expr_of o ≡ leaf_of token.now)
        (λ e. e ≡ Stop.NoMemory) }
{
    match token {
        Token::Number(n) => Ok(Some(Expr::Int(*n))),
        Token::Text(text) => Ok(Some(Expr::Text(text.copy(alloc)?))),
        Token::Word(word) => Ok(word_leaf(*word)),
        Token::Name(_) => Ok(None),
        Token::Sign(_) => Ok(None),
    }
}

// The expression that the token here is by itself.
fn read_leaf(alloc: Global, spots: &[Spot], at: usize) -> Result<Option<Expr>, Stop>
    ensures { MatchResult result (λ o. option_map expr_of o ≡ leaf_at spots.now at)
        (λ e. e ≡ Stop.NoMemory) }
{
    match spots.get(at) {
        Some(spot) => token_leaf(alloc, &spot.token),
        None => Ok(None),
    }
}

// The name that stands here.
fn read_name(alloc: Global, spots: &[Spot], at: usize) -> Result<Option<Ident>, Stop>
    ensures { MatchResult result (λ o. o ≡ ident_at spots.now at) (λ e. e ≡ Stop.NoMemory) }
{
    match spots.get(at) {
        Some(spot) => Ok(token_name(alloc, &spot.token, spot.at)?),
        None => Ok(None),
    }
}

fn boxed(alloc: Global, expr: Expr) -> Result<Box<Expr>, Stop>
    ensures { MatchResult result (λ b. b.value ≡ expr) (λ e. e ≡ Stop.NoMemory) }
{
    Ok(Box::new(alloc, expr)?)
}

fn two(alloc: Global, op: Op, left: Expr, right: Expr) -> Result<Expr, Stop>
    ensures { MatchResult result (λ e. expr_of e ≡ BinaryExpr op (expr_of left) (expr_of right))
        (λ e. e ≡ Stop.NoMemory) }
{
    Ok(Expr::Binary(op, boxed(alloc, left)?, boxed(alloc, right)?))
}

fn not(alloc: Global, of: Expr) -> Result<Expr, Stop>
    ensures { MatchResult result (λ e. expr_of e ≡ NotExpr (expr_of of)) (λ e. e ≡ Stop.NoMemory) }
{
    Ok(Expr::Not(boxed(alloc, of)?))
}

fn neg(alloc: Global, of: Expr) -> Result<Expr, Stop>
    ensures { MatchResult result (λ e. expr_of e ≡ NegExpr (expr_of of)) (λ e. e ≡ Stop.NoMemory) }
{
    Ok(Expr::Neg(boxed(alloc, of)?))
}

fn paren(alloc: Global, of: Expr) -> Result<Expr, Stop>
    ensures { MatchResult result (λ e. expr_of e ≡ ParenExpr (expr_of of))
        (λ e. e ≡ Stop.NoMemory) }
{
    Ok(Expr::Paren(boxed(alloc, of)?))
}

fn field(alloc: Global, of: Expr, name: Ident) -> Result<Expr, Stop>
    ensures { MatchResult result (λ e. expr_of e ≡ FieldExpr (expr_of of) name)
        (λ e. e ≡ Stop.NoMemory) }
{
    Ok(Expr::Field(boxed(alloc, of)?, name))
}

fn method(alloc: Global, of: Expr, name: Ident, args: Vec<Expr>) -> Result<Expr, Stop>
    ensures { MatchResult result (λ e. expr_of e
        ≡ MethodExpr (expr_of of) (ByName name) (exprs_of args.items)) (λ e. e ≡ Stop.NoMemory) }
{
    Ok(Expr::Method(boxed(alloc, of)?, name, args))
}

fn index(alloc: Global, of: Expr, at: Expr) -> Result<Expr, Stop>
    ensures { MatchResult result (λ e. expr_of e ≡ indexed (expr_of of) (expr_of at))
        (λ e. e ≡ Stop.NoMemory) }
{
    Ok(Expr::Index(boxed(alloc, of)?, boxed(alloc, at)?))
}

fn void_value() -> Expr
    ensures { expr_of result ≡ VoidExpr }
{
    Expr::VoidValue
}

fn var(name: Ident) -> Expr
    ensures { expr_of result ≡ VarExpr name }
{
    Expr::Var(name)
}

fn call(name: Ident, args: Vec<Expr>) -> Expr
    ensures { expr_of result ≡ CallExpr name (exprs_of args.items) }
{
    Expr::Call(name, args)
}

#[cycle(parse)]
fn expression(
    alloc: Global,
    spots: &[Spot],
    from: usize,
    least: u8,
    depth: u32,
) -> Result<Read, Stop>
    requires within { from ≤ length spots.now }
    requires small { least ≤ unary_level }
    requires shallow { depth ≤ suc DEPTH }
    ensures { Answer spots.now from least depth least result }
{
    let mut left = operand(alloc, spots, from, depth)?;
    while let Some(op) = op_at(spots, left.to, least) {
        left = with_right(alloc, spots, left, op, depth)?;
    }
    Ok(left)
}

// The operand, with the sign that follows it and the operand behind that.
#[cycle(parse)]
fn with_right(alloc: Global, spots: &[Spot], left: Read, op: Op, depth: u32) -> Result<Read, Stop>
    requires within { left.to < length spots.now }
    requires sign { kind_at spots.now left.to ≡ Some (Kind.Op op) }
    requires measured { left.high ≡ height (expr_of left.expr) }
    requires fits { depth + left.high ≤ suc DEPTH }
    ensures { GoesAnswer spots.now left (level op) depth dot_level result }
{
    if depth + left.high > DEPTH {
        return Err(Stop::Deep(left.to));
    }
    let right = expression(alloc, spots, left.to + 1, level_of(op) + 1, depth + 1)?;
    Ok(Read {
        expr: two(alloc, op, left.expr, right.expr)?,
        high: left.high.max(right.high) + 1,
        to: right.to,
    })
}

#[cycle(parse)]
fn operand(alloc: Global, spots: &[Spot], from: usize, depth: u32) -> Result<Read, Stop>
    requires within { from ≤ length spots.now }
    requires shallow { depth ≤ suc DEPTH }
    ensures { Answer spots.now from unary_level depth dot_level result }
{
    let Some(kind) = kind::at(spots, from) else {
        return Err(Stop::Short(from));
    };
    if kind == Kind::Not {
        return negated(alloc, spots, from, depth);
    }
    if kind == Kind::Op(Op::Sub) {
        return minus(alloc, spots, from, depth);
    }
    postfix(alloc, spots, from, kind, depth)
}

#[cycle(parse)]
fn negated(alloc: Global, spots: &[Spot], from: usize, depth: u32) -> Result<Read, Stop>
    requires within { from < length spots.now }
    requires sign { kind_at spots.now from ≡ Some Kind.Not }
    requires shallow { depth ≤ suc DEPTH }
    ensures { Answer spots.now from unary_level depth dot_level result }
{
    if depth > DEPTH {
        return Err(Stop::Deep(from));
    }
    let of = operand(alloc, spots, from + 1, depth + 1)?;
    Ok(Read {
        expr: not(alloc, of.expr)?,
        high: of.high + 1,
        to: of.to,
    })
}

#[cycle(parse)]
fn minus(alloc: Global, spots: &[Spot], from: usize, depth: u32) -> Result<Read, Stop>
    requires within { from < length spots.now }
    requires sign { kind_at spots.now from ≡ Some (Kind.Op Op.Sub) }
    requires shallow { depth ≤ suc DEPTH }
    ensures { Answer spots.now from unary_level depth dot_level result }
{
    if depth > DEPTH {
        return Err(Stop::Deep(from));
    }
    let of = operand(alloc, spots, from + 1, depth + 1)?;
    Ok(Read {
        expr: neg(alloc, of.expr)?,
        high: of.high + 1,
        to: of.to,
    })
}

#[cycle(parse)]
fn postfix(alloc: Global, spots: &[Spot], from: usize, kind: Kind, depth: u32) -> Result<Read, Stop>
    requires within { from < length spots.now }
    requires here { kind_at spots.now from ≡ Some kind }
    requires unsigned { NoSign kind }
    requires shallow { depth ≤ suc DEPTH }
    ensures { Answer spots.now from unary_level depth dot_level result }
{
    let mut left = primary(alloc, spots, from, kind, depth)?;
    'suffixes: loop {
        if is_at(spots, left.to, Kind::Dot) {
            left = with_dot(alloc, spots, left, depth)?;
        } else if is_at(spots, left.to, Kind::OpenSquare) {
            left = with_index(alloc, spots, left, depth)?;
        } else {
            return Ok(left);
        }
    }
}

// The expression, with the field or the method behind the dot that follows it.
#[cycle(parse)]
fn with_dot(alloc: Global, spots: &[Spot], left: Read, depth: u32) -> Result<Read, Stop>
    requires within { left.to < length spots.now }
    requires dot { kind_at spots.now left.to ≡ Some Kind.Dot }
    requires measured { left.high ≡ height (expr_of left.expr) }
    requires fits { depth + left.high ≤ suc DEPTH }
    ensures { GoesAnswer spots.now left unary_level depth primary_level result }
{
    if depth + left.high > DEPTH {
        return Err(Stop::Deep(left.to));
    }
    let Some(name) = read_name(alloc, spots, left.to + 1)? else {
        return Err(Stop::Short(left.to + 1));
    };
    if !is_at(spots, left.to + 2, Kind::Open) {
        return Ok(Read {
            expr: field(alloc, left.expr, name)?,
            high: left.high + 1,
            to: left.to + 2,
        });
    }
    let read = arguments(alloc, spots, left.to + 3, depth)?;
    Ok(Read {
        expr: method(alloc, left.expr, name, read.args)?,
        high: left.high.max(read.high) + 1,
        to: read.to,
    })
}

// The expression, with the index in the square brackets that follow it.
#[cycle(parse)]
fn with_index(alloc: Global, spots: &[Spot], base: Read, depth: u32) -> Result<Read, Stop>
    requires within { base.to < length spots.now }
    requires square { kind_at spots.now base.to ≡ Some Kind.OpenSquare }
    requires measured { base.high ≡ height (expr_of base.expr) }
    requires fits { depth + base.high ≤ suc DEPTH }
    ensures { GoesAnswer spots.now base unary_level depth primary_level result }
{
    if depth + base.high > DEPTH {
        return Err(Stop::Deep(base.to));
    }
    let at = expression(alloc, spots, base.to + 1, 0, depth + 1)?;
    if !is_at(spots, at.to, Kind::CloseSquare) {
        return Err(Stop::Short(at.to));
    }
    Ok(Read {
        expr: index(alloc, base.expr, at.expr)?,
        high: base.high.max(at.high) + 1,
        to: at.to + 1,
    })
}

#[cycle(parse)]
fn primary(alloc: Global, spots: &[Spot], from: usize, kind: Kind, depth: u32) -> Result<Read, Stop>
    requires within { from < length spots.now }
    requires here { kind_at spots.now from ≡ Some kind }
    requires unsigned { NoSign kind }
    requires shallow { depth ≤ suc DEPTH }
    ensures { Answer spots.now from unary_level depth primary_level result }
{
    match kind {
        Kind::Leaf => leaf(alloc, spots, from, depth),
        Kind::Name => named(alloc, spots, from, depth),
        Kind::Void => void(spots, from, depth),
        Kind::Open => bracket(alloc, spots, from, depth),
        Kind::Not | Kind::Op(_) => Err(Stop::Short(from)),
        Kind::Close
        | Kind::OpenSquare
        | Kind::CloseSquare
        | Kind::Comma
        | Kind::Dot
        | Kind::Other => Err(Stop::Short(from)),
    }
}

fn leaf(alloc: Global, spots: &[Spot], from: usize, depth: u32) -> Result<Read, Stop>
    requires within { from < length spots.now }
    requires here { kind_at spots.now from ≡ Some Kind.Leaf }
    requires shallow { depth ≤ suc DEPTH }
    ensures { Answer spots.now from unary_level depth primary_level result }
{
    if depth > DEPTH {
        return Err(Stop::Deep(from));
    }
    let Some(expr) = read_leaf(alloc, spots, from)? else {
        return Err(Stop::Short(from));
    };
    Ok(Read {
        expr,
        high: 1,
        to: from + 1,
    })
}

fn void(spots: &[Spot], from: usize, depth: u32) -> Result<Read, Stop>
    requires within { from < length spots.now }
    requires here { kind_at spots.now from ≡ Some Kind.Void }
    requires shallow { depth ≤ suc DEPTH }
    ensures { Answer spots.now from unary_level depth primary_level result }
{
    if depth > DEPTH {
        return Err(Stop::Deep(from));
    }
    if !is_at(spots, from + 1, Kind::Open) {
        return Err(Stop::Short(from + 1));
    }
    if !is_at(spots, from + 2, Kind::Close) {
        return Err(Stop::Short(from + 2));
    }
    Ok(Read {
        expr: void_value(),
        high: 1,
        to: from + 3,
    })
}

// A variable, or a call of a function.
#[cycle(parse)]
fn named(alloc: Global, spots: &[Spot], from: usize, depth: u32) -> Result<Read, Stop>
    requires within { from < length spots.now }
    requires here { kind_at spots.now from ≡ Some Kind.Name }
    requires shallow { depth ≤ suc DEPTH }
    ensures { Answer spots.now from unary_level depth primary_level result }
{
    if depth > DEPTH {
        return Err(Stop::Deep(from));
    }
    let Some(name) = read_name(alloc, spots, from)? else {
        return Err(Stop::Short(from));
    };
    if !is_at(spots, from + 1, Kind::Open) {
        return Ok(Read {
            expr: var(name),
            high: 1,
            to: from + 1,
        });
    }
    let read = arguments(alloc, spots, from + 2, depth)?;
    Ok(Read {
        expr: call(name, read.args),
        high: read.high + 1,
        to: read.to,
    })
}

#[cycle(parse)]
fn bracket(alloc: Global, spots: &[Spot], from: usize, depth: u32) -> Result<Read, Stop>
    requires within { from < length spots.now }
    requires here { kind_at spots.now from ≡ Some Kind.Open }
    requires shallow { depth ≤ suc DEPTH }
    ensures { Answer spots.now from unary_level depth primary_level result }
{
    if depth > DEPTH {
        return Err(Stop::Deep(from));
    }
    let of = expression(alloc, spots, from + 1, 0, depth + 1)?;
    if !is_at(spots, of.to, Kind::Close) {
        return Err(Stop::Short(of.to));
    }
    Ok(Read {
        expr: paren(alloc, of.expr)?,
        high: of.high + 1,
        to: of.to + 1,
    })
}

// The arguments of a call behind its opening bracket, the call being of this depth.
#[cycle(parse)]
fn arguments(alloc: Global, spots: &[Spot], from: usize, depth: u32) -> Result<ReadArgs, Stop>
    requires within { from ≤ length spots.now }
    requires shallow { depth ≤ DEPTH }
    ensures { ArgsAnswer spots.now from depth result }
{
    let mut args = Vec::new(alloc);
    let mut high = 0;
    let mut at = from;
    if is_at(spots, at, Kind::Close) {
        return Ok(ReadArgs {
            args,
            high,
            to: at + 1,
        });
    }
    loop {
        let read = expression(alloc, spots, at, 0, depth + 1)?;
        args.push(read.expr)?;
        high = high.max(read.high);
        at = read.to + 1;
        if is_at(spots, read.to, Kind::Close) {
            return Ok(ReadArgs { args, high, to: at });
        }
        if !is_at(spots, read.to, Kind::Comma) {
            return Err(Stop::Short(read.to));
        }
    }
}

/// The refusal of a text whose reading stopped so.
pub fn refusal(tokens: &Tokens, stop: Stop) -> SourceFault
    ensures { RefusalIs tokens.now stop result }
{
    match stop {
        Stop::Short(k) => SourceFault::Refused {
            rule: Rule::S(5),
            at: place(tokens, k),
        },
        Stop::Deep(k) => SourceFault::Refused {
            rule: Rule::L(5),
            at: place(tokens, k),
        },
        Stop::NoMemory => SourceFault::OutOfMemory,
    }
}

/// The expression that the tokens from this one on are, as far as some expression goes on with them,
/// and the number of the token after it. The whole expression has the given depth, and an operand,
/// an argument or an index is one deeper than the node around it. L5 is refused at the first of
/// these tokens with which each expression has a node that has begun below depth 64. Where it isn't,
/// and the tokens are no whole expression, S5 is refused at the token after them, or at the end.
pub fn parse_expr(
    alloc: Global,
    tokens: &Tokens,
    from: usize,
    depth: u32,
) -> Result<(Expr, usize), SourceFault>
    requires within { from ≤ length tokens.now.spots.items }
    requires shallow { depth ≤ DEPTH }
    ensures { ReaderAnswer (ExprRule 0 depth) expr_of tokens.now from result }
{
    match expression(alloc, &tokens.spots, from, 0, depth) {
        Ok(read) => Ok((read.expr, read.to)),
        Err(stop) => Err(refusal(tokens, stop)),
    }
}
