// Texts and what they are read as: expressions and types. A function that owns tokens or a tree has few ends, since they
// are dropped at each.

use crate::shapes::{shape, type_shape};
use flow_base::memory::NoMemory;
use flow_exprs::expr::parse_expr;
use flow_exprs::ty::parse_type;
use flow_lex::lex::lex;
use flow_tree::expr::Expr;
use flow_tree::fault::{Rule, SourceFault};
use flow_tree::token::Tokens;
use flow_tree::ty::Ty;
use std::alloc::Global;

/// The tokens of a text of a length that the lexer takes.
pub fn lexed(alloc: Global, text: &[u8]) -> Result<Tokens, SourceFault> {
    if text.len() > 4_294_967_294 {
        return Err(SourceFault::OutOfMemory);
    }
    lex(alloc, text)
}

// Leaves the first tokens; the column of each is its number from 0.
fn cut(tokens: &mut Tokens, count: usize) {
    tokens.spots.truncate(count);
    let mut column = 0;
    for spot in &mut tokens.spots {
        spot.at.column = column;
        column = column.saturating_add(1);
    }
    tokens.end.column = column;
}

/// The first tokens of a text, so many at most; the column of each is its number from 0.
pub fn tokens(alloc: Global, text: &str, count: usize) -> Result<Tokens, SourceFault> {
    let mut tokens = lexed(alloc, text.as_bytes())?;
    cut(&mut tokens, count);
    Ok(tokens)
}

/// What tokens are read as.
pub trait Tree: Sized {
    // The tree of the greatest depth with which tokens begin, and up to which token it goes.
    fn parsed(alloc: Global, tokens: &Tokens, depth: u32) -> Result<(Self, usize), SourceFault>;

    // The tree as a text.
    fn add_shape(&self, out: &mut String) -> Result<(), NoMemory>;
}

impl Tree for Expr {
    fn parsed(alloc: Global, tokens: &Tokens, depth: u32) -> Result<(Expr, usize), SourceFault> {
        if depth > 64 {
            return Err(SourceFault::OutOfMemory);
        }
        parse_expr(alloc, tokens, 0, depth)
    }

    fn add_shape(&self, out: &mut String) -> Result<(), NoMemory> {
        shape(self, out)
    }
}

impl Tree for Ty {
    fn parsed(alloc: Global, tokens: &Tokens, depth: u32) -> Result<(Ty, usize), SourceFault> {
        if depth > 64 {
            return Err(SourceFault::OutOfMemory);
        }
        parse_type(alloc, tokens, 0, depth)
    }

    fn add_shape(&self, out: &mut String) -> Result<(), NoMemory> {
        type_shape(self, out)
    }
}

fn has_shape<T: Tree>(alloc: Global, tree: &T, wanted: &str) -> bool {
    let mut out = String::new(alloc);
    tree.add_shape(&mut out).is_ok() && out.as_str() == wanted
}

fn are_read<T: Tree + Drop>(
    alloc: Global,
    tokens: &Tokens,
    depth: u32,
    (wanted, to): (&str, usize),
) -> Result<bool, SourceFault> {
    let (tree, end) = T::parsed(alloc, tokens, depth)?;
    Ok(has_shape(alloc, &tree, wanted) && end == to)
}

fn is_read<T: Tree + Drop>(
    alloc: Global,
    text: &str,
    depth: u32,
    wanted: (&str, usize),
) -> Result<bool, SourceFault> {
    let tokens = tokens(alloc, text, usize::MAX)?;
    are_read::<T>(alloc, &tokens, depth, wanted)
}

// Whether a text at this depth is read as this tree, up to this token.
fn reads<T: Tree + Drop>(alloc: Global, text: &str, depth: u32, wanted: (&str, usize)) -> bool {
    matches!(is_read::<T>(alloc, text, depth, wanted), Ok(true))
}

fn end_of<T: Tree + Drop>(
    alloc: Global,
    tokens: &Tokens,
    depth: u32,
) -> Result<usize, SourceFault> {
    let (_, end) = T::parsed(alloc, tokens, depth)?;
    Ok(end)
}

// Up to which token a text at this depth is read.
fn end<T: Tree + Drop>(alloc: Global, text: &str, depth: u32) -> Result<usize, SourceFault> {
    let tokens = tokens(alloc, text, usize::MAX)?;
    end_of::<T>(alloc, &tokens, depth)
}

/// Whether a text at this depth is read up to this token.
pub fn accepts<T: Tree + Drop>(alloc: Global, text: &str, depth: u32, to: usize) -> bool {
    matches!(end::<T>(alloc, text, depth), Ok(found) if found == to)
}

// Whether it is a refusal by this rule at the token of this number.
fn is_refusal(found: Result<usize, SourceFault>, (rule, column): (Rule, u32)) -> bool {
    match found {
        Err(SourceFault::Refused { rule: r, at }) => r == rule && at.column == column,
        _ => false,
    }
}

/// Whether a text at this depth is refused by this rule at the token of this number.
pub fn refuses<T: Tree + Drop>(alloc: Global, text: &str, depth: u32, wanted: (Rule, u32)) -> bool {
    is_refusal(end::<T>(alloc, text, depth), wanted)
}

/// A text, its depth, and the tree as which it is read, up to which token.
pub type Read = (&'static str, u32, (&'static str, usize));

/// A text, its depth, and the rule by which it is refused, at which token.
pub type Refused = (&'static str, u32, (Rule, u32));

/// The first text that isn't read as it is to be.
pub fn first_misread<T: Tree + Drop>(alloc: Global, rows: &[Read]) -> Option<&'static str> {
    for (text, depth, wanted) in rows {
        if !reads::<T>(alloc, *text, *depth, *wanted) {
            return Some(*text);
        }
    }
    None
}

/// The first text that isn't refused as it is to be.
pub fn first_unrefused<T: Tree + Drop>(alloc: Global, rows: &[Refused]) -> Option<&'static str> {
    for (text, depth, wanted) in rows {
        if !refuses::<T>(alloc, *text, *depth, *wanted) {
            return Some(*text);
        }
    }
    None
}
