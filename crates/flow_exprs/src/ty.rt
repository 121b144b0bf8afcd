// Types.

ghost use Rattle.std.specs.Prelude.{◌≡◌, ◌↔◌, ℕ, suc, ◌+◌, ◌<◌, ◌≤◌, length, MatchResult, OnSome, IsTrue, Some, None, slice_get};
ghost use Rattle.std.specs.Bool.{OnTrue};
ghost use Rattle.std.specs.Option.{option_map};
ghost use Rattle.flow_tree.specs.View.{type_of};
ghost use Rattle.flow_tree.specs.Grammar.{TypeRule};
ghost use Rattle.flow_tree.specs.GrammarAnswer.{ReaderAnswer};
ghost use Rattle.flow_tree.specs.declared.limits.TheConstants.{DEPTH};
ghost use Rattle.flow_exprs.specs.TypeMachine.{type_word_kind, type_sign_kind, type_kind_of, type_kind_at, plain_of_word, plain_of, plain_at, IsWrapper, wrapped_by};
ghost use Rattle.flow_exprs.specs.TypeAnswer.{TypeAnswer};

use crate::expr::refusal;
use crate::stop::Stop;
use flow_tree::fault::SourceFault;
use flow_tree::limits::DEPTH;
use flow_tree::token::{Sign, Spot, Token, Tokens, Word};
use flow_tree::ty::Ty;
use std::alloc::Global;

/// What a token is to a type: a type by itself, a word that takes an argument, an angle bracket, or
/// none of these.
#[derive(Clone, Copy, PartialEq, Eq)]
pub enum TypeKind {
    Plain,
    Future,
    FutureStream,
    Promise,
    PromiseStream,
    Vector,
    Less,
    Greater,
    Other,
}

/// A type that was read, and the number of the token after it.
#[derive(Drop)]
pub struct ReadType {
    pub ty: Ty,
    pub to: usize,
}

fn of_word(word: Word) -> TypeKind
    ensures { result ≡ type_word_kind word }
{
    match word {
        Word::Int | Word::Bool | Word::Str | Word::Void | Word::Error => TypeKind::Plain,
        Word::Future => TypeKind::Future,
        Word::FutureStream => TypeKind::FutureStream,
        Word::Promise => TypeKind::Promise,
        Word::PromiseStream => TypeKind::PromiseStream,
        Word::Vector => TypeKind::Vector,
        Word::Actor
        | Word::Struct
        | Word::State
        | Word::Wait
        | Word::WaitNext
        | Word::Choose
        | Word::When
        | Word::Loop
        | Word::While
        | Word::For
        | Word::If
        | Word::Else
        | Word::Break
        | Word::Continue
        | Word::Return
        | Word::Throw
        | Word::Try
        | Word::Catch
        | Word::Yes
        | Word::No
        | Word::NoResult => TypeKind::Other,
    }
}

fn of_token(token: &Token) -> TypeKind
    ensures { result ≡ type_kind_of token.now }
{
    match token {
        Token::Name(_) => TypeKind::Plain,
        Token::Number(_) => TypeKind::Other,
        Token::Text(_) => TypeKind::Other,
        Token::Word(word) => of_word(*word),
        Token::Sign(sign) => of_sign(*sign),
    }
}

fn of_sign(sign: Sign) -> TypeKind
    ensures { result ≡ type_sign_kind sign }
{
    match sign {
        Sign::Less => TypeKind::Less,
        Sign::Greater => TypeKind::Greater,
        _ => TypeKind::Other,
    }
}

fn kind_at(spots: &[Spot], at: usize) -> Option<TypeKind>
    ensures kind { result ≡ type_kind_at spots.now at }
    ensures within { OnSome result (at < length spots.now) }
{
    match spots.get(at) {
        Some(spot) => Some(of_token(&spot.token)),
        None => None,
    }
}

// Whether a token of this kind stands here.
fn is_at(spots: &[Spot], at: usize, wanted: TypeKind) -> bool
    ensures kind { IsTrue result ↔ (type_kind_at spots.now at ≡ Some wanted) }
    ensures within { OnTrue result (at < length spots.now) }
{
    match kind_at(spots, at) {
        Some(kind) => kind == wanted,
        None => false,
    }
}

// The type that this word is.
fn word_type(word: Word) -> Option<Ty>
    ensures { option_map type_of result ≡ plain_of_word word }
{
    match word {
        Word::Int => Some(Ty::Int),
        Word::Bool => Some(Ty::Bool),
        Word::Str => Some(Ty::Str),
        Word::Void => Some(Ty::Void),
        Word::Error => Some(Ty::Error),
        _ => None,
    }
}

// The type that this token is by itself.
fn token_type(alloc: Global, token: &Token) -> Result<Option<Ty>, Stop>
    ensures { MatchResult result (λ o. option_map type_of o ≡ plain_of token.now)
        (λ e. e ≡ Stop.NoMemory) }
{
    match token {
        Token::Name(name) => Ok(Some(Ty::Named(name.copy(alloc)?))),
        Token::Word(word) => Ok(word_type(*word)),
        Token::Number(_) => Ok(None),
        Token::Text(_) => Ok(None),
        Token::Sign(_) => Ok(None),
    }
}

// The type that the token here is by itself.
fn read_plain(alloc: Global, spots: &[Spot], at: usize) -> Result<Option<Ty>, Stop>
    ensures { MatchResult result (λ o. option_map type_of o ≡ plain_at spots.now at)
        (λ e. e ≡ Stop.NoMemory) }
{
    match spots.get(at) {
        Some(spot) => token_type(alloc, &spot.token),
        None => Ok(None),
    }
}

fn boxed(alloc: Global, ty: Ty) -> Result<Box<Ty>, Stop>
    ensures { MatchResult result (λ b. b.value ≡ ty) (λ e. e ≡ Stop.NoMemory) }
{
    Ok(Box::new(alloc, ty)?)
}

// The type that this word makes of another.
fn wrap(alloc: Global, kind: TypeKind, of: Ty) -> Result<Ty, Stop>
    requires { IsWrapper kind }
    ensures { MatchResult result (λ t. type_of t ≡ wrapped_by kind (type_of of))
        (λ e. e ≡ Stop.NoMemory) }
{
    match kind {
        TypeKind::FutureStream => Ok(Ty::FutureStream(boxed(alloc, of)?)),
        TypeKind::Promise => Ok(Ty::Promise(boxed(alloc, of)?)),
        TypeKind::PromiseStream => Ok(Ty::PromiseStream(boxed(alloc, of)?)),
        TypeKind::Vector => Ok(Ty::Vector(boxed(alloc, of)?)),
        _ => Ok(Ty::Future(boxed(alloc, of)?)),
    }
}

#[cycle(types)]
fn read(alloc: Global, spots: &[Spot], from: usize, depth: u32) -> Result<ReadType, Stop>
    requires within { from ≤ length spots.now }
    requires shallow { depth ≤ suc DEPTH }
    ensures { TypeAnswer spots.now from depth result }
{
    let Some(kind) = kind_at(spots, from) else {
        return Err(Stop::Short(from));
    };
    match kind {
        TypeKind::Plain => plain(alloc, spots, from, depth),
        TypeKind::Future => argument(alloc, spots, from, kind, depth),
        TypeKind::FutureStream => argument(alloc, spots, from, kind, depth),
        TypeKind::Promise => argument(alloc, spots, from, kind, depth),
        TypeKind::PromiseStream => argument(alloc, spots, from, kind, depth),
        TypeKind::Vector => argument(alloc, spots, from, kind, depth),
        TypeKind::Less | TypeKind::Greater | TypeKind::Other => Err(Stop::Short(from)),
    }
}

fn plain(alloc: Global, spots: &[Spot], from: usize, depth: u32) -> Result<ReadType, Stop>
    requires within { from < length spots.now }
    requires here { type_kind_at spots.now from ≡ Some TypeKind.Plain }
    requires shallow { depth ≤ suc DEPTH }
    ensures { TypeAnswer spots.now from depth result }
{
    if depth > DEPTH {
        return Err(Stop::Deep(from));
    }
    let Some(ty) = read_plain(alloc, spots, from)? else {
        return Err(Stop::Short(from));
    };
    Ok(ReadType { ty, to: from + 1 })
}

#[cycle(types)]
fn argument(
    alloc: Global,
    spots: &[Spot],
    from: usize,
    kind: TypeKind,
    depth: u32,
) -> Result<ReadType, Stop>
    requires within { from < length spots.now }
    requires here { type_kind_at spots.now from ≡ Some kind }
    requires wraps { IsWrapper kind }
    requires shallow { depth ≤ suc DEPTH }
    ensures { TypeAnswer spots.now from depth result }
{
    if depth > DEPTH {
        return Err(Stop::Deep(from));
    }
    if !is_at(spots, from + 1, TypeKind::Less) {
        return Err(Stop::Short(from + 1));
    }
    let of = read(alloc, spots, from + 2, depth + 1)?;
    if !is_at(spots, of.to, TypeKind::Greater) {
        return Err(Stop::Short(of.to));
    }
    Ok(ReadType {
        ty: wrap(alloc, kind, of.ty)?,
        to: of.to + 1,
    })
}

/// The type that the tokens from this one on are, as far as some type goes on with them, and the
/// number of the token after it. The whole type has the given depth, and a type argument is one
/// deeper than the type around it. L5 is refused at the first of these tokens with which each type
/// has a node that has begun below depth 64. Where it isn't, and the tokens are no whole type, S5 is
/// refused at the token after them, or at the end.
pub fn parse_type(
    alloc: Global,
    tokens: &Tokens,
    from: usize,
    depth: u32,
) -> Result<(Ty, usize), SourceFault>
    requires within { from ≤ length tokens.now.spots.items }
    requires shallow { depth ≤ DEPTH }
    ensures { ReaderAnswer (TypeRule depth) type_of tokens.now from result }
{
    match read(alloc, &tokens.spots, from, depth) {
        Ok(read) => Ok((read.ty, read.to)),
        Err(stop) => Err(refusal(tokens, stop)),
    }
}
