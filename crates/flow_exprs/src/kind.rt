// What a token is to an expression.

ghost use Rattle.std.specs.Prelude.{◌≡◌, ◌<◌, OnSome, length, slice_get};
ghost use Rattle.std.specs.Option.{option_map};
ghost use Rattle.flow_exprs.specs.Kinds.{sign_kind, word_kind, kind_of, kind_at};

use flow_tree::expr::Op;
use flow_tree::token::{Sign, Spot, Token, Word};

/// What a token is to an expression: one that is an expression by itself, a name, the word `Void`,
/// a bracket, a square bracket, a comma, a dot, `!`, a sign between two operands, or none of these.
#[derive(Clone, Copy, PartialEq, Eq)]
pub enum Kind {
    Leaf,
    Name,
    Void,
    Open,
    Close,
    OpenSquare,
    CloseSquare,
    Comma,
    Dot,
    Not,
    Op(Op),
    Other,
}

fn of_sign(sign: Sign) -> Kind
    ensures { result ≡ sign_kind sign }
{
    match sign {
        Sign::OpenRound => Kind::Open,
        Sign::CloseRound => Kind::Close,
        Sign::OpenSquare => Kind::OpenSquare,
        Sign::CloseSquare => Kind::CloseSquare,
        Sign::Less => Kind::Op(Op::Lt),
        Sign::Greater => Kind::Op(Op::Gt),
        Sign::Comma => Kind::Comma,
        Sign::Dot => Kind::Dot,
        Sign::Equal => Kind::Op(Op::Eq),
        Sign::NotEqual => Kind::Op(Op::Ne),
        Sign::LessEqual => Kind::Op(Op::Le),
        Sign::GreaterEqual => Kind::Op(Op::Ge),
        Sign::AndAnd => Kind::Op(Op::And),
        Sign::OrOr => Kind::Op(Op::Or),
        Sign::Not => Kind::Not,
        Sign::Plus => Kind::Op(Op::Add),
        Sign::Minus => Kind::Op(Op::Sub),
        Sign::Star => Kind::Op(Op::Mul),
        Sign::Slash => Kind::Op(Op::Div),
        Sign::Percent => Kind::Op(Op::Rem),
        Sign::OpenCurly
        | Sign::CloseCurly
        | Sign::Semicolon
        | Sign::Assign
        | Sign::PlusAssign
        | Sign::MinusAssign
        | Sign::PlusPlus
        | Sign::MinusMinus
        | Sign::Amp => Kind::Other,
    }
}

fn of_word(word: Word) -> Kind
    ensures { result ≡ word_kind word }
{
    match word {
        Word::Yes | Word::No => Kind::Leaf,
        Word::Void => Kind::Void,
        Word::Actor
        | Word::Struct
        | Word::State
        | Word::Wait
        | Word::WaitNext
        | Word::Choose
        | Word::When
        | Word::Loop
        | Word::While
        | Word::For
        | Word::If
        | Word::Else
        | Word::Break
        | Word::Continue
        | Word::Return
        | Word::Throw
        | Word::Try
        | Word::Catch
        | Word::Int
        | Word::Bool
        | Word::Str
        | Word::Error
        | Word::Future
        | Word::FutureStream
        | Word::Promise
        | Word::PromiseStream
        | Word::Vector
        | Word::NoResult => Kind::Other,
    }
}

/// What this token is.
pub fn of_token(token: &Token) -> Kind
    ensures { result ≡ kind_of token.now }
{
    match token {
        Token::Name(_) => Kind::Name,
        Token::Number(_) => Kind::Leaf,
        Token::Text(_) => Kind::Leaf,
        Token::Word(word) => of_word(*word),
        Token::Sign(sign) => of_sign(*sign),
    }
}

/// What the token at this place is, if there is one.
pub fn at(spots: &[Spot], at: usize) -> Option<Kind>
    ensures kind { result ≡ kind_at spots.now at }
    ensures within { OnSome result (at < length spots.now) }
{
    match spots.get(at) {
        Some(spot) => Some(of_token(&spot.token)),
        None => None,
    }
}
