// Tokens and where they stand.

ghost use Rattle.std.specs.Prelude.{◌≡◌, IfOk};

use flow_base::memory::NoMemory;
use flow_base::name::Name;
use flow_base::place::Place;
use flow_base::text::Text;
use std::alloc::Global;

/// The reserved words, in the order of the language page.
#[derive(Clone, Copy, PartialEq, Eq)]
pub enum Word {
    Actor,
    Struct,
    State,
    Wait,
    WaitNext,
    Choose,
    When,
    Loop,
    While,
    For,
    If,
    Else,
    Break,
    Continue,
    Return,
    Throw,
    Try,
    Catch,
    Yes,
    No,
    Int,
    Bool,
    Str,
    Void,
    Error,
    Future,
    FutureStream,
    Promise,
    PromiseStream,
    Vector,
    NoResult,
}

/// The signs, in the order of the language page.
#[derive(Clone, Copy, PartialEq, Eq)]
pub enum Sign {
    OpenRound,
    CloseRound,
    OpenCurly,
    CloseCurly,
    OpenSquare,
    CloseSquare,
    Less,
    Greater,
    Comma,
    Semicolon,
    Dot,
    Assign,
    Equal,
    NotEqual,
    LessEqual,
    GreaterEqual,
    AndAnd,
    OrOr,
    Not,
    Plus,
    Minus,
    Star,
    Slash,
    Percent,
    PlusAssign,
    MinusAssign,
    PlusPlus,
    MinusMinus,
    Amp,
}

/// A token: a name that is no reserved word, a number from 0 to the greatest 64-bit int, a quoted
/// text by the bytes that it holds, a reserved word, or a sign.
#[derive(Drop)]
pub enum Token {
    Name(Name),
    Number(i64),
    Text(Text),
    Word(Word),
    Sign(Sign),
}

/// A token and the place of its first byte.
#[derive(Drop)]
pub struct Spot {
    pub token: Token,
    pub at: Place,
}

/// The tokens of a text in order, and the place after its last byte.
#[derive(Drop)]
pub struct Tokens {
    pub spots: Vec<Spot>,
    pub end: Place,
}

impl Token {
    /// An equal token.
    pub fn copy(&self, alloc: Global) -> Result<Token, NoMemory>
        ensures { IfOk result (λ t. t ≡ self.now) }
    {
        match self {
            Token::Name(name) => Ok(Token::Name(name.copy(alloc)?)),
            Token::Number(n) => Ok(Token::Number(*n)),
            Token::Text(text) => Ok(Token::Text(text.copy(alloc)?)),
            Token::Word(word) => Ok(Token::Word(*word)),
            Token::Sign(sign) => Ok(Token::Sign(*sign)),
        }
    }
}

impl Spot {
    /// An equal token at the same place.
    pub fn copy(&self, alloc: Global) -> Result<Spot, NoMemory>
        ensures { IfOk result (λ s. s ≡ self.now) }
    {
        Ok(Spot {
            token: self.token.copy(alloc)?,
            at: self.at,
        })
    }
}

impl Tokens {
    /// The same tokens at the same places, with the same end.
    pub fn copy(&self, alloc: Global) -> Result<Tokens, NoMemory>
        ensures spots { IfOk result (λ t. t.spots.items ≡ self.now.spots.items) }
        ensures end { IfOk result (λ t. t.end ≡ self.now.end) }
    {
        Ok(Tokens {
            spots: copy_spots(alloc, &self.spots)?,
            end: self.end,
        })
    }
}

fn copy_spots(alloc: Global, spots: &[Spot]) -> Result<Vec<Spot>, NoMemory>
    ensures { IfOk result (λ v. v.items ≡ spots.now) }
{
    let mut copies = Vec::new(alloc);
    for spot in spots {
        copies.push(spot.copy(alloc)?)?;
    }
    Ok(copies)
}
