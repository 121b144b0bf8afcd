// Kinds of tokens.

ghost use Rattle.std.specs.Prelude.{◌≡◌, IfOk};
ghost use Rattle.flow_expected.specs.Expected.{spelled};

use flow_base::memory::NoMemory;
use flow_base::name::Name;
use flow_base::text::Text;
use flow_tree::token::{Sign, Token, Word};
use std::alloc::Global;

/// A kind of tokens: names, numbers, texts, a reserved word or a sign.
#[derive(Clone, Copy, PartialEq, Eq)]
pub enum Kind {
    Name,
    Number,
    Text,
    Word(Word),
    Sign(Sign),
}

impl Kind {
    /// A token of this kind: the name `x`, the number 0, the empty text, the word or the sign.
    pub fn token(self, alloc: Global) -> Result<Token, NoMemory>
        ensures { IfOk result (λ t. t ≡ spelled self) }
    {
        match self {
            Kind::Name => Ok(Token::Name(Name::new(alloc, b"x")?)),
            Kind::Number => Ok(Token::Number(0)),
            Kind::Text => Ok(Token::Text(Text::new(alloc, b"")?)),
            Kind::Word(word) => Ok(Token::Word(word)),
            Kind::Sign(sign) => Ok(Token::Sign(sign)),
        }
    }
}

/// All kinds: names, numbers and texts, then the words and the signs in the order of the language page.
pub const KINDS: [Kind; 63] = [
    Kind::Name,
    Kind::Number,
    Kind::Text,
    Kind::Word(Word::Actor),
    Kind::Word(Word::Struct),
    Kind::Word(Word::State),
    Kind::Word(Word::Wait),
    Kind::Word(Word::WaitNext),
    Kind::Word(Word::Choose),
    Kind::Word(Word::When),
    Kind::Word(Word::Loop),
    Kind::Word(Word::While),
    Kind::Word(Word::For),
    Kind::Word(Word::If),
    Kind::Word(Word::Else),
    Kind::Word(Word::Break),
    Kind::Word(Word::Continue),
    Kind::Word(Word::Return),
    Kind::Word(Word::Throw),
    Kind::Word(Word::Try),
    Kind::Word(Word::Catch),
    Kind::Word(Word::Yes),
    Kind::Word(Word::No),
    Kind::Word(Word::Int),
    Kind::Word(Word::Bool),
    Kind::Word(Word::Str),
    Kind::Word(Word::Void),
    Kind::Word(Word::Error),
    Kind::Word(Word::Future),
    Kind::Word(Word::FutureStream),
    Kind::Word(Word::Promise),
    Kind::Word(Word::PromiseStream),
    Kind::Word(Word::Vector),
    Kind::Word(Word::NoResult),
    Kind::Sign(Sign::OpenRound),
    Kind::Sign(Sign::CloseRound),
    Kind::Sign(Sign::OpenCurly),
    Kind::Sign(Sign::CloseCurly),
    Kind::Sign(Sign::OpenSquare),
    Kind::Sign(Sign::CloseSquare),
    Kind::Sign(Sign::Less),
    Kind::Sign(Sign::Greater),
    Kind::Sign(Sign::Comma),
    Kind::Sign(Sign::Semicolon),
    Kind::Sign(Sign::Dot),
    Kind::Sign(Sign::Assign),
    Kind::Sign(Sign::Equal),
    Kind::Sign(Sign::NotEqual),
    Kind::Sign(Sign::LessEqual),
    Kind::Sign(Sign::GreaterEqual),
    Kind::Sign(Sign::AndAnd),
    Kind::Sign(Sign::OrOr),
    Kind::Sign(Sign::Not),
    Kind::Sign(Sign::Plus),
    Kind::Sign(Sign::Minus),
    Kind::Sign(Sign::Star),
    Kind::Sign(Sign::Slash),
    Kind::Sign(Sign::Percent),
    Kind::Sign(Sign::PlusAssign),
    Kind::Sign(Sign::MinusAssign),
    Kind::Sign(Sign::PlusPlus),
    Kind::Sign(Sign::MinusMinus),
    Kind::Sign(Sign::Amp),
];
