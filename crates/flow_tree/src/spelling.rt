// The spellings of reserved words and signs.

ghost use Rattle.std.specs.Prelude.{◌≡◌};
ghost use Rattle.flow_tree.specs.Spelling.{word_bytes, sign_bytes};

use crate::token::{Sign, Word};

impl Word {
    /// All of them, in order.
    pub const ALL: [Word; 31] = [
        Word::Actor,
        Word::Struct,
        Word::State,
        Word::Wait,
        Word::WaitNext,
        Word::Choose,
        Word::When,
        Word::Loop,
        Word::While,
        Word::For,
        Word::If,
        Word::Else,
        Word::Break,
        Word::Continue,
        Word::Return,
        Word::Throw,
        Word::Try,
        Word::Catch,
        Word::Yes,
        Word::No,
        Word::Int,
        Word::Bool,
        Word::Str,
        Word::Void,
        Word::Error,
        Word::Future,
        Word::FutureStream,
        Word::Promise,
        Word::PromiseStream,
        Word::Vector,
        Word::NoResult,
    ];

    /// The bytes that spell the word.
    pub fn spelling(self) -> &'static [u8]
        ensures { result.now ≡ word_bytes self }
    {
        match self {
            Word::Actor => b"ACTOR",
            Word::Struct => b"struct",
            Word::State => b"state",
            Word::Wait => b"wait",
            Word::WaitNext => b"waitNext",
            Word::Choose => b"choose",
            Word::When => b"when",
            Word::Loop => b"loop",
            Word::While => b"while",
            Word::For => b"for",
            Word::If => b"if",
            Word::Else => b"else",
            Word::Break => b"break",
            Word::Continue => b"continue",
            Word::Return => b"return",
            Word::Throw => b"throw",
            Word::Try => b"try",
            Word::Catch => b"catch",
            Word::Yes => b"true",
            Word::No => b"false",
            Word::Int => b"int",
            Word::Bool => b"bool",
            Word::Str => b"string",
            Word::Void => b"Void",
            Word::Error => b"Error",
            Word::Future => b"Future",
            Word::FutureStream => b"FutureStream",
            Word::Promise => b"Promise",
            Word::PromiseStream => b"PromiseStream",
            Word::Vector => b"vector",
            Word::NoResult => b"void",
        }
    }
}

impl Sign {
    /// All of them, in order.
    pub const ALL: [Sign; 29] = [
        Sign::OpenRound,
        Sign::CloseRound,
        Sign::OpenCurly,
        Sign::CloseCurly,
        Sign::OpenSquare,
        Sign::CloseSquare,
        Sign::Less,
        Sign::Greater,
        Sign::Comma,
        Sign::Semicolon,
        Sign::Dot,
        Sign::Assign,
        Sign::Equal,
        Sign::NotEqual,
        Sign::LessEqual,
        Sign::GreaterEqual,
        Sign::AndAnd,
        Sign::OrOr,
        Sign::Not,
        Sign::Plus,
        Sign::Minus,
        Sign::Star,
        Sign::Slash,
        Sign::Percent,
        Sign::PlusAssign,
        Sign::MinusAssign,
        Sign::PlusPlus,
        Sign::MinusMinus,
        Sign::Amp,
    ];

    /// The bytes that spell the sign.
    pub fn spelling(self) -> &'static [u8]
        ensures { result.now ≡ sign_bytes self }
    {
        match self {
            Sign::OpenRound => b"(",
            Sign::CloseRound => b")",
            Sign::OpenCurly => b"{",
            Sign::CloseCurly => b"}",
            Sign::OpenSquare => b"[",
            Sign::CloseSquare => b"]",
            Sign::Less => b"<",
            Sign::Greater => b">",
            Sign::Comma => b",",
            Sign::Semicolon => b";",
            Sign::Dot => b".",
            Sign::Assign => b"=",
            Sign::Equal => b"==",
            Sign::NotEqual => b"!=",
            Sign::LessEqual => b"<=",
            Sign::GreaterEqual => b">=",
            Sign::AndAnd => b"&&",
            Sign::OrOr => b"||",
            Sign::Not => b"!",
            Sign::Plus => b"+",
            Sign::Minus => b"-",
            Sign::Star => b"*",
            Sign::Slash => b"/",
            Sign::Percent => b"%",
            Sign::PlusAssign => b"+=",
            Sign::MinusAssign => b"-=",
            Sign::PlusPlus => b"++",
            Sign::MinusMinus => b"--",
            Sign::Amp => b"&",
        }
    }
}
