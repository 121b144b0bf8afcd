// The text of a program with its tokens.

use crate::hint::is_there;
use flow_base::place::Place;
use flow_exprs::token::place;
use flow_tree::token::{Sign, Token, Tokens, Word};

/// How many bytes of a text are quoted in words; more are called by a pronoun.
const QUOTED: usize = 60;

/// A text and its tokens.
#[derive(Clone, Copy)]
pub struct Source<'a> {
    pub text: &'a [u8],
    pub tokens: &'a Tokens,
}

impl<'a> Source<'a> {
    /// This text with its tokens.
    pub fn new(text: &'a [u8], tokens: &'a Tokens) -> Source<'a> {
        Source { text, tokens }
    }

    /// The place of the token with a number; that of the end where there is none.
    pub fn place(self, number: usize) -> Place {
        place(self.tokens, number)
    }

    /// The token with a number.
    pub fn token(self, number: usize) -> Option<&'a Token> {
        match self.tokens.spots.get(number) {
            Some(spot) => Some(&spot.token),
            None => None,
        }
    }

    /// The number of the first token at this line and column or behind it.
    pub fn number(self, at: Place) -> usize {
        for (number, spot) in self.tokens.spots.iter().enumerate() {
            if is_there(spot.at, at) {
                return number;
            }
        }
        self.tokens.spots.len()
    }

    /// Whether the token with a number is this sign.
    pub fn is_sign(self, number: usize, sign: Sign) -> bool {
        match self.token(number) {
            Some(Token::Sign(one)) => *one == sign,
            _ => false,
        }
    }

    /// Whether the token with a number is this word.
    pub fn is_word(self, number: usize, word: Word) -> bool {
        match self.token(number) {
            Some(Token::Word(one)) => *one == word,
            _ => false,
        }
    }

    /// The text from a token on, so many tokens long, as it is written.
    pub fn slice(self, from: usize, count: usize) -> &'a [u8] {
        let begin = self.place(from).byte as usize;
        let end = self.place(from.saturating_add(count)).byte as usize;
        match self.text.get(begin..end) {
            Some(part) => trimmed(part),
            None => &[],
        }
    }

    /// The text from a token up to another one, with the blanks before that.
    pub fn until(self, from: usize, to: usize) -> &'a [u8] {
        let begin = self.place(from).byte as usize;
        let end = self.place(to).byte as usize;
        match self.text.get(begin..end) {
            Some(part) => part,
            None => &[],
        }
    }

    /// The text from so many bytes behind the begin of a token on, with the sign that is the last token.
    pub fn behind(self, from: usize, bytes: usize, last: usize) -> &'a [u8] {
        let begin = (self.place(from).byte as usize).saturating_add(bytes);
        let end = (self.place(last).byte as usize).saturating_add(1);
        match self.text.get(begin..end) {
            Some(part) => part,
            None => &[],
        }
    }

    /// Whether a body begins between two tokens.
    pub fn has_body(self, from: usize, to: usize) -> bool {
        for number in from..to {
            if self.is_sign(number, Sign::OpenCurly) {
                return true;
            }
        }
        false
    }

    /// The text of these tokens where it is short and on one line.
    pub fn short(self, from: usize, count: usize) -> Option<&'a [u8]> {
        let part = self.slice(from, count);
        if part.is_empty() || part.len() > QUOTED || part.contains(&b'\n') {
            return None;
        }
        Some(part)
    }

    /// The number of the first `;` from a token on that stands outside of brackets opened since; or of the bracket that
    /// closes what was open there.
    pub fn semicolon(self, from: usize) -> usize {
        let mut depth: usize = 0;
        for number in from..self.tokens.spots.len() {
            match self.token(number) {
                Some(Token::Sign(Sign::OpenRound)) | Some(Token::Sign(Sign::OpenCurly)) => {
                    depth = depth.saturating_add(1);
                }
                Some(Token::Sign(Sign::CloseRound)) | Some(Token::Sign(Sign::CloseCurly)) => {
                    if depth == 0 {
                        return number;
                    }
                    depth -= 1;
                }
                Some(Token::Sign(Sign::Semicolon)) => {
                    if depth == 0 {
                        return number;
                    }
                }
                _ => {}
            }
        }
        self.tokens.spots.len()
    }
}

// A text without the blanks at its end.
fn trimmed(text: &[u8]) -> &[u8] {
    match text.iter().rposition(|byte| *byte > b' ') {
        Some(last) => text.get(..last.saturating_add(1)).unwrap_or(text),
        None => &[],
    }
}
