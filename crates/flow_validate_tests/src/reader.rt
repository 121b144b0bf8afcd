// Tokens of a class text, read one after another. Any text may come: what isn't in place is refused at the end of the text, since
// no test asks for the place. Until then the reader keeps that something wasn't, so that what is read hasn't to be dropped.

use flow_base::name::Name;
use flow_base::place::Place;
use flow_class::class::Slotted;
use flow_class::places::place_named;
use flow_exprs::expr::parse_expr;
use flow_exprs::ty::parse_type;
use flow_tree::expr::Expr;
use flow_tree::fault::{Rule, SourceFault};
use flow_tree::stmt::Target;
use flow_tree::token::{Sign, Token, Tokens, Word};
use flow_tree::ty::{Ident, Ty};
use std::alloc::Global;

const FIRST_PLACE: Place = Place {
    line: 1,
    column: 1,
    byte: 0,
};

/// The tokens of a text, how many of them are read, and whether one of these wasn't in place.
#[derive(Drop)]
pub struct Reader {
    tokens: Tokens,
    at: usize,
    wrong: bool,
}

impl Reader {
    /// From the first token on.
    pub fn new(tokens: Tokens) -> Reader {
        Reader {
            tokens,
            at: 0,
            wrong: false,
        }
    }

    // What isn't in place.
    fn refusal(&self) -> SourceFault {
        SourceFault::Refused {
            rule: Rule::S(5),
            at: self.tokens.end,
        }
    }

    /// A refusal, where a token wasn't in place.
    pub fn verdict(&self) -> Result<(), SourceFault> {
        if self.wrong {
            return Err(self.refusal());
        }
        Ok(())
    }

    /// How many tokens there are, which no list in the text is longer than.
    pub fn most(&self) -> usize {
        self.tokens.spots.len()
    }

    fn token(&self) -> Option<&Token> {
        match self.tokens.spots.get(self.at) {
            Some(spot) => Some(&spot.token),
            None => None,
        }
    }

    fn skip(&mut self) {
        self.at = self.at.saturating_add(1);
    }

    /// Whether all tokens are read, or one wasn't in place.
    pub fn is_done(&self) -> bool {
        self.wrong || self.at >= self.tokens.spots.len()
    }

    /// Whether this name is next.
    pub fn is_name(&self, name: &str) -> bool {
        match self.token() {
            Some(Token::Name(next)) => next.bytes() == name.as_bytes(),
            Some(_) => false,
            None => false,
        }
    }

    /// Whether this reserved word is next.
    pub fn is_word(&self, word: Word) -> bool {
        match self.token() {
            Some(Token::Word(next)) => *next == word,
            Some(_) => false,
            None => false,
        }
    }

    /// Whether this sign is next.
    pub fn is_sign(&self, sign: Sign) -> bool {
        match self.token() {
            Some(Token::Sign(next)) => *next == sign,
            Some(_) => false,
            None => false,
        }
    }

    /// This name.
    pub fn name(&mut self, name: &str) {
        if !self.takes_name(name) {
            self.wrong = true;
        }
    }

    /// This reserved word.
    pub fn word(&mut self, word: Word) {
        if !self.takes_word(word) {
            self.wrong = true;
        }
    }

    /// This sign.
    pub fn sign(&mut self, sign: Sign) {
        if !self.takes_sign(sign) {
            self.wrong = true;
        }
    }

    /// Reads this name, if it is next.
    pub fn takes_name(&mut self, name: &str) -> bool {
        let found = self.is_name(name);
        if found {
            self.skip();
        }
        found
    }

    /// Reads this reserved word, if it is next.
    pub fn takes_word(&mut self, word: Word) -> bool {
        let found = self.is_word(word);
        if found {
            self.skip();
        }
        found
    }

    /// Reads this sign, if it is next.
    pub fn takes_sign(&mut self, sign: Sign) -> bool {
        let found = self.is_sign(sign);
        if found {
            self.skip();
        }
        found
    }

    // Reads a number or a place, where it is next; else something isn't in place.
    fn taken<T: Drop>(&mut self, next: Option<T>, other: T) -> T {
        match next {
            Some(taken) => {
                self.skip();
                taken
            }
            None => {
                self.wrong = true;
                other
            }
        }
    }

    fn next_name(&self, alloc: Global) -> Result<Name, SourceFault> {
        match self.token() {
            Some(Token::Name(next)) => Ok(next.copy(alloc)?),
            Some(_) => Err(self.refusal()),
            None => Err(self.refusal()),
        }
    }

    /// Some name, which is next.
    pub fn any_name(&mut self, alloc: Global) -> Result<Name, SourceFault> {
        let name = self.next_name(alloc);
        self.skip();
        name
    }

    fn next_number(&self) -> Option<u32> {
        match self.token() {
            Some(Token::Number(next)) => u32::try_from(*next).ok(),
            Some(_) => None,
            None => None,
        }
    }

    /// A number below 2^32.
    pub fn number(&mut self) -> u32 {
        let next = self.next_number();
        self.taken(next, 0)
    }

    fn next_place(&self) -> Option<Slotted> {
        match self.token() {
            Some(Token::Name(next)) => place_named(next.bytes()),
            Some(_) => None,
            None => None,
        }
    }

    /// A slot or a local.
    pub fn place(&mut self) -> Slotted {
        let next = self.next_place();
        self.taken(next, Slotted::Local(0))
    }

    /// The number of a local.
    pub fn local(&mut self) -> u32 {
        match self.place() {
            Slotted::Local(number) => number,
            Slotted::Slot(number) => {
                self.wrong = true;
                number
            }
        }
    }

    /// Locals, with commas between them.
    pub fn locals(&mut self, alloc: Global) -> Result<Vec<u32>, SourceFault> {
        let mut numbers = Vec::new(alloc);
        numbers.push(self.local())?;
        for _ in 0..self.most() {
            if !self.takes_sign(Sign::Comma) {
                break;
            }
            numbers.push(self.local())?;
        }
        Ok(numbers)
    }

    fn ident(&mut self, alloc: Global) -> Result<Ident, SourceFault> {
        Ok(Ident {
            name: self.any_name(alloc)?,
            at: FIRST_PLACE,
        })
    }

    fn add_path(&mut self, alloc: Global, path: &mut Vec<Ident>) -> Result<(), SourceFault> {
        path.push(self.ident(alloc)?)?;
        for _ in 0..self.most() {
            if !self.takes_sign(Sign::Dot) {
                break;
            }
            path.push(self.ident(alloc)?)?;
        }
        Ok(())
    }

    /// Names with dots between them.
    pub fn target(&mut self, alloc: Global) -> Result<Target, SourceFault> {
        let mut path = Vec::new(alloc);
        self.add_path(alloc, &mut path)?;
        Ok(Target { path })
    }

    /// An expression.
    pub fn expr(&mut self, alloc: Global) -> Result<Expr, SourceFault> {
        if self.at > self.tokens.spots.len() {
            return Err(self.refusal());
        }
        let (expr, to) = parse_expr(alloc, &self.tokens, self.at, 1)?;
        self.at = to;
        Ok(expr)
    }

    /// A type.
    pub fn ty(&mut self, alloc: Global) -> Result<Ty, SourceFault> {
        if self.at > self.tokens.spots.len() {
            return Err(self.refusal());
        }
        let (ty, to) = parse_type(alloc, &self.tokens, self.at, 1)?;
        self.at = to;
        Ok(ty)
    }

    fn add_exprs(&mut self, alloc: Global, exprs: &mut Vec<Expr>) -> Result<(), SourceFault> {
        exprs.push(self.expr(alloc)?)?;
        for _ in 0..self.most() {
            if !self.takes_sign(Sign::Comma) {
                break;
            }
            exprs.push(self.expr(alloc)?)?;
        }
        Ok(())
    }

    // Behind the opening bracket.
    fn add_args(&mut self, alloc: Global, args: &mut Vec<Expr>) -> Result<(), SourceFault> {
        if self.takes_sign(Sign::CloseRound) {
            return Ok(());
        }
        self.add_exprs(alloc, args)?;
        self.sign(Sign::CloseRound);
        Ok(())
    }

    /// Arguments in brackets.
    pub fn args(&mut self, alloc: Global) -> Result<Vec<Expr>, SourceFault> {
        self.sign(Sign::OpenRound);
        let mut args = Vec::new(alloc);
        self.add_args(alloc, &mut args)?;
        Ok(args)
    }
}
