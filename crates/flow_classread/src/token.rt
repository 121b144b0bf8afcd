// Single tokens of class text: its words, numbers and places, with what stands before and behind them.

ghost use Rattle.std.specs.Prelude.{◌≡◌, ◌↔◌, ℕ, ◌+◌, ◌<◌, ◌≤◌, length, pos, IfOk, IsTrue, OnSome, Some};
ghost use Rattle.std.specs.Bool.{OnTrue};
ghost use Rattle.flow_tree.specs.declared.token.Token.TheVariants as token;
ghost use Rattle.flow_tree.specs.declared.limits.TheConstants.{OF_CLASS_TEXT};
ghost use Rattle.flow_tree.specs.GrammarAnswer.{place_at};
ghost use Rattle.flow_parse.specs.Reading.{token_at, Tok, Any, Answer};
ghost use Rattle.flow_classread.specs.Parts.{NumberPart, Numbered, Target, SlottedPart, LocalPart, VersionPart};
ghost use Rattle.flow_classread.specs.Tokens.{number_in, place_in, local_in};

use flow_class::class::Slotted;
use flow_class::places::place_named;
use flow_classprint::version::Version;
use flow_parse::token::{refused, sign};
use flow_tree::fault::{Rule, SourceFault};
use flow_tree::token::{Sign, Token, Tokens};

fn token_says(token: &Token, word: &[u8]) -> bool
    ensures { IsTrue result ↔ (token.now ≡ Token.Name word.now) }
{
    match token {
        Token::Name(name) => name.bytes() == word,
        Token::Number(_) | Token::Text(_) | Token::Word(_) | Token::Sign(_) => false,
    }
}

/// Whether this word, which is a name, stands here.
pub fn says(tokens: &Tokens, at: usize, word: &[u8]) -> bool
    ensures says { IsTrue result ↔ (token_at tokens.now.spots.items at
        ≡ Some (token.Name word.now)) }
    ensures within { OnTrue result (at < length tokens.now.spots.items) }
{
    match tokens.spots.get(at) {
        Some(spot) => token_says(&spot.token, word),
        None => false,
    }
}

/// The number of the token after this word, which is a name; S5 where it doesn't stand here.
pub fn said(tokens: &Tokens, at: usize, word: &[u8]) -> Result<usize, SourceFault>
    ensures reads { Answer OF_CLASS_TEXT (Tok (token.Name word.now)) Any
        (λ to. place_at tokens.now at) (λ to. to) tokens.now at result }
    ensures moves { IfOk result (λ to. (to ≡ at + 1) × (to ≤ length tokens.now.spots.items)) }
{
    if !says(tokens, at, word) {
        return Err(refused(tokens, Rule::S(5), at));
    }
    Ok(at + 1)
}

// The number below 2^32 that a token is, if it is one.
fn token_number(token: &Token) -> Option<u32>
    ensures { result ≡ number_in (Some token.now) }
{
    match token {
        Token::Number(n) if *n >= 0 && *n <= 4_294_967_295 => Some(*n as u32),
        _ => None,
    }
}

// The number below 2^32 that stands here, if one does.
fn number_at(tokens: &Tokens, at: usize) -> Option<u32>
    ensures number { result ≡ number_in (token_at tokens.now.spots.items at) }
    ensures within { OnSome result (at < length tokens.now.spots.items) }
{
    match tokens.spots.get(at) {
        Some(spot) => token_number(&spot.token),
        None => None,
    }
}

/// A number below 2^32, and the number of the token after it; S5 where none stands here.
pub fn number(tokens: &Tokens, at: usize) -> Result<(u32, usize), SourceFault>
    requires within { at ≤ length tokens.now.spots.items }
    ensures reads { Answer OF_CLASS_TEXT NumberPart Any (λ r. r.0) (λ r. r.1) tokens.now at result }
    ensures moves { IfOk result (λ r. (r.1 ≡ at + 1) × (r.1 ≤ length tokens.now.spots.items)) }
{
    match number_at(tokens, at) {
        Some(n) => Ok((n, at + 1)),
        None => Err(refused(tokens, Rule::S(5), at)),
    }
}

fn token_is_number(token: &Token, n: u32) -> bool
    ensures { IsTrue result ↔ (token.now ≡ Token.Number (pos n)) }
{
    match token {
        Token::Number(m) => *m == i64::from(n),
        Token::Name(_) | Token::Text(_) | Token::Word(_) | Token::Sign(_) => false,
    }
}

// Whether this number stands here.
fn is_number(tokens: &Tokens, at: usize, n: u32) -> bool
    ensures number { IsTrue result ↔ (token_at tokens.now.spots.items at
        ≡ Some (token.Number (pos n))) }
    ensures within { OnTrue result (at < length tokens.now.spots.items) }
{
    match tokens.spots.get(at) {
        Some(spot) => token_is_number(&spot.token, n),
        None => false,
    }
}

// The number of the token after this number; S5 where it doesn't stand here.
fn exactly(tokens: &Tokens, at: usize, n: u32) -> Result<usize, SourceFault>
    requires within { at ≤ length tokens.now.spots.items }
    ensures reads { Answer OF_CLASS_TEXT (Tok (token.Number (pos n))) Any
        (λ to. place_at tokens.now at) (λ to. to) tokens.now at result }
    ensures moves { IfOk result (λ to. (to ≡ at + 1) × (to ≤ length tokens.now.spots.items)) }
{
    if !is_number(tokens, at, n) {
        return Err(refused(tokens, Rule::S(5), at));
    }
    Ok(at + 1)
}

/// The number of the token after this word and this number; S5 where one of them doesn't stand here.
pub fn numbered(tokens: &Tokens, at: usize, word: &[u8], n: u32) -> Result<usize, SourceFault>
    requires within { at ≤ length tokens.now.spots.items }
    ensures reads { Answer OF_CLASS_TEXT (Numbered word.now n) Any
        (λ to. place_at tokens.now (at + 1)) (λ to. to) tokens.now at result }
    ensures moves { IfOk result (λ to. (at < to) × (to ≤ length tokens.now.spots.items)) }
{
    let at = said(tokens, at, word)?;
    let to = exactly(tokens, at, n)?;
    Ok(to)
}

/// The version of class text whose number stands here, and the number of the token after it; S5 where none does.
pub fn version(tokens: &Tokens, at: usize) -> Result<(Version, usize), SourceFault>
    requires within { at ≤ length tokens.now.spots.items }
    ensures reads { Answer OF_CLASS_TEXT VersionPart Any (λ r. r.0) (λ r. r.1) tokens.now at
        result }
    ensures moves { IfOk result (λ r. (r.1 ≡ at + 1) × (r.1 ≤ length tokens.now.spots.items)) }
{
    if is_number(tokens, at, 1) {
        return Ok((Version::One, at + 1));
    }
    if is_number(tokens, at, 2) {
        return Ok((Version::Two, at + 1));
    }
    Err(refused(tokens, Rule::S(5), at))
}

/// `number ";"`.
pub fn target(tokens: &Tokens, at: usize) -> Result<(u32, usize), SourceFault>
    requires within { at ≤ length tokens.now.spots.items }
    ensures reads { Answer OF_CLASS_TEXT Target Any (λ r. r.0) (λ r. r.1) tokens.now at result }
    ensures moves { IfOk result (λ r. (at < r.1) × (r.1 ≤ length tokens.now.spots.items)) }
{
    let (n, at) = number(tokens, at)?;
    let to = sign(tokens, at, Sign::Semicolon)?;
    Ok((n, to))
}

// The place that a token names, if it names one with a number below 2^32.
fn token_place(token: &Token) -> Option<Slotted>
    ensures { result ≡ place_in (Some token.now) }
{
    match token {
        Token::Name(name) => place_named(name.bytes()),
        Token::Number(_) | Token::Text(_) | Token::Word(_) | Token::Sign(_) => None,
    }
}

/// The place that is named here, if one with a number below 2^32 is.
pub fn place_here(tokens: &Tokens, at: usize) -> Option<Slotted>
    ensures place { result ≡ place_in (token_at tokens.now.spots.items at) }
    ensures within { OnSome result (at < length tokens.now.spots.items) }
{
    match tokens.spots.get(at) {
        Some(spot) => token_place(&spot.token),
        None => None,
    }
}

/// A slot or a local, and the number of the token after it; S5 where none is named here.
pub fn slotted(tokens: &Tokens, at: usize) -> Result<(Slotted, usize), SourceFault>
    requires within { at ≤ length tokens.now.spots.items }
    ensures reads { Answer OF_CLASS_TEXT SlottedPart Any (λ r. r.0) (λ r. r.1) tokens.now at
        result }
    ensures moves { IfOk result (λ r. (r.1 ≡ at + 1) × (r.1 ≤ length tokens.now.spots.items)) }
{
    match place_here(tokens, at) {
        Some(place) => Ok((place, at + 1)),
        None => Err(refused(tokens, Rule::S(5), at)),
    }
}

// The number below 2^32 of the local that is named here, if one is.
fn local_here(tokens: &Tokens, at: usize) -> Option<u32>
    ensures local { result ≡ local_in (token_at tokens.now.spots.items at) }
    ensures within { OnSome result (at < length tokens.now.spots.items) }
{
    match place_here(tokens, at) {
        Some(Slotted::Local(n)) => Some(n),
        _ => None,
    }
}

/// A local, by its number, and the number of the token after it; S5 where none is named here.
pub fn local(tokens: &Tokens, at: usize) -> Result<(u32, usize), SourceFault>
    requires within { at ≤ length tokens.now.spots.items }
    ensures reads { Answer OF_CLASS_TEXT LocalPart Any (λ r. r.0) (λ r. r.1) tokens.now at result }
    ensures moves { IfOk result (λ r. (r.1 ≡ at + 1) × (r.1 ≤ length tokens.now.spots.items)) }
{
    match local_here(tokens, at) {
        Some(n) => Ok((n, at + 1)),
        None => Err(refused(tokens, Rule::S(5), at)),
    }
}
