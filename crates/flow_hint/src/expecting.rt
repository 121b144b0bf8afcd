// What is said where no program goes on with a token: what could stand there.

use flow_base::memory::NoMemory;
use flow_expected::{KINDS, Kind, at_refusal};
use flow_tree::token::{Sign, Tokens, Word};
use std::alloc::Global;

// The kinds with which a statement begins, and likewise a declaration, a type and an expression; and
// the operators between two operands.

const STATEMENT: [Kind; 25] = [
    Kind::Name,
    Kind::Word(Word::State),
    Kind::Word(Word::Wait),
    Kind::Word(Word::WaitNext),
    Kind::Word(Word::Choose),
    Kind::Word(Word::Loop),
    Kind::Word(Word::While),
    Kind::Word(Word::For),
    Kind::Word(Word::If),
    Kind::Word(Word::Break),
    Kind::Word(Word::Continue),
    Kind::Word(Word::Return),
    Kind::Word(Word::Throw),
    Kind::Word(Word::Try),
    Kind::Word(Word::Int),
    Kind::Word(Word::Bool),
    Kind::Word(Word::Str),
    Kind::Word(Word::Void),
    Kind::Word(Word::Error),
    Kind::Word(Word::Future),
    Kind::Word(Word::FutureStream),
    Kind::Word(Word::Promise),
    Kind::Word(Word::PromiseStream),
    Kind::Word(Word::Vector),
    Kind::Sign(Sign::OpenCurly),
];

const DECLARATION: [Kind; 13] = [
    Kind::Name,
    Kind::Word(Word::Actor),
    Kind::Word(Word::Struct),
    Kind::Word(Word::Int),
    Kind::Word(Word::Bool),
    Kind::Word(Word::Str),
    Kind::Word(Word::Void),
    Kind::Word(Word::Error),
    Kind::Word(Word::Future),
    Kind::Word(Word::FutureStream),
    Kind::Word(Word::Promise),
    Kind::Word(Word::PromiseStream),
    Kind::Word(Word::Vector),
];

const TYPE: [Kind; 11] = [
    Kind::Name,
    Kind::Word(Word::Int),
    Kind::Word(Word::Bool),
    Kind::Word(Word::Str),
    Kind::Word(Word::Void),
    Kind::Word(Word::Error),
    Kind::Word(Word::Future),
    Kind::Word(Word::FutureStream),
    Kind::Word(Word::Promise),
    Kind::Word(Word::PromiseStream),
    Kind::Word(Word::Vector),
];

const EXPRESSION: [Kind; 9] = [
    Kind::Name,
    Kind::Number,
    Kind::Text,
    Kind::Word(Word::Yes),
    Kind::Word(Word::No),
    Kind::Word(Word::Void),
    Kind::Sign(Sign::OpenRound),
    Kind::Sign(Sign::Not),
    Kind::Sign(Sign::Minus),
];

const OPERATOR: [Kind; 13] = [
    Kind::Sign(Sign::Less),
    Kind::Sign(Sign::Greater),
    Kind::Sign(Sign::Equal),
    Kind::Sign(Sign::NotEqual),
    Kind::Sign(Sign::LessEqual),
    Kind::Sign(Sign::GreaterEqual),
    Kind::Sign(Sign::AndAnd),
    Kind::Sign(Sign::OrOr),
    Kind::Sign(Sign::Plus),
    Kind::Sign(Sign::Minus),
    Kind::Sign(Sign::Star),
    Kind::Sign(Sign::Slash),
    Kind::Sign(Sign::Percent),
];

/// Kinds that are told by one name where all of them could stand.
struct Group {
    name: &'static str,
    kinds: &'static [Kind],
}

const GROUPS: [Group; 5] = [
    Group {
        name: "a statement",
        kinds: &STATEMENT,
    },
    Group {
        name: "a declaration",
        kinds: &DECLARATION,
    },
    Group {
        name: "a type",
        kinds: &TYPE,
    },
    Group {
        name: "an expression",
        kinds: &EXPRESSION,
    },
    Group {
        name: "an operator",
        kinds: &OPERATOR,
    },
];

fn has(kinds: &[Kind], kind: Kind) -> bool {
    kinds.iter().any(|one| *one == kind)
}

fn has_all(kinds: &[Kind], group: &[Kind]) -> bool {
    group.iter().all(|kind| has(kinds, *kind))
}

// Those of these kinds that the group hasn't.
fn without(alloc: Global, kinds: &[Kind], group: &[Kind]) -> Result<Vec<Kind>, NoMemory> {
    let mut rest = Vec::new(alloc);
    for kind in kinds {
        if !has(group, *kind) {
            rest.push(*kind)?;
        }
    }
    Ok(rest)
}

// The spelling of a word or a sign, in backticks.
fn quoted(alloc: Global, spelling: &[u8]) -> Result<String, NoMemory> {
    let mut text = String::new(alloc);
    text.push('`')?;
    for byte in spelling {
        text.push(char::from(*byte))?;
    }
    text.push('`')?;
    Ok(text)
}

fn name_of(alloc: Global, kind: Kind) -> Result<String, NoMemory> {
    match kind {
        Kind::Name => Ok("a name".to_string(alloc)?),
        Kind::Number => Ok("a number".to_string(alloc)?),
        Kind::Text => Ok("a text".to_string(alloc)?),
        Kind::Word(word) => quoted(alloc, word.spelling()),
        Kind::Sign(sign) => quoted(alloc, sign.spelling()),
    }
}

// What these kinds are called, groups first.
fn names(alloc: Global, kinds: Vec<Kind>) -> Result<Vec<String>, NoMemory> {
    let mut names = Vec::new(alloc);
    let mut rest = kinds;
    for group in &GROUPS {
        if has_all(&rest, group.kinds) {
            names.push(group.name.to_string(alloc)?)?;
            rest = without(alloc, &rest, group.kinds)?;
        }
    }
    for kind in &rest {
        names.push(name_of(alloc, *kind)?)?;
    }
    Ok(names)
}

// Names one after another, with `or` before the last.
fn joined(alloc: Global, names: &[String]) -> Result<Vec<u8>, NoMemory> {
    let mut text = b"S5: expected ".to_vec(alloc)?;
    for (number, name) in names.iter().enumerate() {
        if number > 0 {
            let last = number + 1 == names.len();
            text.extend_from_slice(if last {
                b" or ".as_slice()
            } else {
                b", ".as_slice()
            })?;
        }
        text.extend_from_slice(name.as_bytes())?;
    }
    Ok(text)
}

/// Whether these words say that a `;` alone could stand there.
pub fn only_semicolon(words: &[u8]) -> bool {
    words == b"S5: expected `;`".as_slice()
}

/// What could stand where these tokens are refused by S5, in words. `None` where they aren't, and where nothing could.
pub fn expected_words(alloc: Global, tokens: Tokens) -> Result<Option<Vec<u8>>, NoMemory> {
    let Some(expected) = at_refusal(alloc, tokens, &KINDS)? else {
        return Ok(None);
    };
    let names = names(alloc, expected.kinds)?;
    if names.is_empty() {
        return Ok(None);
    }
    Ok(Some(joined(alloc, &names)?))
}
