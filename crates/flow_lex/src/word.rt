// Names and reserved words.

ghost use Rattle.std.specs.Prelude.{◌≡◌, ◌<◌, length, slice_index, bytes_eq, true, false};
ghost use Rattle.std.specs.List.{find};
ghost use Rattle.flow_base.specs.Names.{letter};
ghost use Rattle.flow_tree.specs.Spelling.{word_bytes, begins_gap};
ghost use Rattle.flow_lex.specs.Next.{Next};

use crate::scan::{front, name_len};
use flow_base::name::Name;
use flow_base::place::Place;
use flow_tree::fault::{Rule, SourceFault};
use flow_tree::token::{Token, Word};
use std::alloc::Global;

// The reserved word of these bytes.
fn word_of(bytes: &[u8]) -> Option<Word>
    ensures { result ≡ find (λ k. bytes_eq (word_bytes k) bytes.now) Word.ALL }
{
    Word::ALL
        .iter()
        .copied()
        .find(|word| word.spelling() == bytes)
}

/// The name or the reserved word with which a text goes on.
pub fn name_token(alloc: Global, text: &[u8], at: Place) -> Result<(Token, usize), SourceFault>
    requires some { 0 < length text.now }
    requires first { letter (slice_index text.now 0) ≡ true }
    requires apart { begins_gap text.now ≡ false }
    ensures { Next text.now at result }
{
    let n = name_len(text);
    let bytes = front(text, n);
    if let Some(word) = word_of(bytes) {
        return Ok((Token::Word(word), n));
    }
    if n > Name::LIMIT {
        return Err(SourceFault::Refused {
            rule: Rule::S(4),
            at,
        });
    }
    Ok((Token::Name(Name::new(alloc, bytes)?), n))
}
