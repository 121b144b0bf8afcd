// Single tokens.

ghost use Rattle.std.specs.Prelude.{◌≡◌, IfOk};
ghost use Rattle.flow_tree.specs.GrammarAnswer.{place_at};
ghost use Rattle.flow_exprs.specs.Answer.{ident_of};

use flow_base::memory::NoMemory;
use flow_base::place::Place;
use flow_tree::token::{Token, Tokens};
use flow_tree::ty::Ident;
use std::alloc::Global;

/// The place of this token, or of the end.
pub fn place(tokens: &Tokens, k: usize) -> Place
    ensures { result ≡ place_at tokens.now k }
{
    match tokens.spots.get(k) {
        Some(spot) => spot.at,
        None => tokens.end,
    }
}

/// The name that this token is, with its place.
pub fn token_name(alloc: Global, token: &Token, at: Place) -> Result<Option<Ident>, NoMemory>
    ensures { IfOk result (λ o. o ≡ ident_of token.now at) }
{
    match token {
        Token::Name(name) => Ok(Some(Ident {
            name: name.copy(alloc)?,
            at,
        })),
        Token::Number(_) | Token::Text(_) | Token::Word(_) | Token::Sign(_) => Ok(None),
    }
}
