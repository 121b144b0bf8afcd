// Programs.

ghost use Rattle.flow_parse.specs.ParseAnswer.{ParseAnswer};

use crate::decl::{begins_decl, decl};
use crate::token::refused;
use flow_tree::decl::Program;
use flow_tree::fault::{Rule, SourceFault};
use flow_tree::limits::{DECLARATIONS, OF_PROGRAMS, TOKENS};
use flow_tree::token::Tokens;
use std::alloc::Global;

/// The program that these tokens are, by the grammar and within its limits. More than 200,000 tokens
/// are refused with L2 at token 200,001. Otherwise the first token with which no program begins whose
/// parts that have begun keep the limits is refused: with S5 where no program at all begins so, and
/// with the least of L3 to L7 that can't be kept elsewhere; the end counts as a token.
pub fn parse(alloc: Global, tokens: &Tokens) -> Result<Program, SourceFault>
    ensures { ParseAnswer tokens.now result }
{
    if tokens.spots.len() > TOKENS {
        return Err(refused(tokens, Rule::L(2), TOKENS));
    }
    let mut decls = Vec::new(alloc);
    let mut at = 0;
    let mut number = 1;
    'items: while at < tokens.spots.len() {
        if !begins_decl(tokens, at) {
            return Err(refused(tokens, Rule::S(5), at));
        }
        if number > DECLARATIONS {
            return Err(refused(tokens, Rule::L(3), at));
        }
        let (next, to) = decl(alloc, tokens, at, OF_PROGRAMS)?;
        decls.push(next)?;
        at = to;
        number += 1;
    }
    Ok(Program {
        decls,
        end: tokens.end,
    })
}
