// A program text: read and judged.

ghost use Rattle.std.specs.Prelude.{ℕ, List};
ghost use Rattle.flow_front.specs.Verdict.{Reading, IsProgram, AnswersText};

use flow_base::place::Place;
use flow_lex::lex::lex;
use flow_parse::parse::parse;
use flow_staterule::{Sound, check_state};
use flow_tree::decl::Program;
use flow_tree::fault::{Rule, SourceFault};
use flow_tree::limits::PROGRAM_BYTES;
use flow_types::check::check;
use std::alloc::Global;

// The place where a text begins.
const START: Place = Place {
    line: 1,
    column: 1,
    byte: 0,
};

/// The program of these bytes. A text is refused with L1 where it has more than 1,048,576 bytes, else
/// with its first lexical refusal, else as its tokens are.
pub fn read_program(alloc: Global, bytes: &[u8]) -> Result<Program, SourceFault>
    ensures { Reading bytes.now result }
{
    if bytes.len() > PROGRAM_BYTES {
        return Err(SourceFault::Refused {
            rule: Rule::L(1),
            at: START,
        });
    }
    match lex(alloc, bytes) {
        Ok(tokens) => parse(alloc, &tokens),
        Err(fault) => Err(fault),
    }
}

// A program, where it keeps the rules K1 to K12, L8 and U1.
#[tactic(auto, using(crate::proofs::Judging::checked_verdict, crate::proofs::Judging::typed_text, crate::proofs::Judging::state_verdict))]
fn judge(alloc: Global, program: Program) -> Result<Sound, SourceFault>
    ensures { (text : List ℕ) → IsProgram text program → AnswersText text result }
{
    match check(alloc, program) {
        Ok(typed) => check_state(alloc, typed),
        Err(fault) => Err(fault),
    }
}

/// The program of these bytes, where it keeps all rules but the limit L9 on the weight of an actor. Otherwise it is refused,
/// by the first that fails of: the limit on its bytes, the rules on its tokens, those on its form, K1 to K12, L8 and U1.
#[tactic(auto, using(crate::proofs::Judging::unread_verdict))]
pub fn front(alloc: Global, bytes: &[u8]) -> Result<Sound, SourceFault>
    ensures { AnswersText bytes.now result }
{
    match read_program(alloc, bytes) {
        Ok(program) => judge(alloc, program),
        Err(fault) => Err(fault),
    }
}
