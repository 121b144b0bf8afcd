// Tests of flow_gen: the generated programs are canonical.

use crate::reading::lexed;
use flow_base::memory::NoMemory;
use flow_gen::gen_program;
use flow_parse::parse::parse;
use flow_show::show::show;
use flow_tree::token::Tokens;
use std::alloc::Global;

fn are_shown_as(alloc: Global, tokens: &Tokens, text: &[u8]) -> Result<bool, NoMemory> {
    let parsed = parse(alloc, tokens);
    match &parsed {
        Ok(program) => Ok(show(alloc, program)?.as_slice() == text),
        Err(_) => Ok(false),
    }
}

fn is_canonical(alloc: Global, size: u32) -> Result<bool, NoMemory> {
    let text = gen_program(alloc, size)?;
    let read = lexed(alloc, &text);
    match &read {
        Ok(tokens) => are_shown_as(alloc, tokens, &text),
        Err(_) => Ok(false),
    }
}

#[test]
fn generated_programs_are_canonical(rt: HostRuntime) -> Result<(), NoMemory> {
    assert!(rt; is_canonical(rt.alloc(), 1)?);
    assert!(rt; is_canonical(rt.alloc(), 10_000)?);
    Ok(())
}
