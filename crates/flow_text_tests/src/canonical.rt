// Tests of flow_show: the lines of a canonical text go out one by one.

use crate::reading::lexed;
use flow_base::fault::OutFault;
use flow_base::mem_sink::MemSink;
use flow_base::memory::NoMemory;
use flow_parse::parse::parse;
use flow_show::show::show_lines;
use flow_tree::decl::Program;
use flow_tree::token::Tokens;
use std::alloc::Global;

/// A record, a function of two parameters, an actor, and one that gives nothing.
const PROGRAM: &[u8] =
    b"struct A{int x;FutureStream<B>y;};Error f(PromiseStream<Void>a,Void b){}\nACTOR Future<Void>main(int p){if(p==0)trace(\"a\\n\");return Void();}ACTOR void g(vector<A>v){if(v [ 0 ].x==1)return;}";

const LINES: &[u8] =
    b"struct A {\n    int x;\n    FutureStream<B> y;\n};\nError f(PromiseStream<Void> a, Void b) {\n}\nACTOR Future<Void> main(int p) {\n    if (p == 0) {\n        trace(\"a\\n\");\n    }\n    return Void();\n}\nACTOR void g(vector<A> v) {\n    if (v[0].x == 1) {\n        return;\n    }\n}\n";

fn writes_all_lines(alloc: Global, program: &Program) -> bool {
    let mut out = MemSink::new(alloc, Vec::new(alloc));
    show_lines(alloc, program, &mut out).is_ok() && out.bytes() == LINES
}

// The fourth call fails, so that the first three lines are there.
fn fails_to_write(alloc: Global, program: &Program, out: &mut MemSink) -> bool {
    show_lines(alloc, program, out) == Err(OutFault::Failed)
        && out.bytes() == b"struct A {\n    int x;\n    FutureStream<B> y;\n".as_slice()
}

fn writes_three_lines(alloc: Global, program: &Program) -> Result<bool, NoMemory> {
    let mut out = MemSink::new(alloc, vec![in alloc; 4]?);
    Ok(fails_to_write(alloc, program, &mut out))
}

fn writes_lines(alloc: Global, program: &Program) -> Result<bool, NoMemory> {
    Ok(writes_all_lines(alloc, program) && writes_three_lines(alloc, program)?)
}

fn are_written_line_by_line(alloc: Global, tokens: &Tokens) -> Result<bool, NoMemory> {
    let parsed = parse(alloc, tokens);
    match &parsed {
        Ok(program) => writes_lines(alloc, program),
        Err(_) => Ok(false),
    }
}

fn writes_line_by_line(alloc: Global) -> Result<bool, NoMemory> {
    let read = lexed(alloc, PROGRAM);
    match &read {
        Ok(tokens) => are_written_line_by_line(alloc, tokens),
        Err(_) => Ok(false),
    }
}

#[test]
fn writes_a_line_by_one_call(rt: HostRuntime) -> Result<(), NoMemory> {
    assert!(rt; writes_line_by_line(rt.alloc())?);
    Ok(())
}
