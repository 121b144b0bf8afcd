// Statements of functions, with what they come to and the turns that they take.

use super::comes_to;
use crate::reading::{add_declared, empty};
use flow_ast::decl::FunctionDecl;
use flow_ast::scope::Scope;
use flow_base::memory::NoMemory;
use flow_eval::cells::NoCells;
use flow_eval::evaluate::{Setting, Turns, run_at};
use flow_eval::stop::Halt;
use flow_value::value::Value;
use std::alloc::Global;

// What a call of the first function with these arguments comes to.
fn came(
    alloc: Global,
    functions: &[FunctionDecl],
    args: Vec<Value>,
    turns: &mut Turns,
) -> Result<Value, Halt> {
    if functions.is_empty() {
        return Err(Halt::NoMeaning);
    }
    let setting = Setting {
        alloc,
        records: &[],
        functions,
        view: &NoCells,
        time: 0,
    };
    run_at(&setting, 64, 0, args, turns)
}

// An argument and the turns that are left, and what the call comes to and the turns that it leaves.
type Row = ((i64, u32), (&'static str, u32));

// Whether a call with so many turns comes to what is wanted, and leaves so many.
fn takes_turns(
    alloc: Global,
    functions: &[FunctionDecl],
    ((n, left), (wanted, rest)): Row,
) -> Result<bool, NoMemory> {
    let mut turns = Turns { left };
    let args = vec![in alloc; Value::Int(n)]?;
    Ok(comes_to(&came(alloc, functions, args, &mut turns), wanted) && turns.left == rest)
}

fn first_wrong(
    alloc: Global,
    functions: &[FunctionDecl],
    rows: &[Row],
) -> Result<Option<(i64, u32)>, NoMemory> {
    for row in rows {
        if !takes_turns(alloc, functions, *row)? {
            return Ok(Some(row.0));
        }
    }
    Ok(None)
}

// A text that isn't read declares no function, so that each of its rows is wrong.
fn first_wrong_in(
    alloc: Global,
    text: &str,
    scope: &mut Scope,
    rows: &[Row],
) -> Result<Option<(i64, u32)>, NoMemory> {
    add_declared(alloc, text, scope)?;
    first_wrong(alloc, &scope.functions, rows)
}

// The first call of the function of a text that comes to something else or leaves other turns.
fn first_wrong_of(alloc: Global, text: &str, rows: &[Row]) -> Result<Option<(i64, u32)>, NoMemory> {
    let mut scope = empty(alloc);
    first_wrong_in(alloc, text, &mut scope, rows)
}

const SUMS: &str = "\
int sums(int n) {
    int s;
    for (int i = 0; i < n; i++) {
        if (i == 3) {
            continue;
        }
        s += i;
    }
    loop {
        s = s + 100;
        break;
    }
    try {
        s--;
        throw timed_out();
    } catch (Error& e) {
        return s + e.code();
    }
}
";

const TURNS: [Row; 6] = [
    ((5, 8), ("1110", 0)),
    ((5, 10), ("1110", 2)),
    ((5, 7), ("spent", 0)),
    ((5, 0), ("spent", 0)),
    ((0, 3), ("1103", 0)),
    ((0, 2), ("spent", 0)),
];

#[test]
fn statements_take_turns_by_pass(rt: HostRuntime) -> Result<(), NoMemory> {
    assert_eq!(rt; first_wrong_of(rt.alloc(), SUMS, &TURNS)?, None);
    Ok(())
}

const LONG_LOOP: &str = "\
int count(int n) {
    int s;
    while (s < n) {
        s = s + 1;
    }
    return s;
}
";

const MILLION: [Row; 1] = [((1_000_000, 1_000_002), ("1000000", 0))];

// It is this test that bench/eval.sh times.
#[test]
fn a_million_passes(rt: HostRuntime) -> Result<(), NoMemory> {
    assert_eq!(rt; first_wrong_of(rt.alloc(), LONG_LOOP, &MILLION)?, None);
    Ok(())
}
