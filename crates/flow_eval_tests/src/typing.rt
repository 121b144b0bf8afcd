// Expressions and their types.

use crate::reading::{add_declared, empty, read};
use flow_ast::expr::Expr;
use flow_ast::scope::{ExprType, Scope};
use flow_ast::ty::Ty;
use flow_ast::typing::{same_type, type_expr};
use flow_base::memory::NoMemory;
use std::alloc::Global;

/// What is declared, and a function whose parameters are the variables.
const PROGRAM: &str = "\
struct Pair { int a; Future<bool> f; };
string twice(int n) { }
ACTOR Future<int> run() { }
int last(int n, string t, Error e, Pair q, Packet k, Future<int> f, Promise<Void> p, PromiseStream<bool> s) { }
";

/// A line each: an expression, and its type, if it has one.
const TYPES: &str = "\
Void() : Void
t : string
error_code_timed_out : int
missing : none
to_string(1) : string
to_string(\"t\") : none
to_string() : none
to_int(\"t\") : int
now() : int
timed_out() : Error
delay(1) : Future<Void>
run() : Future<int>
trace(1) : none
twice(1) : string
twice(1, 2) : none
n() : none
q : Pair
Pair(1, s.getFuture()) : none
Packet(1, 2, \"t\") : Packet
q.a : int
q.port : none
k.text : string
n.a : none
e.code() : int
t.substr(0, 1) : string
t.substr(0) : none
n.size() : none
f.get() : int
p.getFuture() : Future<Void>
s.getFuture() : FutureStream<bool>
p.send(Void()) : none
!true : bool
-true : none
1 && 1 : none
\"t\" + \"t\" : string
\"t\" + 1 : none
\"t\" - \"t\" : none
\"t\" < \"t\" : bool
true < false : none
true == false : bool
e == e : none
";

fn is_type(alloc: Global, found: &Ty, text: &str) -> bool {
    let wanted = read::<Ty>(alloc, text);
    match &wanted {
        Some(wanted) => same_type(found, wanted),
        None => false,
    }
}

fn is_wanted(alloc: Global, found: &ExprType, wanted: &str) -> bool {
    match found {
        ExprType::Is(ty) => is_type(alloc, ty, wanted),
        ExprType::None => wanted == "none",
    }
}

fn has_type(alloc: Global, scope: &Scope, expr: &Expr, wanted: &str) -> Result<bool, NoMemory> {
    let found = type_expr(alloc, expr, scope)?;
    Ok(is_wanted(alloc, &found, wanted))
}

fn is_typed(alloc: Global, scope: &Scope, text: &str, wanted: &str) -> Result<bool, NoMemory> {
    let expr = read::<Expr>(alloc, text);
    match &expr {
        Some(expr) => has_type(alloc, scope, expr, wanted),
        None => Ok(false),
    }
}

// The first line of a table whose expression has another type, or isn't read.
fn first_wrong<'a>(
    alloc: Global,
    scope: &Scope,
    table: &'a str,
) -> Result<Option<&'a str>, NoMemory> {
    for line in table.lines() {
        let Some((text, wanted)) = line.split_once(" : ") else {
            return Ok(Some(line));
        };
        if !is_typed(alloc, scope, text, wanted)? {
            return Ok(Some(line));
        }
    }
    Ok(None)
}

// Takes the last function out: its parameters are the variables.
fn take_variables(scope: &mut Scope) {
    if let Some(function) = scope.functions.pop() {
        scope.vars = function.params;
    }
}

fn first_wrong_in<'a>(
    alloc: Global,
    scope: &mut Scope,
    table: &'a str,
) -> Result<Option<&'a str>, NoMemory> {
    add_declared(alloc, PROGRAM, scope)?;
    take_variables(scope);
    first_wrong(alloc, scope, table)
}

fn first_mistyped(alloc: Global, table: &str) -> Result<Option<&str>, NoMemory> {
    let mut scope = empty(alloc);
    first_wrong_in(alloc, &mut scope, table)
}

#[test]
fn expressions_have_types(rt: HostRuntime) -> Result<(), NoMemory> {
    assert_eq!(rt; first_mistyped(rt.alloc(), TYPES)?, None);
    Ok(())
}
