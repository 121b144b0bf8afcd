// The statements of plain functions.

ghost use Rattle.std.specs.Prelude.{◌≡◌, ◌≤◌, ℕ, Some, map};
ghost use Rattle.flow_tree.specs.DeclView.{record_of};
ghost use Rattle.flow_tree.specs.View.{expr_of, exprs_of};
ghost use Rattle.flow_value.specs.View.{value_of};
ghost use Rattle.std.specs.Option.{option_map, option_copied};
ghost use Rattle.flow_tree.specs.StmtView.{stmt_of, kind_of, body_of, simple_of, else_of, into_of, change_of};
ghost use Rattle.flow_eval.specs.Answers.{error_of};
ghost use Rattle.flow_eval.specs.Operators.{operated};
ghost use Rattle.flow_eval.specs.Functions.{read_path, declared, default_value, Run, Locals, finished, nested, exec, scope, if_run, pass_run, turn_run, loop_run, for_run, try_run, handled, return_run, throw_run, declare_run, assign_run, change_operand, change_sign, modify_run, call_run, assigned, put_path, rethrown};
ghost use Rattle.flow_eval.specs.Variables.{var_of};
ghost use Rattle.flow_eval.specs.View.{GivesAnswer, Gives, Ran, StmtRan, by_parts, else_run, setting_of};

use crate::cells::CellView;
use crate::evaluate::{Setting, Turns, bool_of, call_function, evaluate, evaluate_all};
use crate::locals::{bind, default_value, put_path, read_path};
use crate::operators::operated;
use crate::stop::Halt;
use crate::variables::{Var, find_var};
use flow_ast::decl::RecordDecl;
use flow_ast::expr::{Expr, Op};
use flow_ast::stmt::{Change, Into, Stmt, StmtKind, Target};
use flow_ast::ty::Ident;
use flow_base::ids::ErrorCode;
use flow_base::name::Name;
use flow_base::place::Place;
use flow_value::value::Value;
use std::alloc::Global;

/// How statements end: they go on, leave or go round a loop, or return a value.
#[derive(Drop)]
pub enum Flow {
    Next,
    Break,
    Continue,
    Return(Value),
}

fn error_of(value: &Value) -> Option<ErrorCode>
    ensures { option_map (λ e. e.0) result ≡ error_of (value_of value.now) }
{
    match value {
        Value::Error(code) => Some(*code),
        _ => None,
    }
}

fn change_sign(change: &Change) -> Op
    ensures { result ≡ change_sign (change_of change.now) }
{
    match change {
        Change::Plus(_) | Change::Up => Op::Add,
        Change::Minus(_) | Change::Down => Op::Sub,
    }
}

/// What a function comes to whose body ended so.
pub fn finished(flow: Result<Flow, Halt>) -> Result<Value, Halt>
    ensures { (r : Run) (vars : Locals) (left : ℕ) → Ran r flow vars left
        → Gives (finished r) result left }
{
    match flow {
        Ok(Flow::Return(value)) => Ok(value),
        Ok(Flow::Next) => Err(Halt::NoMeaning),
        Ok(Flow::Break) => Err(Halt::NoMeaning),
        Ok(Flow::Continue) => Err(Halt::NoMeaning),
        Err(halt) => Err(halt),
    }
}

fn store(
    records: &[RecordDecl],
    locals: &mut Vec<Var>,
    target: &Target,
    value: Value,
) -> Result<Flow, Halt>
    ensures { (left : ℕ) → Ran (assigned
        (put_path (map record_of records.now) (map var_of locals.old.items) target.now.path.items
        (value_of value)) left) result (map var_of locals.new.items) left }
{
    if put_path(records, locals, &target.path, value) {
        return Ok(Flow::Next);
    }
    Err(Halt::NoMeaning)
}

fn declare(alloc: Global, locals: &mut Vec<Var>, into: &Into, value: Value) -> Result<Flow, Halt>
    ensures { (left : ℕ) → Ran (declared (Some (value_of value)) (into_of into.now).name.name
        (map var_of locals.old.items) left) result (map var_of locals.new.items) left }
{
    bind(alloc, locals, &into.name.name, value)?;
    Ok(Flow::Next)
}

#[tactic(auto, using(crate::proofs::Steps::found_some, crate::proofs::Steps::found_none))]
fn declare_default(alloc: Global, locals: &mut Vec<Var>, into: &Into) -> Result<Flow, Halt>
    ensures { (left : ℕ) → Ran (declared (default_value (into_of into.now).ty)
        (into_of into.now).name.name (map var_of locals.old.items) left) result
        (map var_of locals.new.items) left }
{
    match default_value(alloc, &into.ty) {
        Ok(value) => declare(alloc, locals, into, value),
        Err(Halt::NoMeaning) => Err(Halt::NoMeaning),
        Err(_) => Err(Halt::OutOfMemory),
    }
}

fn read_target<'a>(
    records: &[RecordDecl],
    locals: &'a Vec<Var>,
    target: &Target,
) -> Option<&'a Value>
    ensures { option_map value_of (option_copied result)
        ≡ read_path (map record_of records.now) (map var_of locals.now.items)
        target.now.path.items }
{
    read_path(records, locals, &target.path)
}

fn changed_value(
    alloc: Global,
    change: &Change,
    old: &Value,
    operand: &Value,
) -> Result<Value, Halt>
    ensures { GivesAnswer (operated (change_sign (change_of change.now)) (value_of old.now)
        (value_of operand.now)) result }
{
    operated(alloc, change_sign(change), old, operand)
}

fn rethrow(locals: &[Var], caught: Option<&Name>) -> Result<Flow, Halt>
    ensures { (left : ℕ) → Ran (rethrown (option_copied caught.entry) (map var_of locals.now) left)
        result (map var_of locals.now) left }
{
    let Some(name) = caught else {
        return Err(Halt::NoMeaning);
    };
    let Some(value) = find_var(locals, name.bytes()) else {
        return Err(Halt::NoMeaning);
    };
    match error_of(value) {
        Some(code) => Err(Halt::Thrown(code)),
        None => Err(Halt::NoMeaning),
    }
}

/// Statements one after another.
#[cycle(evaluate)]
#[tactic(auto, using(crate::proofs::Steps::body_more, crate::proofs::Steps::body_ends, crate::proofs::Steps::body_stops, crate::proofs::Weights::stmt_below))]
pub fn run_body<C: CellView>(
    setting: &Setting<C>,
    nest: u32,
    stmts: &[Stmt],
    caught: Option<&Name>,
    locals: &mut Vec<Var>,
    turns: &mut Turns,
) -> Result<Flow, Halt>
    ensures gives { Ran (nested exec (setting_of C.content setting.now) nest (body_of stmts.now)
        (option_copied caught.entry) (map var_of locals.old.items) turns.old.left) result
        (map var_of locals.new.items) turns.new.left }
    ensures fewer { turns.new.left ≤ turns.old.left }
{
    for stmt in stmts {
        match run_stmt(setting, nest, stmt, caught, locals, turns)? {
            Flow::Next => {}
            Flow::Break => return Ok(Flow::Break),
            Flow::Continue => return Ok(Flow::Continue),
            Flow::Return(value) => return Ok(Flow::Return(value)),
        }
    }
    Ok(Flow::Next)
}

/// One statement.
#[cycle(evaluate)]
fn run_stmt<C: CellView>(
    setting: &Setting<C>,
    nest: u32,
    stmt: &Stmt,
    caught: Option<&Name>,
    locals: &mut Vec<Var>,
    turns: &mut Turns,
) -> Result<Flow, Halt>
    ensures gives { StmtRan (λ k. nested exec (setting_of C.content setting.now) nest
        (stmt_of stmt.now k) (option_copied caught.entry) (map var_of locals.old.items)
        turns.old.left) (λ k. nested exec (setting_of C.content setting.now) nest k
        (option_copied caught.entry)) result (map var_of locals.new.items) turns.new.left }
    ensures fewer { turns.new.left ≤ turns.old.left }
{
    run_kind(setting, nest, stmt.at, &stmt.kind, caught, locals, turns)
}

/// One statement at a place.
#[cycle(evaluate)]
fn run_kind<C: CellView>(
    setting: &Setting<C>,
    nest: u32,
    at: Place,
    kind: &StmtKind,
    caught: Option<&Name>,
    locals: &mut Vec<Var>,
    turns: &mut Turns,
) -> Result<Flow, Halt>
    ensures gives { StmtRan (λ k. nested exec (setting_of C.content setting.now) nest
        (kind_of kind.now at k) (option_copied caught.entry) (map var_of locals.old.items)
        turns.old.left) (λ k. nested exec (setting_of C.content setting.now) nest k
        (option_copied caught.entry)) result (map var_of locals.new.items) turns.new.left }
    ensures fewer { turns.new.left ≤ turns.old.left }
{
    match kind {
        StmtKind::Block(body) => run_scope(setting, nest, body, caught, locals, turns),
        StmtKind::If(test, body, otherwise) => {
            run_if(setting, nest, test, body, otherwise, caught, locals, turns)
        }
        StmtKind::While(test, body) => {
            run_loop(setting, nest, Some(test), None, body, caught, locals, turns)
        }
        StmtKind::For(init, test, step, body) => {
            run_for(setting, nest, init, test, step, body, caught, locals, turns)
        }
        StmtKind::Loop(body) => { run_loop(setting, nest, None, None, body, caught, locals, turns) }
        StmtKind::Break => Ok(Flow::Break),
        StmtKind::Continue => Ok(Flow::Continue),
        StmtKind::Return(value) => run_return(setting, nest, value, locals, turns),
        StmtKind::Throw(error) => run_throw(setting, nest, error, caught, locals, turns),
        StmtKind::Try(body, _, error, handler) => {
            run_try(setting, nest, body, error, handler, caught, locals, turns)
        }
        StmtKind::Choose(_) => Err(Halt::NoMeaning),
        StmtKind::Declare(into, value) => { run_declare(setting, nest, into, value, locals, turns) }
        StmtKind::Assign(target, value) => {
            run_assign(setting, nest, target, value, locals, turns)
        }
        StmtKind::Modify(target, change) => {
            run_modify(setting, nest, target, change, locals, turns)
        }
        StmtKind::Call(target, args) => { run_call(setting, nest, target, args, locals, turns) }
        StmtKind::Wait(_) => Err(Halt::NoMeaning),
    }
}

/// Statements as a scope of their own.
#[cycle(evaluate)]
#[tactic(auto, using(crate::proofs::Steps::scope_cut))]
fn run_scope<C: CellView>(
    setting: &Setting<C>,
    nest: u32,
    stmts: &Vec<Stmt>,
    caught: Option<&Name>,
    locals: &mut Vec<Var>,
    turns: &mut Turns,
) -> Result<Flow, Halt>
    ensures gives { Ran (scope (nested exec (setting_of C.content setting.now) nest
        (body_of stmts.now.items) (option_copied caught.entry)) (map var_of locals.old.items)
        turns.old.left) result (map var_of locals.new.items) turns.new.left }
    ensures fewer { turns.new.left ≤ turns.old.left }
{
    let count = locals.len();
    let flow = run_body(setting, nest, stmts, caught, locals, turns);
    locals.truncate(count);
    flow
}

/// One of two bodies by a condition.
#[cycle(evaluate)]
#[tactic(auto, using(crate::proofs::Parts::if_true, crate::proofs::Parts::if_false))]
fn run_if<C: CellView>(
    setting: &Setting<C>,
    nest: u32,
    test: &Expr,
    body: &Vec<Stmt>,
    otherwise: &Option<Vec<Stmt>>,
    caught: Option<&Name>,
    locals: &mut Vec<Var>,
    turns: &mut Turns,
) -> Result<Flow, Halt>
    ensures gives { Ran (nested if_run (setting_of C.content setting.now) nest (expr_of test.now)
        (scope (nested exec (setting_of C.content setting.now) nest (body_of body.now.items)
        (option_copied caught.entry))) (nested else_run (setting_of C.content setting.now) nest
        (else_of otherwise.now) (option_copied caught.entry)) (map var_of locals.old.items)
        turns.old.left) result (map var_of locals.new.items) turns.new.left }
    ensures fewer { turns.new.left ≤ turns.old.left }
{
    let value = evaluate(setting, nest, locals, test, turns)?;
    match bool_of(&value) {
        Some(true) => run_scope(setting, nest, body, caught, locals, turns),
        Some(false) => run_else(setting, nest, otherwise, caught, locals, turns),
        None => Err(Halt::NoMeaning),
    }
}

/// The body of an `else`, where there is one.
#[cycle(evaluate)]
fn run_else<C: CellView>(
    setting: &Setting<C>,
    nest: u32,
    otherwise: &Option<Vec<Stmt>>,
    caught: Option<&Name>,
    locals: &mut Vec<Var>,
    turns: &mut Turns,
) -> Result<Flow, Halt>
    ensures gives { Ran (nested else_run (setting_of C.content setting.now) nest
        (else_of otherwise.now) (option_copied caught.entry) (map var_of locals.old.items)
        turns.old.left) result (map var_of locals.new.items) turns.new.left }
    ensures fewer { turns.new.left ≤ turns.old.left }
{
    match otherwise {
        Some(body) => run_scope(setting, nest, body, caught, locals, turns),
        None => Ok(Flow::Next),
    }
}

/// A pass of a loop, whose turn was taken: the condition, and then the body, or past the loop.
#[cycle(evaluate)]
#[tactic(auto, using(crate::proofs::Parts::pass_none, crate::proofs::Parts::pass_true, crate::proofs::Parts::pass_false, crate::proofs::Parts::pass_stops))]
fn run_pass<C: CellView>(
    setting: &Setting<C>,
    nest: u32,
    test: Option<&Expr>,
    body: &Vec<Stmt>,
    caught: Option<&Name>,
    locals: &mut Vec<Var>,
    turns: &mut Turns,
) -> Result<Flow, Halt>
    ensures gives { Ran (nested pass_run (setting_of C.content setting.now) nest
        (option_map expr_of (option_copied test.entry)) (nested exec
        (setting_of C.content setting.now) nest (body_of body.now.items)
        (option_copied caught.entry)) (map var_of locals.old.items) turns.old.left) result
        (map var_of locals.new.items) turns.new.left }
    ensures fewer { turns.new.left ≤ turns.old.left }
{
    let Some(test) = test else {
        return run_scope(setting, nest, body, caught, locals, turns);
    };
    let value = evaluate(setting, nest, locals, test, turns)?;
    match bool_of(&value) {
        Some(true) => run_scope(setting, nest, body, caught, locals, turns),
        Some(false) => Ok(Flow::Break),
        None => Err(Halt::NoMeaning),
    }
}

/// A pass of a loop and its step, whose turn was taken.
#[cycle(evaluate)]
fn run_turn<C: CellView>(
    setting: &Setting<C>,
    nest: u32,
    test: Option<&Expr>,
    step: Option<&Box<Stmt>>,
    body: &Vec<Stmt>,
    caught: Option<&Name>,
    locals: &mut Vec<Var>,
    turns: &mut Turns,
) -> Result<Flow, Halt>
    ensures gives { Ran (by_parts turn_run (setting_of C.content setting.now) nest
        (option_copied test.entry) (option_copied step.entry) body.now.items
        (option_copied caught.entry) (map var_of locals.old.items) turns.old.left) result
        (map var_of locals.new.items) turns.new.left }
    ensures fewer { turns.new.left ≤ turns.old.left }
{
    match run_pass(setting, nest, test, body, caught, locals, turns)? {
        Flow::Next => run_part(setting, nest, step, caught, locals, turns),
        Flow::Continue => run_part(setting, nest, step, caught, locals, turns),
        Flow::Break => Ok(Flow::Break),
        Flow::Return(value) => Ok(Flow::Return(value)),
    }
}

/// The passes of a loop, each of which takes a turn before it.
#[cycle(evaluate)]
#[tactic(auto, using(crate::proofs::Steps::loop_more, crate::proofs::Steps::loop_round, crate::proofs::Steps::loop_left, crate::proofs::Steps::loop_returns, crate::proofs::Steps::loop_stops, crate::proofs::Steps::loop_spent))]
fn run_loop<C: CellView>(
    setting: &Setting<C>,
    nest: u32,
    test: Option<&Expr>,
    step: Option<&Box<Stmt>>,
    body: &Vec<Stmt>,
    caught: Option<&Name>,
    locals: &mut Vec<Var>,
    turns: &mut Turns,
) -> Result<Flow, Halt>
    ensures gives { Ran (by_parts loop_run (setting_of C.content setting.now) nest
        (option_copied test.entry) (option_copied step.entry) body.now.items
        (option_copied caught.entry) (map var_of locals.old.items) turns.old.left) result
        (map var_of locals.new.items) turns.new.left }
    ensures fewer { turns.new.left ≤ turns.old.left }
{
    while turns.left > 0 {
        turns.left -= 1;
        match run_turn(setting, nest, test, step, body, caught, locals, turns)? {
            Flow::Next => {}
            Flow::Continue => {}
            Flow::Break => return Ok(Flow::Next),
            Flow::Return(value) => return Ok(Flow::Return(value)),
        }
    }
    Err(Halt::Spent)
}

/// A part of a `for`, where it is there.
#[cycle(evaluate)]
fn run_part<C: CellView>(
    setting: &Setting<C>,
    nest: u32,
    part: Option<&Box<Stmt>>,
    caught: Option<&Name>,
    locals: &mut Vec<Var>,
    turns: &mut Turns,
) -> Result<Flow, Halt>
    ensures gives { Ran (nested exec (setting_of C.content setting.now) nest
        (simple_of (option_copied part.entry)) (option_copied caught.entry)
        (map var_of locals.old.items) turns.old.left) result (map var_of locals.new.items)
        turns.new.left }
    ensures fewer { turns.new.left ≤ turns.old.left }
{
    match part {
        Some(stmt) => run_stmt(setting, nest, stmt, caught, locals, turns),
        None => Ok(Flow::Next),
    }
}

/// A `for` with its init, as a scope of its own.
#[cycle(evaluate)]
#[tactic(auto, using(crate::proofs::Steps::scope_cut))]
fn run_for<C: CellView>(
    setting: &Setting<C>,
    nest: u32,
    init: &Option<Box<Stmt>>,
    test: &Option<Expr>,
    step: &Option<Box<Stmt>>,
    body: &Vec<Stmt>,
    caught: Option<&Name>,
    locals: &mut Vec<Var>,
    turns: &mut Turns,
) -> Result<Flow, Halt>
    ensures gives { Ran (scope (nested for_run (setting_of C.content setting.now) nest (nested exec
        (setting_of C.content setting.now) nest (simple_of init.now) (option_copied caught.entry))
        (option_map expr_of test.now) (nested exec (setting_of C.content setting.now) nest
        (simple_of step.now) (option_copied caught.entry)) (nested exec
        (setting_of C.content setting.now) nest (body_of body.now.items)
        (option_copied caught.entry))) (map var_of locals.old.items) turns.old.left) result
        (map var_of locals.new.items) turns.new.left }
    ensures fewer { turns.new.left ≤ turns.old.left }
{
    let count = locals.len();
    let flow = run_for_parts(setting, nest, init, test, step, body, caught, locals, turns);
    locals.truncate(count);
    flow
}

/// A `for` in the scope of its init.
#[cycle(evaluate)]
#[tactic(auto, using(crate::proofs::Parts::for_ran))]
fn run_for_parts<C: CellView>(
    setting: &Setting<C>,
    nest: u32,
    init: &Option<Box<Stmt>>,
    test: &Option<Expr>,
    step: &Option<Box<Stmt>>,
    body: &Vec<Stmt>,
    caught: Option<&Name>,
    locals: &mut Vec<Var>,
    turns: &mut Turns,
) -> Result<Flow, Halt>
    ensures gives { Ran (nested for_run (setting_of C.content setting.now) nest (nested exec
        (setting_of C.content setting.now) nest (simple_of init.now) (option_copied caught.entry))
        (option_map expr_of test.now) (nested exec (setting_of C.content setting.now) nest
        (simple_of step.now) (option_copied caught.entry)) (nested exec
        (setting_of C.content setting.now) nest (body_of body.now.items)
        (option_copied caught.entry)) (map var_of locals.old.items) turns.old.left) result
        (map var_of locals.new.items) turns.new.left }
    ensures fewer { turns.new.left ≤ turns.old.left }
{
    match run_part(setting, nest, init.as_ref(), caught, locals, turns)? {
        Flow::Next => run_loop(
            setting,
            nest,
            test.as_ref(),
            step.as_ref(),
            body,
            caught,
            locals,
            turns,
        ),
        Flow::Break => Ok(Flow::Break),
        Flow::Continue => Ok(Flow::Continue),
        Flow::Return(value) => Ok(Flow::Return(value)),
    }
}

/// A `try` with its handler.
#[cycle(evaluate)]
#[tactic(auto, using(crate::proofs::Steps::uncaught))]
fn run_try<C: CellView>(
    setting: &Setting<C>,
    nest: u32,
    body: &Vec<Stmt>,
    error: &Ident,
    handler: &Vec<Stmt>,
    caught: Option<&Name>,
    locals: &mut Vec<Var>,
    turns: &mut Turns,
) -> Result<Flow, Halt>
    ensures gives { Ran (try_run (nested exec (setting_of C.content setting.now) nest
        (body_of body.now.items) (option_copied caught.entry)) error.now.name (nested exec
        (setting_of C.content setting.now) nest (body_of handler.now.items) (Some error.now.name))
        (map var_of locals.old.items) turns.old.left) result (map var_of locals.new.items)
        turns.new.left }
    ensures fewer { turns.new.left ≤ turns.old.left }
{
    match run_scope(setting, nest, body, caught, locals, turns) {
        Err(Halt::Thrown(code)) => {
            run_handler(setting, nest, code, error, handler, locals, turns)
        }
        Err(Halt::Spent) => Err(Halt::Spent),
        Err(Halt::NoMeaning) => Err(Halt::NoMeaning),
        Err(Halt::OutOfMemory) => Err(Halt::OutOfMemory),
        Ok(flow) => Ok(flow),
    }
}

/// The handler of a caught error, as a scope with its variable.
#[cycle(evaluate)]
#[tactic(auto, using(crate::proofs::Steps::scope_cut))]
fn run_handler<C: CellView>(
    setting: &Setting<C>,
    nest: u32,
    code: ErrorCode,
    error: &Ident,
    handler: &Vec<Stmt>,
    locals: &mut Vec<Var>,
    turns: &mut Turns,
) -> Result<Flow, Halt>
    ensures gives { Ran (handled error.now.name (nested exec (setting_of C.content setting.now) nest
        (body_of handler.now.items) (Some error.now.name)) code.0 (map var_of locals.old.items)
        turns.old.left) result (map var_of locals.new.items) turns.new.left }
    ensures fewer { turns.new.left ≤ turns.old.left }
{
    let count = locals.len();
    bind(setting.alloc, locals, &error.name, Value::Error(code))?;
    let flow = run_body(setting, nest, handler, Some(&error.name), locals, turns);
    locals.truncate(count);
    flow
}

/// A `return`, which gives a value in a function.
#[cycle(evaluate)]
fn run_return<C: CellView>(
    setting: &Setting<C>,
    nest: u32,
    value: &Option<Expr>,
    locals: &mut Vec<Var>,
    turns: &mut Turns,
) -> Result<Flow, Halt>
    ensures gives { Ran (nested return_run (setting_of C.content setting.now) nest
        (option_map expr_of value.now) (map var_of locals.old.items) turns.old.left) result
        (map var_of locals.new.items) turns.new.left }
    ensures fewer { turns.new.left ≤ turns.old.left }
{
    match value {
        Some(value) => Ok(Flow::Return(evaluate(setting, nest, locals, value, turns)?)),
        None => Err(Halt::NoMeaning),
    }
}

/// A `throw`, of an error or of the innermost catch's variable.
#[cycle(evaluate)]
#[tactic(auto, using(crate::proofs::Parts::throw_stops, crate::proofs::Parts::throw_some, crate::proofs::Parts::throw_none))]
fn run_throw<C: CellView>(
    setting: &Setting<C>,
    nest: u32,
    error: &Option<Expr>,
    caught: Option<&Name>,
    locals: &mut Vec<Var>,
    turns: &mut Turns,
) -> Result<Flow, Halt>
    ensures gives { Ran (nested throw_run (setting_of C.content setting.now) nest
        (option_map expr_of error.now) (option_copied caught.entry) (map var_of locals.old.items)
        turns.old.left) result (map var_of locals.new.items) turns.new.left }
    ensures fewer { turns.new.left ≤ turns.old.left }
{
    let Some(error) = error else {
        return rethrow(locals, caught);
    };
    let value = evaluate(setting, nest, locals, error, turns)?;
    match error_of(&value) {
        Some(code) => Err(Halt::Thrown(code)),
        None => Err(Halt::NoMeaning),
    }
}

/// A declaration.
#[cycle(evaluate)]
#[tactic(auto, using(crate::proofs::Parts::declare_ran, crate::proofs::Parts::declare_none))]
fn run_declare<C: CellView>(
    setting: &Setting<C>,
    nest: u32,
    into: &Into,
    value: &Option<Expr>,
    locals: &mut Vec<Var>,
    turns: &mut Turns,
) -> Result<Flow, Halt>
    ensures gives { Ran (nested declare_run (setting_of C.content setting.now) nest
        (into_of into.now) (option_map expr_of value.now) (map var_of locals.old.items)
        turns.old.left) result (map var_of locals.new.items) turns.new.left }
    ensures fewer { turns.new.left ≤ turns.old.left }
{
    let Some(value) = value else {
        return declare_default(setting.alloc, locals, into);
    };
    let value = evaluate(setting, nest, locals, value, turns)?;
    declare(setting.alloc, locals, into, value)
}

/// An assignment.
#[cycle(evaluate)]
#[tactic(auto, using(crate::proofs::Parts::assign_ran))]
fn run_assign<C: CellView>(
    setting: &Setting<C>,
    nest: u32,
    target: &Target,
    value: &Expr,
    locals: &mut Vec<Var>,
    turns: &mut Turns,
) -> Result<Flow, Halt>
    ensures gives { Ran (nested assign_run (setting_of C.content setting.now) nest
        target.now.path.items (expr_of value.now) (map var_of locals.old.items) turns.old.left)
        result (map var_of locals.new.items) turns.new.left }
    ensures fewer { turns.new.left ≤ turns.old.left }
{
    let value = evaluate(setting, nest, locals, value, turns)?;
    store(setting.records, locals, target, value)
}

/// The operand of a change.
#[cycle(evaluate)]
fn operand<C: CellView>(
    setting: &Setting<C>,
    nest: u32,
    locals: &Vec<Var>,
    change: &Change,
    turns: &mut Turns,
) -> Result<Value, Halt>
    ensures gives { Gives (nested change_operand (setting_of C.content setting.now) nest
        (change_of change.now) (map var_of locals.now.items) turns.old.left) result turns.new.left }
    ensures fewer { turns.new.left ≤ turns.old.left }
{
    match change {
        Change::Plus(value) => evaluate(setting, nest, locals, value, turns),
        Change::Minus(value) => evaluate(setting, nest, locals, value, turns),
        Change::Up => Ok(Value::Int(1)),
        Change::Down => Ok(Value::Int(1)),
    }
}

/// A change of a variable in place.
#[cycle(evaluate)]
#[tactic(auto, using(crate::proofs::Parts::modify_ran))]
fn run_modify<C: CellView>(
    setting: &Setting<C>,
    nest: u32,
    target: &Target,
    change: &Change,
    locals: &mut Vec<Var>,
    turns: &mut Turns,
) -> Result<Flow, Halt>
    ensures gives { Ran (nested modify_run (setting_of C.content setting.now) nest
        target.now.path.items (change_of change.now) (map var_of locals.old.items) turns.old.left)
        result (map var_of locals.new.items) turns.new.left }
    ensures fewer { turns.new.left ≤ turns.old.left }
{
    let Some(old) = read_target(setting.records, locals, target) else {
        return Err(Halt::NoMeaning);
    };
    let value = operand(setting, nest, locals, change, turns)?;
    let value = changed_value(setting.alloc, change, old, &value)?;
    store(setting.records, locals, target, value)
}

/// A call of a function as a statement.
#[cycle(evaluate)]
fn run_call<C: CellView>(
    setting: &Setting<C>,
    nest: u32,
    target: &Target,
    args: &[Expr],
    locals: &mut Vec<Var>,
    turns: &mut Turns,
) -> Result<Flow, Halt>
    ensures gives { Ran (nested call_run (setting_of C.content setting.now) nest
        target.now.path.items (exprs_of args.now) (map var_of locals.old.items) turns.old.left)
        result (map var_of locals.new.items) turns.new.left }
    ensures fewer { turns.new.left ≤ turns.old.left }
{
    let args = evaluate_all(setting, nest, locals, args, turns)?;
    if target.path.len() != 1 {
        return Err(Halt::NoMeaning);
    }
    let name = target.path[0].name.bytes();
    let _value = call_function(setting, nest, name, args, turns)?;
    Ok(Flow::Next)
}
