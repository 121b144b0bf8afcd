// Expressions, and calls of functions.

ghost use Rattle.std.specs.Prelude.{◌≡◌, ◌≤◌, ◌<◌, map, length, slice_get, IfSome};
ghost use Rattle.flow_ast.specs.TypingNames.{named, call_names, method_names, constant_names};
ghost use Rattle.flow_tree.specs.DeclView.{record_of, function_of};
ghost use Rattle.flow_tree.specs.Tree.{indexed};
ghost use Rattle.flow_tree.specs.View.{expr_of, exprs_of};
ghost use Rattle.flow_value.specs.View.{value_of};
ghost use Rattle.flow_eval.specs.Answers.{bool_of, truth};
ghost use Rattle.flow_eval.specs.Records.{field, field_answer};
ghost use Rattle.flow_eval.specs.Eval.{eval, eval_all, variable, second, method_called, called, function_called};
ghost use Rattle.flow_ast.specs.Typing.{routine_named};
ghost use Rattle.flow_eval.specs.Functions.{routine_at, called_body, nested};
ghost use Rattle.flow_eval.specs.Variables.{var_of};
ghost use Rattle.flow_eval.specs.View.{GivesAnswer, Gives, GivesAll, setting_of};

use crate::cells::CellView;
use crate::locals::entered;
use crate::operators::{inverted, negated, operated};
use crate::predefined::{call_answer, method_answer};
use crate::records::{field, record_id};
use crate::statements::{finished, run_body};
use crate::stop::Halt;
use crate::variables::{Var, find_var};
use flow_ast::decl::{FunctionDecl, RecordDecl};
use flow_ast::expr::{Expr, Op};
use flow_ast::predefined::{Method, predefined_call, predefined_constant, predefined_method};
use flow_base::errors::OUT_OF_RANGE;
use flow_value::value::Value;
use std::alloc::Global;

/// What stays the same while an expression is evaluated: the records and functions of the program,
/// what the cells hold, and the time.
#[derive(Drop)]
pub struct Setting<'a, C> {
    pub alloc: Global,
    pub records: &'a [RecordDecl],
    pub functions: &'a [FunctionDecl],
    pub view: &'a C,
    pub time: i64,
}

/// The turns that are left.
#[derive(Clone, Copy, PartialEq, Eq)]
pub struct Turns {
    pub left: u32,
}

/// The truth value that a value is, if it is one.
pub fn bool_of(value: &Value) -> Option<bool>
    ensures { result ≡ bool_of (value_of value.now) }
{
    match value {
        Value::Bool(b) => Some(*b),
        _ => None,
    }
}

fn as_truth(value: &Value) -> Result<Value, Halt>
    ensures { GivesAnswer (truth (bool_of (value_of value.now))) result }
{
    match bool_of(value) {
        Some(b) => Ok(Value::Bool(b)),
        None => Err(Halt::NoMeaning),
    }
}

fn variable(alloc: Global, vars: &[Var], name: &[u8]) -> Result<Value, Halt>
    ensures { GivesAnswer (variable (named (map var_of vars.now)) name.now
        (named constant_names name.now)) result }
{
    if let Some(n) = predefined_constant(name) {
        return Ok(Value::Int(i64::from(n)));
    }
    match find_var(vars, name) {
        Some(value) => Ok(value.copy(alloc)?),
        None => Err(Halt::NoMeaning),
    }
}

fn field_value(
    alloc: Global,
    records: &[RecordDecl],
    base: &Value,
    name: &[u8],
) -> Result<Value, Halt>
    ensures { GivesAnswer (field_answer (field (map record_of records.now) (value_of base.now)
        name.now)) result }
{
    match field(records, base, name) {
        Some(value) => Ok(value.copy(alloc)?),
        None => Err(Halt::NoMeaning),
    }
}

fn call_method<C: CellView>(
    setting: &Setting<C>,
    name: &[u8],
    base: &Value,
    args: &[Value],
) -> Result<Value, Halt>
    ensures { GivesAnswer (method_called (setting_of C.content setting.now).cells
        (named method_names name.now) (value_of base.now) (map value_of args.now)) result }
{
    match predefined_method(name) {
        Some(method) => method_answer(setting.alloc, setting.view, method, base, args),
        None => Err(Halt::NoMeaning),
    }
}

#[tactic(auto, using(crate::proofs::Steps::place_found))]
fn function_place(functions: &[FunctionDecl], name: &[u8]) -> Option<usize>
    ensures found { routine_named (map function_of functions.now) name.now
        ≡ routine_at (map function_of functions.now) result }
    ensures within { IfSome result (λ k. k < length functions.now) }
{
    for (k, function) in functions.iter().enumerate() {
        if function.name.name.bytes() == name {
            return Some(k);
        }
    }
    None
}

/// An expression over these variables, with the turns that are left. Calls of plain functions may
/// still be nested so deep.
#[cycle(evaluate)]
pub fn evaluate<C: CellView>(
    setting: &Setting<C>,
    nest: u32,
    vars: &[Var],
    expr: &Expr,
    turns: &mut Turns,
) -> Result<Value, Halt>
    ensures gives { Gives (nested eval (setting_of C.content setting.now) nest
        (named (map var_of vars.now)) (expr_of expr.now) turns.old.left) result turns.new.left }
    ensures fewer { turns.new.left ≤ turns.old.left }
{
    match expr {
        Expr::Int(n) => Ok(Value::Int(*n)),
        Expr::Text(text) => Ok(Value::text(setting.alloc, text.copy(setting.alloc)?)?),
        Expr::Bool(b) => Ok(Value::Bool(*b)),
        Expr::VoidValue => Ok(Value::Void),
        Expr::Var(name) => variable(setting.alloc, vars, name.name.bytes()),
        Expr::Call(name, args) => {
            let args = evaluate_all(setting, nest, vars, args, turns)?;
            call_named(setting, nest, name.name.bytes(), args, turns)
        }
        Expr::Field(of, name) => {
            let base = evaluate(setting, nest, vars, of, turns)?;
            field_value(setting.alloc, setting.records, &base, name.name.bytes())
        }
        Expr::Method(of, name, args) => {
            let base = evaluate(setting, nest, vars, of, turns)?;
            let args = evaluate_all(setting, nest, vars, args, turns)?;
            call_method(setting, name.name.bytes(), &base, &args)
        }
        Expr::Index(of, index) => evaluate_index(setting, nest, vars, of, index, turns),
        Expr::Not(of) => inverted(&evaluate(setting, nest, vars, of, turns)?),
        Expr::Neg(of) => negated(&evaluate(setting, nest, vars, of, turns)?),
        Expr::Binary(op, left, right) => {
            let left = evaluate(setting, nest, vars, left, turns)?;
            evaluate_second(setting, nest, vars, *op, &left, right, turns)
        }
        Expr::Paren(of) => evaluate(setting, nest, vars, of, turns),
    }
}

// An element of a list. What the base comes to shares the elements of the list.
#[cycle(evaluate)]
fn evaluate_index<C: CellView>(
    setting: &Setting<C>,
    nest: u32,
    vars: &[Var],
    of: &Expr,
    index: &Expr,
    turns: &mut Turns,
) -> Result<Value, Halt>
    ensures gives { Gives (nested eval (setting_of C.content setting.now) nest
        (named (map var_of vars.now)) (indexed (expr_of of.now) (expr_of index.now))
        turns.old.left) result turns.new.left }
    ensures fewer { turns.new.left ≤ turns.old.left }
{
    let base = evaluate(setting, nest, vars, of, turns)?;
    let index = evaluate(setting, nest, vars, index, turns)?;
    method_answer(setting.alloc, setting.view, Method::At, &base, &[index])
}

#[cycle(evaluate)]
fn evaluate_second<C: CellView>(
    setting: &Setting<C>,
    nest: u32,
    vars: &[Var],
    op: Op,
    left: &Value,
    right: &Expr,
    turns: &mut Turns,
) -> Result<Value, Halt>
    ensures gives { Gives (second op (value_of left.now) (nested eval
        (setting_of C.content setting.now) nest (named (map var_of vars.now)) (expr_of right.now))
        turns.old.left) result turns.new.left }
    ensures fewer { turns.new.left ≤ turns.old.left }
{
    match op {
        Op::Or => match bool_of(left) {
            Some(true) => Ok(Value::Bool(true)),
            Some(false) => as_truth(&evaluate(setting, nest, vars, right, turns)?),
            None => Err(Halt::NoMeaning),
        },
        Op::And => match bool_of(left) {
            Some(true) => as_truth(&evaluate(setting, nest, vars, right, turns)?),
            Some(false) => Ok(Value::Bool(false)),
            None => Err(Halt::NoMeaning),
        },
        Op::Eq
        | Op::Ne
        | Op::Lt
        | Op::Le
        | Op::Gt
        | Op::Ge
        | Op::Add
        | Op::Sub
        | Op::Mul
        | Op::Div
        | Op::Rem => {
            let right = evaluate(setting, nest, vars, right, turns)?;
            operated(setting.alloc, op, left, &right)
        }
    }
}

/// Arguments from left to right.
#[cycle(evaluate)]
#[tactic(auto, using(crate::proofs::Steps::args_more, crate::proofs::Steps::args_stopped, crate::proofs::Steps::prefixed_none, crate::proofs::Weights::arg_below))]
pub fn evaluate_all<C: CellView>(
    setting: &Setting<C>,
    nest: u32,
    vars: &[Var],
    args: &[Expr],
    turns: &mut Turns,
) -> Result<Vec<Value>, Halt>
    ensures gives { GivesAll (nested eval_all (setting_of C.content setting.now) nest
        (named (map var_of vars.now)) (exprs_of args.now) turns.old.left) result turns.new.left }
    ensures fewer { turns.new.left ≤ turns.old.left }
{
    let mut values = Vec::new(setting.alloc);
    for arg in args {
        values.push(evaluate(setting, nest, vars, arg, turns)?)?;
    }
    Ok(values)
}

/// A call by its name of what has no effect: a predefined call, a record, or a function.
#[cycle(evaluate)]
fn call_named<C: CellView>(
    setting: &Setting<C>,
    nest: u32,
    name: &[u8],
    args: Vec<Value>,
    turns: &mut Turns,
) -> Result<Value, Halt>
    ensures gives { Gives (nested called (setting_of C.content setting.now) nest
        (named call_names name.now) name.now (map value_of args.items) turns.old.left) result
        turns.new.left }
    ensures fewer { turns.new.left ≤ turns.old.left }
{
    if let Some(call) = predefined_call(name) {
        return call_answer(setting.alloc, call, setting.time, &args);
    }
    if let Some(id) = record_id(setting.records, name) {
        return Ok(Value::record(setting.alloc, id, args)?);
    }
    call_function(setting, nest, name, args, turns)
}

/// A call of the first function of a name.
#[cycle(evaluate)]
pub fn call_function<C: CellView>(
    setting: &Setting<C>,
    nest: u32,
    name: &[u8],
    args: Vec<Value>,
    turns: &mut Turns,
) -> Result<Value, Halt>
    ensures gives { Gives (nested function_called (setting_of C.content setting.now) nest
        (routine_named (map function_of setting.now.functions.now) name.now)
        (map value_of args.items) turns.old.left) result turns.new.left }
    ensures fewer { turns.new.left ≤ turns.old.left }
{
    match function_place(setting.functions, name) {
        Some(k) => run_at(setting, nest, k, args, turns),
        None => Err(Halt::NoMeaning),
    }
}

/// A call of the function at a place: it takes a turn, is judged for its depth, and runs.
#[cycle(evaluate)]
#[tactic(auto, using(crate::proofs::Steps::run_deeper, crate::proofs::Steps::run_spent, crate::proofs::Steps::run_too_deep, crate::proofs::Steps::function_got, crate::proofs::Weights::call_falls))]
pub fn run_at<C: CellView>(
    setting: &Setting<C>,
    nest: u32,
    function: usize,
    args: Vec<Value>,
    turns: &mut Turns,
) -> Result<Value, Halt>
    requires { function < length setting.now.functions.now }
    ensures gives { Gives (nested function_called (setting_of C.content setting.now) nest
        (slice_get (map function_of setting.now.functions.now) function) (map value_of args.items)
        turns.old.left) result turns.new.left }
    ensures fewer { turns.new.left ≤ turns.old.left }
{
    if turns.left == 0 {
        return Err(Halt::Spent);
    }
    turns.left -= 1;
    if nest == 0 {
        return Err(Halt::Thrown(OUT_OF_RANGE));
    }
    run_called(setting, nest - 1, function, args, turns)
}

/// The body of the function at a place, over these arguments.
#[cycle(evaluate)]
#[tactic(auto, using(crate::proofs::Steps::entered_body, crate::proofs::Steps::entered_none, crate::proofs::Weights::body_at_falls))]
fn run_called<C: CellView>(
    setting: &Setting<C>,
    nest: u32,
    function: usize,
    args: Vec<Value>,
    turns: &mut Turns,
) -> Result<Value, Halt>
    requires { function < length setting.now.functions.now }
    ensures gives { Gives (nested called_body (setting_of C.content setting.now) nest
        (slice_get (map function_of setting.now.functions.now) function) (map value_of args.items)
        turns.old.left) result turns.new.left }
    ensures fewer { turns.new.left ≤ turns.old.left }
{
    let called = &setting.functions[function];
    match entered(setting.alloc, &called.params, args) {
        Ok(mut locals) => {
            let flow = run_body(setting, nest, &called.body, None, &mut locals, turns);
            finished(flow)
        }
        Err(Halt::NoMeaning) => Err(Halt::NoMeaning),
        Err(_) => Err(Halt::OutOfMemory),
    }
}
