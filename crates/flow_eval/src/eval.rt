// The meaning of expressions and of calls, for whoever keeps variables and cells.

ghost use Rattle.std.specs.Prelude.{◌≡◌, ◌<◌, ◌^◌, ℕ, map, length};
ghost use Rattle.flow_tree.specs.View.{expr_of};
ghost use Rattle.flow_ast.specs.TypingNames.{named};
ghost use Rattle.flow_value.specs.Values.{ValueTree};
ghost use Rattle.flow_value.specs.View.{value_of};
ghost use Rattle.flow_eval.specs.Eval.{Res};
ghost use Rattle.flow_eval.specs.Functions.{Eval};
ghost use Rattle.flow_eval.specs.Variables.{var_of};
ghost use Rattle.flow_eval.specs.View.{Gives, setting_of};
ghost use Rattle.flow_eval.specs.Meaning.{Means, setting_with, no_cells};
ghost use Rattle.flow_eval.specs.WellTyped.{HasMeaning, CallAt, WellTyped, WellTypedCall};

use crate::cells::{CellView, NoCells};
use crate::evaluate::{Setting, Turns, evaluate, run_at};
use crate::stop::{Halt, Stop};
use crate::variables::Var;
use flow_ast::decl::{FunctionDecl, RecordDecl};
use flow_ast::expr::Expr;
use flow_tree::limits::CALL_DEPTH;
use flow_value::value::Value;
use std::alloc::Global;

/// The records and the plain functions of a program.
#[derive(Drop)]
pub struct Plain {
    pub records: Vec<RecordDecl>,
    pub functions: Vec<FunctionDecl>,
}

fn stopped(halt: Halt) -> Stop
    requires { halt ≡ Halt.NoMeaning → ⊥ }
    ensures { (r : Res ValueTree) (left : ℕ) → Gives r (Err halt) left → Means r (Err result) left }
{
    match halt {
        Halt::Thrown(code) => Stop::Thrown(code),
        Halt::Spent => Stop::Spent,
        Halt::OutOfMemory => Stop::OutOfMemory,
        Halt::NoMeaning => unreachable!(),
    }
}

fn setting<'a, C: CellView>(
    alloc: Global,
    plain: &'a Plain,
    view: &'a C,
    now: u64,
) -> Setting<'a, C>
    requires { now < 2 ^ 63 }
    ensures { setting_of C.content result
        ≡ setting_with plain.now.records.items plain.now.functions.items (C.content view.now) now }
{
    Setting {
        alloc,
        records: &plain.records,
        functions: &plain.functions,
        view,
        time: now as i64,
    }
}

#[tactic(auto, using(crate::proofs::Meanings::meant, crate::proofs::Meanings::means_value))]
fn evaluated<C: CellView>(
    setting: &Setting<C>,
    vars: &[Var],
    expr: &Expr,
    turns: &mut Turns,
) -> Result<Value, Stop>
    requires { HasMeaning (Eval (setting_of C.content setting.now) (named (map var_of vars.now))
        (expr_of expr.now) turns.old.left) }
    ensures { Means (Eval (setting_of C.content setting.now) (named (map var_of vars.now))
        (expr_of expr.now) turns.old.left) result turns.new.left }
{
    match evaluate(setting, CALL_DEPTH, vars, expr, turns) {
        Ok(value) => Ok(value),
        Err(halt) => Err(stopped(halt)),
    }
}

/// The value of a well-typed expression without effects over a list of variables, and the turns that
/// are left. `Spent` comes exactly where a turn is needed and none is left, `Thrown` exactly where
/// evaluation throws that error.
pub fn eval<V: CellView>(
    alloc: Global,
    plain: &Plain,
    expr: &Expr,
    vars: &[Var],
    view: &V,
    now: u64,
    turns: &mut Turns,
) -> Result<Value, Stop>
    requires moment { now < 2 ^ 63 }
    requires typed { WellTyped (setting_with plain.now.records.items plain.now.functions.items
        (V.content view.now) now) (named (map var_of vars.now)) (expr_of expr.now) }
    ensures { Means (Eval (setting_with plain.now.records.items plain.now.functions.items
        (V.content view.now) now) (named (map var_of vars.now)) (expr_of expr.now) turns.old.left)
        result turns.new.left }
{
    evaluated(&setting(alloc, plain, view, now), vars, expr, turns)
}

#[tactic(auto, using(crate::proofs::Meanings::meant, crate::proofs::Meanings::means_value))]
fn called(
    setting: &Setting<NoCells>,
    function: usize,
    args: Vec<Value>,
    turns: &mut Turns,
) -> Result<Value, Stop>
    requires there { function < length setting.now.functions.now }
    requires meant { HasMeaning (CallAt (setting_of (λ _. no_cells) setting.now) function
        (map value_of args.items) turns.old.left) }
    ensures { Means (CallAt (setting_of (λ _. no_cells) setting.now) function
        (map value_of args.items) turns.old.left) result turns.new.left }
{
    match run_at(setting, CALL_DEPTH, function, args, turns) {
        Ok(value) => Ok(value),
        Err(halt) => Err(stopped(halt)),
    }
}

/// What the plain function at a place gives for arguments of its parameters' types, and the turns that
/// are left, with `Spent` and `Thrown` as of `eval`. A function sees neither cells nor the time.
pub fn call(
    alloc: Global,
    plain: &Plain,
    function: usize,
    args: Vec<Value>,
    turns: &mut Turns,
) -> Result<Value, Stop>
    requires there { function < length plain.now.functions.items }
    requires typed { WellTypedCall (setting_with plain.now.records.items plain.now.functions.items
        no_cells 0) function (map value_of args.items) }
    ensures { Means (CallAt (setting_with plain.now.records.items plain.now.functions.items no_cells
        0) function (map value_of args.items) turns.old.left) result turns.new.left }
{
    called(&setting(alloc, plain, &NoCells, 0), function, args, turns)
}
