// Expressions whose names are resolved, over the places of a frame.

ghost use Rattle.std.specs.Prelude.{◌≡◌, ◌≤◌, ◌<◌, ℕ, map, length, slice_get, IfSome};
ghost use Rattle.std.specs.Option.{option_map, option_copied};
ghost use Rattle.flow_value.specs.View.{value_of, values_of};
ghost use Rattle.flow_value.specs.Values.{BoolValue, IntValue, CompositeValue, at_place, value_at as at, RecordWhole, ListWhole};
ghost use Rattle.flow_tree.specs.Tree.{ByIndex};
ghost use Rattle.flow_ast.specs.TypingNames.{selected};
ghost use Rattle.flow_code.specs.Resolved.Tree.{BinaryNode, FieldNode, NoNodes, MoreNodes, indexed_node};
ghost use Rattle.flow_eval.specs.Answers.{bool_of, truth};
ghost use Rattle.flow_eval.specs.Operators.{operated};
ghost use Rattle.flow_eval.specs.Records.{field_answer};
ghost use Rattle.flow_eval.specs.Eval.{Done, found, second, then, at_once, method_called, function_called, truth_of};
ghost use Rattle.flow_eval.specs.Functions.{run_function};
ghost use Rattle.flow_eval.specs.View.{GivesAnswer, Gives, GivesAll, setting_of};
ghost use Rattle.flow_tree.specs.DeclView.{function_of};
ghost use Rattle.flow_tree.specs.declared.limits.TheConstants.{CALL_DEPTH};
ghost use Rattle.flow_code.specs.Resolved.Evaluation.{numbered_field, field_by, value_at, values_at};
ghost use Rattle.flow_code.specs.Resolved.View.{node_of, nodes_of, places_in, held_in, actor_view_of};
ghost use Rattle.flow_code.specs.Resolved.Truth.{GivesTruth};

use crate::expr::expr::Resolved;
use crate::expr::names::FieldNames;
use flow_ast::expr::Op;
use flow_ast::predefined::Method;
use flow_eval::cells::CellView;
use flow_eval::evaluate::{Setting, Turns, bool_of, run_at};
use flow_eval::operators::{compared, inverted, negated, on_ints, operated};
use flow_eval::predefined::{call_answer, method_answer};
use flow_eval::stop::Halt;
use flow_tree::limits::CALL_DEPTH;
use flow_value::value::{Record, Value};
use std::alloc::Global;

/// What an expression of an actor sees: the records, functions, cells and time, the fields of records by number, and what the
/// places of its frame hold, those behind the last one nothing.
#[derive(Drop)]
pub struct ActorView<'a, C> {
    pub setting: Setting<'a, C>,
    pub fields: &'a FieldNames,
    pub places: &'a [Option<Value>],
}

/// What a place holds.
fn held(places: &[Option<Value>], place: u32) -> Option<&Value>
    ensures { option_map value_of (option_copied result) ≡ held_in places.now place }
{
    match places.get(place as usize) {
        Some(Some(value)) => Some(value),
        _ => None,
    }
}

#[tactic(auto, using(flow_eval::proofs::Lookups::value_there, flow_eval::proofs::Lookups::value_past))]
fn value_in(values: &[Value], k: usize) -> Option<&Value>
    ensures { option_map value_of (option_copied result) ≡ at (values_of values.now) k }
{
    values.get(k)
}

/// A field of a record, where it has one with a name of this number.
fn record_field<'a>(fields: &FieldNames, of: &'a Record<Value>, name: usize) -> Option<&'a Value>
    ensures { option_map value_of (option_copied result)
        ≡ at_place (values_of of.now.fields.items)
        (places_in fields.now (RecordWhole of.now.id) name) }
{
    match fields.place(of.id, name) {
        Some(place) => value_in(&of.fields, place),
        None => None,
    }
}

#[tactic(auto, using(crate::proofs::Resolved::Known::struct_seen))]
/// A field of a record value, where it has one with a name of this number.
pub fn field<'a>(fields: &FieldNames, value: &'a Value, name: usize) -> Option<&'a Value>
    ensures { option_map value_of (option_copied result)
        ≡ numbered_field (places_in fields.now) (value_of value.now) name }
{
    match value {
        Value::Struct(record) => record_field(fields, record, name),
        Value::Int(_)
        | Value::Bool(_)
        | Value::Text(_)
        | Value::Void
        | Value::Error(_)
        | Value::List(_)
        | Value::Ref(_, _) => None,
    }
}

/// The value that an expression reads where it stands, as far as that is told without evaluation: what a place holds, or a
/// field or an element of that.
#[cycle(seen)]
fn seen<'a, C: CellView>(sight: &ActorView<'a, C>, expr: &Resolved) -> Option<&'a Value>
    ensures { IfSome result (λ v. (left : ℕ)
        → value_at (actor_view_of C.content sight.now) (node_of expr.now) left
        ≡ Done (value_of v.now) left) }
{
    match expr {
        Resolved::Place(place) => held(sight.places, *place),
        Resolved::Field(of, name) => seen_field(sight, of, *name),
        Resolved::Index(of, index) => seen_element(sight, of, index),
        _ => None,
    }
}

#[cycle(seen)]
#[tactic(auto, using(crate::proofs::Resolved::Known::field_seen))]
/// A field of the value that an expression reads where it stands.
fn seen_field<'a, C: CellView>(
    sight: &ActorView<'a, C>,
    of: &Resolved,
    name: Option<usize>,
) -> Option<&'a Value>
    ensures { IfSome result (λ v. (left : ℕ)
        → value_at (actor_view_of C.content sight.now) (FieldNode (node_of of.now) name) left
        ≡ Done (value_of v.now) left) }
{
    let Some(name) = name else {
        return None;
    };
    let Some(base) = seen(sight, of) else {
        return None;
    };
    field(sight.fields, base, name)
}

/// The elements of a value that is a list.
fn items_of(value: &Value) -> Option<&[Value]>
    ensures { IfSome result (λ items. value_of value.now
        ≡ CompositeValue ListWhole (values_of items.now)) }
{
    match value {
        Value::List(items) => Some(items.as_slice()),
        _ => None,
    }
}

#[cycle(seen)]
/// An element of the list that an expression reads where it stands, by an index that is known.
fn seen_element<'a, C: CellView>(
    sight: &ActorView<'a, C>,
    of: &Resolved,
    index: &Resolved,
) -> Option<&'a Value>
    ensures { IfSome result (λ v. (left : ℕ) → value_at (actor_view_of C.content sight.now)
        (indexed_node (node_of of.now) (node_of index.now)) left ≡ Done (value_of v.now) left) }
{
    let Some(base) = seen(sight, of) else {
        return None;
    };
    let Some(items) = items_of(base) else {
        return None;
    };
    let Some(index) = int_in(sight, index) else {
        return None;
    };
    match usize::try_from(index) {
        Ok(index) => value_in(items, index),
        Err(_) => None,
    }
}

/// The whole number that an expression is or reads, as far as that is told without evaluation.
fn int_in<C: CellView>(sight: &ActorView<C>, expr: &Resolved) -> Option<i64>
    ensures { IfSome result (λ n. (left : ℕ)
        → value_at (actor_view_of C.content sight.now) (node_of expr.now) left
        ≡ Done (IntValue n) left) }
{
    match expr {
        Resolved::Int(n) => Some(*n),
        Resolved::Place(place) => match held(sight.places, *place) {
            Some(Value::Int(n)) => Some(*n),
            _ => None,
        },
        _ => None,
    }
}

fn place_value(alloc: Global, places: &[Option<Value>], place: u32) -> Result<Value, Halt>
    ensures { GivesAnswer (found (held_in places.now place)) result }
{
    match held(places, place) {
        Some(value) => Ok(value.copy(alloc)?),
        None => Err(Halt::NoMeaning),
    }
}

fn field_value(
    alloc: Global,
    fields: &FieldNames,
    base: &Value,
    name: Option<usize>,
) -> Result<Value, Halt>
    ensures { GivesAnswer (field_answer (field_by (places_in fields.now) (value_of base.now) name))
        result }
{
    let Some(name) = name else {
        return Err(Halt::NoMeaning);
    };
    match field(fields, base, name) {
        Some(value) => Ok(value.copy(alloc)?),
        None => Err(Halt::NoMeaning),
    }
}

fn call_method<C: CellView>(
    setting: &Setting<C>,
    method: Option<Method>,
    base: &Value,
    args: &[Value],
) -> Result<Value, Halt>
    ensures { GivesAnswer (method_called (C.content setting.now.view.now) method (value_of base.now)
        (map value_of args.now)) result }
{
    match method {
        Some(method) => method_answer(setting.alloc, setting.view, method, base, args),
        None => Err(Halt::NoMeaning),
    }
}

fn as_truth(value: &Value) -> Result<Value, Halt>
    ensures { GivesAnswer (truth (bool_of (value_of value.now))) result }
{
    match bool_of(value) {
        Some(b) => Ok(Value::Bool(b)),
        None => Err(Halt::NoMeaning),
    }
}

fn call_function<C: CellView>(
    setting: &Setting<C>,
    function: usize,
    args: Vec<Value>,
    turns: &mut Turns,
) -> Result<Value, Halt>
    ensures gives { Gives (function_called (setting_of C.content setting.now)
        (run_function (setting_of C.content setting.now) CALL_DEPTH)
        (slice_get (map function_of setting.now.functions.now) function) (map value_of args.items)
        turns.old.left) result turns.new.left }
    ensures fewer { turns.new.left ≤ turns.old.left }
{
    if function >= setting.functions.len() {
        return Err(Halt::NoMeaning);
    }
    run_at(setting, CALL_DEPTH, function, args, turns)
}

/// An expression of an actor, with the turns that are left.
#[cycle(evaluate)]
pub fn evaluate_resolved<C: CellView>(
    sight: &ActorView<C>,
    expr: &Resolved,
    turns: &mut Turns,
) -> Result<Value, Halt>
    ensures gives { Gives (value_at (actor_view_of C.content sight.now) (node_of expr.now)
        turns.old.left) result turns.new.left }
    ensures fewer { turns.new.left ≤ turns.old.left }
{
    let alloc = sight.setting.alloc;
    match expr {
        Resolved::Int(n) => Ok(Value::Int(*n)),
        Resolved::Text(text) => Ok(Value::text(alloc, text.copy(alloc)?)?),
        Resolved::Bool(b) => Ok(Value::Bool(*b)),
        Resolved::VoidValue => Ok(Value::Void),
        Resolved::EmptyList => Ok(Value::list(alloc, Vec::new(alloc))?),
        Resolved::Place(place) => place_value(alloc, sight.places, *place),
        Resolved::Call(call, args) => {
            let args = evaluate_args(sight, args, turns)?;
            call_answer(alloc, *call, sight.setting.time, &args)
        }
        Resolved::Record(id, args) => {
            let fields = evaluate_args(sight, args, turns)?;
            Ok(Value::record(alloc, *id, fields)?)
        }
        Resolved::Function(function, args) => {
            let args = evaluate_args(sight, args, turns)?;
            call_function(&sight.setting, *function, args, turns)
        }
        Resolved::Unknown(args) => {
            let _args = evaluate_args(sight, args, turns)?;
            Err(Halt::NoMeaning)
        }
        Resolved::Field(of, name) => evaluate_field(sight, of, *name, turns),
        Resolved::Method(of, method, args) => evaluate_call(sight, of, *method, args, turns),
        Resolved::Index(of, index) => evaluate_index(sight, of, index, turns),
        Resolved::Not(of) => inverted(&evaluate_resolved(sight, of, turns)?),
        Resolved::Neg(of) => negated(&evaluate_resolved(sight, of, turns)?),
        Resolved::Binary(op, left, right) => evaluate_binary(sight, *op, left, right, turns),
        Resolved::Nothing => Err(Halt::NoMeaning),
    }
}

/// A field of an expression.
#[cycle(evaluate)]
fn evaluate_field<C: CellView>(
    sight: &ActorView<C>,
    of: &Resolved,
    name: Option<usize>,
    turns: &mut Turns,
) -> Result<Value, Halt>
    ensures gives { Gives (then (value_at (actor_view_of C.content sight.now) (node_of of.now)
        turns.old.left) (λ v l. at_once (field_answer
        (field_by (places_in sight.now.fields.now) v name)) l)) result turns.new.left }
    ensures fewer { turns.new.left ≤ turns.old.left }
{
    if let Some(base) = seen(sight, of) {
        return field_value(sight.setting.alloc, sight.fields, base, name);
    }
    let base = evaluate_resolved(sight, of, turns)?;
    field_value(sight.setting.alloc, sight.fields, &base, name)
}

/// A method of an expression.
#[cycle(evaluate)]
fn evaluate_call<C: CellView>(
    sight: &ActorView<C>,
    of: &Resolved,
    method: Option<Method>,
    args: &[Resolved],
    turns: &mut Turns,
) -> Result<Value, Halt>
    ensures gives { Gives (then (value_at (actor_view_of C.content sight.now) (node_of of.now)
        turns.old.left) (λ v l. then (values_at (actor_view_of C.content sight.now) (nodes_of args.now)
        l) (λ vs l. at_once (method_called (C.content sight.now.setting.view.now) method v vs) l)))
        result turns.new.left }
    ensures fewer { turns.new.left ≤ turns.old.left }
{
    if let Some(base) = seen(sight, of) {
        return evaluate_method(sight, base, method, args, turns);
    }
    let base = evaluate_resolved(sight, of, turns)?;
    evaluate_method(sight, &base, method, args, turns)
}

/// An element of an expression, which isn't copied where it is read where it stands.
#[cycle(evaluate)]
fn evaluate_index<C: CellView>(
    sight: &ActorView<C>,
    of: &Resolved,
    index: &Resolved,
    turns: &mut Turns,
) -> Result<Value, Halt>
    ensures gives { Gives (value_at (actor_view_of C.content sight.now)
        (indexed_node (node_of of.now) (node_of index.now)) turns.old.left) result
        turns.new.left }
    ensures fewer { turns.new.left ≤ turns.old.left }
{
    if let Some(base) = seen(sight, of) {
        return evaluate_element(sight, base, index, turns);
    }
    let base = evaluate_resolved(sight, of, turns)?;
    evaluate_element(sight, &base, index, turns)
}

/// An element of a value.
#[cycle(evaluate)]
fn evaluate_element<C: CellView>(
    sight: &ActorView<C>,
    base: &Value,
    index: &Resolved,
    turns: &mut Turns,
) -> Result<Value, Halt>
    ensures gives { Gives (then (values_at (actor_view_of C.content sight.now)
        (MoreNodes (node_of index.now) NoNodes) turns.old.left)
        (λ vs l. at_once (method_called (C.content sight.now.setting.view.now) (selected ByIndex)
        (value_of base.now) vs) l)) result turns.new.left }
    ensures fewer { turns.new.left ≤ turns.old.left }
{
    let index = evaluate_resolved(sight, index, turns)?;
    method_answer(
        sight.setting.alloc,
        sight.setting.view,
        Method::At,
        base,
        &[index],
    )
}

/// A method of a value.
#[cycle(evaluate)]
fn evaluate_method<C: CellView>(
    sight: &ActorView<C>,
    base: &Value,
    method: Option<Method>,
    args: &[Resolved],
    turns: &mut Turns,
) -> Result<Value, Halt>
    ensures gives { Gives (then (values_at (actor_view_of C.content sight.now) (nodes_of args.now)
        turns.old.left) (λ vs l. at_once (method_called (C.content sight.now.setting.view.now)
        method (value_of base.now) vs) l)) result turns.new.left }
    ensures fewer { turns.new.left ≤ turns.old.left }
{
    let args = evaluate_args(sight, args, turns)?;
    call_method(&sight.setting, method, base, &args)
}

/// A sign between two operands.
#[cycle(evaluate)]
#[tactic(auto, using(crate::proofs::Resolved::Known::ints_give))]
fn evaluate_binary<C: CellView>(
    sight: &ActorView<C>,
    op: Op,
    left: &Resolved,
    right: &Resolved,
    turns: &mut Turns,
) -> Result<Value, Halt>
    ensures gives { Gives (then (value_at (actor_view_of C.content sight.now) (node_of left.now)
        turns.old.left) (λ v l. second op v
        (value_at (actor_view_of C.content sight.now) (node_of right.now)) l)) result turns.new.left }
    ensures fewer { turns.new.left ≤ turns.old.left }
{
    if let Some(a) = int_in(sight, left) {
        if let Some(b) = int_in(sight, right) {
            return on_ints(op, a, b);
        }
    }
    let left = evaluate_resolved(sight, left, turns)?;
    evaluate_second(sight, op, &left, right, turns)
}

/// A sign whose left operand is known.
#[cycle(evaluate)]
fn evaluate_second<C: CellView>(
    sight: &ActorView<C>,
    op: Op,
    left: &Value,
    right: &Resolved,
    turns: &mut Turns,
) -> Result<Value, Halt>
    ensures gives { Gives (second op (value_of left.now)
        (value_at (actor_view_of C.content sight.now) (node_of right.now)) turns.old.left) result
        turns.new.left }
    ensures fewer { turns.new.left ≤ turns.old.left }
{
    match op {
        Op::Or => match bool_of(left) {
            Some(true) => Ok(Value::Bool(true)),
            Some(false) => as_truth(&evaluate_resolved(sight, right, turns)?),
            None => Err(Halt::NoMeaning),
        },
        Op::And => match bool_of(left) {
            Some(true) => as_truth(&evaluate_resolved(sight, right, turns)?),
            Some(false) => Ok(Value::Bool(false)),
            None => Err(Halt::NoMeaning),
        },
        Op::Eq
        | Op::Ne
        | Op::Lt
        | Op::Le
        | Op::Gt
        | Op::Ge
        | Op::Add
        | Op::Sub
        | Op::Mul
        | Op::Div
        | Op::Rem => {
            let right = evaluate_resolved(sight, right, turns)?;
            operated(sight.setting.alloc, op, left, &right)
        }
    }
}

/// Arguments from left to right.
#[cycle(evaluate)]
#[tactic(auto, using(crate::proofs::Resolved::Args::args_more, crate::proofs::Resolved::Args::args_stopped, crate::proofs::Resolved::Args::prefixed_none, crate::proofs::Resolved::Weights::arg_below))]
pub fn evaluate_args<C: CellView>(
    sight: &ActorView<C>,
    args: &[Resolved],
    turns: &mut Turns,
) -> Result<Vec<Value>, Halt>
    ensures gives { GivesAll (values_at (actor_view_of C.content sight.now) (nodes_of args.now)
        turns.old.left) result turns.new.left }
    ensures fewer { turns.new.left ≤ turns.old.left }
{
    let mut values = Vec::with_capacity(sight.setting.alloc, args.len())?;
    for arg in args {
        values.push(evaluate_resolved(sight, arg, turns)?)?;
    }
    Ok(values)
}

#[tactic(auto, using(crate::proofs::Resolved::Known::ints_compare))]
/// What a comparison of whole numbers gives, as far as that is told without evaluation.
fn compare_ints<C: CellView>(
    sight: &ActorView<C>,
    op: Op,
    left: &Resolved,
    right: &Resolved,
) -> Option<bool>
    ensures { IfSome result (λ b. (k : ℕ)
        → truth_of (value_at (actor_view_of C.content sight.now)
        (BinaryNode op (node_of left.now) (node_of right.now)) k) ≡ Done (BoolValue b) k) }
{
    let Some(a) = int_in(sight, left) else {
        return None;
    };
    let Some(b) = int_in(sight, right) else {
        return None;
    };
    compared(op, a.cmp(&b))
}

/// The truth value of an expression of an actor, which has no meaning where it is none.
pub fn evaluate_truth<C: CellView>(
    sight: &ActorView<C>,
    expr: &Resolved,
    turns: &mut Turns,
) -> Result<bool, Halt>
    ensures gives { GivesTruth (truth_of
        (value_at (actor_view_of C.content sight.now) (node_of expr.now) turns.old.left)) result
        turns.new.left }
    ensures fewer { turns.new.left ≤ turns.old.left }
{
    if let Resolved::Binary(op, left, right) = expr {
        if let Some(truth) = compare_ints(sight, *op, left, right) {
            return Ok(truth);
        }
    }
    let value = evaluate_resolved(sight, expr, turns)?;
    match bool_of(&value) {
        Some(truth) => Ok(truth),
        None => Err(Halt::NoMeaning),
    }
}
