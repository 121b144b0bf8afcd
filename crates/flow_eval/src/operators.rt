// The signs between values.

ghost use Rattle.std.specs.Prelude.{◌≡◌, ℤ};
ghost use Rattle.flow_value.specs.View.{value_of};
ghost use Rattle.flow_eval.specs.Answers.{whole, truth};
ghost use Rattle.flow_eval.specs.Operators.{compared, equated, on_ints, on_texts, on_bools, joined, operated, negated, inverted};
ghost use Rattle.flow_eval.specs.View.{GivesAnswer};

use crate::stop::Halt;
use flow_ast::expr::Op;
use flow_base::errors::{OUT_OF_RANGE, TOO_LONG};
use flow_base::text::Text;
use flow_value::value::Value;
use std::alloc::Global;
use std::cmp::Ordering;

fn whole(n: Option<i64>) -> Result<Value, Halt>
    ensures { GivesAnswer (whole n) result }
{
    match n {
        Some(n) => Ok(Value::Int(n)),
        None => Err(Halt::Thrown(OUT_OF_RANGE)),
    }
}

fn truth(b: Option<bool>) -> Result<Value, Halt>
    ensures { GivesAnswer (truth b) result }
{
    match b {
        Some(b) => Ok(Value::Bool(b)),
        None => Err(Halt::NoMeaning),
    }
}

/// What a comparison says of two whole numbers in this order; None for what compares nothing.
pub fn compared(op: Op, order: Ordering) -> Option<bool>
    ensures { result ≡ compared op order }
{
    match op {
        Op::Eq => Some(order.is_eq()),
        Op::Ne => Some(!order.is_eq()),
        Op::Lt => Some(order.is_lt()),
        Op::Le => Some(order.is_le()),
        Op::Gt => Some(order.is_gt()),
        Op::Ge => Some(order.is_ge()),
        Op::Or | Op::And | Op::Add | Op::Sub | Op::Mul | Op::Div | Op::Rem => None,
    }
}

fn equated(op: Op, same: bool) -> Option<bool>
    ensures { result ≡ equated op same }
{
    match op {
        Op::Eq => Some(same),
        Op::Ne => Some(!same),
        _ => None,
    }
}

/// An operator on two whole numbers. Without meaning: a result beyond 64 bits, a division by
/// zero, `&&` and `||`.
pub fn on_ints(op: Op, a: i64, b: i64) -> Result<Value, Halt>
    ensures { GivesAnswer (on_ints op a b) result }
{
    match op {
        Op::Add => whole(a.checked_add(b)),
        Op::Sub => whole(a.checked_sub(b)),
        Op::Mul => whole(a.checked_mul(b)),
        Op::Div => whole(a.checked_div(b)),
        Op::Rem => whole(a.checked_rem(b)),
        Op::Or | Op::And | Op::Eq | Op::Ne | Op::Lt | Op::Le | Op::Gt | Op::Ge => {
            truth(compared(op, a.cmp(&b)))
        }
    }
}

fn joined(alloc: Global, s: &Text, t: &Text) -> Result<Value, Halt>
    ensures { GivesAnswer (joined s.now t.now) result }
{
    let first = s.bytes();
    let second = t.bytes();
    if first.len() + second.len() > Text::LIMIT {
        return Err(Halt::Thrown(TOO_LONG));
    }
    let mut bytes = Vec::with_capacity(alloc, first.len() + second.len())?;
    bytes.extend_from_slice(first)?;
    bytes.extend_from_slice(second)?;
    Ok(Value::text(alloc, Text::new(alloc, &bytes)?)?)
}

fn on_texts(alloc: Global, op: Op, s: &Text, t: &Text) -> Result<Value, Halt>
    ensures { GivesAnswer (on_texts op s.now t.now) result }
{
    match op {
        Op::Add => joined(alloc, s, t),
        Op::Or
        | Op::And
        | Op::Eq
        | Op::Ne
        | Op::Lt
        | Op::Le
        | Op::Gt
        | Op::Ge
        | Op::Sub
        | Op::Mul
        | Op::Div
        | Op::Rem => truth(compared(op, s.bytes().cmp(t.bytes()))),
    }
}

fn on_bools(op: Op, a: bool, b: bool) -> Result<Value, Halt>
    ensures { GivesAnswer (on_bools op a b) result }
{
    truth(equated(op, a.cmp(&b).is_eq()))
}

/// A sign between two values.
pub fn operated(alloc: Global, op: Op, left: &Value, right: &Value) -> Result<Value, Halt>
    ensures { GivesAnswer (operated op (value_of left.now) (value_of right.now)) result }
{
    match left {
        Value::Int(a) => match right {
            Value::Int(b) => on_ints(op, *a, *b),
            Value::Bool(_)
            | Value::Text(_)
            | Value::Void
            | Value::Error(_)
            | Value::Struct(_)
            | Value::List(_)
            | Value::Ref(_, _) => Err(Halt::NoMeaning),
        },
        Value::Text(s) => match right {
            Value::Text(t) => on_texts(alloc, op, s, t),
            Value::Int(_)
            | Value::Bool(_)
            | Value::Void
            | Value::Error(_)
            | Value::Struct(_)
            | Value::List(_)
            | Value::Ref(_, _) => Err(Halt::NoMeaning),
        },
        Value::Bool(a) => match right {
            Value::Bool(b) => on_bools(op, *a, *b),
            Value::Int(_)
            | Value::Text(_)
            | Value::Void
            | Value::Error(_)
            | Value::Struct(_)
            | Value::List(_)
            | Value::Ref(_, _) => Err(Halt::NoMeaning),
        },
        Value::Void | Value::Error(_) | Value::Struct(_) | Value::List(_) | Value::Ref(_, _) => {
            Err(Halt::NoMeaning)
        }
    }
}

/// An int with its sign turned.
pub fn negated(value: &Value) -> Result<Value, Halt>
    ensures { GivesAnswer (negated (value_of value.now)) result }
{
    match value {
        Value::Int(n) => whole(n.checked_neg()),
        _ => Err(Halt::NoMeaning),
    }
}

/// The other truth value.
pub fn inverted(value: &Value) -> Result<Value, Halt>
    ensures { GivesAnswer (inverted (value_of value.now)) result }
{
    match value {
        Value::Bool(b) => Ok(Value::Bool(!*b)),
        _ => Err(Halt::NoMeaning),
    }
}
