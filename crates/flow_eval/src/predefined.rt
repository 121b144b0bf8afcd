// The predefined calls without effects, and the methods of values.

ghost use Rattle.std.specs.Prelude.{◌≡◌, ◌^◌, ◌-◌, ℕ, pos, ◌<◌, map, min, length};
ghost use Rattle.std.specs.Option.{option_map, option_copied};
ghost use Rattle.std.specs.List.{list_all};
ghost use Rattle.flow_base.specs.Names.{digit, digits_from, are_digits};
ghost use Rattle.flow_value.specs.Values.{IntValue, count_of};
ghost use Rattle.flow_value.specs.View.{value_of, values_of, outcome_of};
ghost use Rattle.flow_eval.specs.Answers.{Given, int_of, text_of, arg, if_int};
ghost use Rattle.flow_eval.specs.Predefined.{signed, read_digits, read_int, int_read, to_string, to_int, error_number, call_answer, clipped, substr, text_method, element, element_got, list_method, got, has_error, future_method, promise_method, stream_method, error_method, reference_method, method_answer};
ghost use Rattle.flow_eval.specs.View.{GivesAnswer};

use crate::cells::CellView;
use crate::stop::Halt;
use flow_ast::predefined::{Method, Predefined};
use flow_base::errors::{
    BAD_ARGUMENT, BROKEN_PROMISE, END_OF_STREAM, NOT_READY, OPERATION_CANCELLED, TIMED_OUT,
};
use flow_base::ids::{CellId, ErrorCode};
use flow_base::name::is_digit;
use flow_base::text::Text;
use flow_value::value::{Kind, Outcome, Value};
use std::alloc::Global;

fn int_of(value: &Value) -> Option<i64>
    ensures { result ≡ int_of (value_of value.now) }
{
    match value {
        Value::Int(n) => Some(*n),
        _ => None,
    }
}

fn int_arg(args: &[Value], k: usize) -> Option<i64>
    ensures { result ≡ int_of (arg (map value_of args.now) k) }
{
    match args.get(k) {
        Some(value) => int_of(value),
        None => None,
    }
}

fn text_of(value: &Value) -> Option<&Text>
    ensures { option_copied result ≡ text_of (value_of value.now) }
{
    match value {
        Value::Text(text) => Some(text),
        _ => None,
    }
}

fn text_arg(args: &[Value], k: usize) -> Option<&Text>
    ensures { option_copied result ≡ text_of (arg (map value_of args.now) k) }
{
    match args.get(k) {
        Some(value) => text_of(value),
        None => None,
    }
}

fn all_digits(bytes: &[u8]) -> bool
    ensures { result ≡ list_all digit bytes.now }
{
    bytes.iter().all(|byte| is_digit(*byte))
}

fn are_digits(bytes: &[u8]) -> bool
    ensures { result ≡ are_digits bytes.now }
{
    !bytes.is_empty() && all_digits(bytes)
}

// The number that the digits spell, or the greatest 64-bit number where it is no less than that.
fn capped_number(digits: &[u8]) -> u64
    ensures { result ≡ min (digits_from 0 digits.now) (2 ^ 64 - 1) }
{
    let mut n: u64 = 0;
    for digit in digits {
        n = n
            .saturating_mul(10)
            .saturating_add(u64::from(digit.saturating_sub(48)));
    }
    n
}

fn signed(minus: bool, n: u64) -> Option<i64>
    ensures { result ≡ if_int (signed minus n) (signed minus n) }
{
    if !minus {
        return i64::try_from(n).ok();
    }
    if n == 1 << 63 {
        return Some(i64::MIN);
    }
    match i64::try_from(n) {
        Ok(n) => Some(-n),
        Err(_) => None,
    }
}

fn read_digits(minus: bool, digits: &[u8]) -> Option<i64>
    ensures { result ≡ read_digits minus digits.now }
{
    if !are_digits(digits) {
        return None;
    }
    signed(minus, capped_number(digits))
}

fn read_int(bytes: &[u8]) -> Option<i64>
    ensures { result ≡ read_int bytes.now }
{
    let Some((first, rest)) = bytes.split_first() else {
        return None;
    };
    if *first == b'-' {
        return read_digits(true, rest);
    }
    read_digits(false, bytes)
}

fn to_int(text: Option<&Text>) -> Result<Value, Halt>
    ensures { GivesAnswer (to_int (option_copied text.entry)) result }
{
    let Some(text) = text else {
        return Err(Halt::NoMeaning);
    };
    match read_int(text.bytes()) {
        Some(n) => Ok(Value::Int(n)),
        None => Err(Halt::Thrown(BAD_ARGUMENT)),
    }
}

fn decimal(alloc: Global, n: i64) -> Result<Value, Halt>
    ensures { GivesAnswer (to_string (Some n)) result }
{
    let text = format!(in alloc; "{n}")?;
    Ok(Value::text(alloc, Text::new(alloc, text.as_bytes())?)?)
}

fn to_string(alloc: Global, n: Option<i64>) -> Result<Value, Halt>
    ensures { GivesAnswer (to_string n) result }
{
    match n {
        Some(n) => decimal(alloc, n),
        None => Err(Halt::NoMeaning),
    }
}

fn error_number(n: Option<i64>) -> Result<Value, Halt>
    ensures { GivesAnswer (error_number n) result }
{
    let Some(n) = n else {
        return Err(Halt::NoMeaning);
    };
    if n < 0 || n > 65535 {
        return Err(Halt::Thrown(BAD_ARGUMENT));
    }
    Ok(Value::Error(ErrorCode(n as u16)))
}

/// What a predefined call gives with these arguments at this time.
pub fn call_answer(alloc: Global, call: Predefined, now: i64, args: &[Value]) -> Result<Value, Halt>
    ensures { GivesAnswer (call_answer call now (map value_of args.now)) result }
{
    match call {
        Predefined::ToString => to_string(alloc, int_arg(args, 0)),
        Predefined::ToInt => to_int(text_arg(args, 0)),
        Predefined::Now => Ok(Value::Int(now)),
        Predefined::EndOfStream => Ok(Value::Error(END_OF_STREAM)),
        Predefined::TimedOut => Ok(Value::Error(TIMED_OUT)),
        Predefined::BrokenPromise => Ok(Value::Error(BROKEN_PROMISE)),
        Predefined::OperationCancelled | Predefined::ActorCancelled => {
            Ok(Value::Error(OPERATION_CANCELLED))
        }
        Predefined::Error => error_number(int_arg(args, 0)),
        Predefined::RandomInt
        | Predefined::Delay
        | Predefined::Never
        | Predefined::Listen
        | Predefined::ReadFile
        | Predefined::WriteFile
        | Predefined::SyncFile
        | Predefined::FileSize
        | Predefined::Trace
        | Predefined::SendTo => Err(Halt::NoMeaning),
    }
}

fn clipped(alloc: Global, text: &Text, from: i64, count: i64) -> Result<Value, Halt>
    ensures { GivesAnswer (clipped text.now from count) result }
{
    let bytes = text.bytes();
    if from < 0 || from > bytes.len() as i64 || count < 0 {
        return Err(Halt::Thrown(BAD_ARGUMENT));
    }
    let rest = &bytes[from as usize..];
    let part = &rest[..rest.len().min(count as usize)];
    Ok(Value::text(alloc, Text::new(alloc, part)?)?)
}

fn text_method(alloc: Global, method: Method, text: &Text, args: &[Value]) -> Result<Value, Halt>
    ensures { GivesAnswer (text_method method text.now (map value_of args.now)) result }
{
    match method {
        Method::Size => Ok(Value::Int(text.bytes().len() as i64)),
        Method::Substr => {
            let Some(from) = int_arg(args, 0) else {
                return Err(Halt::NoMeaning);
            };
            let Some(count) = int_arg(args, 1) else {
                return Err(Halt::NoMeaning);
            };
            clipped(alloc, text, from, count)
        }
        _ => Err(Halt::NoMeaning),
    }
}

// The element at an index, counted from 0.
#[tactic(auto, using(crate::proofs::Elements::element_below))]
fn element(alloc: Global, items: &[Value], index: i64) -> Result<Value, Halt>
    ensures { GivesAnswer (element_got (element (values_of items.now) index)) result }
{
    let Ok(index) = usize::try_from(index) else {
        return Err(Halt::Thrown(BAD_ARGUMENT));
    };
    match items.get(index) {
        Some(item) => Ok(item.copy(alloc)?),
        None => Err(Halt::Thrown(BAD_ARGUMENT)),
    }
}

// How many elements there are. No list has so many that there is no number for them.
fn size(items: &[Value]) -> Result<Value, Halt>
    ensures { GivesAnswer (Given (IntValue (pos (count_of (values_of items.now))))) result }
{
    match i64::try_from(items.len()) {
        Ok(count) => Ok(Value::Int(count)),
        Err(_) => Err(Halt::OutOfMemory),
    }
}

fn list_method(
    alloc: Global,
    method: Method,
    items: &[Value],
    args: &[Value],
) -> Result<Value, Halt>
    ensures { GivesAnswer (list_method method (values_of items.now) (map value_of args.now))
        result }
{
    match method {
        Method::Size => size(items),
        Method::At => match int_arg(args, 0) {
            Some(index) => element(alloc, items, index),
            None => Err(Halt::NoMeaning),
        },
        _ => Err(Halt::NoMeaning),
    }
}

fn has_error(outcome: &Outcome) -> bool
    ensures { result ≡ has_error (Some (outcome_of outcome.now)) }
{
    match outcome {
        Outcome::Value(_) => false,
        Outcome::Error(_) => true,
    }
}

fn got(alloc: Global, outcome: &Outcome) -> Result<Value, Halt>
    ensures { GivesAnswer (got (Some (outcome_of outcome.now))) result }
{
    match outcome {
        Outcome::Value(value) => Ok(value.copy(alloc)?),
        Outcome::Error(code) => Err(Halt::Thrown(*code)),
    }
}

fn future_method<C: CellView>(
    alloc: Global,
    view: &C,
    method: Method,
    cell: CellId,
) -> Result<Value, Halt>
    ensures { GivesAnswer (future_method method (C.content view.now cell.0)) result }
{
    let Some(outcome) = view.seen(cell) else {
        return match method {
            Method::IsReady => Ok(Value::Bool(false)),
            Method::IsError => Ok(Value::Bool(false)),
            Method::Get => Err(Halt::Thrown(NOT_READY)),
            _ => Err(Halt::NoMeaning),
        };
    };
    match method {
        Method::IsReady => Ok(Value::Bool(true)),
        Method::IsError => Ok(Value::Bool(has_error(outcome))),
        Method::Get => got(alloc, outcome),
        _ => Err(Halt::NoMeaning),
    }
}

fn promise_method<C: CellView>(view: &C, method: Method, cell: CellId) -> Result<Value, Halt>
    ensures { GivesAnswer (promise_method method cell.0 (C.content view.now cell.0)) result }
{
    match method {
        Method::GetFuture => Ok(Value::Ref(Kind::Future, cell)),
        Method::IsSet => Ok(Value::Bool(view.seen(cell).is_some())),
        _ => Err(Halt::NoMeaning),
    }
}

fn stream_method(method: Method, cell: CellId) -> Result<Value, Halt>
    ensures { GivesAnswer (stream_method method cell.0) result }
{
    match method {
        Method::GetFuture => Ok(Value::Ref(Kind::FutureStream, cell)),
        _ => Err(Halt::NoMeaning),
    }
}

fn error_method(method: Method, code: ErrorCode) -> Result<Value, Halt>
    ensures { GivesAnswer (error_method method code.0) result }
{
    match method {
        Method::Code => Ok(Value::Int(i64::from(code.0))),
        _ => Err(Halt::NoMeaning),
    }
}

fn reference_method<C: CellView>(
    alloc: Global,
    view: &C,
    method: Method,
    kind: Kind,
    cell: CellId,
) -> Result<Value, Halt>
    ensures { GivesAnswer (reference_method (C.content view.now) method kind cell.0) result }
{
    match kind {
        Kind::Future => future_method(alloc, view, method, cell),
        Kind::Promise => promise_method(view, method, cell),
        Kind::PromiseStream => stream_method(method, cell),
        Kind::FutureStream => Err(Halt::NoMeaning),
    }
}

/// What a method of a value gives with these arguments.
pub fn method_answer<C: CellView>(
    alloc: Global,
    view: &C,
    method: Method,
    base: &Value,
    args: &[Value],
) -> Result<Value, Halt>
    ensures { GivesAnswer (method_answer (C.content view.now) method (value_of base.now)
        (map value_of args.now)) result }
{
    match base {
        Value::Error(code) => error_method(method, *code),
        Value::Text(text) => text_method(alloc, method, text, args),
        Value::Ref(kind, cell) => reference_method(alloc, view, method, *kind, *cell),
        Value::List(items) => list_method(alloc, method, items, args),
        Value::Int(_) | Value::Bool(_) | Value::Void | Value::Struct(_) => Err(Halt::NoMeaning),
    }
}
