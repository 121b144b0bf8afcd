// Expressions over variables, with what they come to: tables of a line each, the expression and what is wanted.

ghost use Rattle.std.specs.Prelude.{◌≡◌};
ghost use Rattle.std.specs.Option.{option_map, option_copied};
ghost use Rattle.flow_value.specs.View.{outcome_of};

mod calls;
mod countdown;
mod operators;
mod references;
mod statements;
mod texts;

use crate::reading::read;
use flow_ast::expr::Expr;
use flow_base::ids::CellId;
use flow_base::memory::NoMemory;
use flow_base::name::{Name, is_name};
use flow_eval::cells::CellView;
use flow_eval::evaluate::{Setting, Turns, evaluate};
use flow_eval::stop::Halt;
use flow_eval::variables::Var;
use flow_value::value::{Kind, Outcome, Value};
use std::alloc::Global;

// Whether a text is this word and this number behind it.
fn is_numbered(text: &str, word: &str, n: u64) -> bool {
    match text.strip_prefix(word) {
        Some(digits) => matches!(digits.parse::<u64>(), Ok(m) if m == n),
        None => false,
    }
}

// Whether a text is these bytes in quotation marks.
fn is_quoted(text: &str, bytes: &[u8]) -> bool {
    match text.strip_prefix('"') {
        Some(rest) => matches!(rest.strip_suffix('"'), Some(inner) if inner.as_bytes() == bytes),
        None => false,
    }
}

fn kind_word(kind: Kind) -> &'static str {
    match kind {
        Kind::Promise => "Promise ",
        Kind::Future => "Future ",
        Kind::PromiseStream => "PromiseStream ",
        Kind::FutureStream => "FutureStream ",
    }
}

fn is_wanted(value: &Value, wanted: &str) -> bool {
    match value {
        Value::Int(n) => matches!(wanted.parse::<i64>(), Ok(m) if m == *n),
        Value::Bool(true) => wanted == "true",
        Value::Bool(false) => wanted == "false",
        Value::Text(text) => is_quoted(wanted, text.bytes()),
        Value::Void => wanted == "Void()",
        Value::Error(code) => is_numbered(wanted, "error ", u64::from(code.0)),
        Value::Struct(_) | Value::List(_) => false,
        Value::Ref(kind, cell) => is_numbered(wanted, kind_word(*kind), cell.0),
    }
}

// Whether that is what is wanted: a value, `throws` and an error, `spent`, or `no meaning`.
fn comes_to(outcome: &Result<Value, Halt>, wanted: &str) -> bool {
    match outcome {
        Ok(value) => is_wanted(value, wanted),
        Err(Halt::Thrown(code)) => is_numbered(wanted, "throws ", u64::from(code.0)),
        Err(Halt::Spent) => wanted == "spent",
        Err(Halt::NoMeaning) => wanted == "no meaning",
        Err(Halt::OutOfMemory) => false,
    }
}

// Every cell holds the same, or is not set.
#[derive(Drop)]
struct Every {
    outcome: Option<Outcome>,
}

impl CellView for Every {
    ghost content = { λ every _. option_map outcome_of every.outcome };

    fn seen(&self, _cell: CellId) -> Option<&Outcome> {
        self.outcome.as_ref()
    }
}

// The value of an expression over these variables and cells, with no functions and no turns.
fn value(alloc: Global, expr: &Expr, vars: &[Var], view: &Every) -> Result<Value, Halt> {
    let setting = Setting {
        alloc,
        records: &[],
        functions: &[],
        view,
        time: 17,
    };
    let mut turns = Turns { left: 0 };
    evaluate(&setting, 64, vars, expr, &mut turns)
}

fn is_value(alloc: Global, expr: &Expr, vars: &[Var], view: &Every, wanted: &str) -> bool {
    comes_to(&value(alloc, expr, vars, view), wanted)
}

// Whether a text is an expression that comes to what is wanted over these variables and cells.
fn comes_over(alloc: Global, text: &str, vars: &[Var], view: &Every, wanted: &str) -> bool {
    let expr = read::<Expr>(alloc, text);
    match &expr {
        Some(expr) => is_value(alloc, expr, vars, view, wanted),
        None => false,
    }
}

// The first line of a table whose expression comes to something else, or isn't read.
fn first_wrong_over<'a>(
    alloc: Global,
    vars: &[Var],
    view: &Every,
    table: &'a str,
) -> Option<&'a str> {
    for line in table.lines() {
        let Some((text, wanted)) = line.split_once(" => ") else {
            return Some(line);
        };
        if !comes_over(alloc, text, vars, view, wanted) {
            return Some(line);
        }
    }
    None
}

// One more variable; no test has a word that is no name.
fn add_var(alloc: Global, vars: &mut Vec<Var>, word: &[u8], value: Value) -> Result<(), NoMemory> {
    if !is_name(word) {
        return Err(NoMemory);
    }
    let name = Name::new(alloc, word)?;
    vars.push(Var { name, value })?;
    Ok(())
}

// The least number, and a reference of each kind.
fn add_variables(alloc: Global, vars: &mut Vec<Var>) -> Result<(), NoMemory> {
    add_var(alloc, vars, b"least", Value::Int(i64::MIN))?;
    add_var(
        alloc,
        vars,
        b"promise",
        Value::Ref(Kind::Promise, CellId(3)),
    )?;
    add_var(alloc, vars, b"future", Value::Ref(Kind::Future, CellId(3)))?;
    add_var(
        alloc,
        vars,
        b"stream",
        Value::Ref(Kind::PromiseStream, CellId(3)),
    )?;
    add_var(
        alloc,
        vars,
        b"source",
        Value::Ref(Kind::FutureStream, CellId(3)),
    )
}

fn first_wrong_in<'a>(
    alloc: Global,
    vars: &mut Vec<Var>,
    view: &Every,
    table: &'a str,
) -> Result<Option<&'a str>, NoMemory> {
    add_variables(alloc, vars)?;
    Ok(first_wrong_over(alloc, vars, view, table))
}

// The first wrong line of a table where each cell holds this.
fn first_wrong_where(
    alloc: Global,
    outcome: Option<Outcome>,
    table: &str,
) -> Result<Option<&str>, NoMemory> {
    let view = Every { outcome };
    let mut vars = Vec::new(alloc);
    first_wrong_in(alloc, &mut vars, &view, table)
}

// The first wrong line of a table where no cell is set.
fn first_wrong(alloc: Global, table: &str) -> Result<Option<&str>, NoMemory> {
    first_wrong_where(alloc, None, table)
}
