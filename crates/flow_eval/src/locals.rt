// The variables of a plain function.

ghost use Rattle.std.specs.Prelude.{◌≡◌, ◌++◌, ◌∷◌, [], ℕ, List, Option, Some, map, OnOk, length, ◌<◌, position, if◌then◌else◌, None};
ghost use Rattle.std.specs.Option.{option_map, option_copied};
ghost use Rattle.std.specs.Str.{bytes_eq};
ghost use Rattle.flow_tree.specs.DeclView.{record_of, param_of};
ghost use Rattle.flow_tree.specs.View.{type_of};
ghost use Rattle.flow_ast.specs.TypingNames.{named};
ghost use Rattle.flow_value.specs.View.{value_of, values_of};
ghost use Rattle.flow_value.specs.Values.{ValueTree, CompositeValue, value_put, value_at, at_place, RecordWhole};
ghost use Rattle.flow_eval.specs.Eval.{found};
ghost use Rattle.flow_eval.specs.Records.{field_place};
ghost use Rattle.flow_eval.specs.Functions.{bound, entered, default_value, read_path, read_in, put_path, put_place, put_in, put_at, rethrown, error_at};
ghost use Rattle.flow_eval.specs.Variables.{var_of};
ghost use Rattle.flow_eval.specs.View.{GivesAnswer, Entered};

use crate::records::{field, field_place};
use crate::stop::Halt;
use crate::variables::{Var, find_var};
use flow_ast::decl::{Param, RecordDecl};
use flow_ast::ty::{Ident, Ty};
use flow_base::memory::NoMemory;
use flow_base::name::Name;
use flow_base::text::Text;
use flow_value::value::{Record, Value};
use std::alloc::Global;
use std::mem;

/// One more variable.
pub fn bind(alloc: Global, vars: &mut Vec<Var>, name: &Name, value: Value) -> Result<(), NoMemory>
    ensures { OnOk result (map var_of vars.new.items
        ≡ bound (map var_of vars.old.items) name.now (value_of value)) }
{
    vars.push(Var {
        name: name.copy(alloc)?,
        value,
    })?;
    Ok(())
}

/// The variables that the parameters are, where there is an argument for each.
pub fn entered(alloc: Global, params: &[Param], args: Vec<Value>) -> Result<Vec<Var>, Halt>
    ensures { Entered (entered (map param_of params.now) (map value_of args.items)) result }
{
    let mut vars = Vec::new(alloc);
    let mut values = args.into_iter();
    for param in params {
        let Some(value) = values.next() else {
            return Err(Halt::NoMeaning);
        };
        bind(alloc, &mut vars, &param.name.name, value)?;
    }
    if values.next().is_some() {
        return Err(Halt::NoMeaning);
    }
    Ok(vars)
}

/// The value of a declaration that gives none.
pub fn default_value(alloc: Global, ty: &Ty) -> Result<Value, Halt>
    ensures { GivesAnswer (found (default_value (type_of ty.now))) result }
{
    match ty {
        Ty::Int => Ok(Value::Int(0)),
        Ty::Bool => Ok(Value::Bool(false)),
        Ty::Str => Ok(Value::text(alloc, Text::new(alloc, b"")?)?),
        Ty::Vector(_) => Ok(Value::list(alloc, Vec::new(alloc))?),
        Ty::Void
        | Ty::Error
        | Ty::Named(_)
        | Ty::Future(_)
        | Ty::FutureStream(_)
        | Ty::Promise(_)
        | Ty::PromiseStream(_) => Err(Halt::NoMeaning),
    }
}

/// The part of a value to which a path of fields leads.
pub fn read_in<'a>(records: &[RecordDecl], base: &'a Value, path: &[Ident]) -> Option<&'a Value>
    ensures { option_map value_of (option_copied result)
        ≡ read_in (map record_of records.now) (Some (value_of base.now)) path.now }
{
    let mut value = base;
    for name in path {
        let Some(inner) = field(records, value, name.name.bytes()) else {
            return None;
        };
        value = inner;
    }
    Some(value)
}

/// The value that a path leads to.
pub fn read_path<'a>(records: &[RecordDecl], vars: &'a [Var], path: &[Ident]) -> Option<&'a Value>
    ensures { option_map value_of (option_copied result)
        ≡ read_path (map record_of records.now) (map var_of vars.now) path.now }
{
    let Some((name, rest)) = path.split_first() else {
        return None;
    };
    match find_var(vars, name.name.bytes()) {
        Some(value) => read_in(records, value, rest),
        None => None,
    }
}

#[tactic(auto, using(crate::proofs::Lookups::values_set))]
/// Fills the field at a place.
pub fn put_at(fields: &mut Vec<Value>, k: usize, value: Value)
    requires { k < length fields.old.items }
    ensures { values_of fields.new.items
        ≡ value_put (values_of fields.old.items) k (value_of value) }
{
    fields[k] = value;
}

/// A record as a value.
pub fn record_value(of: Box<Record<Value>>) -> Value
    ensures { value_of result
        ≡ CompositeValue (RecordWhole of.value.id) (values_of of.value.fields.items) }
{
    Value::Struct(of)
}

/// Takes a field out, and leaves a place that is yet to be filled.
#[tactic(auto, using(crate::proofs::Lookups::values_set, crate::proofs::Lookups::put_again, crate::proofs::Lookups::value_there))]
pub fn take_at(fields: &mut Vec<Value>, k: usize) -> Value
    requires { k < length fields.old.items }
    ensures part { value_at (values_of fields.old.items) k ≡ Some (value_of result) }
    ensures rest { (w : ValueTree) → value_put (values_of fields.new.items) k w
        ≡ value_put (values_of fields.old.items) k w }
    ensures count { length fields.new.items ≡ length fields.old.items }
{
    mem::replace(&mut fields[k], Value::Void)
}

/// The value with the part replaced to which the path leads, where there is one.
#[cycle(put)]
pub fn put_in(records: &[RecordDecl], base: Value, path: &[Ident], value: Value) -> Option<Value>
    ensures { option_map value_of result
        ≡ put_in (map record_of records.now) (Some (value_of base)) path.now (value_of value) }
{
    let Some((name, rest)) = path.split_first() else {
        return Some(value);
    };
    match base {
        Value::Struct(record) => put_field(records, record, name.name.bytes(), rest, value),
        Value::Int(_)
        | Value::Bool(_)
        | Value::Text(_)
        | Value::Void
        | Value::Error(_)
        | Value::List(_)
        | Value::Ref(_, _) => None,
    }
}

#[cycle(put)]
#[tactic(auto, using(crate::proofs::Lookups::value_past))]
fn put_field(
    records: &[RecordDecl],
    mut of: Box<Record<Value>>,
    name: &[u8],
    rest: &[Ident],
    value: Value,
) -> Option<Value>
    ensures { option_map value_of result
        ≡ put_at (CompositeValue (RecordWhole of.value.id) (values_of of.value.fields.items))
        (field_place (map record_of records.now) (RecordWhole of.value.id) name.now)
        (put_in (map record_of records.now)
        (at_place (values_of of.value.fields.items)
        (field_place (map record_of records.now) (RecordWhole of.value.id) name.now)) rest.now
        (value_of value)) }
{
    let Some(k) = field_place(records, of.id, name) else {
        return None;
    };
    if k >= of.fields.len() {
        return None;
    }
    let part = take_at(&mut of.fields, k);
    let Some(part) = put_in(records, part, rest, value) else {
        return None;
    };
    put_at(&mut of.fields, k, part);
    Some(record_value(of))
}

fn put_var(records: &[RecordDecl], var: &mut Var, path: &[Ident], value: Value) -> bool
    ensures { option_map (λ u. (var.old.name, u))
        (put_in (map record_of records.now) (Some (value_of var.old.value)) path.now
        (value_of value)) ≡ (if result then Some (var_of var.new) else None) }
{
    let old = mem::replace(&mut var.value, Value::Void);
    match put_in(records, old, path, value) {
        Some(new) => {
            var.value = new;
            true
        }
        None => false,
    }
}

fn var_position(vars: &[Var], name: &[u8]) -> Option<usize>
    ensures { result ≡ position (λ v. bytes_eq name.now v.name) vars.now }
{
    vars.iter().position(|var| name == var.name.bytes())
}

fn var_place(vars: &[Var], name: &[u8]) -> Option<usize>
    ensures { result ≡ position (λ v. bytes_eq name.now v.0) (map var_of vars.now) }
{
    var_position(vars, name)
}

#[tactic(auto, using(crate::proofs::Lookups::put_past, crate::proofs::Lookups::put_back))]
fn put_place(
    records: &[RecordDecl],
    vars: &mut Vec<Var>,
    k: usize,
    path: &[Ident],
    value: Value,
) -> bool
    ensures { put_place (map record_of records.now) (map var_of vars.old.items) (Some k) path.now
        (value_of value) ≡ (if result then Some (map var_of vars.new.items) else None) }
{
    if k >= vars.len() {
        return false;
    }
    put_var(records, &mut vars[k], path, value)
}

/// Puts a value where the path leads, and says whether it leads anywhere.
pub fn put_path(records: &[RecordDecl], vars: &mut Vec<Var>, path: &[Ident], value: Value) -> bool
    ensures { put_path (map record_of records.now) (map var_of vars.old.items) path.now
        (value_of value) ≡ (if result then Some (map var_of vars.new.items) else None) }
{
    let Some((name, rest)) = path.split_first() else {
        return false;
    };
    let Some(k) = var_place(vars, name.name.bytes()) else {
        return false;
    };
    put_place(records, vars, k, rest, value)
}
