// The fields of record values.

ghost use Rattle.std.specs.Prelude.{◌≡◌, List, map, position};
ghost use Rattle.std.specs.Option.{option_map, option_copied};
ghost use Rattle.std.specs.Str.{bytes_eq};
ghost use Rattle.flow_tree.specs.DeclView.{record_of, param_of};
ghost use Rattle.flow_ast.specs.Typing.{packet_fields};
ghost use Rattle.flow_value.specs.View.{value_of, values_of};
ghost use Rattle.flow_value.specs.Values.{ValueTree, value_at, RecordWhole};
ghost use Rattle.flow_eval.specs.Records.{record_id, field_place, field, place_in};

use flow_ast::decl::{Param, RecordDecl};
use flow_ast::typing::{Declared, is_packet};
use flow_value::value::{RecordId, Value};

/// The place of the first of these with this name, where there is one.
pub fn place_named<T: Declared>(items: &[T], name: &[u8]) -> Option<usize>
    ensures { result ≡ position (λ x. bytes_eq (T.name_of x) name.now) items.now }
{
    items.iter().position(|item| item.name().bytes() == name)
}

fn record_place(records: &[RecordDecl], name: &[u8]) -> Option<usize>
    ensures { result ≡ position (λ r. bytes_eq r.name.name name.now) (map record_of records.now) }
{
    place_named(records, name)
}

fn param_place(params: &[Param], name: &[u8]) -> Option<usize>
    ensures { result ≡ position (λ p. bytes_eq p.name.name name.now) (map param_of params.now) }
{
    place_named(params, name)
}

/// The record of a name, the predefined one first.
pub fn record_id(records: &[RecordDecl], name: &[u8]) -> Option<RecordId>
    ensures { result ≡ record_id (map record_of records.now) name.now }
{
    if is_packet(name) {
        return Some(RecordId::Packet);
    }
    match record_place(records, name) {
        Some(k) => Some(RecordId::Declared(k)),
        None => None,
    }
}

fn packet_place(name: &[u8]) -> Option<usize>
    ensures { result ≡ position (λ f. bytes_eq f.0 name.now) packet_fields }
{
    if b"from".as_slice() == name {
        return Some(0);
    }
    if b"port".as_slice() == name {
        return Some(1);
    }
    if b"text".as_slice() == name {
        return Some(2);
    }
    None
}

#[tactic(auto, using(crate::proofs::Lookups::place_there, crate::proofs::Lookups::place_past))]
fn declared_place(records: &[RecordDecl], k: usize, name: &[u8]) -> Option<usize>
    ensures { result ≡ place_in (map record_of records.now) k name.now }
{
    if k >= records.len() {
        return None;
    }
    param_place(&records[k].fields, name)
}

/// The place of a field in a record, where it has one of that name.
pub fn field_place(records: &[RecordDecl], id: RecordId, name: &[u8]) -> Option<usize>
    ensures { result ≡ field_place (map record_of records.now) (RecordWhole id) name.now }
{
    match id {
        RecordId::Packet => packet_place(name),
        RecordId::Declared(k) => declared_place(records, k, name),
    }
}

#[tactic(auto, using(crate::proofs::Lookups::value_there, crate::proofs::Lookups::value_past))]
fn value_in(values: &[Value], k: usize) -> Option<&Value>
    ensures { option_map value_of (option_copied result) ≡ value_at (values_of values.now) k }
{
    values.get(k)
}

/// A field of a record value, where it has one of that name.
pub fn field<'a>(records: &[RecordDecl], value: &'a Value, name: &[u8]) -> Option<&'a Value>
    ensures { option_map value_of (option_copied result)
        ≡ field (map record_of records.now) (value_of value.now) name.now }
{
    match value {
        Value::Struct(record) => match field_place(records, record.id, name) {
            Some(k) => value_in(&record.fields, k),
            None => None,
        },
        Value::Int(_)
        | Value::Bool(_)
        | Value::Text(_)
        | Value::Void
        | Value::Error(_)
        | Value::List(_)
        | Value::Ref(_, _) => None,
    }
}
