// Values.

ghost use Rattle.std.specs.Prelude.{◌≡◌, ◌++◌, IfOk, OnOk, map};
ghost use Rattle.flow_value.specs.Values.{CompositeValue, RecordWhole, ListWhole, TextValue, refs_of, refs_of_all, may_refer, any_may_refer};
ghost use Rattle.flow_value.specs.View.{value_of, values_of, outcome_of, ref_of};

use flow_base::ids::{CellId, ErrorCode};
use flow_base::memory::NoMemory;
use flow_base::text::Text;
use std::alloc::Global;
use std::rc::Rc;

/// What a reference is: the promise side or the future side of a cell that takes a single result, or
/// of a stream.
#[derive(Clone, Copy, PartialEq, Eq, Debug)]
pub enum Kind {
    Promise,
    Future,
    PromiseStream,
    FutureStream,
}

/// Which record a value is of: the predefined `Packet`, or the one at a place in the list of a
/// program's records, from 0.
#[derive(Clone, Copy, PartialEq, Eq)]
pub enum RecordId {
    Packet,
    Declared(usize),
}

/// A record: which one it is, and its fields in order.
#[derive(Drop)]
pub struct Record<V> {
    pub id: RecordId,
    pub fields: Vec<V>,
}

/// A value. A text and a list are shared by their copies, and a record stands in a box, so that a value takes 16 bytes; a
/// reference names a cell.
#[derive(Drop)]
pub enum Value {
    Int(i64),
    Bool(bool),
    Text(Rc<Text>),
    Void,
    Error(ErrorCode),
    Struct(Box<Record<Value>>),
    List(Rc<Vec<Value>>),
    Ref(Kind, CellId),
}

/// What a cell of a single result holds once it is set: a value, or an error.
#[derive(Drop)]
pub enum Outcome {
    Value(Value),
    Error(ErrorCode),
}

impl Value {
    /// An equal value. A copy of a text or a list is the same one, shared.
    #[cycle(copy)]
    pub fn copy(&self, alloc: Global) -> Result<Value, NoMemory>
        ensures { IfOk result (λ v. value_of v ≡ value_of self.now) }
    {
        match self {
            Value::Int(n) => Ok(Value::Int(*n)),
            Value::Bool(b) => Ok(Value::Bool(*b)),
            Value::Text(text) => Ok(Value::Text(text.clone()?)),
            Value::Void => Ok(Value::Void),
            Value::Error(code) => Ok(Value::Error(*code)),
            Value::Struct(record) => {
                Value::record(alloc, record.id, copies(alloc, &record.fields)?)
            }
            Value::List(items) => Ok(Value::List(items.clone()?)),
            Value::Ref(kind, cell) => Ok(Value::Ref(*kind, *cell)),
        }
    }

    /// The value of a record with these fields.
    pub fn record(alloc: Global, id: RecordId, fields: Vec<Value>) -> Result<Value, NoMemory>
        ensures { IfOk result (λ v. value_of v
            ≡ CompositeValue (RecordWhole id) (values_of fields.items)) }
    {
        Ok(Value::Struct(Box::new(alloc, Record { id, fields })?))
    }

    /// The value of a list of these elements.
    pub fn list(alloc: Global, items: Vec<Value>) -> Result<Value, NoMemory>
        ensures { IfOk result (λ v. value_of v ≡ CompositeValue ListWhole (values_of items.items)) }
    {
        Ok(Value::List(Rc::new(alloc, items)?))
    }

    /// The value of a text.
    pub fn text(alloc: Global, text: Text) -> Result<Value, NoMemory>
        ensures { IfOk result (λ v. value_of v ≡ TextValue text) }
    {
        Ok(Value::Text(Rc::new(alloc, text)?))
    }

    /// Its references, in the order of its parts: kind and cell.
    pub fn refs(&self, alloc: Global) -> Result<Vec<(Kind, CellId)>, NoMemory>
        ensures { IfOk result (λ v. map ref_of v.items ≡ refs_of (value_of self.now)) }
    {
        let mut found = Vec::new(alloc);
        self.add_refs(&mut found)?;
        Ok(found)
    }

    #[cycle(add_refs)]
    fn add_refs(&self, found: &mut Vec<(Kind, CellId)>) -> Result<(), NoMemory>
        ensures { OnOk result (map ref_of found.new.items
            ≡ map ref_of found.old.items ++ refs_of (value_of self.now)) }
    {
        match self {
            Value::Struct(record) => add_all_refs(&record.fields, found),
            Value::List(items) => add_all_refs(items, found),
            Value::Ref(kind, cell) => {
                found.push((*kind, *cell))?;
                Ok(())
            }
            Value::Int(_) | Value::Bool(_) | Value::Text(_) | Value::Void | Value::Error(_) => {
                Ok(())
            }
        }
    }

    /// Whether a value of its kind may refer to cells.
    pub fn may_refer(&self) -> bool
        ensures { result ≡ may_refer (value_of self.now) }
    {
        matches!(self, Value::Struct(_) | Value::List(_) | Value::Ref(_, _))
    }
}

/// Whether one of the values may refer to cells, by their kinds alone: where none may, there is no need to walk through them.
pub fn any_may_refer(values: &[Value]) -> bool
    ensures { result ≡ any_may_refer (values_of values.now) }
{
    for value in values {
        if value.may_refer() {
            return true;
        }
    }
    false
}

#[cycle(add_refs)]
#[tactic(auto, using(crate::proofs::References::nothing_more))]
fn add_all_refs(values: &[Value], found: &mut Vec<(Kind, CellId)>) -> Result<(), NoMemory>
    ensures { OnOk result (map ref_of found.new.items
        ≡ map ref_of found.old.items ++ refs_of_all (values_of values.now)) }
{
    if !any_may_refer(values) {
        return Ok(());
    }
    for value in values {
        value.add_refs(found)?;
    }
    Ok(())
}

/// Equal values.
#[cycle(copy)]
pub fn copies(alloc: Global, values: &[Value]) -> Result<Vec<Value>, NoMemory>
    ensures { IfOk result (λ v. map value_of v.items ≡ map value_of values.now) }
{
    let mut copies = Vec::with_capacity(alloc, values.len())?;
    for value in values {
        copies.push(value.copy(alloc)?)?;
    }
    Ok(copies)
}

/// The elements of a list, as ones that are not shared.
pub fn own_items(alloc: Global, items: Rc<Vec<Value>>) -> Result<Vec<Value>, NoMemory>
    ensures { IfOk result (λ v. map value_of v.items ≡ map value_of items.value.items) }
{
    match Rc::try_unwrap(items) {
        Ok(items) => Ok(items),
        Err(items) => copies(alloc, items.as_ref()),
    }
}

/// The text of a value, as one that is not shared.
pub fn own_text(alloc: Global, text: Rc<Text>) -> Result<Text, NoMemory>
    ensures { IfOk result (λ t. t ≡ text.value) }
{
    match Rc::try_unwrap(text) {
        Ok(text) => Ok(text),
        Err(text) => text.as_ref().copy(alloc),
    }
}

impl Outcome {
    /// An equal outcome.
    pub fn copy(&self, alloc: Global) -> Result<Outcome, NoMemory>
        ensures { IfOk result (λ o. outcome_of o ≡ outcome_of self.now) }
    {
        match self {
            Outcome::Value(value) => Ok(Outcome::Value(value.copy(alloc)?)),
            Outcome::Error(code) => Ok(Outcome::Error(*code)),
        }
    }
}
