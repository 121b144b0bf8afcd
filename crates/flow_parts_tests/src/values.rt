use flow_base::ids::CellId;
use flow_base::memory::NoMemory;
use flow_base::text::Text;
use flow_value::value::{Kind, Outcome, RecordId, Value, own_items};
use std::alloc::Global;
use std::rc::Rc;

const REFERENCES: [(Kind, CellId); 2] = [
    (Kind::Future, CellId(7)),
    (Kind::PromiseStream, CellId(2)),
];

fn record(alloc: Global, fields: [Value; 2]) -> Result<Value, NoMemory> {
    Value::record(
        alloc,
        RecordId::Declared(3),
        Vec::from_array(alloc, fields)?,
    )
}

// A record with a reference and a text.
fn inner(alloc: Global) -> Result<Value, NoMemory> {
    let text = Value::text(alloc, Text::new(alloc, b"abc")?)?;
    record(alloc, [Value::Ref(Kind::Future, CellId(7)), text])
}

// A record with that one and another reference.
fn outer(alloc: Global) -> Result<Value, NoMemory> {
    record(
        alloc,
        [inner(alloc)?, Value::Ref(Kind::PromiseStream, CellId(2))],
    )
}

fn lists_references(alloc: Global, value: &Value) -> Result<bool, NoMemory> {
    let found = value.refs(alloc)?;
    Ok(found.as_slice() == REFERENCES.as_slice())
}

fn copy_lists_references(alloc: Global) -> Result<bool, NoMemory> {
    let copy = outer(alloc)?.copy(alloc)?;
    lists_references(alloc, &copy)
}

fn copies_an_outcome(alloc: Global) -> Result<bool, NoMemory> {
    let copy = Outcome::Value(Value::Int(-5)).copy(alloc)?;
    Ok(matches!(&copy, Outcome::Value(Value::Int(-5))))
}

#[test]
fn copies_and_lists_references(rt: HostRuntime) -> Result<(), NoMemory> {
    assert!(rt; copy_lists_references(rt.alloc())?);
    assert!(rt; copies_an_outcome(rt.alloc())?);
    Ok(())
}

fn one(alloc: Global, value: Value) -> Result<Vec<Value>, NoMemory> {
    let mut values = Vec::new(alloc);
    values.push(value)?;
    Ok(values)
}

// A list of a whole number, the record of two references, and a text.
fn list_of_three(alloc: Global) -> Result<Value, NoMemory> {
    let mut items = one(alloc, Value::Int(1))?;
    items.push(outer(alloc)?)?;
    items.push(Value::text(alloc, Text::new(alloc, b"abc")?)?)?;
    Value::list(alloc, items)
}

fn copy_of_list_lists_references(alloc: Global) -> Result<bool, NoMemory> {
    let copy = list_of_three(alloc)?.copy(alloc)?;
    lists_references(alloc, &copy)
}

// As many whole numbers, from 0 on.
fn ints(alloc: Global, count: u32) -> Result<Vec<Value>, NoMemory> {
    let mut items = Vec::new(alloc);
    for n in 0..count {
        items.push(Value::Int(i64::from(n)))?;
    }
    Ok(items)
}

// Of a list that is shared the elements are copied: a longer one leaves the other copy as it was.
fn owns_while_shared(alloc: Global) -> Result<bool, NoMemory> {
    let items = Rc::new(alloc, ints(alloc, 3)?)?;
    let shared = items.clone()?;
    let mut own = own_items(alloc, items)?;
    own.push(Value::Void)?;
    Ok(shared.len() == 3 && own.len() == 4)
}

#[test]
fn lists_are_shared(rt: HostRuntime) -> Result<(), NoMemory> {
    assert!(rt; copy_of_list_lists_references(rt.alloc())?);
    assert!(rt; owns_while_shared(rt.alloc())?);
    Ok(())
}

const FIRST: [(Kind, CellId); 1] = [(Kind::Future, CellId(7))];

fn leads_to_seven(alloc: Global, value: &Value) -> Result<bool, NoMemory> {
    let found = value.refs(alloc)?;
    Ok(found.as_slice() == FIRST.as_slice())
}

fn in_record(alloc: Global, value: Value) -> Result<Value, NoMemory> {
    Value::record(alloc, RecordId::Declared(3), one(alloc, value)?)
}

// A reference in 8,190 records, one in another.
fn deep_records(alloc: Global) -> Result<Value, NoMemory> {
    let mut value = Value::Ref(Kind::Future, CellId(7));
    for _ in 0..8190u32 {
        value = in_record(alloc, value)?;
    }
    Ok(value)
}

fn copies_deep_records(alloc: Global) -> Result<bool, NoMemory> {
    let copy = deep_records(alloc)?.copy(alloc)?;
    leads_to_seven(alloc, &copy)
}

// A reference in 4,095 lists and as many records by turns.
fn deep_lists(alloc: Global) -> Result<Value, NoMemory> {
    let mut value = Value::Ref(Kind::Future, CellId(7));
    for _ in 0..4095u32 {
        value = in_record(alloc, Value::list(alloc, one(alloc, value)?)?)?;
    }
    Ok(value)
}

fn copies_deep_lists(alloc: Global) -> Result<bool, NoMemory> {
    let copy = deep_lists(alloc)?.copy(alloc)?;
    leads_to_seven(alloc, &copy)
}

// Copied, walked and dropped on the stack that the program has.
#[test]
fn values_nested_8190_deep(rt: HostRuntime) -> Result<(), NoMemory> {
    assert!(rt; copies_deep_records(rt.alloc())?);
    assert!(rt; copies_deep_lists(rt.alloc())?);
    Ok(())
}

fn copied_ten_thousand_times(alloc: Global) -> Result<bool, NoMemory> {
    let value = Value::list(alloc, ints(alloc, 65_535)?)?;
    let mut copies = Vec::new(alloc);
    for _ in 0..10_000u32 {
        copies.push(value.copy(alloc)?)?;
    }
    Ok(copies.len() == 10_000)
}

#[test]
fn a_list_of_65535_copied_ten_thousand_times(rt: HostRuntime) -> Result<(), NoMemory> {
    assert!(rt; copied_ten_thousand_times(rt.alloc())?);
    Ok(())
}
