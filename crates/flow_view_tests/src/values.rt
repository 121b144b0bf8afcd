// Texts of values.

use flow_base::ids::{CellId, ErrorCode};
use flow_base::memory::NoMemory;
use flow_base::text::Text;
use flow_value::value::{Kind, RecordId, Value};
use flow_valuetext::put_value;
use std::alloc::Global;

fn record(alloc: Global, fields: [Value; 2]) -> Result<Value, NoMemory> {
    Value::record(
        alloc,
        RecordId::Declared(3),
        Vec::from_array(alloc, fields)?,
    )
}

// A record with a reference and a text.
fn inner(alloc: Global) -> Result<Value, NoMemory> {
    let text = Value::text(alloc, Text::new(alloc, b"abc")?)?;
    record(alloc, [Value::Ref(Kind::Future, CellId(7)), text])
}

// A record with that one and another reference.
fn outer(alloc: Global) -> Result<Value, NoMemory> {
    record(
        alloc,
        [inner(alloc)?, Value::Ref(Kind::PromiseStream, CellId(2))],
    )
}

fn is_written(alloc: Global, value: &Value, text: &[u8]) -> Result<bool, NoMemory> {
    let mut out = Vec::new(alloc);
    put_value(&mut out, value)?;
    Ok(out.as_slice() == text)
}

fn writes_a_text(alloc: Global) -> Result<bool, NoMemory> {
    let text = Value::text(alloc, Text::new(alloc, b"a\tb\\\"\n\x01\xff")?)?;
    is_written(alloc, &text, b"\"a\\tb\\\\\\\"\\n\\x01\\xff\"")
}

fn writes_a_record(alloc: Global) -> Result<bool, NoMemory> {
    let value = outer(alloc)?;
    is_written(alloc, &value, b"((Future#7, \"abc\"), PromiseStream#2)")
}

// A vector of two others, the second of them empty.
fn vectors(alloc: Global) -> Result<Value, NoMemory> {
    let items = [Value::Int(4), Value::Ref(Kind::Future, CellId(7))];
    let first = Value::list(alloc, Vec::from_array(alloc, items)?)?;
    let empty = Value::list(alloc, Vec::new(alloc))?;
    Value::list(alloc, Vec::from_array(alloc, [first, empty])?)
}

fn writes_a_vector(alloc: Global) -> Result<bool, NoMemory> {
    let value = vectors(alloc)?;
    is_written(alloc, &value, b"[[4, Future#7], []]")
}

#[test]
fn writes_values(rt: HostRuntime) -> Result<(), NoMemory> {
    let alloc = rt.alloc();
    assert!(rt; is_written(alloc, &Value::Int(i64::MIN), b"-9223372036854775808")?);
    assert!(rt; is_written(alloc, &Value::Bool(false), b"false")?);
    assert!(rt; is_written(alloc, &Value::Void, b"Void()")?);
    assert!(rt; is_written(alloc, &Value::Error(ErrorCode(1101)), b"error(1101)")?);
    assert!(rt; is_written(alloc, &Value::Ref(Kind::Promise, CellId(0)), b"Promise#0")?);
    assert!(rt; writes_a_text(alloc)?);
    assert!(rt; writes_a_record(alloc)?);
    assert!(rt; writes_a_vector(alloc)?);
    Ok(())
}
