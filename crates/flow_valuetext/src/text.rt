// The text of a value, part by part.

ghost use Rattle.std.specs.Prelude.{◌≡◌, ◌++◌, true, OnOk, codes, decimal};
ghost use Rattle.flow_base.specs.Quote.{quoted, spelled_text};
ghost use Rattle.flow_value.specs.View.{value_of, values_of};
ghost use Rattle.flow_valuetext.specs.ValueText.{kind_text, value_text, parts_text};

use flow_base::memory::NoMemory;
use flow_trace::quote::spell_byte;
use flow_value::value::{Kind, Value};
use itoa::Buffer;

// Adds bytes.
fn put(out: &mut Vec<u8>, bytes: &[u8]) -> Result<(), NoMemory>
    ensures { OnOk result (out.new.items ≡ out.old.items ++ bytes.now) }
{
    out.extend_from_slice(bytes)?;
    Ok(())
}

// Adds a text in quotes.
fn put_quoted(out: &mut Vec<u8>, text: &[u8]) -> Result<(), NoMemory>
    ensures { OnOk result (out.new.items ≡ out.old.items ++ quoted text.now) }
{
    put(out, b"\"")?;
    for byte in text {
        put(out, spell_byte(*byte).bytes())?;
    }
    put(out, b"\"")
}

// The word of a kind of reference.
fn kind_word(kind: Kind) -> &'static [u8]
    ensures { result.now ≡ kind_text kind }
{
    match kind {
        Kind::Promise => b"Promise#",
        Kind::Future => b"Future#",
        Kind::PromiseStream => b"PromiseStream#",
        Kind::FutureStream => b"FutureStream#",
    }
}

// Adds an error by its number.
fn put_error(out: &mut Vec<u8>, number: u16) -> Result<(), NoMemory>
    ensures { OnOk result (out.new.items
        ≡ out.old.items ++ (codes "error(" ++ decimal number ++ codes ")")) }
{
    put(out, b"error(")?;
    put(out, Buffer::new().format(number).as_bytes())?;
    put(out, b")")
}

// Adds a reference by its kind and its cell.
fn put_reference(out: &mut Vec<u8>, kind: Kind, cell: u64) -> Result<(), NoMemory>
    ensures { OnOk result (out.new.items ≡ out.old.items ++ (kind_text kind ++ decimal cell)) }
{
    put(out, kind_word(kind))?;
    put(out, Buffer::new().format(cell).as_bytes())
}

/// Adds the text of a value: a number in decimal; `true` or `false`; a text in quotes; `Void()`; `error(N)`; the fields of a record
/// in parentheses; the elements of a list in brackets; a reference by its kind and its cell, as `Future#2`.
#[cycle(put_value)]
pub fn put_value(out: &mut Vec<u8>, value: &Value) -> Result<(), NoMemory>
    ensures { OnOk result (out.new.items ≡ out.old.items ++ value_text (value_of value.now)) }
{
    match value {
        Value::Int(n) => put(out, Buffer::new().format(*n).as_bytes()),
        Value::Bool(true) => put(out, b"true"),
        Value::Bool(false) => put(out, b"false"),
        Value::Text(text) => put_quoted(out, text.bytes()),
        Value::Void => put(out, b"Void()"),
        Value::Error(code) => put_error(out, code.0),
        Value::Struct(record) => put_parts(out, b"(", &record.fields, b")"),
        Value::List(items) => put_parts(out, b"[", items, b"]"),
        Value::Ref(kind, cell) => put_reference(out, *kind, cell.0),
    }
}

// Adds values with commas between them, and what stands before and behind them.
#[cycle(put_value)]
fn put_parts(
    out: &mut Vec<u8>,
    before: &[u8],
    parts: &[Value],
    behind: &[u8],
) -> Result<(), NoMemory>
    ensures { OnOk result (out.new.items
        ≡ out.old.items ++ (before.now ++ parts_text true (values_of parts.now) ++ behind.now)) }
{
    put(out, before)?;
    let mut first = true;
    for part in parts {
        if !first {
            put(out, b", ")?;
        }
        first = false;
        put_value(out, part)?;
    }
    put(out, behind)
}
