// What packets and disks bring to a process.

ghost use Rattle.std.specs.Prelude.{◌≡◌, IfOk};
ghost use Rattle.flow_value.specs.View.{value_of, outcome_of};
ghost use Rattle.flow_meaning.specs.World as meaning;
ghost use Rattle.flow_world.specs.Answers.{answer_line, text_in, size_in};

use flow_base::errors::DISK_FAILED;
use flow_base::ids::{CellId, ProcId};
use flow_base::memory::NoMemory;
use flow_base::text::Text;
use flow_simdisk::{DiskAsk, DiskReply};
use flow_simnet::Packet;
use flow_trace::line::Line;
use flow_value::value::{Outcome, RecordId, Value};
use std::alloc::Global;

/// A packet as a value: its sender, its port and its text.
pub fn packet_value(alloc: Global, packet: Packet) -> Result<Value, NoMemory>
    ensures { IfOk result (λ v.
        value_of v ≡ meaning.packet packet.from.0 packet.port packet.text) }
{
    let mut fields = Vec::new(alloc);
    fields.push(Value::Int(i64::from(packet.from.0)))?;
    fields.push(Value::Int(i64::from(packet.port)))?;
    fields.push(Value::text(alloc, packet.text)?)?;
    Value::record(alloc, RecordId::Packet, fields)
}

/// What a cell gets of an answer of a disk.
pub fn disk_outcome(alloc: Global, reply: DiskReply) -> Result<Outcome, NoMemory>
    ensures { IfOk result (λ o. outcome_of o ≡ meaning.disk_outcome reply) }
{
    Ok(match reply {
        DiskReply::Text(text) => Outcome::Value(Value::text(alloc, text)?),
        DiskReply::Done => Outcome::Value(Value::Void),
        DiskReply::Size(size) => Outcome::Value(Value::Int(i64::from(size))),
        DiskReply::Failed => Outcome::Error(DISK_FAILED),
    })
}

/// The line of an answer of a disk, in the event of a number at a time.
pub fn disk_line(
    alloc: Global,
    ask: &DiskAsk,
    reply: &DiskReply,
    n: u64,
    t: u64,
    p: ProcId,
    cell: CellId,
) -> Result<Line, NoMemory>
    ensures { IfOk result (λ l. l ≡ answer_line ask.now reply.now n t p cell) }
{
    Ok(match ask {
        DiskAsk::Read(..) => Line::Read(n, t, p, cell, text_in(alloc, reply)?),
        DiskAsk::Write(..) => Line::Write(n, t, p, cell, matches!(reply, DiskReply::Done)),
        DiskAsk::Sync(_) => Line::Sync(n, t, p, cell, matches!(reply, DiskReply::Done)),
        DiskAsk::Size(_) => Line::Size(n, t, p, cell, size_in(reply)),
    })
}

// The bytes of an answer.
fn text_in(alloc: Global, reply: &DiskReply) -> Result<Option<Text>, NoMemory>
    ensures { IfOk result (λ text. text ≡ text_in reply.now) }
{
    match reply {
        DiskReply::Text(text) => Ok(Some(text.copy(alloc)?)),
        _ => Ok(None),
    }
}

// The size of an answer.
fn size_in(reply: &DiskReply) -> Option<u32>
    ensures { result ≡ size_in reply.now }
{
    match reply {
        DiskReply::Size(size) => Some(*size),
        _ => None,
    }
}
