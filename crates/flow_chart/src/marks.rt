// What is marked of a line.

ghost use Rattle.std.specs.Prelude.{◌≡◌, ◌++◌, decimal, option_map, IfOk};
ghost use Rattle.std.specs.Fmt.{signed_decimal};
ghost use Rattle.flow_trace.specs.Bytes.{spelled, truth};
ghost use Rattle.flow_chart.specs.Marks.{moment, moment_of, printed, faulty, sign_of, end_of, line_text};

use crate::spot::{Moment, Tone};
use flow_base::ids::ProcId;
use flow_base::memory::NoMemory;
use flow_trace::buffer::{LineBuf, print_line};
use flow_trace::line::Line;
use flow_trace::quote::quote;
use itoa::Buffer;
use std::alloc::Global;
use std::marker::Model;

/// A mark: what it tells, and its text. Contracts see it as these.
#[derive(Drop)]
pub struct Sign {
    pub(crate) tone: Tone,
    pub(crate) text: Vec<u8>,
}

impl Model for Sign {
    ghost use Rattle.flow_chart.specs.Marks.{Sign};

    ghost Value = { Sign };

    ghost view = { λ s. record { tone = s.tone; text = s.text.items } };
}

fn moment(number: u64, time: u64, process: ProcId) -> Option<Moment>
    ensures { result ≡ moment number time process.0 }
{
    Some(Moment {
        number,
        time,
        process: process.0,
    })
}

/// The event of a line, if it is an event's.
pub(crate) fn moment_of(line: &Line) -> Option<Moment>
    ensures { result ≡ moment_of line.now }
{
    match line {
        Line::Boot(n, t, p) | Line::Kill(n, t, p) | Line::Stop(n, t, p) => moment(*n, *t, *p),
        Line::Cut(n, t, p, _) | Line::Heal(n, t, p, _) => moment(*n, *t, *p),
        Line::DiskFail(n, t, p, _) | Line::Timer(n, t, p, _) => moment(*n, *t, *p),
        Line::Arrival(n, t, p, _) | Line::Read(n, t, p, _, _) => moment(*n, *t, *p),
        Line::Write(n, t, p, _, _) | Line::Sync(n, t, p, _, _) => moment(*n, *t, *p),
        Line::Size(n, t, p, _, _) => moment(*n, *t, *p),
        _ => None,
    }
}

// The bytes of a line without its line feed.
fn line_text(alloc: Global, line: &Line, buffer: &mut LineBuf) -> Result<Vec<u8>, NoMemory>
    ensures { IfOk result (λ v. v.items ≡ line_text line.now) }
{
    print_line(line, buffer);
    match buffer.bytes() {
        [text @ .., _feed] => Ok(text.to_vec(alloc)?),
        [] => Ok(Vec::new(alloc)),
    }
}

fn printed(text: Vec<u8>) -> Option<Sign>
    ensures { result ≡ printed text.items }
{
    Some(Sign {
        tone: Tone::Printed,
        text,
    })
}

fn faulty(text: Vec<u8>) -> Option<Sign>
    ensures { result ≡ faulty text.items }
{
    Some(Sign {
        tone: Tone::Faulty,
        text,
    })
}

// A word and a number.
fn numbered(alloc: Global, word: &[u8], number: u64) -> Result<Vec<u8>, NoMemory>
    ensures { IfOk result (λ v. v.items ≡ word.now ++ decimal number) }
{
    let mut text = word.to_vec(alloc)?;
    text.extend_from_slice(Buffer::new().format(number).as_bytes())?;
    Ok(text)
}

// A number with its sign.
fn integer(alloc: Global, value: i64) -> Result<Vec<u8>, NoMemory>
    ensures { IfOk result (λ v. v.items ≡ signed_decimal value) }
{
    Ok(Buffer::new().format(value).as_bytes().to_vec(alloc)?)
}

fn truth(alloc: Global, value: bool) -> Result<Vec<u8>, NoMemory>
    ensures { IfOk result (λ v. v.items ≡ spelled (truth value)) }
{
    if value {
        Ok(b"true".to_vec(alloc)?)
    } else {
        Ok(b"false".to_vec(alloc)?)
    }
}

/// The mark of a line, if it has one: of what is printed its value, of an order of the script what it is, and of a failure, a
/// cancellation, a discarded packet and a write of which something was kept the whole line.
pub(crate) fn sign_of(
    alloc: Global,
    line: &Line,
    buffer: &mut LineBuf,
) -> Result<Option<Sign>, NoMemory>
    ensures { IfOk result (λ s. s ≡ sign_of line.now) }
{
    match line {
        Line::Kill(..) => Ok(faulty(b"kill".to_vec(alloc)?)),
        Line::Stop(..) => Ok(faulty(b"stop".to_vec(alloc)?)),
        Line::Cut(_, _, _, q) => Ok(faulty(numbered(alloc, b"cut ", u64::from(q.0))?)),
        Line::Heal(_, _, _, q) => Ok(faulty(numbered(alloc, b"heal ", u64::from(q.0))?)),
        Line::DiskFail(_, _, _, k) => Ok(faulty(numbered(alloc, b"diskfail ", u64::from(*k))?)),
        Line::PrintInt(_, value) => Ok(printed(integer(alloc, *value)?)),
        Line::PrintBool(_, value) => Ok(printed(truth(alloc, *value)?)),
        Line::PrintText(_, text) => Ok(printed(quote(alloc, text.bytes())?)),
        Line::Fail(..) | Line::Cancel(_) | Line::Discard(_) | Line::Kept(..) => {
            Ok(faulty(line_text(alloc, line, buffer)?))
        }
        _ => Ok(None),
    }
}

/// The text of a last line, if it is one.
pub(crate) fn end_of(
    alloc: Global,
    line: &Line,
    buffer: &mut LineBuf,
) -> Result<Option<Vec<u8>>, NoMemory>
    ensures { IfOk result (λ text. option_map (λ v. v.items) text ≡ end_of line.now) }
{
    match line {
        Line::EndIdle | Line::EndBound | Line::EndSpent | Line::EndStop(_) => {
            Ok(Some(line_text(alloc, line, buffer)?))
        }
        _ => Ok(None),
    }
}
