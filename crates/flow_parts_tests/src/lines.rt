// Tests of flow_trace.

use flow_base::fault::OutFault;
use flow_base::mem_sink::MemSink;
use flow_base::memory::NoMemory;
use flow_base::name::Name;
use flow_trace::buffer::{LineBuf, print_line};
use flow_trace::fault::LineFault;
use flow_trace::line::Line;
use flow_trace::out::{LineOut, LineVec};
use flow_trace::quote::quote;
use flow_trace::read::read_line;
use flow_trace::sink_out::SinkOut;
use flow_trace::unquote::unquote;
use std::alloc::Global;

/// A line of each kind, and numbers and texts at their ends.
const LINES: [&[u8]; 45] = [
    b"trace 1\n",
    b"event 1 0 boot 0\n",
    b"event 2 10 kill 63\n",
    b"event 3 10 stop 255\n",
    b"event 4 20 cut 0 1\n",
    b"event 5 20 heal 1 0\n",
    b"event 6 30 diskfail 2 4294967295\n",
    b"event 7 30 timer 0 18446744073709551615\n",
    b"event 8 40 packet 3 9\n",
    b"event 9 40 read 0 7 \"a\\n\\t\\\"\\\\ \\x00\\x7f\\xff~\"\n",
    b"event 9 40 read 0 7 \"\"\n",
    b"event 10 40 read 0 7 fail\n",
    b"event 11 50 write 0 7 ok\n",
    b"event 11 50 write 0 7 fail\n",
    b"event 12 50 sync 0 7 ok\n",
    b"event 12 50 sync 0 7 fail\n",
    b"event 13 50 size 0 7 0\n",
    b"event 18446744073709551615 18446744073709551615 size 0 7 fail\n",
    b"start 1 main\n",
    b"start 2 loop\n",
    b"wait 1 1\n",
    b"take 1 2 0\n",
    b"throw 1 65535\n",
    b"catch 1 1100\n",
    b"fail 1 0\n",
    b"done 1\n",
    b"cancel 2\n",
    b"broken 3\n",
    b"print 1 -9223372036854775808\n",
    b"print 1 9223372036854775807\n",
    b"print 1 0\n",
    b"print 1 true\n",
    b"print 1 false\n",
    b"print 1 \"true\"\n",
    b"send 1 2 65535 \"hi there\"\n",
    b"lost 1 cut\n",
    b"lost 1 draw\n",
    b"discard 1\n",
    b"kept \"log 1\" 0 4 3\n",
    b"frame 0 1 _Main9 1\n",
    b"callback 0 1 2 3\n",
    b"end idle\n",
    b"end bound\n",
    b"end spent\n",
    b"end stop live\n",
];

/// What looks like a line, and is none.
const NO_LINES: [&[u8]; 20] = [
    b"",
    b"\n",
    b"trace 2",
    b"trace 1\n\n",
    b"trace 1\r\n",
    b"trace 1 ",
    b"trace  1",
    b"trace\t1",
    b" trace 1",
    b"print 1 -0",
    b"print 1 01",
    b"print 1 +1",
    b"print 1 9223372036854775808",
    b"print 1 \"\\x41\"",
    b"print 1 \"\\xAB\"",
    b"print 1 \"\\x0a\"",
    b"print 1 \"a",
    b"start 1 9x",
    b"event 1 0 boot 256",
    b"wait 1 1 1",
];

fn prints(line: &Line, printed: &mut LineBuf, wanted: &[u8]) -> bool {
    print_line(line, printed);
    printed.bytes() == wanted
}

// Whether one line was put, which is printed so.
fn has_put(out: &LineVec, printed: &mut LineBuf, wanted: &[u8]) -> bool {
    match out.lines() {
        [copy] => out.faults() == 0 && prints(copy, printed, wanted),
        _ => false,
    }
}

// Whether the copy of a line that is put is printed so.
fn puts(out: &mut LineVec, line: &Line, printed: &mut LineBuf, wanted: &[u8]) -> bool {
    out.put(line).is_ok() && has_put(out, printed, wanted)
}

fn is_put(alloc: Global, line: &Line, printed: &mut LineBuf, wanted: &[u8]) -> bool {
    let mut out = LineVec::new(alloc);
    puts(&mut out, line, printed, wanted)
}

// A copy of the line that these bytes spell is printed as these bytes.
fn is_read_back(alloc: Global, printed: &mut LineBuf, bytes: &[u8]) -> bool {
    let read = read_line(alloc, bytes);
    match &read {
        Ok(line) => is_put(alloc, line, printed, bytes),
        Err(_) => false,
    }
}

fn first_unread(alloc: Global, printed: &mut LineBuf) -> Option<&'static [u8]> {
    for line in &LINES {
        if !is_read_back(alloc, printed, *line) {
            return Some(*line);
        }
    }
    None
}

fn unread(alloc: Global) -> Result<Option<&'static [u8]>, NoMemory> {
    let mut printed = LineBuf::new(alloc)?;
    Ok(first_unread(alloc, &mut printed))
}

#[test]
fn reads_each_line(rt: HostRuntime) -> Result<(), NoMemory> {
    assert_eq!(rt; unread(rt.alloc())?, None);
    Ok(())
}

fn is_no_line(alloc: Global, bytes: &[u8]) -> bool {
    read_line(alloc, bytes).err() == Some(LineFault::Form)
}

fn first_read(alloc: Global) -> Option<&'static [u8]> {
    for line in &NO_LINES {
        if !is_no_line(alloc, *line) {
            return Some(*line);
        }
    }
    None
}

#[test]
fn refuses_other_spellings(rt: HostRuntime) {
    assert_eq!(rt; first_read(rt.alloc()), None);
}

fn prints_stop(alloc: Global, printed: &mut LineBuf) -> Result<bool, NoMemory> {
    let stop = Line::EndStop(Name::new(alloc, b"live")?);
    Ok(prints(&stop, printed, b"end stop live\n"))
}

fn prints_both(alloc: Global, printed: &mut LineBuf) -> Result<bool, NoMemory> {
    Ok(prints_stop(alloc, printed)? && prints(&Line::EndIdle, printed, b"end idle\n"))
}

fn prints_ends(alloc: Global) -> Result<bool, NoMemory> {
    let mut printed = LineBuf::new(alloc)?;
    prints_both(alloc, &mut printed)
}

#[test]
fn prints_what_was_made(rt: HostRuntime) -> Result<(), NoMemory> {
    assert!(rt; prints_ends(rt.alloc())?);
    Ok(())
}

// Puts two lines to a sink whose second call fails: the first is there, and the second isn't.
fn puts_one_of_two(alloc: Global, out: &mut MemSink) -> Result<bool, NoMemory> {
    let mut lines = SinkOut::new(alloc, out)?;
    let first = lines.put(&Line::Head);
    let second = lines.put(&Line::EndIdle);
    let faults = lines.faults();
    let SinkOut {
        out: _,
        buffer: _,
        before: _,
    } = lines;
    Ok(first.is_ok() && second == Err(OutFault::Failed) && faults == 1)
}

fn one_of_two_went_out(alloc: Global) -> Result<bool, NoMemory> {
    let mut out = MemSink::new(alloc, vec![in alloc; 2]?);
    let put = puts_one_of_two(alloc, &mut out)?;
    Ok(put && out.bytes() == b"trace 1\n".as_slice())
}

#[test]
fn lines_go_to_a_sink(rt: HostRuntime) -> Result<(), NoMemory> {
    assert!(rt; one_of_two_went_out(rt.alloc())?);
    Ok(())
}

const TEXT: &[u8] = b"a\"\xc3 \n";

const QUOTED: &[u8] = b"\"a\\\"\\xc3 \\n\"";

fn is_quoted(alloc: Global) -> Result<bool, NoMemory> {
    let quoted = quote(alloc, TEXT)?;
    Ok(quoted.as_slice() == QUOTED)
}

fn is_unquoted(alloc: Global) -> bool {
    let unquoted = unquote(alloc, QUOTED);
    match &unquoted {
        Ok(text) => text.bytes() == TEXT,
        Err(_) => false,
    }
}

fn is_no_quote(alloc: Global, bytes: &[u8]) -> bool {
    unquote(alloc, bytes).err() == Some(LineFault::Form)
}

#[test]
fn quotes_and_unquotes(rt: HostRuntime) -> Result<(), NoMemory> {
    let alloc = rt.alloc();
    assert!(rt; is_quoted(alloc)?);
    assert!(rt; is_unquoted(alloc));
    assert!(rt; is_no_quote(alloc, b"\"\\x41\""));
    Ok(())
}
