// Each call of the files and of the sink that a command makes, failing in turn, alone and with the one behind it; and files and a sink of
// one byte a call.

use crate::slow::{OneByteIn, OneByteOut};
use crate::tests::{two_files, words};
use flow_base::mem_sink::MemSink;
use flow_monitor::Monitor;
use flow_top::flow_main;
use std::alloc::{AllocError, Global};

// A status, and what went out before.
type Answer = (u8, Vec<u8>);

// Words, and the files `p` and `w` that they name.
#[derive(Clone, Copy)]
struct Command<'a> {
    words: &'a [&'a str],
    first: &'a [u8],
    second: &'a [u8],
}

// What a command is answered where the listed calls of the files and of the sink fail.
fn answer(
    alloc: Global,
    command: Command<'_>,
    reads: Vec<u64>,
    writes: Vec<u64>,
) -> Result<Answer, AllocError> {
    let mut files = two_files(alloc, command.first, command.second, reads)?;
    let mut out = MemSink::new(alloc, writes);
    let words = words(alloc, command.words)?;
    let monitors: Vec<Box<dyn Monitor>> = Vec::new(alloc);
    let status = flow_main(alloc, &words, &mut files, &mut out, monitors);
    Ok((status, out.bytes().to_vec(alloc)?))
}

// Whether a command is answered so where this call of the files fails, alone and with the next.
fn reads_fail(alloc: Global, command: Command<'_>, call: u64) -> Result<bool, AllocError> {
    let alone = answer(alloc, command, vec![in alloc; call]?, Vec::new(alloc))?;
    let both = vec![in alloc; call, call.saturating_add(1)]?;
    let in_pair = answer(alloc, command, both, Vec::new(alloc))?;
    Ok(is(&alone, 5, b"read fault\n") && is(&in_pair, 5, b"read fault\n"))
}

// Whether an answer is that status with that text.
fn is(answer: &Answer, status: u8, text: &[u8]) -> bool {
    answer.0 == status && answer.1.as_slice() == text
}

// Whether the first so many calls of the files, failing in turn, are told, and no other is made.
fn each_read_is_told(
    alloc: Global,
    command: Command<'_>,
    calls: u64,
    text: &[u8],
) -> Result<bool, AllocError> {
    for call in 0..calls {
        if !reads_fail(alloc, command, call + 1)? {
            return Ok(false);
        }
    }
    let behind = vec![in alloc; calls.saturating_add(1)]?;
    let whole = answer(alloc, command, behind, Vec::new(alloc))?;
    Ok(is(&whole, 0, text))
}

// Whether a command ends with status 6 and that text where this call of the sink fails, alone and with the next.
fn writes_fail(
    alloc: Global,
    command: Command<'_>,
    call: u64,
    text: &[u8],
) -> Result<bool, AllocError> {
    let alone = answer(alloc, command, Vec::new(alloc), vec![in alloc; call]?)?;
    let both = vec![in alloc; call, call.saturating_add(1)]?;
    let in_pair = answer(alloc, command, Vec::new(alloc), both)?;
    Ok(is(&alone, 6, text) && is(&in_pair, 6, text))
}

// How many bytes the first line of a text has, its line feed with them.
fn line_length(text: &[u8]) -> usize {
    match text.iter().position(|byte| *byte == b'\n') {
        Some(place) => place.saturating_add(1).min(text.len()),
        None => text.len(),
    }
}

// Whether the call of the sink behind the last line, which flushes, is told where it fails, and no other is made.
fn last_write_is_told(
    alloc: Global,
    command: Command<'_>,
    call: u64,
    text: &[u8],
) -> Result<bool, AllocError> {
    let behind = vec![in alloc; call.saturating_add(1)]?;
    let whole = answer(alloc, command, Vec::new(alloc), behind)?;
    Ok(writes_fail(alloc, command, call, text)? && is(&whole, 0, text))
}

// Whether each call of the sink, failing in turn, leaves the lines before it: one call a line of this text, and one more.
fn each_line_is_a_write(
    alloc: Global,
    command: Command<'_>,
    text: &[u8],
) -> Result<bool, AllocError> {
    let mut gone = 0usize;
    for call in 1..1_000_000u64 {
        if gone >= text.len() {
            return last_write_is_told(alloc, command, call, text);
        }
        if !writes_fail(alloc, command, call, text.get(..gone).unwrap_or(&[]))? {
            return Ok(false);
        }
        gone = gone.saturating_add(line_length(text.get(gone..).unwrap_or(&[])));
    }
    Ok(false)
}

// The same of the text that a command writes where no call fails.
fn each_write_is_told(alloc: Global, command: Command<'_>) -> Result<bool, AllocError> {
    let (status, text) = answer(alloc, command, Vec::new(alloc), Vec::new(alloc))?;
    Ok(each_line_is_a_write(alloc, command, &text)? && status == 0)
}

// Whether a command is answered so by files and a sink of one byte a call.
fn is_told_byte_by_byte(
    alloc: Global,
    command: Command<'_>,
    text: &[u8],
) -> Result<bool, AllocError> {
    let mut files = OneByteIn {
        files: two_files(alloc, command.first, command.second, Vec::new(alloc))?,
    };
    let mut out = OneByteOut {
        bytes: Vec::new(alloc),
    };
    let words = words(alloc, command.words)?;
    let monitors: Vec<Box<dyn Monitor>> = Vec::new(alloc);
    let status = flow_main(alloc, &words, &mut files, &mut out, monitors);
    Ok(status == 0 && out.bytes.as_slice() == text)
}

// Clients that ask a server, which leaves one without an answer.
const SERVER: &[u8] = b"\
struct Ask {
    int n;
    Promise<int> reply;
};
ACTOR Future<Void> server(FutureStream<Ask> asks) {
    loop {
        Ask a = waitNext(asks);
        if (a.n > 0) {
            a.reply.send(a.n * 2);
        }
    }
}
ACTOR Future<int> client(PromiseStream<Ask> to, int n) {
    Promise<int> r;
    to.send(Ask(n, r));
    int got = wait(r.getFuture());
    return got;
}
ACTOR Future<Void> main(int p) {
    state PromiseStream<Ask> asks;
    state Future<Void> s = server(asks.getFuture());
    int good = wait(client(asks, 21));
    trace(good);
    try {
        int bad = wait(client(asks, 0));
        trace(bad);
    } catch (Error& e) {
        trace(e.code());
    }
    return Void();
}
";

const SERVER_TRACE: &[u8] = b"\
trace 1
event 1 0 boot 0
start 1 main
start 2 server
wait 2 1
start 3 client
take 2 1 0
wait 2 1
take 3 1 0
done 3
take 1 1 0
print 1 42
start 4 client
take 2 1 0
wait 2 1
wait 4 1
broken 7
take 4 1 0
throw 4 1100
fail 4 1100
take 1 2 0
throw 1 1100
catch 1 1100
print 1 1100
cancel 2
throw 2 1101
fail 2 1101
done 1
end idle
";

const WORLD: &[u8] = b"seed 3\n";

// One class, which returns at once.
const CLASSES: &[u8] = b"\
classes 1

class main returns Void params 1 {
    slot 0 int p;
    block 0 {
        act trace(s0);
        return Void();
    }
}
";

// The same in the newest version.
const UPGRADED: &[u8] = b"\
classes 2
class main returns Void params 1 {
    slot 0 int p;
    block 0 {
        act trace(s0);
        return Void();
    }
}
";

const CLASSES_TRACE: &[u8] =
    b"trace 1\nevent 1 0 boot 0\nstart 1 main\nprint 1 0\ndone 1\nend idle\n";

fn run_server<'a>() -> Command<'a> {
    Command {
        words: &["run", "p", "w"],
        first: SERVER,
        second: WORLD,
    }
}

fn exec_classes<'a>() -> Command<'a> {
    Command {
        words: &["exec", "p", "w"],
        first: CLASSES,
        second: WORLD,
    }
}

fn upgrade_classes<'a>() -> Command<'a> {
    Command {
        words: &["upgrade", "p"],
        first: CLASSES,
        second: b"",
    }
}

fn of_server<'a>(words: &'a [&'a str]) -> Command<'a> {
    Command {
        words,
        first: SERVER,
        second: b"",
    }
}

// Each file is opened, read, and read once more to its end.
#[test]
fn each_call_of_the_files_fails(rt: HostRuntime) -> Result<(), AllocError> {
    let alloc = rt.alloc();
    assert!(rt; each_read_is_told(alloc, run_server(), 6, SERVER_TRACE)?);
    assert!(rt; each_read_is_told(alloc, exec_classes(), 6, CLASSES_TRACE)?);
    assert!(rt; each_read_is_told(alloc, upgrade_classes(), 3, UPGRADED)?);
    assert!(rt; each_read_is_told(alloc, of_server(&["check", "p"]), 3, b"ok\n")?);
    assert!(rt; each_read_is_told(alloc, of_server(&["format", "p"]), 3, SERVER)?);
    Ok(())
}

#[test]
fn each_call_of_the_sink_fails(rt: HostRuntime) -> Result<(), AllocError> {
    let alloc = rt.alloc();
    assert!(rt; each_write_is_told(alloc, run_server())?);
    assert!(rt; each_write_is_told(alloc, exec_classes())?);
    assert!(rt; each_write_is_told(alloc, upgrade_classes())?);
    assert!(rt; each_write_is_told(alloc, of_server(&["check", "p"]))?);
    assert!(rt; each_write_is_told(alloc, of_server(&["format", "p"]))?);
    assert!(rt; each_write_is_told(alloc, of_server(&["compile", "p"]))?);
    assert!(rt; each_write_is_told(alloc, of_server(&["bench", "2", "7"]))?);
    Ok(())
}

#[test]
fn one_byte_a_call(rt: HostRuntime) -> Result<(), AllocError> {
    let alloc = rt.alloc();
    assert!(rt; is_told_byte_by_byte(alloc, run_server(), SERVER_TRACE)?);
    assert!(rt; is_told_byte_by_byte(alloc, exec_classes(), CLASSES_TRACE)?);
    Ok(())
}
