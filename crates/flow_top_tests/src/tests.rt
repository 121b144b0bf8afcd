// Command lines over files and a sink in memory, of which calls fail. What the program answers where none does stands in the folder
// cases/ at the top.

use flow_base::mem_files::MemFiles;
use flow_base::mem_sink::MemSink;
use flow_monitor::{Errors, Monitor};
use flow_top::flow_main;
use std::alloc::{AllocError, Global};

// The two files `p` and `w` with these bytes, of which the listed calls fail.
pub(crate) fn two_files(
    alloc: Global,
    program: &[u8],
    world: &[u8],
    failing: Vec<u64>,
) -> Result<MemFiles, AllocError> {
    let first = ("p".to_string(alloc)?, program.to_vec(alloc)?);
    let second = ("w".to_string(alloc)?, world.to_vec(alloc)?);
    let mut files = Vec::new(alloc);
    files.push(first)?;
    files.push(second)?;
    Ok(MemFiles::new(alloc, files, failing))
}

pub(crate) fn words(alloc: Global, texts: &[&str]) -> Result<Vec<String>, AllocError> {
    let mut words = Vec::new(alloc);
    for text in texts {
        words.push(text.to_string(alloc)?)?;
    }
    Ok(words)
}

const HELLO: &[u8] = b"ACTOR Future<Void> main(int p) { trace(\"hello\"); return Void(); }";

const HELLO_TRACE: &[u8] =
    b"trace 1\nevent 1 0 boot 0\nstart 1 main\nprint 1 \"hello\"\ndone 1\nend idle\n";

// Whether these words, on a program and a world, with this call of the sink failing, end with status 6 and this text.
fn breaks_off_in(
    alloc: Global,
    texts: &[&str],
    program: &[u8],
    world: &[u8],
    failing: u64,
    text: &[u8],
) -> Result<bool, AllocError> {
    let mut files = two_files(alloc, program, world, Vec::new(alloc))?;
    let mut out = MemSink::new(alloc, vec![in alloc; failing]?);
    let words = words(alloc, texts)?;
    let monitors: Vec<Box<dyn Monitor>> = Vec::new(alloc);
    let told = flow_main(alloc, &words, &mut files, &mut out, monitors);
    Ok(told == 6 && out.bytes() == text)
}

// Whether these words, on a program and a world without a byte, end so.
fn breaks_off(
    alloc: Global,
    texts: &[&str],
    program: &[u8],
    failing: u64,
    text: &[u8],
) -> Result<bool, AllocError> {
    breaks_off_in(alloc, texts, program, b"", failing, text)
}

// Each line goes out in one call, and after them comes one more, which flushes.
#[test]
fn failing_sink(rt: HostRuntime) -> Result<(), AllocError> {
    let alloc = rt.alloc();
    let head = b"trace 1\nevent 1 0 boot 0\nstart 1 main\n";
    assert!(rt; breaks_off(alloc, &["run", "p", "w"], HELLO, 4, head)?);
    assert!(rt; breaks_off(alloc, &["run", "p", "w"], HELLO, 7, HELLO_TRACE)?);
    let lines = b"ACTOR Future<Void> main(int p) {\n    trace(\"hello\");\n";
    assert!(rt; breaks_off(alloc, &["format", "p"], HELLO, 3, lines)?);
    assert!(rt; breaks_off(alloc, &["format", "p"], b"#", 1, b"")?);
    assert!(rt; breaks_off(alloc, &["format", "p"], b"#", 2, b"refused S1 at 1:1\n")?);
    assert!(rt;
        breaks_off(
            alloc,
            &["exec", "p", "w"],
            b"#",
            2,
            b"refused C1 at line 1\n"
        )?
    );
    let summed = b"bench 1 7\nevents 12\n";
    assert!(rt; breaks_off(alloc, &["bench", "1", "7"], b"", 3, summed)?);
    Ok(())
}

// The lines of a run go out as they are made: what stood before the call that failed has gone out.
#[test]
fn streams_to_the_sink(rt: HostRuntime) -> Result<(), AllocError> {
    let alloc = rt.alloc();
    let words = ["run", "p", "w"];
    assert!(rt; breaks_off(alloc, &words, LONG, 2, b"trace 1\n")?);
    let head = b"trace 1\nevent 1 0 boot 0\nstart 1 main\n";
    assert!(rt; breaks_off(alloc, &words, LONG, 4, head)?);
    Ok(())
}

// Fifty actors wait, and each of a million events is followed by two lines of each: too many for any memory.
const LONG: &[u8] = b"\
ACTOR Future<Void> nested(int n) {
    if (n > 0) {
        wait(nested(n - 1));
    }
    wait(Never());
    return Void();
}
ACTOR Future<Void> main(int p) {
    state Future<Void> held = nested(50);
    loop {
        wait(delay(1));
    }
}
";

// A trace isn't gathered before it is written: the first lines of one that is too long for that go out, and there is an end of it.
#[test]
fn gathers_no_trace(rt: HostRuntime) -> Result<(), AllocError> {
    let alloc = rt.alloc();
    let words = ["run", "p", "w", "--frames"];
    let world = b"events 1000000\n";
    let head = b"trace 1\nevent 1 0 boot 0\nstart 1 main\n";
    assert!(rt; breaks_off_in(alloc, &words, LONG, world, 4, head)?);
    Ok(())
}

// Whether these words, with the first call of the files failing, tell it.
fn tells_a_read_fault(alloc: Global, texts: &[&str]) -> Result<bool, AllocError> {
    let mut files = two_files(alloc, HELLO, b"", vec![in alloc; 1]?)?;
    let mut out = MemSink::new(alloc, Vec::new(alloc));
    let words = words(alloc, texts)?;
    let monitors: Vec<Box<dyn Monitor>> = Vec::new(alloc);
    let told = flow_main(alloc, &words, &mut files, &mut out, monitors);
    Ok(told == 5 && out.bytes() == b"read fault\n".as_slice())
}

#[test]
fn failing_files(rt: HostRuntime) -> Result<(), AllocError> {
    let alloc = rt.alloc();
    assert!(rt; tells_a_read_fault(alloc, &["run", "p", "w"])?);
    assert!(rt; tells_a_read_fault(alloc, &["format", "p"])?);
    assert!(rt; tells_a_read_fault(alloc, &["exec", "p", "w"])?);
    Ok(())
}

// What `shrink` is answered where a world stops a program that throws at once, and what is written then.
fn shrunk(
    alloc: Global,
    files_fail: Vec<u64>,
    sink_fails: Vec<u64>,
    text: &[u8],
) -> Result<u8, AllocError> {
    let mut monitors: Vec<Box<dyn Monitor>> = Vec::new(alloc);
    monitors.push(Box::new(alloc, Errors::new())?)?;
    let world = b"at 1 cut 0 0\nat 2 heal 0 0\n";
    let mut files = two_files(alloc, THROWS, world, files_fail)?;
    let mut out = MemSink::new(alloc, sink_fails);
    let words = words(alloc, &["shrink", "p", "w", "--monitor", "errors=0"])?;
    let status = flow_main(alloc, &words, &mut files, &mut out, monitors);
    Ok(if out.bytes() == text { status } else { 255 })
}

const THROWS: &[u8] = b"ACTOR Future<Void> main(int p) { throw timed_out(); }";

#[test]
fn shrinking_with_faults(rt: HostRuntime) -> Result<(), AllocError> {
    let alloc = rt.alloc();
    let none: Vec<u64> = Vec::new(alloc);
    let whole =
        b"seed 0\nprocesses 1\nevents 1000\nturns 100000\nlatency 1 2\ndiskdelay 1 2\nloss 0\n";
    assert_eq!(rt; shrunk(alloc, none, Vec::new(alloc), whole)?, 0);
    assert_eq!(rt;
        shrunk(alloc, vec![in alloc; 1]?, Vec::new(alloc), b"read fault\n")?,
        5
    );
    assert_eq!(rt;
        shrunk(
            alloc,
            Vec::new(alloc),
            vec![in alloc; 3]?,
            b"seed 0\nprocesses 1\n"
        )?,
        6
    );
    Ok(())
}
