// What is said of a run when it is over.

use flow_base::memory::NoMemory;
use itoa::Buffer;
use std::alloc::Global;

/// The actor `main` of a process.
#[derive(Clone, Copy)]
struct Main {
    process: u64,
    actor: u64,
}

/// A `main` that failed: its process, the error, and the number of the event.
#[derive(Clone, Copy)]
struct Failure {
    process: u64,
    error: u64,
    event: u64,
}

/// Looks at the lines of a trace while they are written, and remembers what is said of the run: the event, the last line of an actor,
/// the line at which that actor began to run, and each `main` that failed.
#[derive(Drop)]
pub struct Watcher {
    event: u64,
    process: u64,
    last: Vec<u8>,
    begun: Vec<u8>,
    mains: Vec<Main>,
    failures: Vec<Failure>,
}

// How many bytes of a line are kept.
const KEPT: usize = 80;

// The field of a line with a number, from 0.
fn field(line: &[u8], number: usize) -> &[u8] {
    for (at, part) in line.split(|byte| *byte == b' ').enumerate() {
        if at == number {
            return part;
        }
    }
    &[]
}

// The number that these digits spell, up to what is none.
fn number(digits: &[u8]) -> u64 {
    let mut value: u64 = 0;
    for byte in digits {
        if !byte.is_ascii_digit() {
            return value;
        }
        let digit = u64::from(byte.saturating_sub(b'0'));
        value = value.saturating_mul(10).saturating_add(digit);
    }
    value
}

// A line without its line feed, as far as it is kept.
fn kept(line: &[u8]) -> &[u8] {
    let line = match line {
        [rest @ .., b'\n'] => rest,
        _ => line,
    };
    match line.get(..KEPT) {
        Some(begin) => begin,
        None => line,
    }
}

fn replace(old: &mut Vec<u8>, line: &[u8]) {
    old.clear();
    let _ = old.extend_from_slice(kept(line));
}

// The name of an error that has one.
fn error_name(error: u64) -> &'static [u8] {
    match error {
        1 => b" (end_of_stream)",
        1004 => b" (timed_out)",
        1100 => b" (broken_promise)",
        1101 => b" (operation_cancelled)",
        9001 => b" (arithmetic out of range, or calls too deep)",
        9002 => b" (a string or a vector is too long)",
        9003 => b" (a second waiter at one stream)",
        9004 => b" (a send on a set result or an ended stream)",
        9005 => b" (a port that is listened to)",
        9006 => b" (`get` of a future that isn't ready)",
        9007 => b" (an argument out of range)",
        9008 => b" (a disk request failed)",
        _ => b"",
    }
}

fn put_number(out: &mut Vec<u8>, number: u64) -> Result<(), NoMemory> {
    out.extend_from_slice(Buffer::new().format(number).as_bytes())?;
    Ok(())
}

impl Watcher {
    /// Nothing was seen yet.
    pub fn new(alloc: Global) -> Watcher {
        Watcher {
            event: 0,
            process: 0,
            last: Vec::new(alloc),
            begun: Vec::new(alloc),
            mains: Vec::new(alloc),
            failures: Vec::new(alloc),
        }
    }

    /// Looks at a line.
    pub fn see(&mut self, line: &[u8]) {
        if line.starts_with(b"event ") {
            self.event = number(field(line, 1));
            self.process = number(field(line, 4));
            self.begun.clear();
            return;
        }
        if line.starts_with(b"start ") {
            self.started(line);
        } else if line.starts_with(b"take ") {
            replace(&mut self.begun, line);
        } else if line.starts_with(b"fail ") {
            self.failed(line);
        }
        if !line.starts_with(b"end ")
            && !line.starts_with(b"frame ")
            && !line.starts_with(b"callback ")
        {
            replace(&mut self.last, line);
        }
    }

    fn started(&mut self, line: &[u8]) {
        replace(&mut self.begun, line);
        if field(line, 2) == b"main\n".as_slice() {
            let _ = self.mains.push(Main {
                process: self.process,
                actor: number(field(line, 1)),
            });
        }
    }

    fn failed(&mut self, line: &[u8]) {
        let actor = number(field(line, 1));
        let process = self.process;
        if self
            .mains
            .iter()
            .any(|main| main.actor == actor && main.process == process)
        {
            let _ = self.failures.push(Failure {
                process,
                error: number(field(line, 2)),
                event: self.event,
            });
        }
    }

    /// What is said of a run that ended with this status.
    pub fn note(&self, alloc: Global, status: u8) -> Result<Vec<u8>, NoMemory> {
        let mut out = Vec::new(alloc);
        match status {
            4 => self.put_spent(&mut out)?,
            6 => out.extend_from_slice(
                b"a write failed; what is out is a first part of what is due\n",
            )?,
            7 => out.extend_from_slice(
                b"there was no memory; what is out is a first part of what is due\n",
            )?,
            14 => out.extend_from_slice(
                b"the words of the command line can't be had from the system\n",
            )?,
            _ => {}
        }
        for failure in &self.failures {
            put_failure(&mut out, *failure)?;
        }
        if !self.failures.is_empty() && status == 0 {
            out.extend_from_slice(
                b"help: the status stays 0; `--monitor errors=0` stops a run at its first error, with status 8\n",
            )?;
        }
        Ok(out)
    }

    // Says in which event a run was spent, and by whom; nothing where no line of it was written.
    fn put_spent(&self, out: &mut Vec<u8>) -> Result<(), NoMemory> {
        if self.event == 0 {
            return Ok(());
        }
        out.extend_from_slice(b"event ")?;
        put_number(out, self.event)?;
        out.extend_from_slice(
            b" takes more turns than the line `turns` of the world file allows\n",
        )?;
        if !self.begun.is_empty() {
            put_begun(out, self.process, &self.begun)?;
            out.extend_from_slice(b"the last line of the event is `")?;
            out.extend_from_slice(&self.last)?;
            out.extend_from_slice(b"`\n")?;
        }
        out.extend_from_slice(
            b"help: a loop that comes round without a wait lets no time pass; of work that ends raise `turns`\n",
        )?;
        Ok(())
    }
}

// Says by which line the actor began to run that ran last.
fn put_begun(out: &mut Vec<u8>, process: u64, line: &[u8]) -> Result<(), NoMemory> {
    out.extend_from_slice(b"actor ")?;
    out.extend_from_slice(field(line, 1))?;
    out.extend_from_slice(b" of process ")?;
    put_number(out, process)?;
    if line.starts_with(b"take ") {
        out.extend_from_slice(b" ran last: it went on behind wait ")?;
        out.extend_from_slice(field(line, 2))?;
        out.extend_from_slice(b" of its text\n")?;
        return Ok(());
    }
    out.extend_from_slice(b" ran last: it began as `")?;
    out.extend_from_slice(field(line, 2))?;
    out.extend_from_slice(b"`\n")?;
    Ok(())
}

// Says that a `main` failed.
fn put_failure(out: &mut Vec<u8>, failure: Failure) -> Result<(), NoMemory> {
    out.extend_from_slice(b"`main` of process ")?;
    put_number(out, failure.process)?;
    out.extend_from_slice(b" fails in event ")?;
    put_number(out, failure.event)?;
    out.extend_from_slice(b" with error ")?;
    put_number(out, failure.error)?;
    out.extend_from_slice(error_name(failure.error))?;
    out.extend_from_slice(b"\n")?;
    Ok(())
}
