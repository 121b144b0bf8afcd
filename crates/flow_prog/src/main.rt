//! flow: one command line over the files of the system and standard output.
#![tactic(auto)]

ghost use Rattle.std.specs.Prelude.{◌≡◌};

mod real;
mod status;
mod waits;

use crate::real::{BeginKept, SystemFiles};
use crate::status::{NO_MEMORY, answer, hand_on_rest, is_accepted, is_noted};
use crate::waits::waits_note;
use flow_base::memory::NoMemory;
use flow_base::sink::Sink;
use flow_lex::lex::lex;
use flow_monitor::{Errors, Live, Monitor, Until};
use flow_parse::parse::parse;
use flow_refusal::{Watcher, left_note, note, painted, warning_note};
use flow_system::gathering::Gathering;
use flow_system::opened::OpenedFiles;
use flow_tree::limits::PROGRAM_BYTES;
use flow_warning::find_warnings;
use flow_worldfile::read_world;
use std::io::{IsTerminal, Write};
use std::process::ExitCode;
use std::{env, io};

/// The words of the command line without the program's name.
fn words(rt: &HostRuntime) -> io::Result<Vec<String>> {
    let mut words = Vec::new(rt.alloc());
    for word in env::args(rt)?.skip(1) {
        words.push(word)?;
    }
    Ok(words)
}

// Whether standard error is a terminal on which colours are wanted: not where NO_COLOR is set to something.
fn wants_colours(rt: &HostRuntime) -> bool {
    if !rt.stderr().is_terminal() {
        return false;
    }
    match env::var(rt, "NO_COLOR") {
        Ok(value) => value.is_empty(),
        Err(_) => true,
    }
}

// Writes a note on a file of this name to standard error. Where that fails, nothing is said: the answer stands.
fn write_told(rt: &HostRuntime, name: &str, told: &[u8]) {
    if told.is_empty() {
        return;
    }
    if wants_colours(rt) {
        if let Ok(text) = painted(rt.alloc(), told, name) {
            let _ = rt.stderr().write_all(&text);
            return;
        }
    }
    let _ = rt.stderr().write_all(told);
}

// Writes the note on what was answered, which begins so.
fn write_note(rt: &HostRuntime, files: &OpenedFiles<SystemFiles>, begin: &[u8]) {
    let told = note(
        rt.alloc(),
        begin,
        files.asked(0),
        files.text(0),
        files.asked(1),
        files.text(1),
    );
    if let Ok(text) = told {
        write_told(rt, files.asked(0), &text);
    }
}

// Writes what is warned of in a program that was accepted.
fn write_warnings(rt: &HostRuntime, name: &str, text: &[u8]) {
    if text.len() > PROGRAM_BYTES {
        return;
    }
    let Ok(tokens) = lex(rt.alloc(), text) else {
        return;
    };
    let Ok(program) = parse(rt.alloc(), &tokens) else {
        return;
    };
    let Ok(warnings) = find_warnings(rt.alloc(), &program.decls) else {
        return;
    };
    if let Ok(told) = warning_note(rt.alloc(), name, text, &warnings) {
        write_told(rt, name, &told);
    }
}

// Writes what is said of an answer that is no refusal.
fn write_end(rt: &HostRuntime, watcher: &Watcher, status: u8) {
    if let Ok(told) = watcher.note(rt.alloc(), status) {
        write_told(rt, "", &told);
    }
}

// Writes how many lines of the script of a world file are left to standard error. Where that fails, nothing is said.
fn write_left(rt: &HostRuntime, world: &[u8], left: usize) {
    let Ok(world) = read_world(rt.alloc(), world) else {
        return;
    };
    if let Ok(text) = left_note(rt.alloc(), left, world.script.len()) {
        let _ = rt.stderr().write_all(&text);
    }
}

// Writes where the actors of these lines wait to standard error. Where that fails, nothing is said.
fn write_waits(rt: &HostRuntime, files: &OpenedFiles<SystemFiles>, lines: &[u8]) {
    if let Ok(text) = waits_note(rt.alloc(), lines, files.asked(0), files.text(0)) {
        let _ = rt.stderr().write_all(&text);
    }
}

// What is told besides the answer: warnings on a program that is judged, how many lines a script has left, where actors wait.
#[derive(Clone, Copy)]
struct Asked {
    judges: bool,
    shrinks: bool,
    debugs: bool,
}

impl Asked {
    // By the first of the words.
    fn by(words: &io::Result<Vec<String>>) -> Asked {
        let command = match words {
            Ok(words) => words.first(),
            Err(_) => None,
        };
        let command = match command {
            Some(word) => word.as_str(),
            None => "",
        };
        Asked {
            judges: command == "check" || command == "compile" || command == "run",
            shrinks: command == "shrink",
            debugs: command == "debug",
        }
    }
}

// Tells on standard error what there is to say of an answer of this status, which stays.
fn told<S: Sink>(
    rt: &HostRuntime,
    asked: Asked,
    files: &OpenedFiles<SystemFiles>,
    out: &BeginKept<S>,
    status: u8,
) -> u8
    ensures { result ≡ status }
{
    if is_noted(status) {
        write_note(rt, files, out.begin());
    }
    if asked.shrinks && status == 0 {
        write_left(rt, files.text(1), out.script());
    }
    if asked.debugs && status == 0 {
        write_waits(rt, files, out.waits());
    }
    if asked.judges && is_accepted(status) {
        write_warnings(rt, files.asked(0), files.text(0));
    }
    write_end(rt, out.watcher(), status);
    status
}

// Does what the words say, with the shipped monitors at hand, and gives the status.
fn run(rt: &HostRuntime) -> Result<u8, NoMemory> {
    let alloc = rt.alloc();
    let mut monitors: Vec<Box<dyn Monitor>> = Vec::new(alloc);
    monitors.push(Box::new(alloc, Live::new())?)?;
    monitors.push(Box::new(alloc, Errors::new())?)?;
    monitors.push(Box::new(alloc, Until::new())?)?;
    let mut files = OpenedFiles::new(alloc, SystemFiles::new(rt));
    let mut out = BeginKept::new(alloc, Gathering::new(alloc, io::writer(rt)));
    let words = words(rt);
    let asked = Asked::by(&words);
    let status = answer(alloc, words, &mut files, &mut out, monitors);
    hand_on_rest(status, &mut out);
    Ok(told(rt, asked, &files, &out, status))
}

fn main(rt: HostRuntime) -> ExitCode {
    match run(&rt) {
        Ok(status) => ExitCode::from(status),
        Err(_) => ExitCode::from(NO_MEMORY),
    }
}
