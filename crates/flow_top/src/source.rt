// Where the texts come from that a request is about.

ghost use Rattle.std.specs.Prelude.{◌≡◌, ℕ, List, IfOk, option_map};
ghost use Rattle.flow_base.specs.Seen.{FilesSeen};
ghost use Rattle.flow_words.specs.Asked.{request_of};
ghost use Rattle.flow_top.specs.Outcomes.{outcome_of};
ghost use Rattle.flow_top.specs.Sources.{of_file, generated, first_source, world_source, source_of};
ghost use Rattle.flow_top.specs.Steps.{TextRead};

use crate::outcome::Answered;
use flow_base::fault::OutFault;
use flow_base::files::Files;
use flow_base::input::read_file;
use flow_base::memory::NoMemory;
use flow_classread::read::CLASS_BYTES;
use flow_gen::{gen_program, gen_world};
use flow_tree::limits::PROGRAM_BYTES;
use flow_words::Asked;
use flow_worldfile::WORLD_BYTES;
use std::alloc::Global;

/// Where a text comes from.
#[derive(Clone, Copy)]
pub enum Source<'a> {
    /// The file of a name, with the most bytes of a text of its kind.
    File(&'a str, usize),
    /// The generated program with so many clients.
    GeneratedProgram(u32),
    /// The generated world with so many clients, of this seed.
    GeneratedWorld(u32, u64),
}

/// Where the text comes from that a request begins with: a program's, or a class text.
pub fn first_source<'a>(asked: &Asked<'a>) -> Source<'a>
    ensures { source_of result ≡ first_source (request_of asked.now) }
{
    match asked {
        Asked::Format(program) | Asked::Check(program) | Asked::Compile(program) => {
            Source::File(program, PROGRAM_BYTES)
        }
        Asked::Run(run) => Source::File(run.what, PROGRAM_BYTES),
        Asked::Exec(run) => Source::File(run.what, CLASS_BYTES),
        Asked::Shrink(shrink) => Source::File(shrink.program, PROGRAM_BYTES),
        Asked::Debug(debug) => Source::File(debug.program, PROGRAM_BYTES),
        Asked::Upgrade(classes) => Source::File(classes, CLASS_BYTES),
        Asked::Bench(clients, _) => Source::GeneratedProgram(*clients),
    }
}

/// Where the text of the world comes from, if something is run.
pub fn world_source<'a>(asked: &Asked<'a>) -> Option<Source<'a>>
    ensures { option_map source_of result ≡ world_source (request_of asked.now) }
{
    match asked {
        Asked::Run(run) | Asked::Exec(run) => Some(Source::File(run.world, WORLD_BYTES)),
        Asked::Bench(clients, seed) => Some(Source::GeneratedWorld(*clients, *seed)),
        Asked::Shrink(shrink) => Some(Source::File(shrink.world, WORLD_BYTES)),
        Asked::Debug(debug) => Some(Source::File(debug.world, WORLD_BYTES)),
        Asked::Format(_) | Asked::Check(_) | Asked::Compile(_) | Asked::Upgrade(_) => None,
    }
}

// What a fault of the files comes to.
fn fault_outcome(fault: OutFault) -> Answered
    ensures { result ≡ outcome_of fault }
{
    match fault {
        OutFault::Failed => Answered::ReadFault,
        OutFault::OutOfMemory => Answered::OutOfMemory,
    }
}

// The bytes of the file of this name, one past the limit of a text at most, or what the command comes to without them.
fn bytes_of<F: Files>(
    alloc: Global,
    name: &str,
    most: usize,
    files: &mut F,
) -> Result<Vec<u8>, Answered>
    ensures content { (F.seen files.new).content ≡ (F.seen files.old).content }
    ensures read { TextRead (of_file name.now most) (F.seen files.old) (F.seen files.new) result }
{
    match read_file(alloc, files, name, most) {
        Ok(bytes) => Ok(bytes),
        Err(fault) => Err(fault_outcome(fault)),
    }
}

// A text that was generated, if there was memory for it.
fn generated(text: Result<Vec<u8>, NoMemory>) -> Result<Vec<u8>, Answered>
    ensures { (own : List ℕ) (files : FilesSeen) → IfOk text (λ v. v.items ≡ own)
        → TextRead (generated own) files files result }
{
    match text {
        Ok(text) => Ok(text),
        Err(_) => Err(Answered::OutOfMemory),
    }
}

/// The text from a source, of a file one byte past the limit at most, or what the command comes to without it.
pub fn read_text<F: Files>(
    alloc: Global,
    source: Source<'_>,
    files: &mut F,
) -> Result<Vec<u8>, Answered>
    ensures content { (F.seen files.new).content ≡ (F.seen files.old).content }
    ensures read { TextRead (source_of source.entry) (F.seen files.old) (F.seen files.new) result }
{
    match source {
        Source::File(name, most) => bytes_of(alloc, name, most, files),
        Source::GeneratedProgram(clients) => generated(gen_program(alloc, clients)),
        Source::GeneratedWorld(clients, seed) => generated(gen_world(alloc, clients, seed)),
    }
}
