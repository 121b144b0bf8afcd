// The canonical text of a program.

ghost use Rattle.std.specs.Prelude.{◌≡◌, ◌<◌, ◌≤◌, length, IfOk, OnOk};
ghost use Rattle.std.specs.Io.KnownBytes.{Appends};
ghost use Rattle.flow_base.specs.Bytes.{AppendsPart, Grows};
ghost use Rattle.flow_base.specs.Faults.{HasCause};
ghost use Rattle.flow_tree.specs.DeclView.{decl_of, program_of};
ghost use Rattle.flow_tree.specs.Canon.{decl_text, decls_text, Canon};

use crate::source::Source;
use flow_base::fault::OutFault;
use flow_base::memory::NoMemory;
use flow_base::output::write_whole;
use flow_base::sink::Sink;
use flow_tree::decl::{Decl, Program};
use std::alloc::Global;

/// The canonical text of a program.
pub fn show(alloc: Global, program: &Program) -> Result<Vec<u8>, NoMemory>
    ensures { IfOk result (λ v. v.items ≡ Canon (program_of program.now)) }
{
    let mut source = Source::new(alloc);
    for decl in &program.decls {
        source.put_decl(decl)?;
    }
    Ok(source.into_bytes())
}

/// Writes the canonical text of a program, each line of it by one call where the sink takes it whole.
/// What was written is always a first part of the text. `Failed` comes only where the sink's count
/// rose. One declaration at a time is held in memory.
pub fn show_lines<S: Sink>(alloc: Global, program: &Program, out: &mut S) -> Result<(), OutFault>
    ensures whole { OnOk result (Appends (S.seen out.old).written (S.seen out.new).written
        (Canon (program_of program.now))) }
    ensures part { AppendsPart (S.seen out.old).written (S.seen out.new).written
        (Canon (program_of program.now)) }
    ensures handed { Grows (S.seen out.old).handed (S.seen out.new).handed }
    ensures cause { HasCause (S.seen out.old).faults (S.seen out.new).faults result }
{
    for decl in &program.decls {
        let Ok(text) = show_decl(alloc, decl) else {
            return Err(OutFault::OutOfMemory);
        };
        write_lines(out, &text)?;
    }
    Ok(())
}

// The canonical text of a declaration.
fn show_decl(alloc: Global, decl: &Decl) -> Result<Vec<u8>, NoMemory>
    ensures { IfOk result (λ v. v.items ≡ decl_text (decl_of decl.now)) }
{
    let mut source = Source::new(alloc);
    source.put_decl(decl)?;
    Ok(source.into_bytes())
}

// How many bytes the first line of a text has, with its line feed.
fn line_length(text: &[u8]) -> usize
    requires { 0 < length text.now }
    ensures some { 0 < result }
    ensures within { result ≤ length text.now }
{
    let before = text.iter().take_while(|byte| **byte != b'\n').count();
    if before < text.len() {
        before + 1
    } else {
        before
    }
}

/// Writes a text, each line of it by one call where the sink takes it whole. What was written is
/// always a first part of the text. `Failed` comes only where the sink's count rose.
pub fn write_lines<S: Sink>(out: &mut S, text: &[u8]) -> Result<(), OutFault>
    ensures whole { OnOk result (Appends (S.seen out.old).written (S.seen out.new).written
        text.now) }
    ensures part { AppendsPart (S.seen out.old).written (S.seen out.new).written text.now }
    ensures handed { Grows (S.seen out.old).handed (S.seen out.new).handed }
    ensures cause { HasCause (S.seen out.old).faults (S.seen out.new).faults result }
{
    let mut rest = text;
    while !rest.is_empty() {
        let count = line_length(rest);
        write_whole(out, &rest[..count])?;
        rest = &rest[count..];
    }
    Ok(())
}
