// The note on what was answered.

ghost use Rattle.std.specs.Prelude.{◌≡◌, ◌++◌, ℕ, List, true, codes, decimal, IfOk};
ghost use Rattle.flow_tree.specs.declared.fault.SourceFault.TheVariants.{Refused, AcrossWait};
ghost use Rattle.flow_refusal.specs.Refusal.{refusal_text, class_refusal};
ghost use Rattle.flow_refusal.specs.Note.{line_at, window, said, remark, overall, line_remark, left_note, program_note, class_note, world_note, Notes};

use crate::excerpt::{line_at, put_excerpt, put_window};
use crate::line::put_place;
use crate::reading::{read_class_refusal, read_refusal, read_world_refusal};
use crate::saying::{class_more, program_more, script_words, sentence, world_more};
use crate::words::{ACROSS_WAIT, USAGE, class_words, rule_words, world_words};
use flow_base::memory::NoMemory;
use flow_base::place::Place;
use flow_classread::fault::ClassFault;
use flow_hint::program_hint;
use flow_tree::fault::{Rule, SourceFault};
use flow_worldfile::WorldFault;
use itoa::Buffer;
use std::alloc::Global;

// Adds words behind what they are said of.
fn put_said(out: &mut Vec<u8>, words: &[u8]) -> Result<(), NoMemory>
    ensures { IfOk result (λ _. out.new.items ≡ out.old.items ++ said words.now) }
{
    out.extend_from_slice(b": ")?;
    out.extend_from_slice(words)?;
    out.extend_from_slice(b"\n")?;
    Ok(())
}

/// Adds a place in a file, words on it, and the excerpt.
pub fn put_remark(
    out: &mut Vec<u8>,
    name: &str,
    text: &[u8],
    at: Place,
    words: &[u8],
) -> Result<(), NoMemory>
    ensures { IfOk result (λ _. out.new.items
        ≡ out.old.items ++ remark name.now text.now at words.now) }
{
    out.extend_from_slice(name.as_bytes())?;
    out.extend_from_slice(b":")?;
    put_place(out, at)?;
    put_said(out, words)?;
    put_excerpt(out, text, at)?;
    Ok(())
}

// Adds words on a file as a whole.
fn put_overall(out: &mut Vec<u8>, name: &str, words: &[u8]) -> Result<(), NoMemory>
    ensures { IfOk result (λ _. out.new.items ≡ out.old.items ++ overall name.now words.now) }
{
    out.extend_from_slice(name.as_bytes())?;
    put_said(out, words)?;
    Ok(())
}

// Adds a line of a text, from its begin.
fn put_line(out: &mut Vec<u8>, text: &[u8], line: u32) -> Result<(), NoMemory>
    ensures { IfOk result (λ _. out.new.items
        ≡ out.old.items ++ (window (line_at text.now line) 0 ++ codes "\n")) }
{
    put_window(out, line_at(text, line), 0)?;
    out.extend_from_slice(b"\n")?;
    Ok(())
}

// Adds words on a line of a file, and the line.
fn put_line_remark(
    out: &mut Vec<u8>,
    name: &str,
    text: &[u8],
    line: u32,
    words: &[u8],
) -> Result<(), NoMemory>
    ensures { IfOk result (λ _. out.new.items
        ≡ out.old.items ++ line_remark name.now text.now line words.now) }
{
    out.extend_from_slice(name.as_bytes())?;
    out.extend_from_slice(b":")?;
    out.extend_from_slice(Buffer::new().format(line).as_bytes())?;
    put_said(out, words)?;
    put_line(out, text, line)?;
    Ok(())
}

// Adds the remark on a rule, where it has a place.
fn put_rule_remark(
    out: &mut Vec<u8>,
    name: &str,
    text: &[u8],
    rule: Rule,
    at: Place,
    words: &[u8],
) -> Result<(), NoMemory>
    ensures { IfOk result (λ _. out.new.items
        ≡ out.old.items ++ program_note words.now name.now text.now (Refused rule at)) }
{
    match rule {
        Rule::S(_) => put_remark(out, name, text, at, words),
        Rule::L(number) => {
            if number == 1 {
                return put_overall(out, name, words);
            }
            put_remark(out, name, text, at, words)
        }
        Rule::K(_) => put_remark(out, name, text, at, words),
    }
}

// Adds the remarks on a local that is lost, on its declaration and on the wait.
fn put_lost(
    out: &mut Vec<u8>,
    name: &str,
    text: &[u8],
    at: Place,
    declared: Place,
    wait: Place,
    words: &[u8],
) -> Result<(), NoMemory>
    ensures { IfOk result (λ _. out.new.items
        ≡ out.old.items ++ program_note words.now name.now text.now (AcrossWait at declared wait)) }
{
    put_remark(out, name, text, at, words)?;
    put_remark(out, name, text, declared, b"declared here")?;
    put_remark(out, name, text, wait, b"the wait")?;
    Ok(())
}

// The note on a program, with more behind.
fn on_program(
    alloc: Global,
    name: &str,
    text: &[u8],
    fault: &SourceFault,
    words: &[u8],
    more: &[u8],
) -> Result<Vec<u8>, NoMemory>
    ensures { IfOk result (λ v. v.items
        ≡ program_note words.now name.now text.now fault.now ++ more.now) }
{
    let mut out = Vec::new(alloc);
    match fault {
        SourceFault::Refused { rule, at } => {
            put_rule_remark(&mut out, name, text, *rule, *at, words)?
        }
        SourceFault::AcrossWait { at, declared, wait } => {
            put_lost(&mut out, name, text, *at, *declared, *wait, words)?
        }
        SourceFault::OutOfMemory => {}
    }
    out.extend_from_slice(more)?;
    Ok(out)
}

// The note on a class text, with more behind.
fn on_class(
    alloc: Global,
    name: &str,
    text: &[u8],
    fault: &ClassFault,
    words: &[u8],
    more: &[u8],
) -> Result<Vec<u8>, NoMemory>
    ensures { IfOk result (λ v. v.items
        ≡ class_note words.now name.now text.now fault.now ++ more.now) }
{
    let mut out = Vec::new(alloc);
    match fault {
        ClassFault::Form(line) => put_line_remark(&mut out, name, text, *line, words)?,
        ClassFault::Invalid { .. } | ClassFault::TooLarge => put_overall(&mut out, name, words)?,
        ClassFault::OutOfMemory => {}
    }
    out.extend_from_slice(more)?;
    Ok(out)
}

// The note on a world file, with more behind.
fn on_world(
    alloc: Global,
    name: &str,
    text: &[u8],
    fault: WorldFault,
    words: &[u8],
    more: &[u8],
) -> Result<Vec<u8>, NoMemory>
    ensures { IfOk result (λ v. v.items
        ≡ world_note words.now name.now text.now fault ++ more.now) }
{
    let mut out = Vec::new(alloc);
    match fault {
        WorldFault::Form(line)
        | WorldFault::Range(line)
        | WorldFault::Twice(line)
        | WorldFault::NoProcess(line) => put_line_remark(&mut out, name, text, line, words)?,
        WorldFault::TooLarge => put_overall(&mut out, name, words)?,
        WorldFault::OutOfMemory => {}
    }
    out.extend_from_slice(more)?;
    Ok(out)
}

// What is said of a fault of a program, where there is a rule that it breaks.
fn fault_words(fault: &SourceFault) -> Option<&'static str> {
    match fault {
        SourceFault::Refused { rule, .. } => rule_words(*rule),
        SourceFault::AcrossWait { .. } => Some(ACROSS_WAIT),
        SourceFault::OutOfMemory => None,
    }
}

// Whether an answer is this line.
fn is_line(answer: &[u8], line: &[u8]) -> bool
    ensures { result ≡ true → answer.now ≡ line.now }
{
    answer == line
}

// The note on a command that isn't one.
fn on_usage(alloc: Global) -> Result<Vec<u8>, NoMemory> {
    let mut out = Vec::new(alloc);
    out.extend_from_slice(USAGE.as_bytes())?;
    Ok(out)
}

// The note on a file that can't be read: the one that was asked for last.
fn on_read_fault(alloc: Global, name: &str, world: &str) -> Result<Vec<u8>, NoMemory> {
    let mut out = Vec::new(alloc);
    let last = if world.is_empty() { name } else { world };
    put_overall(&mut out, last, b"this file can't be read")?;
    Ok(out)
}

// The note on a line that tells a fault of the world file, and none on another.
#[tactic(auto, using(crate::proofs::Noting::world_noted, crate::proofs::Noting::nothing_noted))]
fn on_world_line(
    alloc: Global,
    answer: &[u8],
    name: &str,
    text: &[u8],
    world: &str,
    world_text: &[u8],
) -> Result<Vec<u8>, NoMemory>
    ensures { IfOk result (λ v. Notes answer.now name.now text.now world.now world_text.now
        v.items) }
{
    match read_world_refusal(alloc, answer)? {
        Some(fault) => {
            let more = world_more(alloc, world_text, fault)?;
            on_world(
                alloc,
                world,
                world_text,
                fault,
                world_words(fault).as_bytes(),
                &more,
            )
        }
        None => Ok(Vec::new(alloc)),
    }
}

// The note on a fault of a program that a line tells, and none where no rule has its number.
#[tactic(auto, using(crate::proofs::Noting::program_noted, crate::proofs::Noting::nothing_noted))]
fn on_fault(
    alloc: Global,
    answer: &[u8],
    name: &str,
    text: &[u8],
    world: &str,
    world_text: &[u8],
    fault: &SourceFault,
) -> Result<Vec<u8>, NoMemory>
    requires { answer.now ≡ refusal_text fault.now }
    ensures { IfOk result (λ v. Notes answer.now name.now text.now world.now world_text.now
        v.items) }
{
    let Some(words) = fault_words(fault) else {
        return Ok(Vec::new(alloc));
    };
    let hint = program_hint(alloc, text, fault)?;
    let words = sentence(alloc, words, &hint)?;
    let more = program_more(alloc, name, text, fault, &hint)?;
    on_program(alloc, name, text, fault, &words, &more)
}

// The note on a fault of a class text that a line tells, and none where no rule has its number.
#[tactic(auto, using(crate::proofs::Noting::class_noted, crate::proofs::Noting::nothing_noted))]
fn on_class_fault(
    alloc: Global,
    answer: &[u8],
    name: &str,
    text: &[u8],
    world: &str,
    world_text: &[u8],
    fault: &ClassFault,
) -> Result<Vec<u8>, NoMemory>
    requires { answer.now ≡ class_refusal fault.now }
    ensures { IfOk result (λ v. Notes answer.now name.now text.now world.now world_text.now
        v.items) }
{
    match class_words(fault) {
        Some(words) => {
            let more = class_more(alloc, text, fault)?;
            on_class(alloc, name, text, fault, words.as_bytes(), &more)
        }
        None => Ok(Vec::new(alloc)),
    }
}

// The note on a line that tells a fault of a class text or of the world file, and none on another.
fn on_other_line(
    alloc: Global,
    answer: &[u8],
    name: &str,
    text: &[u8],
    world: &str,
    world_text: &[u8],
) -> Result<Vec<u8>, NoMemory>
    ensures { IfOk result (λ v. Notes answer.now name.now text.now world.now world_text.now
        v.items) }
{
    match read_class_refusal(alloc, answer)? {
        Some(fault) => on_class_fault(alloc, answer, name, text, world, world_text, &fault),
        None => on_world_line(alloc, answer, name, text, world, world_text),
    }
}

// The note on a line that tells a fault of a file, and none on another.
fn on_line(
    alloc: Global,
    answer: &[u8],
    name: &str,
    text: &[u8],
    world: &str,
    world_text: &[u8],
) -> Result<Vec<u8>, NoMemory>
    ensures { IfOk result (λ v. Notes answer.now name.now text.now world.now world_text.now
        v.items) }
{
    match read_refusal(alloc, answer)? {
        Some(fault) => on_fault(alloc, answer, name, text, world, world_text, &fault),
        None => on_other_line(alloc, answer, name, text, world, world_text),
    }
}

// The note on a script that has too many lines.
fn on_script(alloc: Global, world: &str, words: &[u8]) -> Result<Vec<u8>, NoMemory>
    ensures { IfOk result (λ v. (words : List ℕ) × (v.items ≡ overall world.now words)) }
{
    let mut out = Vec::new(alloc);
    put_overall(&mut out, world, words)?;
    Ok(out)
}

/// The note on a world that was made smaller: how many of the lines of its script are left.
pub fn left_note(alloc: Global, left: usize, all: usize) -> Result<Vec<u8>, NoMemory>
    ensures { IfOk result (λ v. v.items ≡ left_note left all) }
{
    let mut out = Vec::new(alloc);
    out.extend_from_slice(Buffer::new().format(left).as_bytes())?;
    out.extend_from_slice(b" of ")?;
    out.extend_from_slice(Buffer::new().format(all).as_bytes())?;
    if left == 1 {
        out.extend_from_slice(b" lines is left\n")?;
    } else {
        out.extend_from_slice(b" lines are left\n")?;
    }
    Ok(out)
}

/// The note on a line that was answered, where the program or class text has this name and text and the world that, each as far as it was
/// read: for a refusal the place that the line tells, what the rule asks in a sentence, and the line of the text with a mark
/// under the place; for a lost local its declaration and the wait likewise; for `usage` how the commands are called; for
/// `read fault` the file; for a script with too many lines the world. On any other line nothing is noted.
#[tactic(auto, using(crate::proofs::Noting::usage_noted, crate::proofs::Noting::file_noted, crate::proofs::Noting::script_noted))]
pub fn note(
    alloc: Global,
    answer: &[u8],
    name: &str,
    text: &[u8],
    world: &str,
    world_text: &[u8],
) -> Result<Vec<u8>, NoMemory>
    ensures { IfOk result (λ v. Notes answer.now name.now text.now world.now world_text.now
        v.items) }
{
    if is_line(answer, b"usage\n") {
        let out = on_usage(alloc)?;
        return Ok(out);
    }
    if is_line(answer, b"read fault\n") {
        let out = on_read_fault(alloc, name, world)?;
        return Ok(out);
    }
    if is_line(answer, b"refused L13\n") {
        let words = script_words(alloc)?;
        let out = on_script(alloc, world, &words)?;
        return Ok(out);
    }
    on_line(alloc, answer, name, text, world, world_text)
}
