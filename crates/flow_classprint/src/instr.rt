// The texts of places and instructions.

ghost use Rattle.std.specs.Prelude.{◌≡◌, ◌+◌, ◌++◌, codes, decimal, IfOk};
ghost use Rattle.std.specs.Option.{option_map};
ghost use Rattle.std.specs.declared.option.Option.TheVariants.{Some};
ghost use Rattle.flow_tree.specs.View.{expr_of};
ghost use Rattle.flow_tree.specs.Canon.{line, expr_text};
ghost use Rattle.flow_class.specs.Classes.{TestLast};
ghost use Rattle.flow_class.specs.View.{catcher_of, instr_of, last_of};
ghost use Rattle.flow_classprint.specs.ClassText.{local_text, place_text, all_text, further_local, locals_text, error_text, catch_text, instr_text, instr_line, last_text};

use flow_base::memory::NoMemory;
use flow_class::class::{Catcher, Instr, Last, Slotted};
use flow_show::source::Source;
use flow_tree::expr::Expr;
use itoa::Buffer;

/// The sum of two counts. One that has no room is told as want of memory, as no list is so long.
pub fn sum(one: usize, other: usize) -> Result<usize, NoMemory>
    ensures { IfOk result (λ n. n ≡ one + other) }
{
    match one.checked_add(other) {
        Some(sum) => Ok(sum),
        None => Err(NoMemory),
    }
}

/// Adds a number.
pub fn put_number(out: &mut Source, number: u32) -> Result<(), NoMemory>
    ensures { IfOk result (λ _. out.new ≡ out.old ++ decimal number) }
{
    out.put(Buffer::new().format(number).as_bytes())
}

/// Adds the number of a place in a list.
pub fn put_count(out: &mut Source, number: usize) -> Result<(), NoMemory>
    ensures { IfOk result (λ _. out.new ≡ out.old ++ decimal number) }
{
    out.put(Buffer::new().format(number).as_bytes())
}

// Adds a local.
fn put_local(out: &mut Source, number: u32) -> Result<(), NoMemory>
    ensures { IfOk result (λ _. out.new ≡ out.old ++ local_text number) }
{
    out.put(b"l")?;
    put_number(out, number)?;
    Ok(())
}

/// Adds a slot or a local.
pub fn put_place(out: &mut Source, place: Slotted) -> Result<(), NoMemory>
    ensures { IfOk result (λ _. out.new ≡ out.old ++ place_text place) }
{
    match place {
        Slotted::Slot(number) => {
            out.put(b"s")?;
            put_number(out, number)?;
            Ok(())
        }
        Slotted::Local(number) => put_local(out, number),
    }
}

// Adds a local behind a comma.
fn put_further(out: &mut Source, local: u32) -> Result<(), NoMemory>
    ensures { IfOk result (λ _. out.new ≡ out.old ++ further_local local) }
{
    out.put(b", ")?;
    put_local(out, local)?;
    Ok(())
}

// Adds locals, each behind a comma.
fn put_more_locals(out: &mut Source, locals: &[u32]) -> Result<(), NoMemory>
    ensures { IfOk result (λ _. out.new ≡ out.old ++ all_text further_local locals.now) }
{
    for local in locals {
        put_further(out, *local)?;
    }
    Ok(())
}

// Adds locals with a comma between two.
fn put_locals(out: &mut Source, locals: &[u32]) -> Result<(), NoMemory>
    ensures { IfOk result (λ _. out.new ≡ out.old ++ locals_text locals.now) }
{
    if let [first, rest @ ..] = locals {
        put_local(out, *first)?;
        put_more_locals(out, rest)?;
    }
    Ok(())
}

// Adds the local that takes an error.
fn put_error(out: &mut Source, error: Option<u32>) -> Result<(), NoMemory>
    ensures { IfOk result (λ _. out.new ≡ out.old ++ error_text error) }
{
    match error {
        None => Ok(()),
        Some(local) => {
            out.put(b" error ")?;
            put_local(out, local)?;
            Ok(())
        }
    }
}

// Adds where errors go on.
fn put_catcher(out: &mut Source, catcher: &Catcher) -> Result<(), NoMemory>
    ensures { IfOk result (λ _. out.new ≡ out.old ++ catch_text (Some (catcher_of catcher.now))) }
{
    out.put(b" catch ")?;
    put_number(out, catcher.block)?;
    put_error(out, catcher.error)?;
    out.put(b" drop(")?;
    put_locals(out, &catcher.drops)?;
    out.put(b")")?;
    Ok(())
}

/// Adds where errors go on, if they do.
pub fn put_catch(out: &mut Source, catcher: &Option<Catcher>) -> Result<(), NoMemory>
    ensures { IfOk result (λ _. out.new
        ≡ out.old ++ catch_text (option_map catcher_of catcher.now)) }
{
    match catcher {
        None => Ok(()),
        Some(catcher) => put_catcher(out, catcher),
    }
}

// Adds an instruction.
fn put_instr(out: &mut Source, instr: &Instr) -> Result<(), NoMemory>
    ensures { IfOk result (λ _. out.new ≡ out.old ++ instr_text (instr_of instr.now)) }
{
    match instr {
        Instr::Set(target, value) => {
            out.put(b"set ")?;
            out.put_assign(target, value)?;
            Ok(())
        }
        Instr::Effect(target, value) => {
            out.put(b"do ")?;
            out.put_assign(target, value)?;
            Ok(())
        }
        Instr::New(place) => {
            out.put(b"new ")?;
            put_place(out, *place)?;
            Ok(())
        }
        Instr::Act(target, args) => {
            out.put(b"act ")?;
            out.put_call(target, args)?;
            Ok(())
        }
        Instr::Drop(locals) => {
            out.put(b"drop ")?;
            put_locals(out, locals)?;
            Ok(())
        }
    }
}

/// Adds the line of an instruction.
pub fn put_instr_line(out: &mut Source, instr: &Instr) -> Result<(), NoMemory>
    ensures { IfOk result (λ _. out.new ≡ out.old ++ instr_line (instr_of instr.now)) }
{
    out.put_indent(2)?;
    put_instr(out, instr)?;
    out.put(b";\n")?;
    Ok(())
}

// Adds a test and where it leads.
fn put_test(out: &mut Source, condition: &Expr, yes: u32, no: u32) -> Result<(), NoMemory>
    ensures { IfOk result (λ _. out.new
        ≡ out.old ++ last_text (TestLast (expr_of condition.now) yes no)) }
{
    out.put(b"test(")?;
    out.put_expr(condition)?;
    out.put(b") goto ")?;
    put_number(out, yes)?;
    out.put(b" else ")?;
    put_number(out, no)?;
    Ok(())
}

// Adds a word and a number.
fn put_leading(out: &mut Source, word: &[u8], number: u32) -> Result<(), NoMemory>
    ensures { IfOk result (λ _. out.new ≡ out.old ++ (word.now ++ decimal number)) }
{
    out.put(word)?;
    put_number(out, number)?;
    Ok(())
}

// Adds a word and an expression.
fn put_ending(out: &mut Source, word: &[u8], value: &Expr) -> Result<(), NoMemory>
    ensures { IfOk result (λ _. out.new ≡ out.old ++ (word.now ++ expr_text (expr_of value.now))) }
{
    out.put(word)?;
    out.put_expr(value)?;
    Ok(())
}

// Adds the last instruction of a block.
fn put_last(out: &mut Source, last: &Last) -> Result<(), NoMemory>
    ensures { IfOk result (λ _. out.new ≡ out.old ++ last_text (last_of last.now)) }
{
    match last {
        Last::Goto(block) => put_leading(out, b"goto ", *block),
        Last::Pass(block) => put_leading(out, b"pass ", *block),
        Last::Test(condition, yes, no) => put_test(out, condition, *yes, *no),
        Last::Choose(group) => put_leading(out, b"choose ", *group),
        Last::Return(Some(value)) => put_ending(out, b"return ", value),
        Last::Return(None) => out.put(b"return"),
        Last::Throw(error) => put_ending(out, b"throw ", error),
    }
}

/// Adds the line of the last instruction of a block.
pub fn put_last_line(out: &mut Source, last: &Last) -> Result<(), NoMemory>
    ensures { IfOk result (λ _. out.new
        ≡ out.old ++ line 2 (last_text (last_of last.now) ++ codes ";")) }
{
    out.put_indent(2)?;
    put_last(out, last)?;
    out.put(b";\n")?;
    Ok(())
}
