// The texts of blocks and groups.

ghost use Rattle.std.specs.Prelude.{◌≡◌, ◌++◌, codes, decimal, map, IfOk};
ghost use Rattle.std.specs.Option.{option_map};
ghost use Rattle.flow_tree.specs.View.{expr_of};
ghost use Rattle.flow_tree.specs.Canon.{line, expr_text};
ghost use Rattle.flow_class.specs.View.{catcher_of, instr_of, block_of, callback_of, group_of};
ghost use Rattle.flow_classprint.specs.ClassText.{all_text, numbered, catch_text, instr_line, block_text, wait_text, into_text, operand_text, destination_text, callback_text, group_text};

use crate::instr::{
    put_catch, put_count, put_instr_line, put_last_line, put_number, put_place, sum,
};
use flow_base::memory::NoMemory;
use flow_class::class::{Block, Callback, Catcher, Group, Instr, Slotted};
use flow_show::source::Source;

// Adds the line with which a block begins.
fn put_block_begin(
    out: &mut Source,
    number: usize,
    catcher: &Option<Catcher>,
) -> Result<(), NoMemory>
    ensures { IfOk result (λ _. out.new ≡ out.old ++ line 1 (codes "block " ++ decimal number
        ++ catch_text (option_map catcher_of catcher.now) ++ codes " {")) }
{
    out.put_indent(1)?;
    out.put(b"block ")?;
    put_count(out, number)?;
    put_catch(out, catcher)?;
    out.put(b" {\n")?;
    Ok(())
}

// Adds instructions, each on its line.
fn put_instrs(out: &mut Source, body: &[Instr]) -> Result<(), NoMemory>
    ensures { IfOk result (λ _. out.new ≡ out.old ++ all_text instr_line (map instr_of body.now)) }
{
    for instr in body {
        put_instr_line(out, instr)?;
    }
    Ok(())
}

/// Adds a line that closes braces at the first level.
pub fn put_close(out: &mut Source) -> Result<(), NoMemory>
    ensures { IfOk result (λ _. out.new ≡ out.old ++ line 1 (codes "}")) }
{
    out.put_indent(1)?;
    out.put(b"}\n")?;
    Ok(())
}

/// Adds a block.
pub fn put_block(out: &mut Source, number: usize, block: &Block) -> Result<(), NoMemory>
    ensures { IfOk result (λ _. out.new ≡ out.old ++ block_text number (block_of block.now)) }
{
    put_block_begin(out, number, &block.catcher)?;
    put_instrs(out, &block.body)?;
    put_last_line(out, &block.last)?;
    put_close(out)?;
    Ok(())
}

// Adds the word of a wait.
fn put_wait(out: &mut Source, next: bool) -> Result<(), NoMemory>
    ensures { IfOk result (λ _. out.new ≡ out.old ++ wait_text next) }
{
    if next {
        out.put(b" waitNext(")
    } else {
        out.put(b" wait(")
    }
}

// Adds the place that takes a value, if there is one.
fn put_into(out: &mut Source, into: Option<Slotted>) -> Result<(), NoMemory>
    ensures { IfOk result (λ _. out.new ≡ out.old ++ into_text into) }
{
    match into {
        None => Ok(()),
        Some(place) => {
            out.put(b" into ")?;
            put_place(out, place)?;
            Ok(())
        }
    }
}

// Adds what a callback waits for.
fn put_operand(out: &mut Source, number: usize, callback: &Callback) -> Result<(), NoMemory>
    ensures { IfOk result (λ _. out.new
        ≡ out.old ++ operand_text number (callback_of callback.now)) }
{
    out.put(b"callback ")?;
    put_count(out, number)?;
    put_wait(out, callback.next)?;
    out.put_expr(&callback.operand)?;
    out.put(b")")?;
    Ok(())
}

// Adds where a value goes, and where the branch goes on.
fn put_destination(out: &mut Source, callback: &Callback) -> Result<(), NoMemory>
    ensures { IfOk result (λ _. out.new ≡ out.old ++ destination_text (callback_of callback.now)) }
{
    put_into(out, callback.into)?;
    out.put(b" goto ")?;
    put_number(out, callback.block)?;
    out.put(b";")?;
    Ok(())
}

// Adds the line of a callback.
fn put_callback(out: &mut Source, number: usize, callback: &Callback) -> Result<(), NoMemory>
    ensures { IfOk result (λ _. out.new
        ≡ out.old ++ callback_text number (callback_of callback.now)) }
{
    out.put_indent(2)?;
    put_operand(out, number, callback)?;
    put_destination(out, callback)?;
    out.put(b"\n")?;
    Ok(())
}

// Adds callbacks, each on its line, the first with this number.
fn put_callbacks(out: &mut Source, first: usize, callbacks: &[Callback]) -> Result<(), NoMemory>
    ensures { IfOk result (λ _. out.new
        ≡ out.old ++ numbered callback_text first (map callback_of callbacks.now)) }
{
    let mut number = first;
    for callback in callbacks {
        put_callback(out, number, callback)?;
        number = sum(number, 1)?;
    }
    Ok(())
}

/// Adds a group, whose first callback has this number.
pub fn put_group(
    out: &mut Source,
    number: usize,
    first: usize,
    group: &Group,
) -> Result<(), NoMemory>
    ensures { IfOk result (λ _. out.new ≡ out.old ++ group_text number first (group_of group.now)) }
{
    out.put_indent(1)?;
    out.put(b"group ")?;
    put_count(out, number)?;
    out.put(b" {\n")?;
    put_callbacks(out, first, &group.callbacks)?;
    put_close(out)?;
    Ok(())
}
