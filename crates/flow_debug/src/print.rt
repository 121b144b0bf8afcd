// The text of a view.

ghost use Rattle.std.specs.Prelude.{◌≡◌, ◌++◌, map, IfOk, OnOk, codes, decimal};
ghost use Rattle.std.specs.List.{flat_map};
ghost use Rattle.flow_debug.specs.Seen.{VariableSeen};
ghost use Rattle.flow_debug.specs.ViewText.{line_end, actor_words, actor_line, branch_lines, variable_line, actor_lines, view_head};
ghost use Rattle.flow_debug.specs.Views.{cell_number, variable_of, view_of};

use crate::view::{ActorView, VarView};
use flow_base::ids::CellId;
use flow_base::memory::NoMemory;
use flow_valuetext::put_value;
use itoa::Buffer;
use std::alloc::Global;

// Adds bytes.
fn put(out: &mut Vec<u8>, bytes: &[u8]) -> Result<(), NoMemory>
    ensures { OnOk result (out.new.items ≡ out.old.items ++ bytes.now) }
{
    out.extend_from_slice(bytes)?;
    Ok(())
}

// Adds a number, and what stands behind it.
fn put_number(out: &mut Vec<u8>, number: u64, behind: &[u8]) -> Result<(), NoMemory>
    ensures { OnOk result (out.new.items ≡ out.old.items ++ (decimal number ++ behind.now)) }
{
    put(out, Buffer::new().format(number).as_bytes())?;
    put(out, behind)
}

// Adds the first word of a line, and the actor that the line is about.
fn put_actor(out: &mut Vec<u8>, word: &[u8], view: &ActorView) -> Result<(), NoMemory>
    ensures { OnOk result (out.new.items
        ≡ out.old.items ++ (word.now ++ actor_words view.now.process.0 view.now.actor.0)) }
{
    put(out, word)?;
    put_number(out, u64::from(view.process.0), b" ")?;
    put_number(out, view.actor.0, b" ")
}

// Adds the line of an actor.
fn put_head(out: &mut Vec<u8>, view: &ActorView) -> Result<(), NoMemory>
    ensures { OnOk result (out.new.items ≡ out.old.items ++ actor_line (view_of view.now)) }
{
    put_actor(out, b"actor ", view)?;
    put(out, view.name.bytes())?;
    put(out, b" ")?;
    put_number(out, u64::from(view.group), b" at ")?;
    put_number(out, u64::from(view.at.line), b":")?;
    put_number(out, u64::from(view.at.column), b"\n")
}

// Adds the line of a branch.
fn put_branch(
    out: &mut Vec<u8>,
    view: &ActorView,
    branch: u64,
    cell: CellId,
) -> Result<(), NoMemory>
    ensures { OnOk result (out.new.items ≡ out.old.items
        ++ (codes "branch " ++ actor_words view.now.process.0 view.now.actor.0
        ++ decimal branch ++ codes " " ++ decimal cell.0 ++ line_end)) }
{
    put_actor(out, b"branch ", view)?;
    put_number(out, branch, b" ")?;
    put_number(out, cell.0, b"\n")
}

// Adds the lines of the branches.
fn put_branches(out: &mut Vec<u8>, view: &ActorView) -> Result<(), NoMemory>
    ensures { OnOk result (out.new.items ≡ out.old.items
        ++ branch_lines view.now.process.0 view.now.actor.0 0
        (map cell_number view.now.cells.items)) }
{
    for (branch, cell) in view.cells.iter().enumerate() {
        put_branch(out, view, branch as u64, *cell)?;
    }
    Ok(())
}

// Adds the line of a variable.
fn put_variable(out: &mut Vec<u8>, view: &ActorView, variable: &VarView) -> Result<(), NoMemory>
    ensures { OnOk result (out.new.items ≡ out.old.items
        ++ variable_line view.now.process.0 view.now.actor.0 (variable_of variable.now)) }
{
    put_actor(out, b"var ", view)?;
    put(out, variable.name.bytes())?;
    put(out, b" = ")?;
    put_value(out, &variable.value)?;
    put(out, b"\n")
}

// Adds the lines of the variables.
fn put_variables(out: &mut Vec<u8>, view: &ActorView) -> Result<(), NoMemory>
    ensures { OnOk result (out.new.items ≡ out.old.items
        ++ flat_map (variable_line view.now.process.0 view.now.actor.0)
        (map variable_of view.now.vars.items)) }
{
    for variable in &view.vars {
        put_variable(out, view, variable)?;
    }
    Ok(())
}

/// Adds the lines of an actor: where it waits, its branches, and its variables.
pub fn put_view(out: &mut Vec<u8>, view: &ActorView) -> Result<(), NoMemory>
    ensures { OnOk result (out.new.items ≡ out.old.items ++ actor_lines (view_of view.now)) }
{
    put_head(out, view)?;
    put_branches(out, view)?;
    put_variables(out, view)
}

/// The lines of an actor: where it waits, its branches, and its variables.
pub fn print_view(alloc: Global, view: &ActorView) -> Result<Vec<u8>, NoMemory>
    ensures { IfOk result (λ text. text.items ≡ actor_lines (view_of view.now)) }
{
    let mut out = Vec::new(alloc);
    put_view(&mut out, view)?;
    Ok(out)
}

/// The first lines of a view, after so many events, the last of them at a time.
pub fn print_head(alloc: Global, ran: u32, time: u64) -> Result<Vec<u8>, NoMemory>
    ensures { IfOk result (λ text. text.items ≡ view_head ran time) }
{
    let mut out = Vec::new(alloc);
    put(&mut out, b"debug 1\nat ")?;
    put_number(&mut out, u64::from(ran), b" ")?;
    put_number(&mut out, time, b"\n")?;
    Ok(out)
}
