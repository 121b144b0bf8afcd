// The text of a class.

ghost use Rattle.std.specs.Prelude.{◌≡◌, ◌++◌, codes, decimal, length, map, IfOk};
ghost use Rattle.flow_tree.specs.View.{type_of, result_of};
ghost use Rattle.flow_tree.specs.DeclView.{slot_of};
ghost use Rattle.flow_tree.specs.Canon.{type_text, line};
ghost use Rattle.flow_class.specs.View.{block_of, group_of, class_of};
ghost use Rattle.flow_classprint.specs.ClassText.{numbered, slot_text, local_line, block_text, groups_text, class_front, class_back, class_text};

use crate::block::{put_block, put_group};
use crate::instr::{put_count, put_number, sum};
use flow_base::memory::NoMemory;
use flow_class::class::{Block, Class, Group};
use flow_show::source::Source;
use flow_tree::decl::Slot;
use flow_tree::ty::Ty;

// Adds the line of a slot.
fn put_slot(out: &mut Source, number: usize, slot: &Slot) -> Result<(), NoMemory>
    ensures { IfOk result (λ _. out.new ≡ out.old ++ slot_text number (slot_of slot.now)) }
{
    out.put(b"    slot ")?;
    put_count(out, number)?;
    out.put(b" ")?;
    out.put_type(&slot.ty)?;
    out.put(b" ")?;
    out.put(slot.name.bytes())?;
    out.put(b";\n")?;
    Ok(())
}

// Adds the slots.
fn put_slots(out: &mut Source, slots: &[Slot]) -> Result<(), NoMemory>
    ensures { IfOk result (λ _. out.new ≡ out.old ++ numbered slot_text 0 (map slot_of slots.now)) }
{
    let mut number: usize = 0;
    for slot in slots {
        put_slot(out, number, slot)?;
        number = sum(number, 1)?;
    }
    Ok(())
}

// Adds the line of a local.
fn put_local_line(out: &mut Source, number: usize, ty: &Ty) -> Result<(), NoMemory>
    ensures { IfOk result (λ _. out.new ≡ out.old ++ local_line number (type_of ty.now)) }
{
    out.put(b"    local ")?;
    put_count(out, number)?;
    out.put(b" ")?;
    out.put_type(ty)?;
    out.put(b";\n")?;
    Ok(())
}

// Adds the locals.
fn put_local_lines(out: &mut Source, locals: &[Ty]) -> Result<(), NoMemory>
    ensures { IfOk result (λ _. out.new
        ≡ out.old ++ numbered local_line 0 (map type_of locals.now)) }
{
    let mut number: usize = 0;
    for ty in locals {
        put_local_line(out, number, ty)?;
        number = sum(number, 1)?;
    }
    Ok(())
}

// Adds the blocks.
fn put_blocks(out: &mut Source, blocks: &[Block]) -> Result<(), NoMemory>
    ensures { IfOk result (λ _. out.new
        ≡ out.old ++ numbered block_text 0 (map block_of blocks.now)) }
{
    let mut number: usize = 0;
    for block in blocks {
        put_block(out, number, block)?;
        number = sum(number, 1)?;
    }
    Ok(())
}

// How many branches a group has.
#[tactic(auto, using(crate::proofs::Steps::branch_count))]
fn branches(group: &Group) -> usize
    ensures { result ≡ length (group_of group.now) }
{
    let callbacks = group.callbacks.as_slice();
    callbacks.len()
}

// Adds the groups.
fn put_groups(out: &mut Source, groups: &[Group]) -> Result<(), NoMemory>
    ensures { IfOk result (λ _. out.new ≡ out.old ++ groups_text 1 0 (map group_of groups.now)) }
{
    let mut number: usize = 1;
    let mut first: usize = 0;
    for group in groups {
        put_group(out, number, first, group)?;
        number = sum(number, 1)?;
        first = sum(first, branches(group))?;
    }
    Ok(())
}

// Adds the line with which a class begins.
fn put_class_begin(out: &mut Source, class: &Class) -> Result<(), NoMemory>
    ensures { IfOk result (λ _. out.new ≡ out.old ++ line 0 (codes "class " ++ class.now.name
        ++ codes " returns " ++ type_text (result_of class.now.returns) ++ codes " params "
        ++ decimal class.now.params ++ codes " {")) }
{
    out.put(b"class ")?;
    out.put(class.name.bytes())?;
    out.put(b" returns ")?;
    out.put_result(&class.returns)?;
    out.put(b" params ")?;
    put_number(out, class.params)?;
    out.put(b" {\n")?;
    Ok(())
}

/// Adds what stands before the blocks of a class.
pub fn put_class_front(out: &mut Source, class: &Class) -> Result<(), NoMemory>
    ensures { IfOk result (λ _. out.new ≡ out.old ++ class_front (class_of class.now)) }
{
    put_class_begin(out, class)?;
    put_slots(out, &class.slots)?;
    put_local_lines(out, &class.locals)?;
    Ok(())
}

/// Adds what stands behind the blocks of a class.
pub fn put_class_back(out: &mut Source, class: &Class) -> Result<(), NoMemory>
    ensures { IfOk result (λ _. out.new ≡ out.old ++ class_back (class_of class.now)) }
{
    put_groups(out, &class.groups)?;
    out.put(b"}\n")?;
    Ok(())
}

/// Adds a class.
pub fn put_class(out: &mut Source, class: &Class) -> Result<(), NoMemory>
    ensures { IfOk result (λ _. out.new ≡ out.old ++ class_text (class_of class.now)) }
{
    put_class_front(out, class)?;
    put_blocks(out, &class.blocks)?;
    put_class_back(out, class)?;
    Ok(())
}
