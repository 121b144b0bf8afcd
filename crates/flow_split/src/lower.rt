// From an actor to its class.

ghost use Rattle.std.specs.Prelude.{◌≡◌, map, length, IfOk};
ghost use Rattle.flow_tree.specs.View.{type_of};
ghost use Rattle.flow_tree.specs.DeclView.{slot_of, actor_of, program_of};
ghost use Rattle.flow_class.specs.View.{class_of, block_of, group_of};
ghost use Rattle.flow_layout.specs.Laying.{laid};
ghost use Rattle.flow_meaning.specs.Source.{names_of};
ghost use Rattle.flow_split.specs.Contexts.{names_in};
ghost use Rattle.flow_split.specs.Lowered.{close_of, lowered_class};

use crate::around::Around;
use crate::context::Context;
use crate::emitter::Emitter;
use flow_base::memory::NoMemory;
use flow_base::place::Place;
use flow_class::class::{Block, Class, Group};
use flow_layout::places::Layout;
use flow_tree::decl::{ActorDecl, Program, Slot};
use flow_tree::ty::{Ty, copy_result};
use std::alloc::Global;

// Equal slots in the same order.
fn copy_slots(alloc: Global, slots: &[Slot]) -> Result<Vec<Slot>, NoMemory>
    ensures { IfOk result (λ v. map slot_of v.items ≡ map slot_of slots.now) }
{
    let mut copies = Vec::new(alloc);
    for slot in slots {
        copies.push(slot.copy(alloc)?)?;
    }
    Ok(copies)
}

// Equal types in the same order.
fn copy_types(alloc: Global, types: &[Ty]) -> Result<Vec<Ty>, NoMemory>
    ensures { IfOk result (λ v. map type_of v.items ≡ map type_of types.now) }
{
    let mut copies = Vec::new(alloc);
    for ty in types {
        copies.push(ty.copy(alloc)?)?;
    }
    Ok(copies)
}

// The number of things. No memory holds so many that there is none.
fn count(things: usize) -> Result<u32, NoMemory>
    ensures { IfOk result (λ n. n ≡ things) }
{
    match u32::try_from(things) {
        Ok(count) => Ok(count),
        Err(_) => Err(NoMemory),
    }
}

// What the text of an actor emits.
fn text(context: &Context, actor: &ActorDecl) -> Result<Emitter, NoMemory>
    ensures blocks { IfOk result (λ e. map block_of e.blocks.items
        ≡ (lowered_class (names_in context.now) (laid context.now.layout.now)
        (actor_of actor.now)).blocks) }
    ensures groups { IfOk result (λ e. map group_of e.groups.items
        ≡ (lowered_class (names_in context.now) (laid context.now.layout.now)
        (actor_of actor.now)).groups) }
{
    let mut emitter = Emitter::new(context.alloc);
    match emitter.put_body(context, &Around::text(close_of(actor)), &actor.body) {
        Ok(()) => Ok(emitter),
        Err(error) => Err(error),
    }
}

// The brace that nothing reaches, at the end of an actor that gives something.
#[tactic(auto, using(crate::proofs::Whole::close_there))]
fn close_of(actor: &ActorDecl) -> Option<Place>
    ensures { result ≡ close_of (actor_of actor.now) }
{
    match &actor.returns {
        Some(_) => Some(actor.close),
        None => None,
    }
}

// The class of an actor with these blocks and groups.
fn class_with(
    context: &Context,
    actor: &ActorDecl,
    blocks: Vec<Block>,
    groups: Vec<Group>,
) -> Result<Class, NoMemory>
    ensures { IfOk result (λ c. class_of c ≡ record {
      name = (actor_of actor.now).name.name;
      returns = (actor_of actor.now).returns;
      params = length (actor_of actor.now).params;
      slots = (laid context.now.layout.now).slots;
      locals = (laid context.now.layout.now).locals;
      blocks = map block_of blocks.items;
      groups = map group_of groups.items;
    }) }
{
    let params = count(actor.params.len())?;
    let slots = copy_slots(context.alloc, &context.layout.slots)?;
    let locals = copy_types(context.alloc, &context.layout.locals)?;
    let name = actor.name.name.copy(context.alloc)?;
    Ok(Class {
        returns: copy_result(context.alloc, &actor.returns)?,
        name,
        params,
        slots,
        locals,
        blocks,
        groups,
    })
}

/// The class of an actor of a program, by its layout.
pub fn lower(
    alloc: Global,
    program: &Program,
    actor: &ActorDecl,
    layout: &Layout,
) -> Result<Class, NoMemory>
    ensures { IfOk result (λ c. class_of c
        ≡ lowered_class (names_of (program_of program.now)) (laid layout.now)
        (actor_of actor.now)) }
{
    let _slots = count(layout.slots.len())?;
    let context = Context {
        alloc,
        program,
        layout,
    };
    let emitter = text(&context, actor)?;
    class_with(&context, actor, emitter.blocks, emitter.groups)
}
