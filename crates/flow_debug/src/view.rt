// What a frame tells of its actor.

ghost use Rattle.std.specs.Prelude.{◌≡◌, Some, ◌++◌, [], map, IfOk, OnOk};
ghost use Rattle.std.specs.Option.{option_map};
ghost use Rattle.flow_tree.specs.DeclView.{slot_of};
ghost use Rattle.flow_class.specs.View.{class_of};
ghost use Rattle.flow_heapstate.specs.State.{place_of, actor_kept};
ghost use Rattle.flow_debug.specs.Told.{cell_held, variables_told, told_by, actor_told};
ghost use Rattle.flow_debug.specs.Waits.{waits_seen};
ghost use Rattle.flow_debug.specs.Seen.{with_variable};
ghost use Rattle.flow_debug.specs.Views.{cell_number, variable_of, view_of};

use crate::waits::WaitPlaces;
use flow_base::ids::{ActorId, CellId, ProcId};
use flow_base::memory::NoMemory;
use flow_base::name::Name;
use flow_base::place::Place;
use flow_class::class::Class;
use flow_frame::held::Held;
use flow_heapstate::state::ActorState;
use flow_tree::decl::Slot;
use flow_value::value::Value;
use std::alloc::Global;

/// A variable that has a value.
#[derive(Drop)]
pub struct VarView {
    pub name: Name,
    pub value: Value,
}

/// An unfinished actor between events: its name; the number of its wait, from 1, and the place of that in the text; the cells at which
/// the branches of the wait wait, in order; and its parameters and state variables that have a value, in the order of the text.
#[derive(Drop)]
pub struct ActorView {
    pub process: ProcId,
    pub actor: ActorId,
    pub name: Name,
    pub group: u32,
    pub at: Place,
    pub cells: Vec<CellId>,
    pub vars: Vec<VarView>,
}

/// The view of an actor by its frame: none, where that isn't one of a class among these that waits at one of the program's waits.
pub fn actor_view(
    alloc: Global,
    waits: &WaitPlaces,
    classes: &[Class],
    process: ProcId,
    frame: &ActorState,
) -> Result<Option<ActorView>, NoMemory>
    ensures { IfOk result (λ v. option_map view_of v
        ≡ actor_told (waits_seen waits.now) (map class_of classes.now) process.0
        (actor_kept frame.now)) }
{
    let Some(class) = classes.get(frame.class as usize) else {
        return Ok(None);
    };
    match waits.place(frame.class, frame.state) {
        Some(at) => Ok(Some(view_at(alloc, class, at, process, frame)?)),
        None => Ok(None),
    }
}

// The view of an actor that waits at a place.
fn view_at(
    alloc: Global,
    class: &Class,
    at: Place,
    process: ProcId,
    frame: &ActorState,
) -> Result<ActorView, NoMemory>
    ensures { IfOk result (λ v. Some (view_of v)
        ≡ told_by process.0 (actor_kept frame.now) (Some (class_of class.now)) (Some at)) }
{
    Ok(ActorView {
        process,
        actor: frame.actor,
        name: class.name.copy(alloc)?,
        group: frame.state,
        at,
        cells: cells(alloc, &frame.callbacks)?,
        vars: variables(alloc, &class.slots, &frame.places)?,
    })
}

// The cells of callbacks, in order.
fn cells(alloc: Global, callbacks: &[Held]) -> Result<Vec<CellId>, NoMemory>
    ensures { IfOk result (λ cells. map cell_number cells.items ≡ map cell_held callbacks.now) }
{
    let mut cells = Vec::with_capacity(alloc, callbacks.len())?;
    for held in callbacks {
        cells.push(held.cell)?;
    }
    Ok(cells)
}

// The variables that have a value, in the order of their slots.
fn variables(
    alloc: Global,
    slots: &[Slot],
    values: &[Option<Value>],
) -> Result<Vec<VarView>, NoMemory>
    ensures { IfOk result (λ vars. map variable_of vars.items
        ≡ variables_told (map slot_of slots.now) (map place_of values.now)) }
{
    let mut vars = Vec::new(alloc);
    for (slot, value) in slots.iter().zip(values) {
        add_variable(alloc, &mut vars, slot, value)?;
    }
    Ok(vars)
}

// A variable, where it has a value.
fn add_variable(
    alloc: Global,
    vars: &mut Vec<VarView>,
    slot: &Slot,
    value: &Option<Value>,
) -> Result<(), NoMemory>
    ensures { OnOk result (map variable_of vars.new.items ≡ map variable_of vars.old.items
        ++ with_variable slot.now.name (place_of value.now) []) }
{
    match value {
        Some(value) => {
            vars.push(VarView {
                name: slot.name.copy(alloc)?,
                value: value.copy(alloc)?,
            })?;
            Ok(())
        }
        None => Ok(()),
    }
}
