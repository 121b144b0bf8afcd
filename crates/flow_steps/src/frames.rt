// The frames of a process: places, positions, and values that leave them.

ghost use Rattle.std.specs.Prelude.{◌≡◌, ◌⊎◌, ◌∷◌, ◌++◌, OnOk, IfOk, IfSome, IsSome, IsNone, slice_get};
ghost use Rattle.std.specs.Option.{option_copied};
ghost use Rattle.std.specs.declared.option.Option.TheVariants.{None, Some};
ghost use Rattle.flow_value.specs.View.{value_of, values_of};
ghost use Rattle.flow_value.specs.Values.{CompositeValue, RecordWhole};
ghost use Rattle.flow_code.specs.Resolved.View.{places_in};
ghost use Rattle.flow_numbered.specs.Numbered.{thing};
ghost use Rattle.flow_cancel.specs.Dropping.{dropping};
ghost use Rattle.flow_steps.specs.Holding.{on_heap};
ghost use Rattle.flow_steps.specs.Stuck.{OnStuck, FrameMissing, NoPlace, SomePlaceMissing, BlockMissing, Nowhere, HasNoPoint, PartMissing, AimsStuck};
ghost use Rattle.flow_steps.specs.Points.{GoesTo, next_stand, noted_stand, noted, block_in, IsPointOf, IsAtPoint, gone, place_held, place_put, referring, field_path, exchanged, Assigns, places_taken, places_emptied, place_lost, lost_from};
ghost use Rattle.flow_steps.specs.Drops.{DropsOver};

use crate::errors::Fault;
use crate::process::Process;
use flow_base::ids::ActorId;
use flow_code::class::{Aim, Block, Class, Instruction};
use flow_code::expr::names::FieldNames;
use flow_code::program::Code;
use flow_eval::locals::{put_at, record_value, take_at};
use flow_frame::standing::Standing;
use flow_value::value::{Record, Value};

/// A value that left a place joins others, if it may hold references.
fn keep_referring(values: &mut Vec<Value>, old: Option<Value>) -> Result<(), Fault>
    ensures done { OnOk result (values.new.items ≡ values.old.items ++ referring old) }
    ensures stuck { OnStuck result ⊥ }
{
    match old {
        Some(value) if value.may_refer() => Ok(values.push(value)?),
        _ => Ok(()),
    }
}

/// Where an actor stands: its class, and the block and the instruction; where it waits, the block of the wait; and whether its
/// frame says so already.
#[derive(Clone, Copy)]
pub struct ControlPoint<'a> {
    pub(crate) actor: ActorId,
    pub(crate) class: &'a Class,
    pub(crate) place: u32,
    pub(crate) block: &'a Block,
    pub(crate) instruction: u32,
    pub(crate) noted: bool,
}

impl<'a> ControlPoint<'a> {
    /// Where the actor stands that goes on at a block and an instruction of it. Its frame doesn't say so yet.
    pub(crate) fn at(&self, place: u32, instruction: u32) -> Result<ControlPoint<'a>, Fault>
        ensures done { IfOk result (λ t. GoesTo self.now place instruction t) }
        ensures stuck { OnStuck result (BlockMissing self.now.class.now place) }
    {
        match self.class.blocks.get(place as usize) {
            Some(block) => Ok(ControlPoint {
                actor: self.actor,
                class: self.class,
                place,
                block,
                instruction,
                noted: false,
            }),
            None => Err(Fault::Stuck),
        }
    }

    /// Where the actor stands that goes on at its next instruction. Its frame doesn't say so yet.
    pub(crate) fn next(&self) -> Result<ControlPoint<'a>, Fault>
        ensures done { IfOk result (λ t. t ≡ next_stand self.now) }
        ensures stuck { OnStuck result ⊥ }
    {
        match self.instruction.checked_add(1) {
            Some(instruction) => Ok(ControlPoint {
                actor: self.actor,
                class: self.class,
                place: self.place,
                block: self.block,
                instruction,
                noted: false,
            }),
            None => Err(Fault::OutOfMemory),
        }
    }
}

/// The instruction of a block at a place, from 0, the last one left out.
pub(crate) fn instruction_at(block: &Block, place: u32) -> Option<&Instruction>
    ensures { option_copied result ≡ slice_get block.now.body.items place }
{
    block.body.get(place as usize)
}

/// The number of the block in which a frame stands; where its actor waits, that of the wait.
fn block_number(class: &Class, at: Standing) -> Option<u32>
    ensures { result ≡ block_in class.now at.state at.block }
{
    if at.state == 0 {
        return Some(at.block);
    }
    Some(class.group(at.state)?.block)
}

/// Where the frame of an actor stands in its class.
fn stand_in(code: &Code, actor: ActorId, at: Standing) -> Option<ControlPoint<'_>>
    ensures done { IfSome result (λ s. IsPointOf code.now.classes.items actor at s) }
    ensures nowhere { IsNone result → Nowhere code.now.classes.items at }
{
    let class = code.class(at.class)?;
    let place = block_number(class, at)?;
    Some(ControlPoint {
        actor,
        class,
        place,
        block: class.blocks.get(place as usize)?,
        instruction: at.instruction,
        noted: true,
    })
}

/// Exchanges the part of a value to which the fields with names of these numbers lead, if they do. Gives what stood there, and
/// the value then.
#[cycle(exchange)]
fn exchange(
    fields: &FieldNames,
    root: Value,
    path: &[usize],
    value: Value,
) -> Option<(Value, Value)>
    ensures done { IfSome result (λ r. exchanged (places_in fields.now) path.now (value_of value)
        (Some (value_of root)) ≡ Some (Some (value_of r.0), Some (value_of r.1))) }
    ensures none { IsNone result → field_path (places_in fields.now) path.now
        (Some (value_of root)) ≡ None }
{
    let Some((name, rest)) = path.split_first() else {
        return Some((root, value));
    };
    match root {
        Value::Struct(record) => exchange_field(fields, record, *name, rest, value),
        Value::Int(_)
        | Value::Bool(_)
        | Value::Text(_)
        | Value::Void
        | Value::Error(_)
        | Value::List(_)
        | Value::Ref(_, _) => None,
    }
}

#[cycle(exchange)]
#[tactic(auto, using(crate::proofs::Parts::exchanged_field, crate::proofs::Before::field_nowhere))]
// The same of a field of a record.
fn exchange_field(
    fields: &FieldNames,
    mut of: Box<Record<Value>>,
    name: usize,
    rest: &[usize],
    value: Value,
) -> Option<(Value, Value)>
    ensures done { IfSome result (λ r. exchanged (places_in fields.now) (name ∷ rest.now)
        (value_of value)
        (Some (CompositeValue (RecordWhole of.value.id) (values_of of.value.fields.items)))
        ≡ Some (Some (value_of r.0), Some (value_of r.1))) }
    ensures none { IsNone result → field_path (places_in fields.now) (name ∷ rest.now)
        (Some (CompositeValue (RecordWhole of.value.id) (values_of of.value.fields.items)))
        ≡ None }
{
    let Some(place) = fields.place(of.id, name) else {
        return None;
    };
    if place >= of.fields.len() {
        return None;
    }
    let part = take_at(&mut of.fields, place);
    let Some((old, part)) = exchange(fields, part, rest, value) else {
        return None;
    };
    put_at(&mut of.fields, place, part);
    Some((old, record_value(of)))
}

impl Process {
    /// Where an actor that has a frame stands.
    pub(crate) fn stand_of<'a>(
        &self,
        code: &'a Code,
        actor: ActorId,
    ) -> Result<ControlPoint<'a>, Fault>
        ensures done { IfOk result (λ s. IsAtPoint code.now.classes.items actor self.now s) }
        ensures stuck { OnStuck result (HasNoPoint code.now.classes.items actor.0
            self.now.heap) }
    {
        let Some(at) = self.heap.frames().standing(actor) else {
            return Err(Fault::Stuck);
        };
        match stand_in(code, actor, at) {
            Some(stand) => Ok(stand),
            None => Err(Fault::Stuck),
        }
    }

    #[tactic(auto, using(crate::proofs::Framing::frame_changed))]
    /// Has a place of a frame hold something or nothing, and gives what it held.
    pub(crate) fn put(
        &mut self,
        actor: ActorId,
        place: u32,
        value: Option<Value>,
    ) -> Result<Option<Value>, Fault>
        ensures tasks { self.new.heap.tasks ≡ self.old.heap.tasks }
        ensures there { OnOk result (IsSome (thing self.old.heap.frames.things actor.0)) }
        ensures changed { OnOk result (self.new
            ≡ on_heap (place_put actor.0 place value) self.old) }
        ensures held { IfOk result (λ o. o ≡ place_held actor.0 place self.old.heap) }
        ensures stuck { OnStuck result (NoPlace actor.0 place self.old.heap) }
    {
        let Some(places) = self.heap.frames().places_of(actor) else {
            return Err(Fault::Stuck);
        };
        if place >= places {
            return Err(Fault::Stuck);
        }
        Ok(self.heap.frames_mut().set_slot(actor, place, value)?)
    }

    #[tactic(auto, using(crate::proofs::Framing::frame_changed))]
    /// Has a frame go on at a block and an instruction of it.
    pub(crate) fn go(&mut self, actor: ActorId, block: u32, instruction: u32) -> Result<(), Fault>
        ensures tasks { self.new.heap.tasks ≡ self.old.heap.tasks }
        ensures there { OnOk result (IsSome (thing self.old.heap.frames.things actor.0)) }
        ensures gone { OnOk result (self.new ≡ on_heap (gone actor.0 block instruction) self.old) }
        ensures stuck { OnStuck result (FrameMissing actor.0 self.old.heap) }
    {
        if !self.heap.frames().contains(actor) {
            return Err(Fault::Stuck);
        }
        self.heap.frames_mut().go(actor, (block, instruction));
        Ok(())
    }

    /// Has the frame of an actor say where the actor stands, where it does not yet.
    pub(crate) fn note<'a>(&mut self, stand: ControlPoint<'a>) -> Result<ControlPoint<'a>, Fault>
        ensures stand { IfOk result (λ s. s ≡ noted_stand stand.entry) }
        ensures noted { OnOk result (self.new ≡ noted stand.entry self.old) }
        ensures stuck { OnStuck result (FrameMissing stand.entry.actor.0 self.old.heap) }
    {
        if stand.noted {
            return Ok(stand);
        }
        self.go(stand.actor, stand.place, stand.instruction)?;
        Ok(ControlPoint {
            actor: stand.actor,
            class: stand.class,
            place: stand.place,
            block: stand.block,
            instruction: stand.instruction,
            noted: true,
        })
    }

    /// Has the frame of an actor go on at its next instruction.
    pub(crate) fn go_on<'a>(&mut self, stand: &ControlPoint<'a>) -> Result<ControlPoint<'a>, Fault>
        ensures done { OnOk result (self.new ≡ noted (next_stand stand.now) self.old) }
        ensures stuck { OnStuck result (FrameMissing stand.now.actor.0 self.old.heap) }
    {
        self.note(stand.next()?)
    }

    #[tactic(auto, using(crate::proofs::Parts::part_assigned))]
    // The part of a place at which an actor aims gets a value that counts already. Gives what stood there.
    fn put_part(
        &mut self,
        fields: &FieldNames,
        actor: ActorId,
        aim: &Aim,
        value: Value,
    ) -> Result<Option<Value>, Fault>
        ensures done { IfOk result (λ old. Assigns fields.now actor aim.now value self.old old
            self.new) }
        ensures stuck { OnStuck result (NoPlace actor.0 aim.now.place self.old.heap
            ⊎ PartMissing fields.now aim.now.path.items
            (place_held actor.0 aim.now.place self.old.heap)) }
    {
        let Some(root) = self.put(actor, aim.place, None)? else {
            return Err(Fault::Stuck);
        };
        let Some((old, root)) = exchange(fields, root, &aim.path, value) else {
            return Err(Fault::Stuck);
        };
        self.put(actor, aim.place, Some(root))?;
        Ok(Some(old))
    }

    #[tactic(auto, using(crate::proofs::Parts::whole_assigned))]
    /// Where an actor aims gets a value that counts already. Gives what stood there.
    pub(crate) fn assign(
        &mut self,
        code: &Code,
        actor: ActorId,
        aim: &Aim,
        value: Value,
    ) -> Result<Option<Value>, Fault>
        ensures done { IfOk result (λ old. Assigns code.now.fields actor aim.now value self.old old
            self.new) }
        ensures stuck { OnStuck result (AimsStuck code.now.fields actor.0 aim.now
            self.old.heap) }
    {
        if aim.path.is_empty() {
            return self.put(actor, aim.place, Some(value));
        }
        self.put_part(code.fields(), actor, aim, value)
    }

    /// The values with references that leave these places, each emptied as it is read.
    pub(crate) fn taken(&mut self, actor: ActorId, places: &[u32]) -> Result<Vec<Value>, Fault>
        ensures taken { IfOk result (λ vs. vs.items
            ≡ places_taken actor.0 places.now self.old.heap) }
        ensures emptied { OnOk result (self.new
            ≡ on_heap (places_emptied actor.0 places.now) self.old) }
        ensures stuck { OnStuck result (SomePlaceMissing actor.0 places.now self.old.heap) }
    {
        let mut values = Vec::new(self.alloc);
        for place in places {
            let old = self.put(actor, *place, None)?;
            keep_referring(&mut values, old)?;
        }
        Ok(values)
    }

    #[tactic(auto, using(flow_cancel::proofs::Drops::drops_last))]
    /// Values that left places are dropped: the references of the first come on top.
    pub(crate) fn drop_values(&mut self, values: Vec<Value>) -> Result<(), Fault>
        ensures done { OnOk result (self.new ≡ on_heap (dropping values.items) self.old) }
        ensures stuck { OnStuck result ⊥ }
    {
        let mut values = values;
        while let Some(value) = values.pop() {
            self.heap.push_drops(&value)?;
        }
        Ok(())
    }

    #[tactic(auto, using(crate::proofs::Over::over_none, crate::proofs::Over::over_these, crate::proofs::Framing::lost_none))]
    // A place is emptied, and what it held is dropped.
    fn empty(&mut self, actor: ActorId, place: u32) -> Result<(), Fault>
        ensures lost { OnOk result (self.new ≡ on_heap (place_lost actor.0 place) self.old) }
        ensures drops { OnOk result (DropsOver self.old.heap.tasks self.new.heap.tasks) }
        ensures stuck { OnStuck result ⊥ }
    {
        if self.heap.frames().held(actor, place).is_none() {
            return Ok(());
        }
        match self.put(actor, place, None)? {
            Some(value) => Ok(self.heap.push_drops(&value)?),
            None => Ok(()),
        }
    }

    // The places from one on are emptied, and what they held is dropped, that of the last place first.
    fn empty_from(&mut self, actor: ActorId, first: u32) -> Result<(), Fault>
        ensures lost { OnOk result (self.new ≡ on_heap (lost_from actor.0 first) self.old) }
        ensures drops { OnOk result (DropsOver self.old.heap.tasks self.new.heap.tasks) }
        ensures stuck { OnStuck result (FrameMissing actor.0 self.old.heap) }
    {
        if !self.heap.frames().contains(actor) {
            return Err(Fault::Stuck);
        }
        let count = self.heap.frames().places_held(actor).len();
        let Ok(last) = u32::try_from(count) else {
            return Err(Fault::OutOfMemory);
        };
        for place in first..last {
            self.empty(actor, place)?;
        }
        Ok(())
    }

    /// All locals are emptied, and what they held is dropped by falling number.
    pub(crate) fn lose_locals(&mut self, class: &Class, actor: ActorId) -> Result<(), Fault>
        ensures lost { OnOk result (self.new
            ≡ on_heap (lost_from actor.0 class.now.slots) self.old) }
        ensures drops { OnOk result (DropsOver self.old.heap.tasks self.new.heap.tasks) }
        ensures stuck { OnStuck result (FrameMissing actor.0 self.old.heap) }
    {
        self.empty_from(actor, class.slots)
    }

    /// All places are emptied, and what they held is dropped, by falling number, the locals before the slots.
    pub(crate) fn lose_all(&mut self, actor: ActorId) -> Result<(), Fault>
        ensures done { OnOk result (self.new ≡ on_heap (lost_from actor.0 0) self.old) }
        ensures stuck { OnStuck result (FrameMissing actor.0 self.old.heap) }
    {
        self.empty_from(actor, 0)
    }
}
