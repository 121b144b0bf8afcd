// What the loss of a reference does to a heap.

ghost use Rattle.std.specs.Prelude.{◌≡◌, ◌<◌, ℕ, [], true, false, OnOk, IfOk, None, Some, IsSome};
ghost use Rattle.std.specs.Option.{ForSome, is_some};
ghost use Rattle.flow_value.specs.View.{value_of, values_of};
ghost use Rattle.flow_value.specs.Values.{refs_of, refs_of_all};
ghost use Rattle.flow_numbered.specs.Numbered.{thing, with_thing};
ghost use Rattle.flow_cell.specs.Cells.{no_counts};
ghost use Rattle.flow_cancel.specs.Heap.{HeapTree, has_number, owner};
ghost use Rattle.flow_cancel.specs.Dropping.{drops, refs_in, dropping, drop_cell, freed_cell, freed_stream, without_port, one_promise, drop_stream, may_drop_cell, may_drop_stream, cancel_owner, broken_if_not, loss_of};

use crate::heap::Heap;
use crate::task::{Dropped, Task};
use flow_base::ids::{ActorId, CellId};
use flow_base::memory::NoMemory;
use flow_cell::counts::{Loss, References, Side};
use flow_value::value::{Outcome, Value, any_may_refer};
use std::collections::VecDeque;

/// Pushes drops of the references of a value on top of tasks, that of the first on top.
#[cycle(push_drops)]
pub(crate) fn push_drops(tasks: &mut VecDeque<Task>, value: &Value) -> Result<(), NoMemory>
    ensures { OnOk result (tasks.new.items ≡ drops (refs_of (value_of value.now)) tasks.old.items) }
{
    match value {
        Value::Struct(record) => push_part_drops(tasks, &record.fields),
        Value::List(items) => push_part_drops(tasks, items),
        Value::Ref(kind, cell) => {
            tasks.push_front(Task::Drop(*kind, *cell))?;
            Ok(())
        }
        Value::Int(_) | Value::Bool(_) | Value::Text(_) | Value::Void | Value::Error(_) => Ok(()),
    }
}

/// Pushes drops of the references of parts on top of tasks, that of the first on top.
#[cycle(push_drops)]
#[tactic(auto, using(crate::proofs::Drops::fields_last, crate::proofs::Drops::nothing_drops))]
fn push_part_drops(tasks: &mut VecDeque<Task>, parts: &[Value]) -> Result<(), NoMemory>
    ensures { OnOk result (tasks.new.items
        ≡ drops (refs_of_all (values_of parts.now)) tasks.old.items) }
{
    if !any_may_refer(parts) {
        return Ok(());
    }
    for part in parts.iter().rev() {
        push_drops(tasks, part)?;
    }
    Ok(())
}

#[tactic(auto, using(crate::proofs::Drops::drops_last))]
/// Pushes drops of the references of values on top of tasks, that of the first on top.
pub(crate) fn push_all_drops(
    tasks: &mut VecDeque<Task>,
    mut values: VecDeque<Value>,
) -> Result<(), NoMemory>
    ensures { OnOk result (tasks.new.items ≡ drops (refs_in values.items) tasks.old.items) }
{
    while let Some(value) = values.pop_back() {
        push_drops(tasks, &value)?;
    }
    Ok(())
}

// What the loss of a reference of a side leaves, where that side counts.
fn loss_of(references: References, side: Side) -> Option<Loss>
    ensures { result ≡ loss_of side references }
{
    if references.count(side) == 0 {
        return None;
    }
    let mut left = references;
    Some(left.release(side))
}

impl Heap {
    pub(crate) fn may_drop_cell(&self, side: Side, cell: CellId) -> bool
        ensures { result ≡ may_drop_cell side (thing self.now.cells.things cell.0) }
    {
        let Some(references) = self.cells.references(cell) else {
            return false;
        };
        match loss_of(references, side) {
            Some(Loss::Gone) => self.cells.first_waiter(cell).is_none(),
            Some(_) => true,
            None => false,
        }
    }

    pub(crate) fn may_drop_stream(&self, side: Side, cell: CellId) -> bool
        ensures { result ≡ may_drop_stream side (has_number self.now.ports cell.0)
            (thing self.now.streams.things cell.0) }
    {
        let Some(references) = self.streams.references(cell) else {
            return false;
        };
        match loss_of(references, side) {
            Some(Loss::Gone) => self.streams.waiter(cell).is_none(),
            Some(Loss::LastFuture) => {
                let one = references.count(Side::Promise) == 1;
                !self.is_port(cell) || (one && self.streams.waiter(cell).is_none())
            }
            Some(_) => true,
            None => false,
        }
    }

    // The actor whose result lost its last future is to be cancelled, if it isn't marked yet.
    fn cancel_owner(&self, cell: CellId) -> Dropped
        ensures { result ≡ cancel_owner self.now.actors.things
            (owner cell.0 self.now.actors.things) }
    {
        let Some(actor) = self.owner(cell) else {
            return Dropped::Nothing;
        };
        if !self.unfinished(actor) || self.marked(actor) {
            return Dropped::Nothing;
        }
        Dropped::Cancel(actor)
    }

    // A single result without a reference and without a waiter goes, and what it held is dropped.
    fn free_cell(&mut self, cell: CellId) -> Result<(), NoMemory>
        requires there { IsSome (thing self.old.cells.things cell.0) }
        requires references { ForSome (thing self.old.cells.things cell.0)
            (λ c. c.references ≡ no_counts) }
        requires waiters { ForSome (thing self.old.cells.things cell.0) (λ c. c.waiters ≡ []) }
        ensures { OnOk result (self.new ≡ freed_cell cell.0 self.old
            (thing self.old.cells.things cell.0)) }
    {
        match self.cells.remove(cell) {
            Some(Outcome::Value(value)) => push_drops(&mut self.tasks, &value),
            _ => Ok(()),
        }
    }

    // Whether a single result is set.
    fn is_set(&self, cell: CellId) -> bool
        requires { IsSome (thing self.now.cells.things cell.0) }
        ensures { ForSome (thing self.now.cells.things cell.0) (λ c. result ≡ is_some c.content) }
    {
        self.cells.content(cell).is_some()
    }

    /// A single result loses a reference of a side.
    pub(crate) fn drop_cell(&mut self, side: Side, cell: CellId) -> Result<Dropped, NoMemory>
        requires { may_drop_cell side (thing self.old.cells.things cell.0) ≡ true }
        ensures { IfOk result (λ d. (self.new, d)
            ≡ drop_cell side cell.0 self.old (thing self.old.cells.things cell.0)) }
    {
        match self.cells.release(cell, side) {
            Loss::Kept => Ok(Dropped::Nothing),
            Loss::LastPromise => Ok(broken_if_not(self.is_set(cell))),
            Loss::LastFuture => Ok(self.cancel_owner(cell)),
            Loss::Gone => {
                self.free_cell(cell)?;
                Ok(Dropped::Freed)
            }
        }
    }

    // A stream without a reference and without a waiter goes, and its elements are dropped.
    fn free_stream(&mut self, cell: CellId) -> Result<(), NoMemory>
        requires there { IsSome (thing self.old.streams.things cell.0) }
        requires references { ForSome (thing self.old.streams.things cell.0)
            (λ s. s.references ≡ no_counts) }
        requires waiter { ForSome (thing self.old.streams.things cell.0) (λ s. s.waiter ≡ None) }
        ensures { OnOk result (self.new ≡ freed_stream cell.0 self.old
            (thing self.old.streams.things cell.0)) }
    {
        let queue = self.streams.remove(cell);
        push_all_drops(&mut self.tasks, queue)
    }

    // The stream of a port, which is its one promise, goes and its port too.
    fn free_port(&mut self, cell: CellId) -> Result<(), NoMemory>
        requires there { IsSome (thing self.old.streams.things cell.0) }
        requires references { ForSome (thing self.old.streams.things cell.0)
            (λ s. s.references ≡ one_promise) }
        requires waiter { ForSome (thing self.old.streams.things cell.0) (λ s. s.waiter ≡ None) }
        ensures { OnOk result (self.new ≡ freed_stream cell.0 (without_port cell.0 self.old)
            (thing self.old.streams.things cell.0)) }
    {
        self.ports.remove(&cell.0);
        self.streams.release(cell, Side::Promise);
        self.free_stream(cell)?;
        Ok(())
    }

    /// A stream loses a reference of a side.
    pub(crate) fn drop_stream(&mut self, side: Side, cell: CellId) -> Result<Dropped, NoMemory>
        requires { may_drop_stream side (has_number self.old.ports cell.0)
            (thing self.old.streams.things cell.0) ≡ true }
        ensures { IfOk result (λ d. (self.new, d)
            ≡ drop_stream side cell.0 self.old (thing self.old.streams.things cell.0)) }
    {
        match self.streams.release(cell, side) {
            Loss::Kept => Ok(Dropped::Nothing),
            Loss::LastPromise => Ok(broken_if_not(self.streams.ended(cell))),
            Loss::LastFuture => {
                if !self.is_port(cell) {
                    return Ok(Dropped::Nothing);
                }
                self.free_port(cell)?;
                Ok(Dropped::PortFreed)
            }
            Loss::Gone => {
                self.free_stream(cell)?;
                Ok(Dropped::Freed)
            }
        }
    }
}

// Nothing more can be sent, or else the promise side broke.
fn broken_if_not(complete: bool) -> Dropped
    ensures { result ≡ broken_if_not complete }
{
    if complete {
        Dropped::Nothing
    } else {
        Dropped::Broken
    }
}
