ghost use Rattle.std.specs.Prelude.{◌≡◌, is_some};
ghost use Rattle.flow_numbered.specs.Numbered.{thing};

use flow_base::errors::OPERATION_CANCELLED;
use flow_base::ids::{ActorId, CellId, ErrorCode};
use flow_base::memory::NoMemory;
use flow_cancel::heap::Heap;
use flow_cancel::task::{Dropped, Task};
use flow_cell::cells::Cells;
use flow_cell::counts::Side;
use flow_cell::waiter::Waiter;
use flow_frame::frames::Frames;
use flow_frame::held::Held;
use flow_value::value::{Kind, Outcome, RecordId, Value};
use std::alloc::Global;

// Whether a cell is there.
pub(crate) fn is_there(cells: &Cells<Outcome>, cell: CellId) -> bool
    ensures { result ≡ is_some (thing cells.now.things cell.0) }
{
    match cells.references(cell) {
        Some(_) => true,
        None => false,
    }
}

// Counts one more reference of a side, where the cell is there and few count.
pub(crate) fn hold(cells: &mut Cells<Outcome>, cell: CellId, side: Side) -> bool {
    let Some(references) = cells.references(cell) else {
        return false;
    };
    if references.count(side) >= 10 {
        return false;
    }
    cells.hold(cell, side);
    true
}

// Has a callback of an actor wait at a cell that is there.
pub(crate) fn add_wait(
    cells: &mut Cells<Outcome>,
    actor: ActorId,
    cell: CellId,
) -> Result<bool, NoMemory> {
    if !is_there(cells, cell) {
        return Ok(false);
    }
    cells.add_waiter(cell, Waiter { actor, callback: 0 })?;
    Ok(true)
}

// An actor that has a frame gets a callback at a cell.
fn add_callback(
    frames: &mut Frames<Value>,
    actor: ActorId,
    cell: CellId,
) -> Result<bool, NoMemory> {
    if !frames.contains(actor) {
        return Ok(false);
    }
    frames.add_callback(actor, Held { callback: 0, cell })?;
    Ok(true)
}

// An actor that has a frame is in state 1.
fn set_state(frames: &mut Frames<Value>, actor: ActorId) -> bool {
    if !frames.contains(actor) {
        return false;
    }
    frames.set_state(actor, 1);
    true
}

// An actor that has a frame is in state 1, with a callback at a cell.
pub(crate) fn suspend(
    frames: &mut Frames<Value>,
    actor: ActorId,
    cell: CellId,
) -> Result<bool, NoMemory> {
    if !add_callback(frames, actor, cell)? {
        return Ok(false);
    }
    Ok(set_state(frames, actor))
}

// What the loss of a reference does, where it may be lost.
pub(crate) fn lose(heap: &mut Heap, kind: Kind, cell: CellId) -> Result<Option<Dropped>, NoMemory> {
    if !heap.may_drop(kind, cell) {
        return Ok(None);
    }
    Ok(Some(heap.drop_ref(kind, cell)?))
}

// An unset single result.
pub(crate) fn make(heap: &mut Heap) -> Result<CellId, NoMemory> {
    heap.new_result()
}

// Counts one more reference of a cell.
fn refer(heap: &mut Heap, cell: CellId, side: Side) -> bool {
    hold(heap.cells_mut(), cell, side)
}

// An actor with so many places starts, without a result.
pub(crate) fn begin(heap: &mut Heap, places: u32) -> Result<ActorId, NoMemory> {
    heap.start(4, places, None)
}

// An actor with two places starts, where the cell may be its result.
fn start(heap: &mut Heap, cell: CellId) -> Result<Option<ActorId>, NoMemory> {
    if !heap.may_start(Some(cell)) {
        return Ok(None);
    }
    Ok(Some(heap.start(4, 2, Some(cell))?))
}

// An unfinished actor ends, where it may.
fn finish(heap: &mut Heap, actor: ActorId) -> bool {
    if !heap.unfinished(actor) || !heap.may_finish(actor) {
        return false;
    }
    heap.finish(actor);
    true
}

// Whether an actor is unfinished and marked.
fn is_marked(heap: &Heap, actor: ActorId) -> bool {
    heap.unfinished(actor) && heap.marked(actor)
}

// An unfinished actor with a frame is cancelled.
fn mark(heap: &mut Heap, actor: ActorId) -> Result<bool, NoMemory> {
    if !heap.unfinished(actor) || !heap.frames().contains(actor) {
        return Ok(false);
    }
    heap.cancel(actor)?;
    Ok(true)
}

// An unfinished actor is cancelled: whether it is marked then.
fn cancel(heap: &mut Heap, actor: ActorId) -> Result<bool, NoMemory> {
    Ok(mark(heap, actor)? && is_marked(heap, actor))
}

// A callback of an actor waits at a cell that is there.
pub(crate) fn wait_at(heap: &mut Heap, actor: ActorId, cell: CellId) -> Result<bool, NoMemory> {
    add_wait(heap.cells_mut(), actor, cell)
}

// An actor that has a frame is suspended, with a callback at a cell.
fn suspend_at(heap: &mut Heap, actor: ActorId, cell: CellId) -> Result<bool, NoMemory> {
    suspend(heap.frames_mut(), actor, cell)
}

// An actor that waits at a cell with one callback.
fn waiting(heap: &mut Heap, cell: CellId) -> Result<Option<ActorId>, NoMemory> {
    let actor = begin(heap, 2)?;
    if wait_at(heap, actor, cell)? && suspend_at(heap, actor, cell)? {
        return Ok(Some(actor));
    }
    Ok(None)
}

fn is_run(task: Option<&Task>) -> bool {
    match task {
        Some(Task::Run(_)) => true,
        _ => false,
    }
}

// The error that a task is to throw, if it is to throw one.
fn thrown(task: Option<&Task>) -> Option<ErrorCode> {
    match task {
        Some(Task::Throw(_, error)) => Some(*error),
        _ => None,
    }
}

// The kind of the reference that a task is to drop, if it is to drop one.
fn lost(task: Option<&Task>) -> Option<Kind> {
    match task {
        Some(Task::Drop(kind, _)) => Some(*kind),
        _ => None,
    }
}

// Whether the newest task, which is taken, is to run an actor.
fn takes_run(heap: &mut Heap) -> bool {
    let found = is_run(heap.first_task());
    heap.next_task();
    found
}

// Whether the newest task, which is taken, is to throw this error.
fn takes_throw(heap: &mut Heap, error: ErrorCode) -> bool {
    let found = thrown(heap.first_task());
    heap.next_task();
    found == Some(error)
}

// Whether the newest task, which is taken, is to drop a reference of this kind.
fn takes_drop(heap: &mut Heap, kind: Kind) -> bool {
    let found = lost(heap.first_task());
    heap.next_task();
    found == Some(kind)
}

// Whether no task is left.
fn takes_nothing(heap: &mut Heap) -> bool {
    heap.next_task().is_none()
}

// Whether the loss of a reference does this.
fn loses(
    heap: &mut Heap,
    (kind, cell): (Kind, CellId),
    wanted: Option<Dropped>,
) -> Result<bool, NoMemory> {
    Ok(lose(heap, kind, cell)? == wanted)
}

fn add_tasks(heap: &mut Heap) -> Result<(), NoMemory> {
    heap.push(Task::Run(ActorId(1)))?;
    heap.push(Task::Throw(ActorId(2), ErrorCode(9)))
}

fn takes_the_newest(heap: &mut Heap) -> Result<bool, NoMemory> {
    add_tasks(heap)?;
    Ok(takes_throw(heap, ErrorCode(9)) && takes_run(heap) && takes_nothing(heap))
}

// An empty heap, in a box: what owns a heap itself drops all its parts at each of its ends.
pub(crate) fn boxed_heap(alloc: Global) -> Result<Box<Heap>, NoMemory> {
    Ok(Box::new(alloc, Heap::new(alloc)?)?)
}

fn newest_first(alloc: Global) -> Result<bool, NoMemory> {
    let mut heap = boxed_heap(alloc)?;
    takes_the_newest(&mut heap)
}

#[test]
fn the_newest_task_comes_first(rt: HostRuntime) -> Result<(), NoMemory> {
    assert!(rt; newest_first(rt.alloc())?);
    Ok(())
}

// A record whose fields are a future and a promise.
fn two_references(alloc: Global) -> Result<Value, NoMemory> {
    let mut fields = Vec::new(alloc);
    fields.push(Value::Ref(Kind::Future, CellId(7)))?;
    fields.push(Value::Ref(Kind::Promise, CellId(8)))?;
    Value::record(alloc, RecordId::Declared(0), fields)
}

fn takes_both(heap: &mut Heap, value: &Value) -> Result<bool, NoMemory> {
    heap.push_drops(value)?;
    Ok(takes_drop(heap, Kind::Future) && takes_drop(heap, Kind::Promise))
}

fn references_in_order(alloc: Global) -> Result<bool, NoMemory> {
    let value = two_references(alloc)?;
    let mut heap = boxed_heap(alloc)?;
    takes_both(&mut heap, &value)
}

#[test]
fn the_first_reference_is_dropped_first(rt: HostRuntime) -> Result<(), NoMemory> {
    assert!(rt; references_in_order(rt.alloc())?);
    Ok(())
}

// A cell is made and held as the result of `main`, and the heap is cleared.
fn make_and_clear(heap: &mut Heap) -> Result<CellId, NoMemory> {
    let cell = heap.new_result()?;
    heap.set_main(Some(cell));
    heap.clear();
    Ok(cell)
}

fn is_cleared(heap: &Heap, cell: CellId) -> bool {
    heap.main().is_none() && heap.cells().references(cell).is_none()
}

fn clears(heap: &mut Heap) -> Result<bool, NoMemory> {
    let cell = make_and_clear(heap)?;
    Ok(is_cleared(heap, cell) && heap.new_stream()? == CellId(2))
}

fn clears_alone(alloc: Global) -> Result<bool, NoMemory> {
    let mut heap = boxed_heap(alloc)?;
    clears(&mut heap)
}

#[test]
fn a_cleared_heap_keeps_the_numbers(rt: HostRuntime) -> Result<(), NoMemory> {
    assert!(rt; clears_alone(rt.alloc())?);
    Ok(())
}

// Two promises and a future of a cell count.
fn refers(heap: &mut Heap, cell: CellId) -> bool {
    refer(heap, cell, Side::Promise)
        && refer(heap, cell, Side::Promise)
        && refer(heap, cell, Side::Future)
}

fn loses_all(heap: &mut Heap, cell: CellId) -> Result<bool, NoMemory> {
    let promise = (Kind::Promise, cell);
    Ok(
        loses(heap, promise, Some(Dropped::Nothing))?
            && loses(heap, promise, Some(Dropped::Broken))?
            && loses(heap, promise, None)?
            && loses(heap, (Kind::Future, cell), Some(Dropped::Freed))?,
    )
}

fn drops(heap: &mut Heap) -> Result<bool, NoMemory> {
    let cell = make(heap)?;
    Ok(refers(heap, cell) && loses_all(heap, cell)?)
}

fn drops_alone(alloc: Global) -> Result<bool, NoMemory> {
    let mut heap = boxed_heap(alloc)?;
    drops(&mut heap)
}

#[test]
fn drop_by_counts(rt: HostRuntime) -> Result<(), NoMemory> {
    assert!(rt; drops_alone(rt.alloc())?);
    Ok(())
}

// The first actor starts with a cell as its result, and no other may while it is unfinished.
fn starts_once(heap: &mut Heap, cell: CellId) -> Result<bool, NoMemory> {
    Ok(start(heap, cell)? == Some(ActorId(1)) && start(heap, cell)?.is_none())
}

fn finishes_once(heap: &mut Heap, actor: ActorId) -> bool {
    finish(heap, actor) && !finish(heap, actor)
}

// The last future of the result of the first actor leads to its cancellation.
fn cancels_at_last(heap: &mut Heap, cell: CellId) -> Result<bool, NoMemory> {
    let wanted = Some(Dropped::Cancel(ActorId(1)));
    Ok(refer(heap, cell, Side::Future) && loses(heap, (Kind::Future, cell), wanted)?)
}

fn cancels(heap: &mut Heap) -> Result<bool, NoMemory> {
    let cell = make(heap)?;
    Ok(
        starts_once(heap, cell)?
            && cancels_at_last(heap, cell)?
            && finishes_once(heap, ActorId(1))
            && start(heap, cell)? == Some(ActorId(2)),
    )
}

fn cancels_alone(alloc: Global) -> Result<bool, NoMemory> {
    let mut heap = boxed_heap(alloc)?;
    cancels(&mut heap)
}

#[test]
fn the_last_future_cancels_an_actor(rt: HostRuntime) -> Result<(), NoMemory> {
    assert!(rt; cancels_alone(rt.alloc())?);
    Ok(())
}

// Whether a callback of an actor waits at a cell.
fn waits(heap: &Heap, actor: ActorId, cell: CellId) -> bool {
    heap.cells().waits(cell, Waiter { actor, callback: 0 })
}

// An actor that waits at a cell is cancelled, and waits there no more.
fn leaves(heap: &mut Heap) -> Result<bool, NoMemory> {
    let cell = make(heap)?;
    let Some(actor) = waiting(heap, cell)? else {
        return Ok(false);
    };
    Ok(cancel(heap, actor)? && !waits(heap, actor, cell))
}

// Tasks to drop a future, and to throw the error of a cancellation.
fn takes_what_follows(heap: &mut Heap) -> bool {
    takes_drop(heap, Kind::Future) && takes_throw(heap, OPERATION_CANCELLED) && takes_nothing(heap)
}

fn leaves_its_wait(heap: &mut Heap) -> Result<bool, NoMemory> {
    Ok(leaves(heap)? && takes_what_follows(heap))
}

fn leaves_alone(alloc: Global) -> Result<bool, NoMemory> {
    let mut heap = boxed_heap(alloc)?;
    leaves_its_wait(&mut heap)
}

#[test]
fn a_cancelled_actor_leaves_its_wait(rt: HostRuntime) -> Result<(), NoMemory> {
    assert!(rt; leaves_alone(rt.alloc())?);
    Ok(())
}
