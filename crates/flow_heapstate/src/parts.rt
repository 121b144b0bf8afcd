// Copies of what stands in a heap, part by part.

ghost use Rattle.std.specs.Prelude.{◌≡◌, IfOk, IsSome, option_copied, option_map, map};
ghost use Rattle.std.specs.Option.{ForSome};
ghost use Rattle.flow_value.specs.View.{value_of, outcome_of};
ghost use Rattle.flow_numbered.specs.Numbered.{thing};
ghost use Rattle.flow_heapstate.specs.State.{place_of, cell_kept, cell_part, stream_kept, stream_part, actor_kept, actor_part, result_noted};

use crate::state::{ActorState, CellState, StreamState};
use flow_base::ids::{ActorId, CellId};
use flow_base::memory::NoMemory;
use flow_cancel::heap::Heap;
use flow_cell::cells::Cells;
use flow_cell::waiter::Waiter;
use flow_frame::frames::Frames;
use flow_stream::streams::Streams;
use flow_value::value::{Outcome, Value};
use std::alloc::Global;

// A copy of what a place holds.
fn place_copy(alloc: Global, value: Option<&Value>) -> Result<Option<Value>, NoMemory>
    ensures { IfOk result (λ p. place_of p ≡ place_of (option_copied value.entry)) }
{
    match value {
        Some(value) => Ok(Some(value.copy(alloc)?)),
        None => Ok(None),
    }
}

// A copy of what a single result holds.
fn content_copy(alloc: Global, content: Option<&Outcome>) -> Result<Option<Outcome>, NoMemory>
    ensures { IfOk result (λ c. option_map outcome_of c
        ≡ option_map outcome_of (option_copied content.entry)) }
{
    match content {
        Some(outcome) => Ok(Some(outcome.copy(alloc)?)),
        None => Ok(None),
    }
}

// Who waits for a single result, oldest first.
fn waiters(alloc: Global, cells: &Cells<Outcome>, cell: CellId) -> Result<Vec<Waiter>, NoMemory>
    requires { IsSome (thing cells.now.things cell.0) }
    ensures { ForSome (thing cells.now.things cell.0)
        (λ c. IfOk result (λ ws. ws.items ≡ c.waiters)) }
{
    let mut waiters = Vec::new(alloc);
    while let Some(waiter) = cells.waiter_at(cell, waiters.len()) {
        waiters.push(waiter)?;
    }
    Ok(waiters)
}

// The elements of a stream, oldest first.
fn elements(alloc: Global, streams: &Streams<Value>, cell: CellId) -> Result<Vec<Value>, NoMemory>
    requires { IsSome (thing streams.now.things cell.0) }
    ensures { ForSome (thing streams.now.things cell.0)
        (λ s. IfOk result (λ vs. map value_of vs.items ≡ map value_of s.queue)) }
{
    let mut elements = Vec::new(alloc);
    while let Some(value) = streams.item(cell, elements.len()) {
        elements.push(value.copy(alloc)?)?;
    }
    Ok(elements)
}

// What the places of a frame hold.
fn places(
    alloc: Global,
    frames: &Frames<Value>,
    actor: ActorId,
) -> Result<Vec<Option<Value>>, NoMemory>
    requires { IsSome (thing frames.now.things actor.0) }
    ensures { ForSome (thing frames.now.things actor.0)
        (λ f. IfOk result (λ ps. map place_of ps.items ≡ map place_of f.places)) }
{
    let mut places = Vec::new(alloc);
    for place in 0..frames.places(actor) {
        places.push(place_copy(alloc, frames.slot(actor, place))?)?;
    }
    Ok(places)
}

/// A single result of a heap.
pub(crate) fn cell_state(alloc: Global, heap: &Heap, cell: CellId) -> Result<CellState, NoMemory>
    requires { IsSome (thing heap.now.cells.things cell.0) }
    ensures { ForSome (thing heap.now.cells.things cell.0)
        (λ c. IfOk result (λ s. cell_kept s ≡ cell_part heap.now.requests (cell.0, c))) }
{
    let cells = heap.cells();
    Ok(CellState {
        cell,
        content: content_copy(alloc, cells.content(cell))?,
        waiters: waiters(alloc, cells, cell)?,
        requested: heap.is_requested(cell),
    })
}

/// A stream of a heap.
pub(crate) fn stream_state(
    alloc: Global,
    heap: &Heap,
    cell: CellId,
) -> Result<StreamState, NoMemory>
    requires { IsSome (thing heap.now.streams.things cell.0) }
    ensures { ForSome (thing heap.now.streams.things cell.0)
        (λ s. IfOk result (λ r. stream_kept r ≡ stream_part heap.now.ports (cell.0, s))) }
{
    let streams = heap.streams();
    Ok(StreamState {
        cell,
        queue: elements(alloc, streams, cell)?,
        end: streams.end_error(cell),
        waiter: streams.waiter(cell),
        port: heap.is_port(cell),
    })
}

// The result of an actor, if it is unfinished and has one.
fn result_of(heap: &Heap, actor: ActorId) -> Option<CellId>
    ensures { result ≡ result_noted (thing heap.now.actors.things actor.0) }
{
    if heap.unfinished(actor) {
        heap.result(actor)
    } else {
        None
    }
}

/// An actor of a heap, with its frame.
pub(crate) fn actor_state(
    alloc: Global,
    heap: &Heap,
    actor: ActorId,
) -> Result<ActorState, NoMemory>
    requires { IsSome (thing heap.now.frames.things actor.0) }
    ensures { ForSome (thing heap.now.frames.things actor.0)
        (λ f. IfOk result (λ s. actor_kept s ≡ actor_part heap.now.actors.things (actor.0, f))) }
{
    let frames = heap.frames();
    Ok(ActorState {
        actor,
        result: result_of(heap, actor),
        class: frames.class(actor),
        state: frames.state(actor),
        places: places(alloc, frames, actor)?,
        callbacks: Vec::from_slice(alloc, frames.callbacks(actor))?,
    })
}
