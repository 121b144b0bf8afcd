// The state of a heap.

ghost use Rattle.std.specs.Prelude.{◌≡◌, IfOk, IsSome, map};
ghost use Rattle.flow_numbered.specs.Numbered.{thing, IsRising};
ghost use Rattle.flow_heapstate.specs.State.{cell_kept, cell_part, stream_kept, stream_part, actor_kept, actor_part, parts_kept, parts_of, NumbersRise};

use crate::parts::{actor_state, cell_state, stream_state};
use crate::state::{ActorState, CellState, HeapState, StreamState};
use flow_base::ids::{ActorId, CellId};
use flow_base::memory::NoMemory;
use flow_cancel::heap::Heap;
use std::alloc::Global;

// The single results of a heap, by rising number.
fn cells(alloc: Global, heap: &Heap) -> Result<Vec<CellState>, NoMemory>
    ensures { IfOk result (λ v. IsRising 0 heap.now.cells.things heap.now.cells.greatest
        → map cell_kept v.items ≡ map (cell_part heap.now.requests) heap.now.cells.things) }
{
    let mut listed = Vec::new(alloc);
    let mut last = CellId(0);
    while let Some(cell) = heap.cells().next_cell(last) {
        listed.push(cell_state(alloc, heap, cell)?)?;
        last = cell;
    }
    Ok(listed)
}

// The streams of a heap, by rising number.
fn streams(alloc: Global, heap: &Heap) -> Result<Vec<StreamState>, NoMemory>
    ensures { IfOk result (λ v. IsRising 0 heap.now.streams.things heap.now.streams.greatest
        → map stream_kept v.items ≡ map (stream_part heap.now.ports) heap.now.streams.things) }
{
    let mut listed = Vec::new(alloc);
    let mut last = CellId(0);
    while let Some(cell) = heap.streams().next_cell(last) {
        listed.push(stream_state(alloc, heap, cell)?)?;
        last = cell;
    }
    Ok(listed)
}

/// The unfinished actors of a heap, by rising number.
pub fn actors(alloc: Global, heap: &Heap) -> Result<Vec<ActorState>, NoMemory>
    ensures { IfOk result (λ v. IsRising 0 heap.now.frames.things heap.now.frames.greatest
        → map actor_kept v.items ≡ map (actor_part heap.now.actors.things) heap.now.frames.things) }
{
    let mut listed = Vec::new(alloc);
    let mut last = ActorId(0);
    while let Some(actor) = heap.frames().next_actor(last) {
        listed.push(actor_state(alloc, heap, actor)?)?;
        last = actor;
    }
    Ok(listed)
}

/// The state of a heap: all of one that rests. Tasks, and where an actor stands that runs, are left out.
pub fn state(alloc: Global, heap: &Heap) -> Result<HeapState, NoMemory>
    ensures { IfOk result (λ s. NumbersRise heap.now → parts_kept s ≡ parts_of heap.now) }
{
    Ok(HeapState {
        cells_made: heap.last_cell(),
        actors_made: heap.last_actor(),
        main: heap.main(),
        cells: cells(alloc, heap)?,
        streams: streams(alloc, heap)?,
        actors: actors(alloc, heap)?,
    })
}
