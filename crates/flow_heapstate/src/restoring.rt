// A heap made from a state that was kept.

ghost use Rattle.std.specs.Prelude.{◌≡◌, ◌<◌, ◌++◌, ◌^◌, max, true, length, map, None, IsSome, OnOk, IfOk};
ghost use Rattle.std.specs.Option.{ForSome};
ghost use Rattle.flow_value.specs.View.{ref_of};
ghost use Rattle.flow_numbered.specs.Numbered.{thing, IsRising};
ghost use Rattle.flow_cell.specs.Cells.{no_counts};
ghost use Rattle.flow_cancel.specs.Heap.{no_heap, last_actor, may_start, with_new, side_of};
ghost use Rattle.flow_heapstate.specs.State.{parts_kept, parts_of};
ghost use Rattle.flow_heapstate.specs.Sound.{SoundHeap, RestsWith};
ghost use Rattle.flow_heapstate.specs.Restoring.{Turns, waiters_more, queue_more, callbacks_more, with_content, with_end, with_wait, with_cell, with_cells, with_stream, with_streams, stood, begun, with_actor, with_actors, held_in_cells, held_in_streams, held_one, held_all, restored, RisesFrom, StateInOrder};

use crate::listing::state;
use crate::references::references;
use crate::state::{ActorState, CellState, HeapState, StreamState};
use flow_base::ids::{ActorId, CellId, ErrorCode};
use flow_base::memory::NoMemory;
use flow_cancel::heap::Heap;
use flow_cell::cells::Cells;
use flow_cell::counts::Side;
use flow_cell::waiter::Waiter;
use flow_frame::frames::Frames;
use flow_frame::held::Held;
use flow_stream::streams::Streams;
use flow_value::value::{Kind, Outcome, Value};
use std::alloc::Global;

// Waiters come behind those of a single result.
fn add_waiters(cells: &mut Cells<Outcome>, cell: CellId, waiters: &[Waiter]) -> Result<(), NoMemory>
    requires { IsSome (thing cells.old.things cell.0) }
    ensures { OnOk result (Turns cells.old cell.0 (λ c. waiters_more c waiters.now) cells.new) }
{
    for waiter in waiters {
        cells.add_waiter(cell, *waiter)?;
    }
    Ok(())
}

#[tactic(auto, using(flow_numbered::proofs::Things::with_same))]
// An unset single result is set, or stays unset.
fn set_cell(cells: &mut Cells<Outcome>, cell: CellId, content: Option<Outcome>)
    requires there { IsSome (thing cells.old.things cell.0) }
    requires unset { ForSome (thing cells.old.things cell.0) (λ c. c.content ≡ None) }
    ensures { Turns cells.old cell.0 (with_content content) cells.new }
{
    if let Some(outcome) = content {
        cells.set(cell, outcome);
    }
}

// A new single result with this content and these waiters, without a reference.
fn make_cell(
    cells: &mut Cells<Outcome>,
    cell: CellId,
    content: Option<Outcome>,
    waiters: &[Waiter],
) -> Result<(), NoMemory>
    requires rising { IsRising 0 cells.old.things cells.old.greatest }
    requires above { cells.old.greatest < cell.0 }
    ensures { OnOk result (cells.new ≡ with_new cells.old cell.0 (record {
      content = content;
      references = no_counts;
      waiters = waiters.now;
    })) }
{
    cells.make(cell)?;
    set_cell(cells, cell, content);
    add_waiters(cells, cell, waiters)?;
    Ok(())
}

// A single result of a state, without a reference.
fn put_cell(heap: &mut Heap, part: CellState) -> Result<(), NoMemory>
    requires rising { IsRising 0 heap.old.cells.things heap.old.cells.greatest }
    requires above { heap.old.cells.greatest < part.cell.0 }
    ensures { OnOk result (heap.new ≡ with_cell part heap.old) }
{
    let cells = heap.cells_mut();
    make_cell(cells, part.cell, part.content, &part.waiters)?;
    if part.requested {
        heap.add_request(part.cell)?;
    }
    Ok(())
}

#[tactic(auto, using(crate::proofs::Building::rising_added))]
// The single results of a state, without a reference.
fn put_cells(heap: &mut Heap, parts: Vec<CellState>) -> Result<(), NoMemory>
    requires rising { IsRising 0 heap.old.cells.things heap.old.cells.greatest }
    requires above { RisesFrom heap.old.cells.greatest (map (λ s. s.cell.0) parts.items) }
    ensures { OnOk result (heap.new ≡ with_cells parts.items heap.old) }
{
    for part in parts {
        put_cell(heap, part)?;
    }
    Ok(())
}

// Elements come behind those of a stream that has no end.
fn add_elements(
    streams: &mut Streams<Value>,
    cell: CellId,
    queue: Vec<Value>,
) -> Result<(), NoMemory>
    requires there { IsSome (thing streams.old.things cell.0) }
    requires endless { ForSome (thing streams.old.things cell.0) (λ s. s.end ≡ None) }
    ensures { OnOk result (Turns streams.old cell.0 (λ s. queue_more s queue.items) streams.new) }
{
    for value in queue {
        streams.push(cell, value)?;
    }
    Ok(())
}

#[tactic(auto, using(flow_numbered::proofs::Things::with_same))]
// A stream that has no end gets one, or none.
fn end_stream(streams: &mut Streams<Value>, cell: CellId, end: Option<ErrorCode>)
    requires there { IsSome (thing streams.old.things cell.0) }
    requires endless { ForSome (thing streams.old.things cell.0) (λ s. s.end ≡ None) }
    ensures { Turns streams.old cell.0 (with_end end) streams.new }
{
    if let Some(error) = end {
        streams.end(cell, error);
    }
}

#[tactic(auto, using(flow_numbered::proofs::Things::with_same))]
// A stream that has no waiter gets one, or none.
fn await_stream(streams: &mut Streams<Value>, cell: CellId, waiter: Option<Waiter>)
    requires there { IsSome (thing streams.old.things cell.0) }
    requires alone { ForSome (thing streams.old.things cell.0) (λ s. s.waiter ≡ None) }
    ensures { Turns streams.old cell.0 (with_wait waiter) streams.new }
{
    if let Some(waiter) = waiter {
        streams.add_waiter(cell, waiter);
    }
}

// A new stream with these elements, end and waiter, without a reference.
fn make_stream(
    streams: &mut Streams<Value>,
    cell: CellId,
    queue: Vec<Value>,
    end: Option<ErrorCode>,
    waiter: Option<Waiter>,
) -> Result<(), NoMemory>
    requires rising { IsRising 0 streams.old.things streams.old.greatest }
    requires above { streams.old.greatest < cell.0 }
    ensures { OnOk result (streams.new ≡ with_new streams.old cell.0 (record {
      references = no_counts;
      queue = queue.items;
      end = end;
      waiter = waiter;
    })) }
{
    streams.make(cell)?;
    add_elements(streams, cell, queue)?;
    end_stream(streams, cell, end);
    await_stream(streams, cell, waiter);
    Ok(())
}

// A stream of a state, without a reference.
fn put_stream(heap: &mut Heap, part: StreamState) -> Result<(), NoMemory>
    requires rising { IsRising 0 heap.old.streams.things heap.old.streams.greatest }
    requires above { heap.old.streams.greatest < part.cell.0 }
    ensures { OnOk result (heap.new ≡ with_stream part heap.old) }
{
    let streams = heap.streams_mut();
    make_stream(streams, part.cell, part.queue, part.end, part.waiter)?;
    if part.port {
        heap.add_port(part.cell)?;
    }
    Ok(())
}

#[tactic(auto, using(crate::proofs::Building::rising_added))]
// The streams of a state, without a reference.
fn put_streams(heap: &mut Heap, parts: Vec<StreamState>) -> Result<(), NoMemory>
    requires rising { IsRising 0 heap.old.streams.things heap.old.streams.greatest }
    requires above { RisesFrom heap.old.streams.greatest (map (λ s. s.cell.0) parts.items) }
    ensures { OnOk result (heap.new ≡ with_streams parts.items heap.old) }
{
    for part in parts {
        put_stream(heap, part)?;
    }
    Ok(())
}

// Callbacks come behind those of a frame.
fn add_callbacks(
    frames: &mut Frames<Value>,
    actor: ActorId,
    callbacks: &[Held],
) -> Result<(), NoMemory>
    requires { IsSome (thing frames.old.things actor.0) }
    ensures { OnOk result (Turns frames.old actor.0 (λ f. callbacks_more f callbacks.now)
        frames.new) }
{
    for held in callbacks {
        frames.add_callback(actor, *held)?;
    }
    Ok(())
}

// A frame gets its state and more callbacks.
fn stand(
    frames: &mut Frames<Value>,
    actor: ActorId,
    state: u32,
    callbacks: &[Held],
) -> Result<(), NoMemory>
    requires { IsSome (thing frames.old.things actor.0) }
    ensures { OnOk result (Turns frames.old actor.0 (stood state callbacks.now) frames.new) }
{
    frames.set_state(actor, state);
    add_callbacks(frames, actor, callbacks)?;
    Ok(())
}

// An actor starts with what its state says.
fn begin(heap: &mut Heap, places: u32, part: ActorState) -> Result<(), NoMemory>
    requires may { may_start part.result heap.old ≡ true }
    requires above { last_actor heap.old < part.actor.0 }
    requires places { places ≡ length part.places.items }
    ensures { OnOk result (heap.new ≡ begun part heap.old) }
{
    heap.skip_actors(ActorId(part.actor.0 - 1));
    let actor = heap.start_holding(part.class, places, part.places, part.result)?;
    stand(heap.frames_mut(), actor, part.state, &part.callbacks)?;
    Ok(())
}

// An actor of a state, if it can begin.
fn put_actor(heap: &mut Heap, part: ActorState) -> Result<(), NoMemory>
    requires { last_actor heap.old < part.actor.0 }
    ensures { OnOk result (heap.new ≡ with_actor part heap.old) }
{
    let Ok(places) = u32::try_from(part.places.len()) else {
        return Ok(());
    };
    if !heap.may_start(part.result) {
        return Ok(());
    }
    begin(heap, places, part)
}

#[tactic(auto, using(crate::proofs::Filling::actors_rise))]
// The actors of a state that can begin.
fn put_actors(heap: &mut Heap, parts: Vec<ActorState>) -> Result<(), NoMemory>
    requires { RisesFrom (last_actor heap.old) (map (λ s. s.actor.0) parts.items) }
    ensures { OnOk result (heap.new ≡ with_actors parts.items heap.old) }
{
    for part in parts {
        put_actor(heap, part)?;
    }
    Ok(())
}

// A reference to a side of a single result counts, where that is there.
fn hold_cell(heap: &mut Heap, side: Side, cell: CellId) -> Result<(), NoMemory>
    ensures { OnOk result (heap.new ≡ held_in_cells side cell.0 heap.old) }
{
    let Some(references) = heap.cells().references(cell) else {
        return Ok(());
    };
    if references.count(side) == u64::MAX {
        return Err(NoMemory);
    }
    heap.cells_mut().hold(cell, side);
    Ok(())
}

// A reference to a side of a stream counts, where that is there.
fn hold_stream(heap: &mut Heap, side: Side, cell: CellId) -> Result<(), NoMemory>
    ensures { OnOk result (heap.new ≡ held_in_streams side cell.0 heap.old) }
{
    let Some(references) = heap.streams().references(cell) else {
        return Ok(());
    };
    if references.count(side) == u64::MAX {
        return Err(NoMemory);
    }
    heap.streams_mut().hold(cell, side);
    Ok(())
}

// A reference counts.
fn hold(heap: &mut Heap, kind: Kind, cell: CellId) -> Result<(), NoMemory>
    ensures { OnOk result (heap.new ≡ held_one (kind, cell.0) heap.old) }
{
    match kind {
        Kind::Promise => hold_cell(heap, Side::Promise, cell),
        Kind::Future => hold_cell(heap, Side::Future, cell),
        Kind::PromiseStream => hold_stream(heap, Side::Promise, cell),
        Kind::FutureStream => hold_stream(heap, Side::Future, cell),
    }
}

// References count, one after another.
fn hold_all(heap: &mut Heap, found: &[(Kind, CellId)]) -> Result<(), NoMemory>
    ensures { OnOk result (heap.new ≡ held_all (map ref_of found.now) heap.old) }
{
    for (kind, cell) in found {
        hold(heap, *kind, *cell)?;
    }
    Ok(())
}

// A heap in which nothing has happened gets what a state tells whose parts are in the order of their numbers, and each
// reference in it is counted.
fn fill(alloc: Global, heap: &mut Heap, state: HeapState) -> Result<(), NoMemory>
    requires order { StateInOrder state }
    requires none { heap.old ≡ no_heap }
    ensures { OnOk result (heap.new ≡ restored state) }
{
    let found = references(alloc, &state)?;
    let HeapState {
        cells_made,
        actors_made,
        main,
        cells,
        streams,
        actors,
    } = state;
    put_cells(heap, cells)?;
    put_streams(heap, streams)?;
    put_actors(heap, actors)?;
    heap.skip_cells(CellId(cells_made));
    heap.skip_actors(ActorId(actors_made));
    heap.set_main(main);
    hold_all(heap, &found)?;
    Ok(())
}

// The heap of a state whose parts are in the order of their numbers. What owns a heap has few ways out, since all of the
// heap is dropped at each.
fn filled(alloc: Global, state: HeapState) -> Result<Heap, NoMemory>
    requires { StateInOrder state }
    ensures { IfOk result (λ h. h ≡ restored state) }
{
    let mut heap = Heap::new(alloc)?;
    fill(alloc, &mut heap, state)?;
    Ok(heap)
}

/// The heap of a state: it rests, holds what the state tells, and counts each reference in it and no
/// other. The next numbers of cells and actors are those that the state's heap would have given.
pub fn restore(alloc: Global, state: HeapState) -> Result<Heap, NoMemory>
    requires { SoundHeap (parts_kept state) }
    ensures rests { IfOk result (λ h. RestsWith (parts_kept state) h) }
    ensures made { IfOk result (λ h. h ≡ restored state) }
{
    filled(alloc, state)
}

/// Another heap like one that rests and counts its references, made from its state.
pub fn copied(alloc: Global, heap: &Heap) -> Result<Heap, NoMemory>
    requires sound { SoundHeap (parts_of heap.now) }
    requires counted { RestsWith (parts_of heap.now) heap.now }
    ensures { IfOk result (λ h. RestsWith (parts_of heap.now) h) }
{
    restore(alloc, state(alloc, heap)?)
}
