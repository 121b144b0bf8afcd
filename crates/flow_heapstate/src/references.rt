// The references that a kept state holds.

ghost use Rattle.std.specs.Prelude.{◌≡◌, ◌++◌, map, option_map, OnOk, IfOk};
ghost use Rattle.std.specs.List.{flat_map};
ghost use Rattle.flow_value.specs.Values.{refs_of};
ghost use Rattle.flow_value.specs.View.{value_of, outcome_of, ref_of};
ghost use Rattle.flow_heapstate.specs.State.{place_of, cell_kept, stream_kept, actor_kept, parts_kept};
ghost use Rattle.flow_heapstate.specs.Referring.{Adds, waits_of, content_refs, place_refs, cell_refs, stream_refs, actor_refs, result_refs, named, stored_refs};
ghost use Rattle.flow_heapstate.specs.Referring.{references as all_references};
ghost use Rattle.flow_heapstate.specs.Sound.{results, value_refs};
ghost use Rattle.flow_heapstate.specs.Judging.{held_refs, queue_refs, HasFound};

use crate::state::{ActorState, CellState, HeapState, StreamState};
use flow_base::ids::CellId;
use flow_base::memory::NoMemory;
use flow_cell::waiter::Waiter;
use flow_value::value::{Kind, Outcome, Value};
use std::alloc::Global;

// Adds the references of a value.
fn add_value(alloc: Global, value: &Value, found: &mut Vec<(Kind, CellId)>) -> Result<(), NoMemory>
    ensures { OnOk result (Adds found.old.items (refs_of (value_of value.now)) found.new.items) }
{
    let more = value.refs(alloc)?;
    found.extend_from_slice(&more)?;
    Ok(())
}

// Adds the references of what a single result holds.
fn add_content(
    alloc: Global,
    content: &Option<Outcome>,
    found: &mut Vec<(Kind, CellId)>,
) -> Result<(), NoMemory>
    ensures { OnOk result (Adds found.old.items (content_refs (option_map outcome_of content.now))
        found.new.items) }
{
    if let Some(Outcome::Value(value)) = content {
        add_value(alloc, value, found)?;
    }
    Ok(())
}

// Adds a future of a single result for each of its waiters.
fn add_waits(
    cell: CellId,
    waiters: &[Waiter],
    found: &mut Vec<(Kind, CellId)>,
) -> Result<(), NoMemory>
    ensures { OnOk result (Adds found.old.items (waits_of cell.0 waiters.now) found.new.items) }
{
    for _waiter in waiters {
        found.push((Kind::Future, cell))?;
    }
    Ok(())
}

// Adds a single result: what it holds, an open request, and its waiters.
fn add_cell(
    alloc: Global,
    part: &CellState,
    found: &mut Vec<(Kind, CellId)>,
) -> Result<(), NoMemory>
    ensures { OnOk result (Adds found.old.items (cell_refs (cell_kept part.now)) found.new.items) }
{
    add_content(alloc, &part.content, found)?;
    if part.requested {
        found.push((Kind::Promise, part.cell))?;
    }
    add_waits(part.cell, &part.waiters, found)
}

// Adds the elements of a stream.
fn add_elements(
    alloc: Global,
    queue: &[Value],
    found: &mut Vec<(Kind, CellId)>,
) -> Result<(), NoMemory>
    ensures { OnOk result (Adds found.old.items (flat_map refs_of (map value_of queue.now))
        found.new.items) }
{
    for value in queue {
        add_value(alloc, value, found)?;
    }
    Ok(())
}

// Adds a stream: its elements, its port and its waiter.
fn add_stream(
    alloc: Global,
    part: &StreamState,
    found: &mut Vec<(Kind, CellId)>,
) -> Result<(), NoMemory>
    ensures { OnOk result (Adds found.old.items (stream_refs (stream_kept part.now))
        found.new.items) }
{
    add_elements(alloc, &part.queue, found)?;
    if part.port {
        found.push((Kind::PromiseStream, part.cell))?;
    }
    if part.waiter.is_some() {
        found.push((Kind::FutureStream, part.cell))?;
    }
    Ok(())
}

// Adds what the places of a frame hold.
fn add_places(
    alloc: Global,
    places: &[Option<Value>],
    found: &mut Vec<(Kind, CellId)>,
) -> Result<(), NoMemory>
    ensures { OnOk result (Adds found.old.items (flat_map place_refs (map place_of places.now))
        found.new.items) }
{
    for place in places {
        if let Some(value) = place {
            add_value(alloc, value, found)?;
        }
    }
    Ok(())
}

// Adds all single results.
fn add_cells(
    alloc: Global,
    parts: &[CellState],
    found: &mut Vec<(Kind, CellId)>,
) -> Result<(), NoMemory>
    ensures { OnOk result (Adds found.old.items (flat_map cell_refs (map cell_kept parts.now))
        found.new.items) }
{
    for part in parts {
        add_cell(alloc, part, found)?;
    }
    Ok(())
}

// Adds all streams.
fn add_streams(
    alloc: Global,
    parts: &[StreamState],
    found: &mut Vec<(Kind, CellId)>,
) -> Result<(), NoMemory>
    ensures { OnOk result (Adds found.old.items (flat_map stream_refs (map stream_kept parts.now))
        found.new.items) }
{
    for part in parts {
        add_stream(alloc, part, found)?;
    }
    Ok(())
}

// Adds the frames of all actors.
fn add_actors(
    alloc: Global,
    parts: &[ActorState],
    found: &mut Vec<(Kind, CellId)>,
) -> Result<(), NoMemory>
    ensures { OnOk result (Adds found.old.items (flat_map actor_refs (map actor_kept parts.now))
        found.new.items) }
{
    for part in parts {
        add_places(alloc, &part.places, found)?;
    }
    Ok(())
}

/// The references of a state, but for the promises of its actors for their results.
pub(crate) fn references(alloc: Global, state: &HeapState) -> Result<Vec<(Kind, CellId)>, NoMemory>
    ensures { IfOk result (λ found. map ref_of found.items ≡ stored_refs (parts_kept state.now)) }
{
    let mut found = Vec::new(alloc);
    add_cells(alloc, &state.cells, &mut found)?;
    add_streams(alloc, &state.streams, &mut found)?;
    add_actors(alloc, &state.actors, &mut found)?;
    if let Some(cell) = state.main {
        found.push((Kind::Future, cell))?;
    }
    Ok(found)
}

// Adds what all single results hold.
fn add_contents(
    alloc: Global,
    parts: &[CellState],
    found: &mut Vec<(Kind, CellId)>,
) -> Result<(), NoMemory>
    ensures { OnOk result (Adds found.old.items (flat_map held_refs (map cell_kept parts.now))
        found.new.items) }
{
    for part in parts {
        add_content(alloc, &part.content, found)?;
    }
    Ok(())
}

// Adds the elements of all streams.
fn add_queues(
    alloc: Global,
    parts: &[StreamState],
    found: &mut Vec<(Kind, CellId)>,
) -> Result<(), NoMemory>
    ensures { OnOk result (Adds found.old.items (flat_map queue_refs (map stream_kept parts.now))
        found.new.items) }
{
    for part in parts {
        add_elements(alloc, &part.queue, found)?;
    }
    Ok(())
}

// Adds the promise of an actor for its result.
fn add_result(part: &ActorState, found: &mut Vec<(Kind, CellId)>) -> Result<(), NoMemory>
    ensures { OnOk result (Adds found.old.items (result_refs
        (actor_kept part.now)) found.new.items) }
{
    if let Some(cell) = part.result {
        found.push((Kind::Promise, cell))?;
    }
    Ok(())
}

// Adds the promises of all actors for their results.
fn add_results(parts: &[ActorState], found: &mut Vec<(Kind, CellId)>) -> Result<(), NoMemory>
    ensures { OnOk result (Adds found.old.items (flat_map result_refs (map actor_kept parts.now))
        found.new.items) }
{
    for part in parts {
        add_result(part, found)?;
    }
    Ok(())
}

// The references of a state, and which of them are promises for results and which stand in values.
#[derive(Drop)]
pub(crate) struct Found {
    pub(crate) all: Vec<(Kind, CellId)>,
    pub(crate) results: Vec<(Kind, CellId)>,
    pub(crate) values: Vec<(Kind, CellId)>,
}

// The promises of the actors of a state for their results.
fn results(alloc: Global, state: &HeapState) -> Result<Vec<(Kind, CellId)>, NoMemory>
    ensures { IfOk result (λ found. map ref_of found.items ≡ results (parts_kept state.now)) }
{
    let mut found = Vec::new(alloc);
    add_results(&state.actors, &mut found)?;
    Ok(found)
}

// The references that stand in the values of a state.
fn values(alloc: Global, state: &HeapState) -> Result<Vec<(Kind, CellId)>, NoMemory>
    ensures { IfOk result (λ found. map ref_of found.items ≡ value_refs (parts_kept state.now)) }
{
    let mut found = Vec::new(alloc);
    add_contents(alloc, &state.cells, &mut found)?;
    add_queues(alloc, &state.streams, &mut found)?;
    add_actors(alloc, &state.actors, &mut found)?;
    Ok(found)
}

// All references of a state.
fn all(alloc: Global, state: &HeapState) -> Result<Vec<(Kind, CellId)>, NoMemory>
    ensures { IfOk result (λ found. map ref_of found.items
        ≡ all_references (parts_kept state.now)) }
{
    let mut found = results(alloc, state)?;
    let stored = references(alloc, state)?;
    found.extend_from_slice(&stored)?;
    Ok(found)
}

/// The references of a state, sorted out.
pub(crate) fn found_in(alloc: Global, state: &HeapState) -> Result<Found, NoMemory>
    ensures { IfOk result (λ found. HasFound (parts_kept state.now) found) }
{
    Ok(Found {
        all: all(alloc, state)?,
        results: results(alloc, state)?,
        values: values(alloc, state)?,
    })
}
