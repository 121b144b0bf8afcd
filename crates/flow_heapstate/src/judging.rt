// Whether a heap can be made from a state, as it is judged at run time.

ghost use Rattle.std.specs.Prelude.{◌≡◌, ◌+◌, nat_lt, IfOk, None, is_some, option_map, map};
ghost use Rattle.std.specs.Bool.{Decides};
ghost use Rattle.std.specs.List.{list_all};
ghost use Rattle.flow_value.specs.View.{ref_of};
ghost use Rattle.flow_cell.specs.Waiting.{has_waiter};
ghost use Rattle.flow_cancel.specs.Leaving.{waits, is_waiter};
ghost use Rattle.flow_heapstate.specs.State.{cell_kept, stream_kept, actor_kept, parts_kept};
ghost use Rattle.flow_heapstate.specs.Referring.{times};
ghost use Rattle.flow_heapstate.specs.Sound.{cell_at, stream_at, actor_at, has_held, waits_in, SoundHeap};
ghost use Rattle.flow_heapstate.specs.Judging.{HasFound, rise_to, is_named, is_waiting, waits_at, cell_unowned, cell_fits, cell_sound, waiter_waits, stream_unnamed, stream_fits, stream_sound, is_unset, result_sound, actor_sound, parts_rise, parts_sound, is_sound};

use crate::references::{Found, found_in};
use crate::state::{ActorState, CellState, HeapState, StreamState};
use flow_base::ids::{ActorId, CellId};
use flow_base::memory::NoMemory;
use flow_cell::waiter::Waiter;
use flow_frame::held::Held;
use flow_value::value::Kind;
use std::alloc::Global;

// The single result, the stream and the actor of a state with this number.
fn cell_at(state: &HeapState, cell: CellId) -> Option<&CellState>
    ensures { option_map (λ part. cell_kept part.now) result
        ≡ cell_at (parts_kept state.now) cell.0 }
{
    for part in &state.cells {
        if part.cell == cell {
            return Some(part);
        }
    }
    None
}

fn stream_at(state: &HeapState, cell: CellId) -> Option<&StreamState>
    ensures { option_map (λ part. stream_kept part.now) result
        ≡ stream_at (parts_kept state.now) cell.0 }
{
    for part in &state.streams {
        if part.cell == cell {
            return Some(part);
        }
    }
    None
}

fn actor_at(state: &HeapState, actor: ActorId) -> Option<&ActorState>
    ensures { option_map (λ part. actor_kept part.now) result
        ≡ actor_at (parts_kept state.now) actor.0 }
{
    for part in &state.actors {
        if part.actor == actor {
            return Some(part);
        }
    }
    None
}

// Whether a reference leads to what its kind says.
fn is_named(state: &HeapState, kind: Kind, cell: CellId) -> bool
    ensures { result ≡ is_named (parts_kept state.now) (kind, cell.0) }
{
    match kind {
        Kind::Promise | Kind::Future => cell_at(state, cell).is_some(),
        Kind::PromiseStream | Kind::FutureStream => stream_at(state, cell).is_some(),
    }
}

fn all_named(state: &HeapState, found: &[(Kind, CellId)]) -> bool
    ensures { result ≡ list_all (is_named (parts_kept state.now)) (map ref_of found.now) }
{
    for (kind, cell) in found {
        if !is_named(state, *kind, *cell) {
            return false;
        }
    }
    true
}

// How often a reference is among these.
fn times(kind: Kind, cell: CellId, found: &[(Kind, CellId)]) -> usize
    ensures { result ≡ times kind cell.0 (map ref_of found.now) }
{
    let mut count = 0;
    for (other, at) in found {
        if *other == kind && *at == cell {
            count += 1;
        }
    }
    count
}

// Whether one of these callbacks has this number and waits at this cell.
fn has_held(callbacks: &[Held], callback: u32, cell: CellId) -> bool
    ensures { result ≡ has_held callbacks.now callback cell.0 }
{
    for held in callbacks {
        if held.callback == callback && held.cell == cell {
            return true;
        }
    }
    false
}

// Whether a waiter at a cell is a callback of its actor.
fn is_waiting(state: &HeapState, cell: CellId, waiter: &Waiter) -> bool
    ensures { result ≡ is_waiting (parts_kept state.now) cell.0 waiter.now }
{
    match actor_at(state, waiter.actor) {
        Some(part) => has_held(&part.callbacks, waiter.callback, cell),
        None => false,
    }
}

// Whether all of these wait at a cell as callbacks of their actors.
fn all_waiting(state: &HeapState, cell: CellId, waiters: &[Waiter]) -> bool
    ensures { result ≡ list_all (is_waiting (parts_kept state.now) cell.0) waiters.now }
{
    for waiter in waiters {
        if !is_waiting(state, cell, waiter) {
            return false;
        }
    }
    true
}

// Whether something refers to a cell.
fn is_referenced(promise: Kind, future: Kind, cell: CellId, found: &[(Kind, CellId)]) -> bool
    ensures { result ≡ nat_lt 0 (times promise cell.0 (map ref_of found.now)
        + times future cell.0 (map ref_of found.now)) }
{
    times(promise, cell, found) > 0 || times(future, cell, found) > 0
}

// Whether no actor and no value has the promise of a single result.
fn cell_unowned(state: &HeapState, found: &Found, cell: CellId) -> bool
    requires { HasFound (parts_kept state.now) found.now }
    ensures { result ≡ cell_unowned (parts_kept state.now) cell.0 }
{
    times(Kind::Promise, cell, &found.results) == 0
        && times(Kind::Promise, cell, &found.values) == 0
}

// Whether a single result has no waiter if it is set, and is unset and nobody's if a request is open on it.
fn cell_fits(state: &HeapState, found: &Found, part: &CellState) -> bool
    requires { HasFound (parts_kept state.now) found.now }
    ensures { result ≡ cell_fits (parts_kept state.now) (cell_kept part.now) }
{
    (part.content.is_none() || part.waiters.is_empty())
        && (!part.requested || (part.content.is_none() && cell_unowned(state, found, part.cell)))
}

fn cell_sound(state: &HeapState, found: &Found, part: &CellState) -> bool
    requires { HasFound (parts_kept state.now) found.now }
    ensures { result ≡ cell_sound (parts_kept state.now) (cell_kept part.now) }
{
    stream_at(state, part.cell).is_none()
        && is_referenced(Kind::Promise, Kind::Future, part.cell, &found.all)
        && all_waiting(state, part.cell, &part.waiters)
        && cell_fits(state, found, part)
}

fn waiter_waits(state: &HeapState, cell: CellId, waiter: Option<Waiter>) -> bool
    ensures { result ≡ waiter_waits (parts_kept state.now) cell.0 waiter }
{
    match waiter {
        Some(waiter) => is_waiting(state, cell, &waiter),
        None => true,
    }
}

// Whether no value has the promise of a stream.
fn stream_unnamed(state: &HeapState, found: &Found, cell: CellId) -> bool
    requires { HasFound (parts_kept state.now) found.now }
    ensures { result ≡ stream_unnamed (parts_kept state.now) cell.0 }
{
    times(Kind::PromiseStream, cell, &found.values) == 0
}

// Whether a stream has neither elements nor an end if it has a waiter, and is open and unnamed if it is that of a port.
fn stream_fits(state: &HeapState, found: &Found, part: &StreamState) -> bool
    requires { HasFound (parts_kept state.now) found.now }
    ensures { result ≡ stream_fits (parts_kept state.now) (stream_kept part.now) }
{
    (part.waiter.is_none() || (part.queue.is_empty() && part.end.is_none()))
        && (!part.port || (part.end.is_none() && stream_unnamed(state, found, part.cell)))
}

fn stream_sound(state: &HeapState, found: &Found, part: &StreamState) -> bool
    requires { HasFound (parts_kept state.now) found.now }
    ensures { result ≡ stream_sound (parts_kept state.now) (stream_kept part.now) }
{
    is_referenced(
        Kind::PromiseStream,
        Kind::FutureStream,
        part.cell,
        &found.all,
    ) && waiter_waits(state, part.cell, part.waiter)
        && stream_fits(state, found, part)
}

// Whether a waiter is among these.
fn has_waiter(waiters: &[Waiter], waiter: &Waiter) -> bool
    ensures { result ≡ has_waiter waiters.now waiter.now }
{
    for other in waiters {
        if other.actor.0 == waiter.actor.0 && other.callback == waiter.callback {
            return true;
        }
    }
    false
}

fn is_waiter(waiter: &Waiter, other: Option<Waiter>) -> bool
    ensures { result ≡ is_waiter waiter.now other }
{
    match other {
        Some(other) => other.actor.0 == waiter.actor.0 && other.callback == waiter.callback,
        None => false,
    }
}

// Whether a waiter waits for the next of a stream.
fn awaits_stream(state: &HeapState, cell: CellId, waiter: &Waiter) -> bool
    ensures { result ≡ waits_in None (stream_at (parts_kept state.now) cell.0) waiter.now }
{
    match stream_at(state, cell) {
        Some(part) => is_waiter(waiter, part.waiter),
        None => false,
    }
}

// Whether a callback of an actor waits at its cell.
fn waits_at(state: &HeapState, actor: ActorId, held: &Held) -> bool
    ensures { result ≡ waits_at (parts_kept state.now) actor.0 held.now }
{
    let waiter = Waiter {
        actor,
        callback: held.callback,
    };
    match cell_at(state, held.cell) {
        Some(part) => has_waiter(&part.waiters, &waiter),
        None => awaits_stream(state, held.cell, &waiter),
    }
}

fn all_wait(state: &HeapState, actor: ActorId, callbacks: &[Held]) -> bool
    ensures { result ≡ list_all (waits_at (parts_kept state.now) actor.0) callbacks.now }
{
    for held in callbacks {
        if !waits_at(state, actor, held) {
            return false;
        }
    }
    true
}

// Whether a single result is there, and unset.
fn is_unset(state: &HeapState, cell: CellId) -> bool
    ensures { result ≡ is_unset (cell_at (parts_kept state.now) cell.0) }
{
    match cell_at(state, cell) {
        Some(part) => part.content.is_none(),
        None => false,
    }
}

// Whether the result of an actor is an unset one of its own, with a future.
fn result_sound(state: &HeapState, found: &Found, promised: Option<CellId>) -> bool
    requires { HasFound (parts_kept state.now) found.now }
    ensures { result ≡ result_sound (parts_kept state.now) promised }
{
    let Some(cell) = promised else {
        return true;
    };
    is_unset(state, cell)
        && times(Kind::Promise, cell, &found.results) == 1
        && times(Kind::Future, cell, &found.all) > 0
        && times(Kind::Promise, cell, &found.values) == 0
}

fn is_suspended(state: u32, callbacks: &[Held]) -> bool
    ensures { result ≡ waits state callbacks.now }
{
    state != 0 && !callbacks.is_empty()
}

fn actor_sound(state: &HeapState, found: &Found, part: &ActorState) -> bool
    requires { HasFound (parts_kept state.now) found.now }
    ensures { result ≡ actor_sound (parts_kept state.now) (actor_kept part.now) }
{
    is_suspended(part.state, &part.callbacks)
        && all_wait(state, part.actor, &part.callbacks)
        && result_sound(state, found, part.result)
        && u32::try_from(part.places.len()).is_ok()
}

// Whether the numbers of the parts rise, none above this.
fn cells_rise(parts: &[CellState], most: u64) -> bool
    ensures { result ≡ rise_to 0 (map (λ c. c.cell) (map cell_kept parts.now)) most }
{
    let mut low = 0;
    for part in parts {
        if part.cell.0 <= low {
            return false;
        }
        low = part.cell.0;
    }
    low <= most
}

fn streams_rise(parts: &[StreamState], most: u64) -> bool
    ensures { result ≡ rise_to 0 (map (λ s. s.cell) (map stream_kept parts.now)) most }
{
    let mut low = 0;
    for part in parts {
        if part.cell.0 <= low {
            return false;
        }
        low = part.cell.0;
    }
    low <= most
}

fn actors_rise(parts: &[ActorState], most: u64) -> bool
    ensures { result ≡ rise_to 0 (map (λ a. a.actor) (map actor_kept parts.now)) most }
{
    let mut low = 0;
    for part in parts {
        if part.actor.0 <= low {
            return false;
        }
        low = part.actor.0;
    }
    low <= most
}

fn parts_rise(state: &HeapState) -> bool
    ensures { result ≡ parts_rise (parts_kept state.now) }
{
    cells_rise(&state.cells, state.cells_made)
        && streams_rise(&state.streams, state.cells_made)
        && actors_rise(&state.actors, state.actors_made)
}

fn cells_sound(state: &HeapState, found: &Found, parts: &[CellState]) -> bool
    requires { HasFound (parts_kept state.now) found.now }
    ensures { result ≡ list_all (cell_sound (parts_kept state.now)) (map cell_kept parts.now) }
{
    for part in parts {
        if !cell_sound(state, found, part) {
            return false;
        }
    }
    true
}

fn streams_sound(state: &HeapState, found: &Found, parts: &[StreamState]) -> bool
    requires { HasFound (parts_kept state.now) found.now }
    ensures { result ≡ list_all (stream_sound (parts_kept state.now)) (map stream_kept parts.now) }
{
    for part in parts {
        if !stream_sound(state, found, part) {
            return false;
        }
    }
    true
}

fn actors_sound(state: &HeapState, found: &Found, parts: &[ActorState]) -> bool
    requires { HasFound (parts_kept state.now) found.now }
    ensures { result ≡ list_all (actor_sound (parts_kept state.now)) (map actor_kept parts.now) }
{
    for part in parts {
        if !actor_sound(state, found, part) {
            return false;
        }
    }
    true
}

// Whether all parts of a state are sound.
fn parts_sound(state: &HeapState, found: &Found) -> bool
    requires { HasFound (parts_kept state.now) found.now }
    ensures { result ≡ parts_sound (parts_kept state.now) }
{
    cells_sound(state, found, &state.cells)
        && streams_sound(state, found, &state.streams)
        && actors_sound(state, found, &state.actors)
}

// Whether a state is sound, by its references.
fn is_sound_with(state: &HeapState, found: &Found) -> bool
    requires { HasFound (parts_kept state.now) found.now }
    ensures { result ≡ is_sound (parts_kept state.now) }
{
    parts_rise(state) && all_named(state, &found.all) && parts_sound(state, found)
}

/// Whether a heap can be made from a state.
pub fn is_sound(alloc: Global, state: &HeapState) -> Result<bool, NoMemory>
    ensures { IfOk result (λ b. Decides b (SoundHeap (parts_kept state.now))) }
{
    let found = found_in(alloc, state)?;
    Ok(is_sound_with(state, &found))
}
