// What bench/heap.sh times and measures.

use crate::heaps::{add_wait, begin, boxed_heap, hold, is_there, lose, make, suspend, wait_at};
use flow_base::ids::{ActorId, CellId};
use flow_base::memory::NoMemory;
use flow_cancel::heap::Heap;
use flow_cancel::task::Dropped;
use flow_cell::cells::Cells;
use flow_cell::counts::Side;
use flow_cell::waiter::Waiter;
use flow_frame::frames::Frames;
use flow_value::value::{Kind, Outcome, Value};
use std::alloc::Global;

// An unset cell that is there is set.
fn set(cells: &mut Cells<Outcome>, cell: CellId) -> bool {
    if !is_there(cells, cell) || cells.content(cell).is_some() {
        return false;
    }
    cells.set(cell, Outcome::Value(Value::Int(7)));
    true
}

// The oldest waiter of a cell that is there.
fn oldest(cells: &Cells<Outcome>, cell: CellId) -> Option<Waiter> {
    if !is_there(cells, cell) {
        return None;
    }
    cells.first_waiter(cell)
}

// The oldest waiter of a cell is taken.
fn take(cells: &mut Cells<Outcome>, cell: CellId) -> bool {
    let Some(waiter) = oldest(cells, cell) else {
        return false;
    };
    if !is_there(cells, cell) || !cells.waits(cell, waiter) {
        return false;
    }
    cells.remove_waiter(cell, waiter);
    true
}

// A cell that is there is held on both sides, waited for and set, and its waiter is taken.
fn pass(cells: &mut Cells<Outcome>, cell: CellId) -> Result<bool, NoMemory> {
    if !hold(cells, cell, Side::Promise) || !hold(cells, cell, Side::Future) {
        return Ok(false);
    }
    if !add_wait(cells, ActorId(1), cell)? || !set(cells, cell) {
        return Ok(false);
    }
    Ok(take(cells, cell))
}

// The same with a cell of a heap.
fn pass_in(heap: &mut Heap, cell: CellId) -> Result<bool, NoMemory> {
    pass(heap.cells_mut(), cell)
}

// A cell is made and used, and its references are given up.
fn round(heap: &mut Heap) -> Result<bool, NoMemory> {
    let cell = make(heap)?;
    if !pass_in(heap, cell)? {
        return Ok(false);
    }
    lose(heap, Kind::Promise, cell)?;
    Ok(lose(heap, Kind::Future, cell)? == Some(Dropped::Freed))
}

// So many rounds.
fn rounds(heap: &mut Heap, most: u32) -> Result<bool, NoMemory> {
    for _ in 0..most {
        if !round(heap)? {
            return Ok(false);
        }
    }
    Ok(true)
}

fn rounds_alone(alloc: Global, most: u32) -> Result<bool, NoMemory> {
    let mut heap = boxed_heap(alloc)?;
    rounds(&mut heap, most)
}

#[test]
fn a_million_rounds(rt: HostRuntime) -> Result<(), NoMemory> {
    assert!(rt; rounds_alone(rt.alloc(), 1_000_000)?);
    Ok(())
}

// Fills a place of a frame that is there.
fn fill_place(frames: &mut Frames<Value>, actor: ActorId, place: u32) -> Result<bool, NoMemory> {
    if !frames.contains(actor) || frames.places(actor) <= place {
        return Ok(false);
    }
    frames.set_slot(actor, place, Some(Value::Bool(true)))?;
    Ok(true)
}

// Fills the first four places of a frame.
fn fill(frames: &mut Frames<Value>, actor: ActorId) -> Result<bool, NoMemory> {
    for place in 0..4u32 {
        if !fill_place(frames, actor, place)? {
            return Ok(false);
        }
    }
    Ok(true)
}

// A frame that is there has its first four places filled, and waits at a cell.
fn settle(frames: &mut Frames<Value>, actor: ActorId, cell: CellId) -> Result<bool, NoMemory> {
    if !fill(frames, actor)? {
        return Ok(false);
    }
    suspend(frames, actor, cell)
}

// The same in a heap.
fn settle_in(heap: &mut Heap, actor: ActorId, cell: CellId) -> Result<bool, NoMemory> {
    settle(heap.frames_mut(), actor, cell)
}

// Adds a suspended actor whose frame has four filled slots, and a callback at a cell of its own.
fn add_suspended(heap: &mut Heap) -> Result<bool, NoMemory> {
    let cell = make(heap)?;
    let actor = begin(heap, 4)?;
    if !wait_at(heap, actor, cell)? {
        return Ok(false);
    }
    settle_in(heap, actor, cell)
}

// Adds so many suspended actors.
fn suspend_many(heap: &mut Heap, most: u32) -> Result<bool, NoMemory> {
    for _ in 0..most {
        if !add_suspended(heap)? {
            return Ok(false);
        }
    }
    Ok(true)
}

// How many frames are listed, at most so many.
fn listed(frames: &Frames<Value>, most: u32) -> u32 {
    let mut last = ActorId(0);
    for count in 0..most {
        match frames.next_actor(last) {
            Some(next) => last = next,
            None => return count,
        }
    }
    most
}

// Whether so many frames are listed, so many times.
fn are_listed(frames: &Frames<Value>, wanted: u32, times: u32) -> bool {
    for _ in 0..times {
        if listed(frames, 200_000) != wanted {
            return false;
        }
    }
    true
}

fn lists(heap: &mut Heap, most: u32, times: u32) -> Result<bool, NoMemory> {
    Ok(suspend_many(heap, most)? && are_listed(heap.frames(), most, times))
}

// Whether a heap with so many suspended actors lists them all, so many times.
fn lists_alone(alloc: Global, most: u32, times: u32) -> Result<bool, NoMemory> {
    let mut heap = boxed_heap(alloc)?;
    lists(&mut heap, most, times)
}

#[test]
fn a_hundred_thousand_frames(rt: HostRuntime) -> Result<(), NoMemory> {
    assert!(rt; lists_alone(rt.alloc(), 100_000, 1)?);
    Ok(())
}

#[test]
fn a_hundred_thousand_frames_listed_ten_times(rt: HostRuntime) -> Result<(), NoMemory> {
    assert!(rt; lists_alone(rt.alloc(), 100_000, 10)?);
    Ok(())
}

#[test]
fn ten_thousand_frames_listed_a_hundred_times(rt: HostRuntime) -> Result<(), NoMemory> {
    assert!(rt; lists_alone(rt.alloc(), 10_000, 100)?);
    Ok(())
}
