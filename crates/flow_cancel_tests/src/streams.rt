ghost use Rattle.std.specs.Prelude.{◌≡◌, []};

use flow_base::ids::{ActorId, CellId, ErrorCode};
use flow_base::memory::NoMemory;
use flow_cell::waiter::Waiter;
use flow_stream::head::{Head, Wait};
use flow_stream::streams::Streams;
use std::alloc::Global;

// Adds an element to stream 1, where it is there and has no end.
fn push(streams: &mut Streams<u64>, item: u64) -> Result<bool, NoMemory> {
    let Some(_references) = streams.references(CellId(1)) else {
        return Ok(false);
    };
    if streams.ended(CellId(1)) {
        return Ok(false);
    }
    streams.push(CellId(1), item)?;
    Ok(true)
}

// Ends stream 1, where it is there and has no end.
fn end(streams: &mut Streams<u64>) -> bool {
    let Some(_references) = streams.references(CellId(1)) else {
        return false;
    };
    if streams.ended(CellId(1)) {
        return false;
    }
    streams.end(CellId(1), ErrorCode(1));
    true
}

// What comes first of stream 1, which is taken.
fn pop(streams: &mut Streams<u64>) -> Head<u64> {
    let Some(_references) = streams.references(CellId(1)) else {
        return Head::Nothing;
    };
    streams.pop(CellId(1))
}

// Whether this is the element of stream 1 at a place.
fn has_item(streams: &Streams<u64>, place: usize, item: Option<&u64>) -> bool {
    let Some(_references) = streams.references(CellId(1)) else {
        return false;
    };
    streams.item(CellId(1), place) == item
}

// Whether a new stream gives nothing, then its elements in order, and then its end.
fn gives_what_came(streams: &mut Streams<u64>) -> Result<bool, NoMemory>
    requires { streams.old ≡ record { things = []; greatest = 0 } }
{
    streams.make(CellId(1))?;
    let nothing = matches!(&pop(streams), Head::Nothing);
    let idle = streams.is_ready(CellId(1)) == Some(false);
    let filled = push(streams, 1)? && push(streams, 2)? && end(streams);
    let seen = has_item(streams, 1, Some(&2)) && has_item(streams, 2, None);
    let first = matches!(&pop(streams), Head::Item(1));
    let second = matches!(&pop(streams), Head::Item(2));
    let ready = streams.is_ready(CellId(1)) == Some(true);
    let ended = matches!(&pop(streams), Head::End(ErrorCode(1)));
    Ok(nothing && idle && filled && seen && first && second && ready && ended)
}

// A function that makes streams has one end, since all of them are dropped at each.
fn elements_then_end(alloc: Global) -> Result<bool, NoMemory> {
    let mut streams: Streams<u64> = Streams::new(alloc)?;
    gives_what_came(&mut streams)
}

#[test]
fn elements_come_before_the_end(rt: HostRuntime) -> Result<(), NoMemory> {
    assert!(rt; elements_then_end(rt.alloc())?);
    Ok(())
}

// Has a waiter wait at stream 1, where it is there.
fn add(streams: &mut Streams<u64>, waiter: Waiter) -> Option<Wait> {
    let Some(_references) = streams.references(CellId(1)) else {
        return None;
    };
    Some(streams.add_waiter(CellId(1), waiter))
}

// Whether this is who waits at stream 1.
fn waits(streams: &Streams<u64>, waiter: Option<Waiter>) -> bool {
    let Some(_references) = streams.references(CellId(1)) else {
        return false;
    };
    streams.waiter(CellId(1)) == waiter
}

// Nobody waits at stream 1, where it is there.
fn remove(streams: &mut Streams<u64>) -> bool {
    let Some(_references) = streams.references(CellId(1)) else {
        return false;
    };
    streams.remove_waiter(CellId(1));
    true
}

// Whether a second waiter is taken only when the first one is gone.
fn takes_one(streams: &mut Streams<u64>) -> Result<bool, NoMemory>
    requires { streams.old ≡ record { things = []; greatest = 0 } }
{
    let one = Waiter {
        actor: ActorId(1),
        callback: 0,
    };
    let two = Waiter {
        actor: ActorId(2),
        callback: 1,
    };
    streams.make(CellId(1))?;
    let added = add(streams, one) == Some(Wait::Added);
    let busy = add(streams, two) == Some(Wait::Busy) && waits(streams, Some(one));
    let gone = remove(streams) && waits(streams, None);
    Ok(added && busy && gone && add(streams, two) == Some(Wait::Added))
}

fn waiters_in_turn(alloc: Global) -> Result<bool, NoMemory> {
    let mut streams: Streams<u64> = Streams::new(alloc)?;
    takes_one(&mut streams)
}

#[test]
fn one_waiter_at_a_time(rt: HostRuntime) -> Result<(), NoMemory> {
    assert!(rt; waiters_in_turn(rt.alloc())?);
    Ok(())
}

// Whether the number after one is that of the next stream that is there.
fn skips_none(streams: &mut Streams<u64>) -> Result<bool, NoMemory>
    requires { streams.old ≡ record { things = []; greatest = 0 } }
{
    streams.make(CellId(2))?;
    streams.make(CellId(5))?;
    let endless = !streams.ended(CellId(5));
    let next = streams.next_cell(CellId(2)) == Some(CellId(5));
    let empty = streams.remove(CellId(5)).is_empty();
    let last = streams.next_cell(CellId(2)) == None;
    streams.clear();
    let cleared = streams.next_cell(CellId(0)) == None;
    streams.make(CellId(6))?;
    Ok(endless && next && empty && last && cleared)
}

fn numbers_in_turn(alloc: Global) -> Result<bool, NoMemory> {
    let mut streams: Streams<u64> = Streams::new(alloc)?;
    skips_none(&mut streams)
}

#[test]
fn the_next_stream_skips_none(rt: HostRuntime) -> Result<(), NoMemory> {
    assert!(rt; numbers_in_turn(rt.alloc())?);
    Ok(())
}
