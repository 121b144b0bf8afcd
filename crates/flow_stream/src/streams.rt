// Streams by number.

ghost use Rattle.std.specs.Prelude.{◌≡◌, ◌+◌, ◌<◌, ◌^◌, [], is_some, if◌then◌else◌, IsSome, OnOk, OnErr, IfOk, option_copied, option_map, slice_get, None, Some};
ghost use Rattle.std.specs.Option.{ForSome};
ghost use Rattle.flow_numbered.specs.Numbered.{thing, added, removed, next_above, with_thing};
ghost use Rattle.flow_cell.specs.Cells.{no_counts, count_of, held, released, loss};
ghost use Rattle.flow_stream.specs.Streams.{empty, with_item, ready, head, tail, or_waiter};
ghost use Rattle.flow_stream.specs.declared.head.Wait.TheVariants.{Added, Busy};

use crate::head::{Head, Wait};
use crate::stream::Stream;
use flow_base::ids::{CellId, ErrorCode};
use flow_base::memory::NoMemory;
use flow_cell::counts::{Loss, References, Side};
use flow_cell::waiter::Waiter;
use flow_numbered::numbered::Numbered;
use std::alloc::Global;
use std::collections::VecDeque;
use std::marker::Model;

/// Streams by number. Contracts see the list of numbers and streams, by rising number, and the greatest number that
/// was ever made, 0 at first. Each call on a stream asks that it is there.
#[derive(Drop)]
pub struct Streams<T> {
    streams: Numbered<Stream<T>>,
    alloc: Global,
}

impl<T> Model for Streams<T> {
    ghost use Rattle.flow_numbered.specs.Numbered.{Store};
    ghost use Rattle.flow_stream.specs.Streams.{StreamTree};

    ghost Value = { Store (StreamTree T) };

    ghost view = { λ s. s.streams };
}

impl<T> Streams<T> {
    /// No stream, and no number made.
    pub fn new(alloc: Global) -> Result<Streams<T>, NoMemory>
        ensures { IfOk result (λ s. s ≡ record { things = []; greatest = 0 }) }
    {
        Ok(Streams {
            streams: Numbered::new(alloc),
            alloc,
        })
    }

    /// A stream with a number above all that were made, without a reference, an element, an end or a waiter. Where
    /// there is no memory, nothing changes.
    pub fn make(&mut self, cell: CellId) -> Result<(), NoMemory>
    where
        T: Drop,
        requires { self.old.greatest < cell.0 }
        ensures ok { OnOk result (self.new
            ≡ record { things = added self.old.things cell.0 empty; greatest = cell.0 }) }
        ensures err { OnErr result (self.new ≡ self.old) }
    {
        self.streams.insert(cell.0, Stream::new(self.alloc))
    }

    // The stream of a number.
    fn stream(&self, cell: CellId) -> &Stream<T>
        requires { IsSome (thing self.now.things cell.0) }
        ensures { thing self.now.things cell.0 ≡ Some result.now }
    {
        self.streams.get(cell.0).unwrap()
    }

    /// How many references of a stream count: `None` where no stream has this number.
    pub fn references(&self, cell: CellId) -> Option<References>
        ensures { result ≡ option_map (λ s. s.references) (thing self.now.things cell.0) }
    {
        match self.streams.get(cell.0) {
            Some(stream) => Some(stream.references()),
            None => None,
        }
    }

    /// Counts one more reference of a side, which stays below 2^64.
    pub fn hold(&mut self, cell: CellId, side: Side)
        requires there { IsSome (thing self.old.things cell.0) }
        requires fits { ForSome (thing self.old.things cell.0)
            (λ s. count_of side s.references + 1 < 2 ^ 64) }
        ensures { ForSome (thing self.old.things cell.0)
            (λ s. self.new ≡ with_thing self.old cell.0
            (record s { references = held side s.references })) }
    {
        self.streams.get_mut(cell.0).hold(side);
    }

    /// Counts one reference less of a side that counts, and says what that leaves.
    pub fn release(&mut self, cell: CellId, side: Side) -> Loss
        requires there { IsSome (thing self.old.things cell.0) }
        requires counts { ForSome (thing self.old.things cell.0)
            (λ s. 0 < count_of side s.references) }
        ensures loss { ForSome (thing self.old.things cell.0)
            (λ s. result ≡ loss side (released side s.references)) }
        ensures counts { ForSome (thing self.old.things cell.0)
            (λ s. self.new ≡ with_thing self.old cell.0
            (record s { references = released side s.references })) }
    {
        self.streams.get_mut(cell.0).release(side)
    }

    /// Adds an element behind the others of a stream without an end. Where there is no memory, nothing changes.
    #[tactic(auto, using(flow_numbered::proofs::Things::with_same))]
    pub fn push(&mut self, cell: CellId, item: T) -> Result<(), NoMemory>
    where
        T: Drop,
        requires there { IsSome (thing self.old.things cell.0) }
        requires endless { ForSome (thing self.old.things cell.0) (λ s. s.end ≡ None) }
        ensures ok { ForSome (thing self.old.things cell.0)
            (λ s. OnOk result (self.new ≡ with_thing self.old cell.0 (with_item s item))) }
        ensures err { OnErr result (self.new ≡ self.old) }
    {
        self.streams.get_mut(cell.0).push(item)
    }

    /// Ends a stream without an end by an error.
    pub fn end(&mut self, cell: CellId, error: ErrorCode)
        requires there { IsSome (thing self.old.things cell.0) }
        requires endless { ForSome (thing self.old.things cell.0) (λ s. s.end ≡ None) }
        ensures { ForSome (thing self.old.things cell.0)
            (λ s. self.new ≡ with_thing self.old cell.0 (record s { end = Some error })) }
    {
        self.streams.get_mut(cell.0).end(error);
    }

    /// Whether a stream has an end.
    pub fn ended(&self, cell: CellId) -> bool
        requires { IsSome (thing self.now.things cell.0) }
        ensures { ForSome (thing self.now.things cell.0) (λ s. result ≡ is_some s.end) }
    {
        self.stream(cell).end_error().is_some()
    }

    /// The error of a stream's end: `None` where it has no end.
    pub fn end_error(&self, cell: CellId) -> Option<ErrorCode>
        requires { IsSome (thing self.now.things cell.0) }
        ensures { ForSome (thing self.now.things cell.0) (λ s. result ≡ s.end) }
    {
        self.stream(cell).end_error()
    }

    /// The element of a stream at a place from 0, the oldest first: `None` past the last.
    pub fn item(&self, cell: CellId, place: usize) -> Option<&T>
        requires { IsSome (thing self.now.things cell.0) }
        ensures { ForSome (thing self.now.things cell.0)
            (λ s. option_copied result ≡ slice_get s.queue place) }
    {
        self.stream(cell).item(place)
    }

    /// The least number above this one that a stream has, in constant time where a stream has this one.
    pub fn next_cell(&self, after: CellId) -> Option<CellId>
        ensures { option_map (λ c. c.0) result ≡ next_above self.now.things after.0 }
    {
        self.streams.next_above(after.0).map(CellId)
    }

    /// Whether a stream has an element or an end.
    pub fn ready(&self, cell: CellId) -> bool
        requires { IsSome (thing self.now.things cell.0) }
        ensures { ForSome (thing self.now.things cell.0) (λ s. result ≡ ready s.queue s.end) }
    {
        self.stream(cell).ready()
    }

    /// Whether a stream has an element or an end: `None` where no stream has this number.
    pub fn is_ready(&self, cell: CellId) -> Option<bool>
        ensures { result ≡ option_map (λ s. ready s.queue s.end) (thing self.now.things cell.0) }
    {
        match self.streams.get(cell.0) {
            Some(stream) => Some(stream.ready()),
            None => None,
        }
    }

    /// Takes the first element of a stream; or tells its end, where it has no element; or nothing, where it has
    /// neither.
    pub fn pop(&mut self, cell: CellId) -> Head<T>
        requires { IsSome (thing self.old.things cell.0) }
        ensures head { ForSome (thing self.old.things cell.0) (λ s. result ≡ head s.queue s.end) }
        ensures rest { ForSome (thing self.old.things cell.0)
            (λ s. self.new ≡ with_thing self.old cell.0 (record s { queue = tail s.queue })) }
    {
        self.streams.get_mut(cell.0).pop()
    }

    /// Has a waiter wait at a stream. Where one stands there, nothing changes and the answer is `Busy`.
    pub fn add_waiter(&mut self, cell: CellId, waiter: Waiter) -> Wait
        requires { IsSome (thing self.old.things cell.0) }
        ensures wait { ForSome (thing self.old.things cell.0)
            (λ s. result ≡ (if is_some s.waiter then Busy else Added)) }
        ensures waiter { ForSome (thing self.old.things cell.0)
            (λ s. self.new ≡ with_thing self.old cell.0
            (record s { waiter = or_waiter s.waiter waiter })) }
    {
        self.streams.get_mut(cell.0).add_waiter(waiter)
    }

    /// Who waits at a stream: `None` where nobody does.
    pub fn waiter(&self, cell: CellId) -> Option<Waiter>
        requires { IsSome (thing self.now.things cell.0) }
        ensures { ForSome (thing self.now.things cell.0) (λ s. result ≡ s.waiter) }
    {
        self.stream(cell).waiter()
    }

    /// Has nobody wait at a stream.
    pub fn remove_waiter(&mut self, cell: CellId)
        requires { IsSome (thing self.old.things cell.0) }
        ensures { ForSome (thing self.old.things cell.0)
            (λ s. self.new ≡ with_thing self.old cell.0 (record s { waiter = None })) }
    {
        self.streams.get_mut(cell.0).remove_waiter();
    }

    /// Removes a stream without a reference and without a waiter, and gives its elements, oldest first.
    pub fn remove(&mut self, cell: CellId) -> VecDeque<T>
        requires there { IsSome (thing self.old.things cell.0) }
        requires references { ForSome (thing self.old.things cell.0)
            (λ s. s.references ≡ no_counts) }
        requires waiter { ForSome (thing self.old.things cell.0) (λ s. s.waiter ≡ None) }
        ensures items { ForSome (thing self.old.things cell.0) (λ s. result.items ≡ s.queue) }
        ensures rest { self.new ≡ record self.old { things = removed self.old.things cell.0 } }
    {
        self.streams.remove(cell.0).into_queue()
    }

    /// The greatest number with which a stream was made, 0 at first.
    pub fn greatest(&self) -> u64
        ensures { result ≡ self.now.greatest }
    {
        self.streams.greatest()
    }

    /// Removes all streams. The greatest number stays.
    pub fn clear(&mut self)
    where
        T: Drop,
        ensures { self.new ≡ record self.old { things = [] } }
    {
        self.streams.clear();
    }
}
