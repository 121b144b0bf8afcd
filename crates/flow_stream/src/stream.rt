// One stream.

ghost use Rattle.std.specs.Prelude.{◌≡◌, ◌+◌, ◌<◌, ◌^◌, is_some, if◌then◌else◌, OnOk, OnErr, option_copied, slice_get, None, Some};
ghost use Rattle.flow_cell.specs.Cells.{count_of, held, released, loss};
ghost use Rattle.flow_stream.specs.Streams.{empty, with_item, ready, head, tail, or_waiter};
ghost use Rattle.flow_stream.specs.declared.head.Wait.TheVariants.{Added, Busy};

use crate::head::{Head, Wait};
use flow_base::ids::ErrorCode;
use flow_base::memory::NoMemory;
use flow_cell::counts::{Loss, References, Side};
use flow_cell::waiter::Waiter;
use std::alloc::Global;
use std::collections::VecDeque;
use std::marker::Model;

/// A stream.
#[derive(Drop)]
pub(crate) struct Stream<T> {
    references: References,
    queue: VecDeque<T>,
    end: Option<ErrorCode>,
    waiter: Option<Waiter>,
}

impl<T> Model for Stream<T> {
    ghost use Rattle.flow_stream.specs.Streams.{StreamTree};

    ghost Value = { StreamTree T };

    ghost view = { λ s. record {
      references = s.references;
      queue = s.queue.items;
      end = s.end;
      waiter = s.waiter;
    } };
}

impl<T> Stream<T> {
    pub(crate) fn new(alloc: Global) -> Stream<T>
        ensures { result ≡ empty }
    {
        Stream {
            references: References::new(),
            queue: VecDeque::new(alloc),
            end: None,
            waiter: None,
        }
    }

    /// How many references count.
    pub(crate) fn references(&self) -> References
        ensures { result ≡ self.now.references }
    {
        self.references
    }

    pub(crate) fn hold(&mut self, side: Side)
        requires { count_of side self.old.references + 1 < 2 ^ 64 }
        ensures { self.new ≡ record self.old { references = held side self.old.references } }
    {
        self.references.hold(side);
    }

    pub(crate) fn release(&mut self, side: Side) -> Loss
        requires { 0 < count_of side self.old.references }
        ensures loss { result ≡ loss side (released side self.old.references) }
        ensures counts { self.new ≡ record self.old
            { references = released side self.old.references } }
    {
        self.references.release(side)
    }

    /// Adds an element behind the others. Where there is no memory, nothing changes.
    pub(crate) fn push(&mut self, item: T) -> Result<(), NoMemory>
    where
        T: Drop,
        ensures ok { OnOk result (self.new ≡ with_item self.old item) }
        ensures err { OnErr result (self.new ≡ self.old) }
    {
        self.queue.push_back(item)?;
        Ok(())
    }

    pub(crate) fn end(&mut self, error: ErrorCode)
        ensures { self.new ≡ record self.old { end = Some error } }
    {
        self.end = Some(error);
    }

    pub(crate) fn end_error(&self) -> Option<ErrorCode>
        ensures { result ≡ self.now.end }
    {
        self.end
    }

    /// The element at a place from 0, the oldest first.
    pub(crate) fn item(&self, place: usize) -> Option<&T>
        ensures { option_copied result ≡ slice_get self.now.queue place }
    {
        self.queue.get(place)
    }

    pub(crate) fn ready(&self) -> bool
        ensures { result ≡ ready self.now.queue self.now.end }
    {
        !self.queue.is_empty() || self.end.is_some()
    }

    /// Takes the first element, or tells the end.
    pub(crate) fn pop(&mut self) -> Head<T>
        ensures head { result ≡ head self.old.queue self.old.end }
        ensures rest { self.new ≡ record self.old { queue = tail self.old.queue } }
    {
        if let Some(item) = self.queue.pop_front() {
            return Head::Item(item);
        }
        match self.end {
            Some(error) => Head::End(error),
            None => Head::Nothing,
        }
    }

    pub(crate) fn add_waiter(&mut self, waiter: Waiter) -> Wait
        ensures wait { result ≡ (if is_some self.old.waiter then Busy else Added) }
        ensures waiter { self.new ≡ record self.old { waiter = or_waiter self.old.waiter waiter } }
    {
        if self.waiter.is_some() {
            return Wait::Busy;
        }
        self.waiter = Some(waiter);
        Wait::Added
    }

    pub(crate) fn waiter(&self) -> Option<Waiter>
        ensures { result ≡ self.now.waiter }
    {
        self.waiter
    }

    pub(crate) fn remove_waiter(&mut self)
        ensures { self.new ≡ record self.old { waiter = None } }
    {
        self.waiter = None;
    }

    /// Its elements, oldest first.
    pub(crate) fn into_queue(self) -> VecDeque<T>
        ensures { result.items ≡ self.queue }
    {
        let Stream {
            references: _,
            queue,
            end: _,
            waiter: _,
        } = self;
        queue
    }
}
