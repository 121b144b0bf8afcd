// The heap of a process.

ghost use Rattle.std.specs.Prelude.{◌≡◌, ◌+◌, ◌<◌, ◌^◌, max, true, false, [], IsSome, OnOk, IfOk, None, Some, option_copied, slice_get, drop};
ghost use Rattle.std.specs.Borrow.{sem};
ghost use Rattle.std.specs.Option.{ForSome, option_map, is_some};
ghost use Rattle.flow_value.specs.View.{value_of};
ghost use Rattle.flow_value.specs.Values.{refs_of};
ghost use Rattle.flow_numbered.specs.Numbered.{thing, with_thing, IsRising};
ghost use Rattle.flow_cell.specs.Cells.{count_of};
ghost use Rattle.flow_cancel.specs.Heap.{no_heap, pushed, last_cell, last_actor, next_cell, next_actor, with_result, with_stream, owner, may_start, started, started_holding, may_finish, finished, cleared, skipped_actors, has_number, with_number, without_number, side_of};
ghost use Rattle.flow_cancel.specs.Dropping.{drops, refs_in, dropping, dropped, may_drop, cancel_owner};
ghost use Rattle.flow_cancel.specs.Leaving.{kind_at, is_waiter, left_cells, leave_stream_at, leave_cell_at, leave_one, withdrawn, suspended, cancelled};
ghost use Rattle.flow_cancel.specs.Lending.{LendsCells, LendsStreams, LendsFrames};

use crate::actors::Actors;
use crate::dropping::push_drops;
use crate::task::{Dropped, Task};
use flow_base::errors::OPERATION_CANCELLED;
use flow_base::ids::{ActorId, CellId};
use flow_base::memory::NoMemory;
use flow_cell::cells::Cells;
use flow_cell::counts::{Loss, Side};
use flow_cell::waiter::Waiter;
use flow_frame::frames::Frames;
use flow_frame::held::Held;
use flow_stream::streams::Streams;
use flow_value::value::{Kind, Outcome, Value};
use std::alloc::Global;
use std::collections::{BTreeSet, VecDeque};
use std::marker::Model;

/// Each number given is below this.
const NUMBERS: u64 = 1 << 63;

/// For so many tasks there may be room where none is left.
const ROOM: usize = 256;

/// The heap of a process: tasks, single results, streams and frames, and what is noted of actors, ports, requests and
/// the hold on the result of `main`. A call that answers want of memory ends the heap: nothing is said of it then.
#[derive(Drop)]
pub struct Heap {
    pub(crate) tasks: VecDeque<Task>,
    pub(crate) cells: Cells<Outcome>,
    pub(crate) streams: Streams<Value>,
    pub(crate) frames: Frames<Value>,
    pub(crate) actors: Actors,
    made: u64,
    main: Option<CellId>,
    pub(crate) ports: BTreeSet<u64>,
    requests: BTreeSet<u64>,
}

impl Model for Heap {
    ghost use Rattle.std.specs.Coded.{codes};
    ghost use Rattle.flow_value.specs.contracts.value.Value as value;
    ghost use Rattle.flow_cancel.specs.Heap.{HeapTree};

    ghost Value = { HeapTree };

    ghost coded = { Prim.hlevel (codes, value.the_row.coded) };

    ghost view = { λ h. record {
      tasks = h.tasks.items;
      cells = h.cells;
      streams = h.streams;
      frames = h.frames;
      actors = h.actors;
      made = h.made;
      main = h.main;
      ports = h.ports.keys;
      requests = h.requests.keys;
    } };
}

/// The side of a cell to which a reference of a kind leads.
pub fn side_of(kind: Kind) -> Side
    ensures { result ≡ side_of kind }
{
    match kind {
        Kind::Promise | Kind::PromiseStream => Side::Promise,
        Kind::Future | Kind::FutureStream => Side::Future,
    }
}

// The next number, where it is below 2^63.
fn number_after(greatest: u64) -> Result<u64, NoMemory>
    ensures { IfOk result (λ n. n ≡ greatest + 1) }
{
    if greatest >= NUMBERS - 1 {
        return Err(NoMemory);
    }
    Ok(greatest + 1)
}

// Whether it is this waiter that waits at a stream.
fn is_waiter(waiter: Waiter, found: Option<Waiter>) -> bool
    ensures { result ≡ is_waiter waiter found }
{
    match found {
        Some(found) => found.actor.0 == waiter.actor.0 && found.callback == waiter.callback,
        None => false,
    }
}

// A waiter leaves a stream, if there is one and it waits there.
fn leave_stream(streams: &mut Streams<Value>, cell: CellId, waiter: Waiter)
    ensures { streams.new ≡ leave_stream_at cell.0 waiter (thing streams.old.things cell.0)
        streams.old }
{
    if streams.references(cell).is_none() {
        return;
    }
    if is_waiter(waiter, streams.waiter(cell)) {
        streams.remove_waiter(cell);
    }
}

// A waiter leaves a single result that is there, if it waits there.
fn leave_result(cells: &mut Cells<Outcome>, cell: CellId, waiter: Waiter)
    requires { IsSome (thing cells.old.things cell.0) }
    ensures { ForSome (thing cells.old.things cell.0)
        (λ c. cells.new ≡ left_cells cell.0 waiter c cells.old) }
{
    if cells.waits(cell, waiter) {
        cells.remove_waiter(cell, waiter);
    }
}

impl Heap {
    /// A heap without anything, and no number given.
    pub fn new(alloc: Global) -> Result<Heap, NoMemory>
        ensures { IfOk result (λ h. h ≡ no_heap) }
    {
        Ok(Heap {
            tasks: VecDeque::new(alloc),
            cells: Cells::new(alloc)?,
            streams: Streams::new(alloc)?,
            frames: Frames::new(alloc)?,
            actors: Actors::new(alloc),
            made: 0,
            main: None,
            ports: BTreeSet::new(alloc),
            requests: BTreeSet::new(alloc),
        })
    }

    /// Pushes a task on top.
    pub fn push(&mut self, task: Task) -> Result<(), NoMemory>
        ensures { OnOk result (self.new ≡ pushed task self.old) }
    {
        self.tasks.push_front(task)?;
        Ok(())
    }

    /// Takes the newest task: `None` where there is none.
    pub fn next_task(&mut self) -> Option<Task>
        ensures task { result ≡ slice_get self.old.tasks 0 }
        ensures rest { self.new ≡ record self.old { tasks = drop 1 self.old.tasks } }
    {
        if self.tasks.is_empty() && self.tasks.capacity() > ROOM {
            self.tasks.shrink_to_fit();
        }
        self.tasks.pop_front()
    }

    /// The newest task: `None` where there is none.
    pub fn first_task(&self) -> Option<&Task>
        ensures { option_copied result ≡ slice_get self.now.tasks 0 }
    {
        self.tasks.front()
    }

    /// The single results.
    pub fn cells(&self) -> &Cells<Outcome>
        ensures { result.now ≡ self.now.cells }
    {
        &self.cells
    }

    /// The single results, for writing.
    pub fn cells_mut(&mut self) -> &mut Cells<Outcome>
        ensures* lends { sem 𝓛 (LendsCells self.entry result) }
        ensures value { result.now ≡ self.old.cells }
    {
        &mut self.cells
    }

    /// The streams.
    pub fn streams(&self) -> &Streams<Value>
        ensures { result.now ≡ self.now.streams }
    {
        &self.streams
    }

    /// The streams, for writing.
    pub fn streams_mut(&mut self) -> &mut Streams<Value>
        ensures* lends { sem 𝓛 (LendsStreams self.entry result) }
        ensures value { result.now ≡ self.old.streams }
    {
        &mut self.streams
    }

    /// The frames.
    pub fn frames(&self) -> &Frames<Value>
        ensures { result.now ≡ self.now.frames }
    {
        &self.frames
    }

    /// The frames, for writing.
    pub fn frames_mut(&mut self) -> &mut Frames<Value>
        ensures* lends { sem 𝓛 (LendsFrames self.entry result) }
        ensures value { result.now ≡ self.old.frames }
    {
        &mut self.frames
    }

    /// The greatest number that was given to a cell, 0 at first.
    pub fn last_cell(&self) -> u64
        ensures { result ≡ last_cell self.now }
    {
        let greatest = self.cells.greatest().max(self.streams.greatest());
        self.made.max(greatest)
    }

    /// The greatest number that was given to an actor, 0 at first.
    pub fn last_actor(&self) -> u64
        ensures { result ≡ last_actor self.now }
    {
        self.actors.greatest().max(self.frames.greatest())
    }

    // The number of the next cell, below 2^63.
    fn next_cell(&self) -> Result<u64, NoMemory>
        ensures { IfOk result (λ n. n ≡ next_cell self.now) }
    {
        number_after(self.last_cell())
    }

    /// An unset single result without a reference, with the next number. Where no number below 2^63 is left, the answer
    /// is want of memory.
    pub fn new_result(&mut self) -> Result<CellId, NoMemory>
        ensures number { IfOk result (λ k. k.0 ≡ next_cell self.old) }
        ensures made { OnOk result (self.new ≡ with_result (next_cell self.old) self.old) }
    {
        let number = self.next_cell()?;
        self.cells.make(CellId(number))?;
        self.made = number;
        Ok(CellId(number))
    }

    /// A stream without a reference, an element or an end, with the next number. Where no number below 2^63 is left, the
    /// answer is want of memory.
    pub fn new_stream(&mut self) -> Result<CellId, NoMemory>
        ensures number { IfOk result (λ k. k.0 ≡ next_cell self.old) }
        ensures made { OnOk result (self.new ≡ with_stream (next_cell self.old) self.old) }
    {
        let number = self.next_cell()?;
        self.streams.make(CellId(number))?;
        self.made = number;
        Ok(CellId(number))
    }

    // The number of the next actor, below 2^63.
    fn next_actor(&self) -> Result<u64, NoMemory>
        ensures { IfOk result (λ n. n ≡ next_actor self.now) }
    {
        number_after(self.last_actor())
    }

    /// Whether an actor may start with a result: none; or an unset single result of no unfinished actor, with a count of
    /// promises that may rise.
    pub fn may_start(&self, cell: Option<CellId>) -> bool
        ensures { result ≡ may_start cell self.now }
    {
        let Some(cell) = cell else {
            return true;
        };
        match self.cells.references(cell) {
            Some(references) => {
                references.count(Side::Promise) < u64::MAX
                    && self.cells.content(cell).is_none()
                    && self.actors.owner(cell).is_none()
            }
            None => false,
        }
    }

    /// Starts an actor of a class with so many places, with the next number and perhaps a result, of which it counts as a
    /// promise. Where no number below 2^63 is left, the answer is want of memory.
    pub fn start(
        &mut self,
        class: u32,
        places: u32,
        cell: Option<CellId>,
    ) -> Result<ActorId, NoMemory>
        requires { may_start cell self.old ≡ true }
        ensures number { IfOk result (λ a. a.0 ≡ next_actor self.old) }
        ensures started { OnOk result (self.new ≡ started class places cell self.old) }
    {
        let actor = ActorId(self.next_actor()?);
        self.actors.add(actor, cell)?;
        self.frames.enter(actor, class, places)?;
        if let Some(cell) = cell {
            self.cells.hold(cell, Side::Promise);
        }
        Ok(actor)
    }

    /// The same, but the first places of the actor's frame hold these.
    pub fn start_holding(
        &mut self,
        class: u32,
        places: u32,
        filled: Vec<Option<Value>>,
        cell: Option<CellId>,
    ) -> Result<ActorId, NoMemory>
        requires { may_start cell self.old ≡ true }
        ensures number { IfOk result (λ a. a.0 ≡ next_actor self.old) }
        ensures started { OnOk result (self.new
            ≡ started_holding class places filled.items cell self.old) }
    {
        let actor = ActorId(self.next_actor()?);
        self.actors.add(actor, cell)?;
        self.frames.enter_holding(actor, class, places, filled)?;
        if let Some(cell) = cell {
            self.cells.hold(cell, Side::Promise);
        }
        Ok(actor)
    }

    /// Whether an actor is unfinished.
    pub fn unfinished(&self, actor: ActorId) -> bool
        ensures { result ≡ is_some (thing self.now.actors.things actor.0) }
    {
        self.actors.contains(actor)
    }

    /// The result of an unfinished actor, if it has one.
    pub fn result(&self, actor: ActorId) -> Option<CellId>
        requires { IsSome (thing self.now.actors.things actor.0) }
        ensures { ForSome (thing self.now.actors.things actor.0) (λ n. result ≡ n.result) }
    {
        self.actors.note(actor).result
    }

    /// Whether an unfinished actor is marked as cancelled.
    pub fn marked(&self, actor: ActorId) -> bool
        requires { IsSome (thing self.now.actors.things actor.0) }
        ensures { ForSome (thing self.now.actors.things actor.0) (λ n. result ≡ n.marked) }
    {
        self.actors.note(actor).marked
    }

    /// The unfinished actor whose result a cell is.
    pub fn owner(&self, cell: CellId) -> Option<ActorId>
        ensures { option_map (λ a. a.0) result ≡ owner cell.0 self.now.actors.things }
    {
        self.actors.owner(cell).map(ActorId)
    }

    // The kind of a reference to wait at a cell, after the waiter has left it.
    fn leave_cell(&mut self, cell: CellId, waiter: Waiter) -> Kind
        ensures kind { result ≡ kind_at (thing self.old.cells.things cell.0) }
        ensures left { self.new ≡ leave_cell_at cell.0 waiter (thing self.old.cells.things cell.0)
            self.old }
    {
        if self.cells.references(cell).is_none() {
            leave_stream(&mut self.streams, cell, waiter);
            return Kind::FutureStream;
        }
        leave_result(&mut self.cells, cell, waiter);
        Kind::Future
    }

    // A callback of an actor leaves its cell, and its reference is dropped.
    fn leave(&mut self, actor: ActorId, held: Held) -> Result<(), NoMemory>
        ensures { OnOk result (self.new ≡ leave_one actor.0 held self.old) }
    {
        let waiter = Waiter {
            actor,
            callback: held.callback,
        };
        let kind = self.leave_cell(held.cell, waiter);
        self.push(Task::Drop(kind, held.cell))
    }

    /// Takes the callbacks of an actor with a frame out of it and out of every cell at which they wait, and pushes drops of
    /// their references, that of the first on top.
    pub fn withdraw(&mut self, actor: ActorId) -> Result<(), NoMemory>
        requires { IsSome (thing self.old.frames.things actor.0) }
        ensures { OnOk result (self.new ≡ withdrawn actor.0 self.old) }
    {
        let mut callbacks = self.frames.take_callbacks(actor);
        while let Some(held) = callbacks.pop() {
            self.leave(actor, held)?;
        }
        self.frames.keep_room(actor, callbacks);
        Ok(())
    }

    /// Whether an actor with a frame is suspended: its state isn't 0, and it has a callback.
    pub fn suspended(&self, actor: ActorId) -> bool
        requires { IsSome (thing self.now.frames.things actor.0) }
        ensures { result ≡ suspended actor.0 self.now }
    {
        self.frames.state(actor) != 0 && !self.frames.callbacks(actor).is_empty()
    }

    /// Marks an unfinished actor as cancelled. One that is suspended leaves its wait, and is to be thrown the error of
    /// that, under the drops.
    pub fn cancel(&mut self, actor: ActorId) -> Result<(), NoMemory>
        requires actor { IsSome (thing self.old.actors.things actor.0) }
        requires frame { IsSome (thing self.old.frames.things actor.0) }
        ensures { OnOk result (self.new ≡ cancelled actor.0 self.old) }
    {
        self.actors.mark(actor);
        if !self.suspended(actor) {
            return Ok(());
        }
        self.push(Task::Throw(actor, OPERATION_CANCELLED))?;
        self.withdraw(actor)
    }

    /// Whether an actor has a frame that holds nothing: no value and no callback.
    pub fn may_finish(&self, actor: ActorId) -> bool
        ensures { result ≡ may_finish actor.0 self.now }
    {
        self.frames.contains(actor)
            && self.frames.is_empty(actor)
            && self.frames.callbacks(actor).is_empty()
    }

    /// Closes the frame of an unfinished actor, which holds nothing, and forgets its mark and its result.
    pub fn finish(&mut self, actor: ActorId)
        requires actor { IsSome (thing self.old.actors.things actor.0) }
        requires frame { may_finish actor.0 self.old ≡ true }
        ensures { self.new ≡ finished actor.0 self.old }
    {
        self.frames.close(actor);
        self.actors.remove(actor);
    }

    /// The cell whose future the process holds as the result of its `main`: `None` where it holds none.
    pub fn main(&self) -> Option<CellId>
        ensures { result ≡ self.now.main }
    {
        self.main
    }

    /// Notes the cell whose future the process holds as the result of its `main`. No count changes.
    pub fn set_main(&mut self, cell: Option<CellId>)
        ensures { self.new ≡ record self.old { main = cell } }
    {
        self.main = cell;
    }

    /// Notes the stream of a port. No count changes.
    pub fn add_port(&mut self, cell: CellId) -> Result<(), NoMemory>
        ensures { OnOk result (self.new ≡ record self.old
            { ports = with_number self.old.ports cell.0 }) }
    {
        self.ports.insert(cell.0)?;
        Ok(())
    }

    /// Whether a stream is that of a port.
    pub fn is_port(&self, cell: CellId) -> bool
        ensures { result ≡ has_number self.now.ports cell.0 }
    {
        self.ports.contains(&cell.0)
    }

    /// Notes that a request is open on a cell. No count changes.
    pub fn add_request(&mut self, cell: CellId) -> Result<(), NoMemory>
        ensures { OnOk result (self.new ≡ record self.old
            { requests = with_number self.old.requests cell.0 }) }
    {
        self.requests.insert(cell.0)?;
        Ok(())
    }

    /// Whether a request is open on a cell.
    pub fn is_requested(&self, cell: CellId) -> bool
        ensures { result ≡ has_number self.now.requests cell.0 }
    {
        self.requests.contains(&cell.0)
    }

    /// Notes that no request is open on a cell. No count changes.
    pub fn end_request(&mut self, cell: CellId)
        ensures { self.new ≡ record self.old
            { requests = without_number self.old.requests cell.0 } }
    {
        self.requests.remove(&cell.0);
    }

    /// Pushes drops of the references of a value, that of the first on top.
    pub fn push_drops(&mut self, value: &Value) -> Result<(), NoMemory>
        ensures { OnOk result (self.new ≡ record self.old
            { tasks = drops (refs_of (value_of value.now)) self.old.tasks }) }
    {
        push_drops(&mut self.tasks, value)
    }

    /// Whether a reference of a kind may be dropped: the side counts; and where the cell goes then, nobody waits at it,
    /// and of a port's stream that goes the port is the one promise.
    pub fn may_drop(&self, kind: Kind, cell: CellId) -> bool
        ensures { result ≡ may_drop kind cell.0 self.now }
    {
        match kind {
            Kind::Promise => self.may_drop_cell(Side::Promise, cell),
            Kind::Future => self.may_drop_cell(Side::Future, cell),
            Kind::PromiseStream => self.may_drop_stream(Side::Promise, cell),
            Kind::FutureStream => self.may_drop_stream(Side::Future, cell),
        }
    }

    /// A reference of a kind counts no more; the answer says what that led to. A cell that goes leaves drops of what it
    /// held. `Broken` and `Cancel` name what is to be done next, and `PortFreed` that the stream and its port are gone.
    pub fn drop_ref(&mut self, kind: Kind, cell: CellId) -> Result<Dropped, NoMemory>
        requires { may_drop kind cell.0 self.old ≡ true }
        ensures { IfOk result (λ d. (self.new, d) ≡ dropped kind cell.0 self.old) }
    {
        match kind {
            Kind::Promise => self.drop_cell(Side::Promise, cell),
            Kind::Future => self.drop_cell(Side::Future, cell),
            Kind::PromiseStream => self.drop_stream(Side::Promise, cell),
            Kind::FutureStream => self.drop_stream(Side::Future, cell),
        }
    }

    /// Numbers up to this one count as given to a cell.
    pub fn skip_cells(&mut self, cell: CellId)
        ensures { self.new ≡ record self.old { made = max self.old.made cell.0 } }
    {
        self.made = self.made.max(cell.0);
    }

    /// Numbers up to this one count as given to an actor.
    pub fn skip_actors(&mut self, actor: ActorId)
        ensures skipped { self.new ≡ skipped_actors actor.0 self.old }
        ensures rising { IsRising 0 self.new.frames.things self.new.frames.greatest }
    {
        self.frames.skip_to(actor);
    }

    /// Removes everything. The numbers given stay.
    pub fn clear(&mut self)
        ensures { self.new ≡ cleared self.old }
    {
        self.tasks.clear();
        self.cells.clear();
        self.streams.clear();
        self.frames.clear();
        self.actors.clear();
        self.main = None;
        self.ports.clear();
        self.requests.clear();
    }
}
