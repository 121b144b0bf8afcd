// What a process does to its own state: turns, tasks, counts of references, cells, waits and cancelling.

ghost use Rattle.std.specs.Prelude.{◌≡◌, ◌⊎◌, nat_lt, OnOk, IfOk};
ghost use Rattle.flow_cancel.specs.declared.task.Task.TheVariants.{Run, Throw};
ghost use Rattle.std.specs.Option.{IsSomeAnd};
ghost use Rattle.std.specs.declared.option.Option.TheVariants.{Some};
ghost use Rattle.flow_value.specs.Values.{refs_of_all};
ghost use Rattle.flow_value.specs.View.{values_of};
ghost use Rattle.flow_numbered.specs.Numbered.{thing};
ghost use Rattle.flow_stream.specs.Streams.{with_item};
ghost use Rattle.flow_heap_refinement.specs.Changes.{cell_put, stream_put};
ghost use Rattle.flow_heap_refinement.specs.Holds.{hold, hold_all, sent, filled_in};
ghost use Rattle.flow_steps.specs.Doing.{turned, doing, stopped};
ghost use Rattle.flow_steps.specs.Stuck.{OnStuck, CellMissing, StreamMissing, Missing, SomeMissing, MayNotSet, MayNotSend, MayNotFill, NoReference, LosesStuck, CancelsStuck, OwnerStuck};
ghost use Rattle.flow_steps.specs.Waiting.{ready_at};
ghost use Rattle.flow_steps.specs.Holding.{on_heap, cell_holding, stream_holding, value_refs, outcome_refs, refs_dropped, result_filled, stream_filled, IsGiving, Gives, broken, lost, owner_cancelled, kind_in, futures_of};

use crate::call::{Call, Goal};
use crate::errors::Fault;
use crate::process::Process;
use flow_base::errors::BROKEN_PROMISE;
use flow_base::ids::{ActorId, CellId, ErrorCode};
use flow_cancel::heap::side_of;
use flow_cancel::task::{Dropped, Task};
use flow_cell::counts::Side;
use flow_trace::line::Line;
use flow_value::value::{Kind, Outcome, Value, any_may_refer};

impl Process {
    /// Takes a turn, and says whether one was left; where none was, the event is spent.
    pub(crate) fn turn(&mut self) -> bool
        ensures taken { result ≡ nat_lt 0 self.old.left }
        ensures left { self.new ≡ turned self.old }
    {
        match self.left.checked_sub(1) {
            Some(left) => {
                self.left = left;
                true
            }
            None => {
                self.spent = true;
                false
            }
        }
    }

    /// An error is thrown where an actor stands.
    pub fn throw(&mut self, actor: ActorId, error: ErrorCode) -> Result<(), Fault>
        ensures done { OnOk result (self.new ≡ doing (Throw actor error) self.old) }
        ensures stuck { OnStuck result ⊥ }
    {
        self.push(Task::Throw(actor, error))
    }

    /// An actor takes its next step after all that comes on top.
    pub fn run_on(&mut self, actor: ActorId) -> Result<(), Fault>
        ensures done { OnOk result (self.new ≡ doing (Run actor) self.old) }
        ensures stuck { OnStuck result ⊥ }
    {
        self.push(Task::Run(actor))
    }

    #[tactic(auto, using(crate::proofs::Holding::cell_counted))]
    // A reference to a side of a single result counts.
    fn hold_cell(&mut self, side: Side, cell: CellId) -> Result<(), Fault>
        ensures done { OnOk result (self.new ≡ on_heap (cell_holding side cell.0) self.old) }
        ensures stuck { OnStuck result (CellMissing cell.0 self.old.heap) }
    {
        let Some(references) = self.heap.cells().references(cell) else {
            return Err(Fault::Stuck);
        };
        if references.count(side) == u64::MAX {
            return Err(Fault::OutOfMemory);
        }
        self.heap.cells_mut().hold(cell, side);
        Ok(())
    }

    #[tactic(auto, using(crate::proofs::Holding::stream_counted))]
    // A reference to a side of a stream counts.
    fn hold_stream(&mut self, side: Side, cell: CellId) -> Result<(), Fault>
        ensures done { OnOk result (self.new ≡ on_heap (stream_holding side cell.0) self.old) }
        ensures stuck { OnStuck result (StreamMissing cell.0 self.old.heap) }
    {
        let Some(references) = self.heap.streams().references(cell) else {
            return Err(Fault::Stuck);
        };
        if references.count(side) == u64::MAX {
            return Err(Fault::OutOfMemory);
        }
        self.heap.streams_mut().hold(cell, side);
        Ok(())
    }

    /// A reference is stored: it counts.
    pub(crate) fn hold(&mut self, kind: Kind, cell: CellId) -> Result<(), Fault>
        ensures done { OnOk result (self.new ≡ on_heap (hold kind cell.0) self.old) }
        ensures stuck { OnStuck result (Missing kind cell.0 self.old.heap) }
    {
        match kind {
            Kind::Promise | Kind::Future => self.hold_cell(side_of(kind), cell),
            Kind::PromiseStream | Kind::FutureStream => self.hold_stream(side_of(kind), cell),
        }
    }

    /// A value is stored: its references count.
    #[cycle(hold_value)]
    pub(crate) fn hold_value(&mut self, value: &Value) -> Result<(), Fault>
        ensures done { OnOk result (self.new ≡ on_heap (hold_all (value_refs value.now)) self.old) }
        ensures stuck { OnStuck result (SomeMissing (value_refs value.now) self.old.heap) }
    {
        match value {
            Value::Struct(record) => self.hold_parts(&record.fields),
            Value::List(items) => self.hold_parts(items),
            Value::Ref(kind, cell) => self.hold(*kind, *cell),
            Value::Int(_) | Value::Bool(_) | Value::Text(_) | Value::Void | Value::Error(_) => {
                Ok(())
            }
        }
    }

    #[tactic(auto, using(crate::proofs::Holding::fields_end, crate::proofs::Holding::nothing_counts))]
    /// Parts are stored: their references count.
    #[cycle(hold_value)]
    fn hold_parts(&mut self, parts: &[Value]) -> Result<(), Fault>
        ensures done { OnOk result (self.new
            ≡ on_heap (hold_all (refs_of_all (values_of parts.now))) self.old) }
        ensures stuck { OnStuck result
            (SomeMissing (refs_of_all (values_of parts.now)) self.old.heap) }
    {
        if !any_may_refer(parts) {
            return Ok(());
        }
        for part in parts {
            self.hold_value(part)?;
        }
        Ok(())
    }

    #[tactic(auto, using(crate::proofs::Holding::value_alone))]
    /// An outcome is stored: what it refers to counts.
    pub(crate) fn hold_outcome(&mut self, outcome: &Outcome) -> Result<(), Fault>
        ensures done { OnOk result (self.new ≡ on_heap (hold_all
            (outcome_refs outcome.now)) self.old) }
        ensures stuck { OnStuck result (SomeMissing (outcome_refs outcome.now) self.old.heap) }
    {
        match outcome {
            Outcome::Value(value) => self.hold_value(value),
            Outcome::Error(_) => Ok(()),
        }
    }

    #[tactic(auto, using(crate::proofs::Holding::value_dropped))]
    /// What an outcome holds is dropped.
    pub(crate) fn drop_outcome(&mut self, outcome: &Outcome) -> Result<(), Fault>
        ensures done { OnOk result (self.new ≡ on_heap (refs_dropped (outcome_refs outcome.now))
            self.old) }
        ensures stuck { OnStuck result ⊥ }
    {
        match outcome {
            Outcome::Value(value) => Ok(self.heap.push_drops(value)?),
            Outcome::Error(_) => Ok(()),
        }
    }

    // A single result is set.
    fn set(&mut self, cell: CellId, outcome: Outcome) -> Result<(), Fault>
        ensures done { OnOk result (IsSomeAnd (thing self.old.heap.cells.things cell.0)
            (λ c. self.new ≡ on_heap (cell_put cell.0 (record c { content = Some outcome }))
            self.old)) }
        ensures stuck { OnStuck result (MayNotSet (thing self.old.heap.cells.things cell.0)) }
    {
        if self.heap.cells().references(cell).is_none()
            || self.heap.cells().content(cell).is_some()
        {
            return Err(Fault::Stuck);
        }
        self.heap.cells_mut().set(cell, outcome);
        Ok(())
    }

    // A stream without an end gets an element.
    fn send(&mut self, cell: CellId, value: Value) -> Result<(), Fault>
        ensures done { OnOk result (IsSomeAnd (thing self.old.heap.streams.things cell.0)
            (λ s. self.new ≡ on_heap (stream_put cell.0 (with_item s value)) self.old)) }
        ensures stuck { OnStuck result (MayNotSend (thing self.old.heap.streams.things cell.0)) }
    {
        if self.heap.streams().references(cell).is_none() {
            return Err(Fault::Stuck);
        }
        if self.heap.streams().end_error(cell).is_some() {
            return Err(Fault::Stuck);
        }
        self.heap.streams_mut().push(cell, value)?;
        Ok(())
    }

    // A stream without an end gets one.
    fn end(&mut self, cell: CellId, error: ErrorCode) -> Result<(), Fault>
        ensures done { OnOk result (IsSomeAnd (thing self.old.heap.streams.things cell.0)
            (λ s. self.new ≡ on_heap (stream_put cell.0 (record s { end = Some error }))
            self.old)) }
        ensures stuck { OnStuck result (MayNotSend (thing self.old.heap.streams.things cell.0)) }
    {
        if self.heap.streams().references(cell).is_none() {
            return Err(Fault::Stuck);
        }
        if self.heap.streams().end_error(cell).is_some() {
            return Err(Fault::Stuck);
        }
        self.heap.streams_mut().end(cell, error);
        Ok(())
    }

    // A stream without an end gets an element or its end.
    fn send_outcome(&mut self, cell: CellId, outcome: Outcome) -> Result<(), Fault>
        ensures done { OnOk result (IsSomeAnd (thing self.old.heap.streams.things cell.0)
            (λ s. self.new ≡ on_heap (stream_put cell.0 (sent outcome s)) self.old)) }
        ensures stuck { OnStuck result (MayNotSend (thing self.old.heap.streams.things cell.0)) }
    {
        match outcome {
            Outcome::Value(value) => self.send(cell, value),
            Outcome::Error(error) => self.end(cell, error),
        }
    }

    // A task comes on top.
    fn push(&mut self, task: Task) -> Result<(), Fault>
        ensures done { OnOk result (self.new ≡ doing task self.old) }
        ensures stuck { OnStuck result ⊥ }
    {
        Ok(self.heap.push(task)?)
    }

    #[tactic(auto, using(crate::proofs::Holding::result_filled_by))]
    // A single result gets content that counts already, and fires.
    fn fill_result(&mut self, cell: CellId, outcome: Outcome) -> Result<(), Fault>
        ensures done { OnOk result (self.new ≡ on_heap (result_filled cell.0 outcome) self.old) }
        ensures stuck { OnStuck result (MayNotSet (thing self.old.heap.cells.things cell.0)) }
    {
        self.set(cell, outcome)?;
        self.hold(Kind::Future, cell)?;
        self.push(Task::Fire(cell))?;
        Ok(())
    }

    #[tactic(auto, using(crate::proofs::Holding::stream_filled_by))]
    // A stream gets content that counts already, and fires.
    fn fill_stream(&mut self, cell: CellId, outcome: Outcome) -> Result<(), Fault>
        ensures done { OnOk result (self.new ≡ on_heap (stream_filled cell.0 outcome) self.old) }
        ensures stuck { OnStuck result (MayNotSend (thing self.old.heap.streams.things cell.0)) }
    {
        self.send_outcome(cell, outcome)?;
        self.hold(Kind::FutureStream, cell)?;
        self.push(Task::Fire(cell))?;
        Ok(())
    }

    /// The cell of a kind of reference, to which more can be sent, gets content that counts already, and fires.
    pub(crate) fn fill(&mut self, kind: Kind, cell: CellId, outcome: Outcome) -> Result<(), Fault>
        ensures done { OnOk result (self.new ≡ on_heap (filled_in kind cell.0 outcome) self.old) }
        ensures stuck { OnStuck result (MayNotFill kind cell.0 self.old.heap) }
    {
        match kind {
            Kind::Promise | Kind::Future => self.fill_result(cell, outcome),
            Kind::PromiseStream | Kind::FutureStream => self.fill_stream(cell, outcome),
        }
    }

    // The task by which the result of an effect goes where it belongs.
    fn giving(&self, actor: ActorId, goal: Goal, value: Value) -> Result<Task, Fault>
        ensures done { IfOk result (λ t. IsGiving goal actor value t) }
        ensures stuck { OnStuck result (NoReference goal value) }
    {
        match (goal, value) {
            (Goal::Stored, value) => Ok(Task::Store(actor, Box::new(self.alloc, value)?)),
            (Goal::Kept(callback), Value::Ref(_, cell)) => Ok(Task::Keep(actor, callback, cell)),
            (Goal::Kept(_), _) => Err(Fault::Stuck),
        }
    }

    /// The result of an effect goes where it belongs, and the actor goes on after that.
    pub fn gives(&mut self, actor: ActorId, goal: Goal, value: Value) -> Result<(), Fault>
        ensures done { OnOk result (Gives goal actor value self.old self.new) }
        ensures stuck { OnStuck result (SomeMissing (value_refs value) self.old.heap
            ⊎ NoReference goal value) }
    {
        self.hold_value(&value)?;
        self.run_on(actor)?;
        let task = self.giving(actor, goal, value)?;
        self.push(task)
    }

    /// A reference counts no more, and what that leads to is done.
    pub(crate) fn lose(&mut self, kind: Kind, cell: CellId) -> Result<(), Fault>
        ensures done { OnOk result (self.new ≡ lost kind cell.0 self.old) }
        ensures stuck { OnStuck result (LosesStuck kind cell.0 self.old.heap) }
    {
        if !self.heap.may_drop(kind, cell) {
            return Err(Fault::Stuck);
        }
        match self.heap.drop_ref(kind, cell)? {
            Dropped::Nothing | Dropped::Freed => Ok(()),
            Dropped::Broken => self.break_cell(kind, cell),
            Dropped::Cancel(actor) => self.cancel(actor),
            Dropped::PortFreed => {
                self.ask(Call::Unlisten(cell));
                Ok(())
            }
        }
    }

    // A cell is broken: a turn, the line, and the error of a broken promise.
    fn break_cell(&mut self, kind: Kind, cell: CellId) -> Result<(), Fault>
        ensures done { OnOk result (self.new ≡ broken kind cell.0 self.old) }
        ensures stuck { OnStuck result (MayNotFill kind cell.0 self.old.heap) }
    {
        if !self.turn() {
            return Ok(());
        }
        self.fill(kind, cell, Outcome::Error(BROKEN_PROMISE))?;
        self.tell(Line::Broken(cell));
        Ok(())
    }

    /// An unfinished and unmarked actor is cancelled.
    pub(crate) fn cancel(&mut self, actor: ActorId) -> Result<(), Fault>
        ensures done { OnOk result (self.new ≡ stopped actor.0 self.old) }
        ensures stuck { OnStuck result (CancelsStuck actor.0 self.old.heap) }
    {
        if !self.heap.unfinished(actor) || !self.heap.frames().contains(actor) {
            return Err(Fault::Stuck);
        }
        self.heap.cancel(actor)?;
        self.tell(Line::Cancel(actor));
        Ok(())
    }

    /// The unfinished and unmarked actor whose result a cell is, if there is one, is cancelled.
    pub(crate) fn cancel_owner(&mut self, cell: CellId) -> Result<(), Fault>
        ensures done { OnOk result (self.new ≡ owner_cancelled cell.0 self.old) }
        ensures stuck { OnStuck result (OwnerStuck cell.0 self.old.heap) }
    {
        let Some(actor) = self.heap.owner(cell) else {
            return Ok(());
        };
        if !self.heap.unfinished(actor) || self.heap.marked(actor) {
            return Ok(());
        }
        self.cancel(actor)
    }

    /// The kind of a reference to wait at a cell, if there is such a cell.
    pub(crate) fn kind_at(&self, cell: CellId) -> Option<Kind>
        ensures { result ≡ kind_in (thing self.now.heap.cells.things cell.0)
            (thing self.now.heap.streams.things cell.0) }
    {
        if self.heap.cells().references(cell).is_some() {
            return Some(Kind::Future);
        }
        if self.heap.streams().references(cell).is_some() {
            return Some(Kind::FutureStream);
        }
        None
    }

    /// Whether a wait at a cell needn't suspend.
    pub(crate) fn is_ready(&self, cell: CellId) -> bool
        ensures { result ≡ ready_at cell.0 self.now.heap }
    {
        match self.heap.cells().is_set(cell) {
            Some(set) => set,
            None => self.heap.streams().is_ready(cell).unwrap_or(false),
        }
    }

    /// How many futures of a single result count.
    pub(crate) fn futures(&self, cell: CellId) -> u64
        ensures { result ≡ futures_of (thing self.now.heap.cells.things cell.0) }
    {
        match self.heap.cells().references(cell) {
            Some(references) => references.count(Side::Future),
            None => 0,
        }
    }
}
