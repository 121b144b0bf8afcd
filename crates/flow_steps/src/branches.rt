// Waits: operands, the branch that is taken, and suspending.

ghost use Rattle.std.specs.Prelude.{◌≡◌, ◌∷◌, OnOk, IfOk, None, Some, length, slice_get};
ghost use Rattle.std.specs.Option.{IsSomeAnd, option_copied};
ghost use Rattle.flow_value.specs.View.{outcome_of};
ghost use Rattle.flow_numbered.specs.Numbered.{thing};
ghost use Rattle.flow_stream.specs.Streams.{head, tail};
ghost use Rattle.flow_heap_refinement.specs.Changes.{stream_put};
ghost use Rattle.flow_heap_refinement.specs.Holds.{hold_all};
ghost use Rattle.flow_steps.specs.Seen.{content_in};
ghost use Rattle.flow_steps.specs.Holding.{on_heap, outcome_refs};
ghost use Rattle.flow_steps.specs.Delivering.{head_of};
ghost use Rattle.flow_code.specs.declared.class.Last.TheVariants.{Choose};
ghost use Rattle.flow_cancel.specs.declared.task.Task.TheVariants.{Run};
ghost use Rattle.flow_steps.specs.Drops.{DropsOver};
ghost use Rattle.flow_steps.specs.Stuck.{OnStuck, FrameMissing};
ghost use Rattle.flow_steps.specs.StuckWaits.{NoWait, NoBranchOf, NoCopyIn, NoHead, NothingTaken, TakesStuck, KeepsStuck, NoCell, SomeNoCell, WaitsStuck};
ghost use Rattle.flow_steps.specs.StuckTasks.{NotNewest, KeptStuck};
ghost use Rattle.flow_steps.specs.Waiting.{BranchOf, Takes, BranchTaken, TakesBranch, left_for, marked_at, operand_kept, KeepsOperand, callbacks_of, first_ready, register, register_all, Registers, suspended_at, Waits};
ghost use Rattle.flow_steps.specs.Tasks.{TopTaken, IsKept};

use crate::errors::Fault;
use crate::frames::ControlPoint;
use crate::next::Pace;
use crate::process::Process;
use flow_base::errors::{OPERATION_CANCELLED, SECOND_WAITER};
use flow_base::ids::{ActorId, CellId};
use flow_cancel::task::Task;
use flow_cell::waiter::Waiter;
use flow_code::class::{Block, Branch, Group, Last};
use flow_code::program::Code;
use flow_frame::held::Held;
use flow_stream::head::{Head, Wait};
use flow_trace::line::Line;
use flow_value::value::{Kind, Outcome};

/// The branch of a group at a place, from 0.
pub(crate) fn branch_in(group: &Group, place: usize) -> Option<&Branch>
    ensures { option_copied result ≡ slice_get group.now.branches.items place }
{
    group.branches.get(place)
}

/// The number of the group of the wait that ends a block.
pub(crate) fn group_at(block: &Block) -> Result<u32, Fault>
    ensures done { IfOk result (λ g. block.now.last ≡ Choose g) }
    ensures stuck { OnStuck result (NoWait block.now) }
{
    match &block.last {
        Last::Choose(group) => Ok(*group),
        _ => Err(Fault::Stuck),
    }
}

#[tactic(auto, using(crate::proofs::Waits::branch_is, crate::proofs::Amiss::no_group_there, crate::proofs::Amiss::begins_later))]
/// The number of a branch in its group, from its number through the class.
pub(crate) fn branch_of(stand: &ControlPoint<'_>, callback: u32) -> Result<u32, Fault>
    ensures done { IfOk result (λ b. BranchOf stand.now callback b) }
    ensures stuck { OnStuck result (NoBranchOf stand.now callback) }
{
    let number = group_at(stand.block)?;
    let Some(group) = stand.class.group(number) else {
        return Err(Fault::Stuck);
    };
    match callback.checked_sub(group.first) {
        Some(branch) => Ok(branch),
        None => Err(Fault::Stuck),
    }
}

impl Process {
    #[tactic(auto, using(crate::proofs::Waits::copy_taken, crate::proofs::Waits::first_taken, crate::proofs::Waits::no_result, crate::proofs::Amiss::copy_stuck, crate::proofs::Amiss::first_stuck_at, crate::proofs::Amiss::nothing_there))]
    // What a branch takes from a cell that is ready: a copy of the outcome, the first element, or else the end.
    fn taken_from(&mut self, cell: CellId) -> Result<Outcome, Fault>
        ensures done { IfOk result (λ o. Takes cell.0 o self.old self.new) }
        ensures stuck { OnStuck result (NothingTaken cell.0 self.old.heap) }
    {
        match self.kind_at(cell) {
            Some(Kind::Future | Kind::Promise) => self.copied_from(cell),
            Some(Kind::FutureStream | Kind::PromiseStream) => self.popped_from(cell),
            None => Err(Fault::Stuck),
        }
    }

    #[tactic(auto, using(crate::proofs::Amiss::nothing_set, crate::proofs::Amiss::copy_missing))]
    // A copy of what a single result holds, whose references count.
    fn copied_from(&mut self, cell: CellId) -> Result<Outcome, Fault>
        ensures copy { IfOk result (λ o. content_in self.old.heap.cells cell.0
            ≡ Some (outcome_of o)) }
        ensures counted { IfOk result (λ o. self.new
            ≡ on_heap (hold_all (outcome_refs o)) self.old) }
        ensures stuck { OnStuck result (NoCopyIn (thing self.old.heap.cells.things cell.0)
            self.old.heap) }
    {
        if self.heap.cells().references(cell).is_none() {
            return Err(Fault::Stuck);
        }
        let copy = match self.heap.cells().content(cell) {
            Some(outcome) => outcome.copy(self.alloc)?,
            None => return Err(Fault::Stuck),
        };
        self.hold_outcome(&copy)?;
        Ok(copy)
    }

    #[tactic(auto, using(crate::proofs::Amiss::nothing_first))]
    // The first element of a stream, or else its end.
    fn popped_from(&mut self, cell: CellId) -> Result<Outcome, Fault>
        ensures first { IfOk result (λ o. IsSomeAnd (thing self.old.heap.streams.things cell.0)
            (λ s. head s.queue s.end ≡ head_of o)) }
        ensures rest { OnOk result (IsSomeAnd (thing self.old.heap.streams.things cell.0)
            (λ s. self.new ≡ on_heap (stream_put cell.0 (record s { queue = tail s.queue }))
            self.old)) }
        ensures stuck { OnStuck result (NoHead (thing self.old.heap.streams.things cell.0)) }
    {
        if self.heap.streams().references(cell).is_none() {
            return Err(Fault::Stuck);
        }
        match self.heap.streams_mut().pop(cell) {
            Head::Item(value) => Ok(Outcome::Value(value)),
            Head::End(error) => Ok(Outcome::Error(error)),
            Head::Nothing => Err(Fault::Stuck),
        }
    }

    /// An actor leaves its wait for a task: its operands are dropped, then its locals, and then the task comes.
    pub(crate) fn leave_for(&mut self, stand: &ControlPoint<'_>, task: Task) -> Result<(), Fault>
        ensures left { OnOk result (self.new ≡ on_heap (left_for stand.now task) self.old) }
        ensures drops { OnOk result (DropsOver (task ∷ self.old.heap.tasks) self.new.heap.tasks) }
        ensures stuck { OnStuck result (FrameMissing stand.now.actor.0 self.old.heap) }
    {
        let actor = stand.actor;
        self.heap.push(task)?;
        self.lose_locals(stand.class, actor)?;
        self.leave(actor)?;
        let Ok(last) = u32::try_from(stand.block.body.len()) else {
            return Err(Fault::OutOfMemory);
        };
        self.go(actor, stand.place, last)?;
        Ok(())
    }

    #[tactic(auto, using(crate::proofs::Waits::untaken, crate::proofs::Waits::taken_by))]
    /// A branch, numbered from 0 in its group, takes what its cell gives: a turn, the line; then the actor leaves its wait.
    pub(crate) fn take(
        &mut self,
        stand: &ControlPoint<'_>,
        branch: u32,
        cell: CellId,
    ) -> Result<(), Fault>
        ensures done { OnOk result (TakesBranch stand.now branch cell self.old self.new) }
        ensures stuck { OnStuck result (TakesStuck stand.now cell.0 self.old.heap) }
    {
        if !self.turn() {
            return Ok(());
        }
        self.take_now(stand, branch, cell)
    }

    // A branch takes what its cell gives, with the line; then the actor leaves its wait.
    fn take_now(&mut self, stand: &ControlPoint<'_>, branch: u32, cell: CellId) -> Result<(), Fault>
        ensures done { OnOk result (BranchTaken stand.now branch cell self.old self.new) }
        ensures stuck { OnStuck result (TakesStuck stand.now cell.0 self.old.heap) }
    {
        let actor = stand.actor;
        let group = group_at(stand.block)?;
        let outcome = Box::new(self.alloc, self.taken_from(cell)?)?;
        self.leave_for(stand, Task::Give(actor, branch, outcome))?;
        self.tell(Line::Take(actor, group, branch));
        Ok(())
    }

    #[tactic(auto, using(crate::proofs::Waits::kept_cancelled, crate::proofs::Waits::kept_on, crate::proofs::Waits::kept_taken))]
    /// An operand that counts already is kept. A marked actor then leaves its wait and is thrown that it was cancelled; an
    /// operand that is ready is taken; otherwise the actor goes on.
    pub(crate) fn keep_operand<'a>(
        &mut self,
        stand: &ControlPoint<'a>,
        held: Held,
    ) -> Result<Pace<'a>, Fault>
        ensures done { IfOk result (λ pace. KeepsOperand stand.now held self.old pace self.new) }
        ensures stuck { OnStuck result (KeepsStuck stand.now held self.old.heap) }
    {
        let actor = stand.actor;
        let marked = self.is_marked(actor)?;
        let ready = self.is_ready(held.cell);
        self.add_operand(actor, held)?;
        if marked {
            let thrown = Task::Throw(actor, OPERATION_CANCELLED);
            self.leave_for(stand, thrown)?;
            return Ok(Pace::Off);
        }
        if !ready {
            return Ok(Pace::On(*stand));
        }
        let branch = branch_of(stand, held.callback)?;
        self.take(stand, branch, held.cell)?;
        Ok(Pace::Off)
    }

    // Whether an unfinished actor is marked as cancelled.
    fn is_marked(&self, actor: ActorId) -> Result<bool, Fault>
        ensures done { IfOk result (λ b. b ≡ marked_at actor.0 self.now.heap) }
        ensures stuck { OnStuck result (thing self.now.heap.actors.things actor.0 ≡ None) }
    {
        if !self.heap.unfinished(actor) {
            return Err(Fault::Stuck);
        }
        Ok(self.heap.marked(actor))
    }

    #[tactic(auto, using(crate::proofs::Framing::frame_changed))]
    // The frame of an actor keeps an operand more.
    fn add_operand(&mut self, actor: ActorId, held: Held) -> Result<(), Fault>
        ensures done { OnOk result (self.new ≡ on_heap (operand_kept actor.0 held) self.old) }
        ensures stuck { OnStuck result (FrameMissing actor.0 self.old.heap) }
    {
        if !self.heap.frames().contains(actor) {
            return Err(Fault::Stuck);
        }
        self.heap.frames_mut().add_callback(actor, held)?;
        Ok(())
    }

    /// The result of an effect is kept as an operand, and the actor, whose task is next, goes on.
    pub(crate) fn keep(&mut self, code: &Code, actor: ActorId, held: Held) -> Result<(), Fault>
        ensures done { OnOk result (IsKept code.now actor held self.old self.new) }
        ensures stuck { OnStuck result (KeptStuck code.now actor held self.old) }
    {
        self.pop_run(actor)?;
        let stand = self.stand_of(code, actor)?;
        let pace = self.keep_operand(&stand, held)?;
        self.go_from(code, pace)
    }

    // Takes the actor's own task off the stack.
    fn pop_run(&mut self, actor: ActorId) -> Result<(), Fault>
        ensures done { OnOk result (TopTaken (Run actor) self.old self.new) }
        ensures stuck { OnStuck result (NotNewest (Run actor) self.old) }
    {
        match self.heap.next_task() {
            Some(Task::Run(top)) if top == actor => Ok(()),
            _ => Err(Fault::Stuck),
        }
    }

    #[tactic(auto, using(crate::proofs::Waits::one_unready, crate::proofs::Waits::one_ready, crate::proofs::Waits::none_ready))]
    // The first operand that is ready.
    fn first_ready(&self, actor: ActorId) -> Option<Held>
        ensures { result ≡ first_ready self.now.heap (callbacks_of actor.0 self.now.heap) }
    {
        if !self.heap.frames().contains(actor) {
            return None;
        }
        for held in self.heap.frames().callbacks(actor) {
            if self.is_ready(held.cell) {
                return Some(*held);
            }
        }
        None
    }

    // A callback waits at its cell: false where a stream refuses it.
    fn register(&mut self, actor: ActorId, held: Held) -> Result<bool, Fault>
        ensures done { IfOk result (λ all. Registers (register actor.0 held self.old.heap) all
            self.old self.new) }
        ensures stuck { OnStuck result (NoCell held.cell.0 self.old.heap) }
    {
        let waiter = Waiter {
            actor,
            callback: held.callback,
        };
        if self.heap.cells().references(held.cell).is_some() {
            self.heap.cells_mut().add_waiter(held.cell, waiter)?;
            return Ok(true);
        }
        if self.heap.streams().references(held.cell).is_none() {
            return Err(Fault::Stuck);
        }
        match self.heap.streams_mut().add_waiter(held.cell, waiter) {
            Wait::Added => Ok(true),
            Wait::Busy => Ok(false),
        }
    }

    // The callback of an actor at a place among its operands.
    fn held_at(&self, actor: ActorId, place: usize) -> Option<Held>
        ensures { result ≡ slice_get (callbacks_of actor.0 self.now.heap) place }
    {
        if !self.heap.frames().contains(actor) {
            return None;
        }
        self.heap.frames().callbacks(actor).get(place).copied()
    }

    // How many operands an actor has.
    pub(crate) fn operands(&self, actor: ActorId) -> usize
        ensures { result ≡ length (callbacks_of actor.0 self.now.heap) }
    {
        if !self.heap.frames().contains(actor) {
            return 0;
        }
        self.heap.frames().callbacks(actor).len()
    }

    #[tactic(auto, using(crate::proofs::Waits::all_registered))]
    // All operands wait at their cells in order: false where a stream refuses one.
    fn register_all(&mut self, actor: ActorId) -> Result<bool, Fault>
        ensures done { IfOk result (λ all. Registers (register_all actor.0
            (callbacks_of actor.0 self.old.heap) self.old.heap) all self.old self.new) }
        ensures stuck { OnStuck result (SomeNoCell (callbacks_of actor.0 self.old.heap)
            self.old.heap) }
    {
        let count = self.operands(actor);
        for place in 0..count {
            let Some(held) = self.held_at(actor, place) else {
                return Err(Fault::Stuck);
            };
            if !self.register(actor, held)? {
                return Ok(false);
            }
        }
        Ok(true)
    }

    #[tactic(auto, using(crate::proofs::Framing::frame_changed))]
    // The frame of an actor goes into a state.
    fn suspend(&mut self, actor: ActorId, group: u32) -> Result<(), Fault>
        ensures done { OnOk result (self.new ≡ on_heap (suspended_at actor.0 group) self.old) }
        ensures stuck { OnStuck result (FrameMissing actor.0 self.old.heap) }
    {
        if !self.heap.frames().contains(actor) {
            return Err(Fault::Stuck);
        }
        self.heap.frames_mut().set_state(actor, group);
        Ok(())
    }

    #[tactic(auto, using(crate::proofs::Waits::wait_takes, crate::proofs::Waits::wait_refused))]
    /// All operands are kept. The first that is ready is taken. Otherwise the actor waits for all of them, and its locals
    /// are dropped; where a stream refuses, that is thrown.
    pub(crate) fn wait(&mut self, stand: &ControlPoint<'_>, group: u32) -> Result<(), Fault>
        ensures done { OnOk result (Waits stand.now group self.old self.new) }
        ensures stuck { OnStuck result (WaitsStuck stand.now self.old.heap) }
    {
        let actor = stand.actor;
        if let Some(held) = self.first_ready(actor) {
            let branch = branch_of(stand, held.callback)?;
            return self.take(stand, branch, held.cell);
        }
        if !self.register_all(actor)? {
            let thrown = Task::Throw(actor, SECOND_WAITER);
            return self.leave_for(stand, thrown);
        }
        self.lose_locals(stand.class, actor)?;
        self.suspend(actor, group)?;
        self.tell(Line::Wait(actor, group));
        Ok(())
    }
}
