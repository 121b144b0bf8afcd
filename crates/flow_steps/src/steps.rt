// The steps of a process: the newest task is done.

ghost use Rattle.std.specs.Prelude.{◌≡◌, OnOk, IfOk};
ghost use Rattle.flow_cancel.specs.Dropping.{dropping};
ghost use Rattle.flow_cancel.specs.Heap.{finished};
ghost use Rattle.std.specs.Option.{IsSomeAnd};
ghost use Rattle.flow_cell.specs.declared.counts.Side.TheVariants.{Promise};
ghost use Rattle.flow_cell.specs.Cells.{released};
ghost use Rattle.flow_heap_refinement.specs.Changes.{cell_put};
ghost use Rattle.flow_steps.specs.Holding.{on_heap};
ghost use Rattle.flow_steps.specs.Delivering.{result_set, end_line, ended_with, closing, closed};
ghost use Rattle.flow_numbered.specs.Numbered.{thing};
ghost use Rattle.flow_steps.specs.Drops.{DropsOver};
ghost use Rattle.flow_steps.specs.Points.{referring, values};
ghost use Rattle.flow_steps.specs.Doing.{departed, doing};
ghost use Rattle.flow_cancel.specs.declared.task.Task.TheVariants.{Fire};
ghost use Rattle.flow_steps.specs.Stuck.{OnStuck, FrameMissing, LosesStuck};
ghost use Rattle.flow_steps.specs.StuckTasks.{StandsStuck, NoBranchAt, NoPlaceFor, BranchStuck, GivenStuck, EffectTo, NoEffect, StoredStuck, HandlesStuck, LeavesStuck, RaisedStuck, WaiterStuck, FiresStuck, NoPromise, ResultStuck, EndsStuck, ForgetsStuck, ClosesStuck, TaskStuck};
ghost use Rattle.flow_steps.specs.Tasks.{BranchAt, Given, ValueGiven, bound_over, bound, Stored, Raises, Raised, FailsBy, caught, with_error, cell_waiter, stream_waiter, next_waiter, WaiterTakes, Fires, drops_one, IsDone};

use crate::branches::{branch_in, branch_of, group_at};
use crate::errors::Fault;
use crate::frames::{ControlPoint, instruction_at};
use crate::process::Process;
use flow_base::ids::{ActorId, CellId, ErrorCode};
use flow_cancel::task::Task;
use flow_cell::counts::Side;
use flow_cell::waiter::Waiter;
use flow_code::class::{Aim, Branch, Catcher, Instruction};
use flow_code::program::Code;
use flow_frame::held::Held;
use flow_trace::line::Line;
use flow_value::value::{Kind, Outcome, Value};

/// The line of an actor's end.
fn end_line(actor: ActorId, outcome: &Outcome) -> Line
    ensures { result ≡ end_line actor outcome.now }
{
    match outcome {
        Outcome::Value(_) => Line::Finish(actor),
        Outcome::Error(error) => Line::Fail(actor, *error),
    }
}

#[tactic(auto, using(crate::proofs::Done::branch_found, crate::proofs::TasksAmiss::no_group_found, crate::proofs::TasksAmiss::not_found))]
/// The branch of this number of the wait at which an actor stands.
fn branch_at<'a>(stand: &ControlPoint<'a>, branch: u32) -> Result<&'a Branch, Fault>
    ensures done { IfOk result (λ b. BranchAt stand.now branch b.now) }
    ensures stuck { OnStuck result (NoBranchAt stand.now branch) }
{
    let number = group_at(stand.block)?;
    let Some(group) = stand.class.group(number) else {
        return Err(Fault::Stuck);
    };
    match branch_in(group, branch as usize) {
        Some(branch) => Ok(branch),
        None => Err(Fault::Stuck),
    }
}

#[tactic(auto, using(crate::proofs::Done::effect_to))]
/// Where an effect aims.
fn aim_of(instruction: &Instruction) -> Result<&Aim, Fault>
    ensures done { IfOk result (λ aim. EffectTo instruction.now aim.now) }
    ensures stuck { OnStuck result (NoEffect instruction.now) }
{
    match instruction {
        Instruction::Effect(aim, _, _) => Ok(aim),
        _ => Err(Fault::Stuck),
    }
}

impl Process {
    #[tactic(auto, using(crate::proofs::Done::closes_by))]
    /// Does a task that was the newest.
    pub(crate) fn do_task(&mut self, code: &Code, task: Task) -> Result<(), Fault>
        ensures done { OnOk result (IsDone code.now task self.old self.new) }
        ensures stuck { OnStuck result (TaskStuck code.now task self.old) }
    {
        match task {
            Task::Run(actor) => self.run(code, actor),
            Task::Give(actor, branch, outcome) => {
                self.give(code, actor, branch, Box::into_inner(outcome))
            }
            Task::Throw(actor, error) => self.raise(code, actor, error),
            Task::Catch(actor, error) => {
                self.heap.push(Task::Run(actor))?;
                self.tell(Line::Catch(actor, error));
                Ok(())
            }
            Task::Fire(cell) => self.fire(code, cell),
            Task::Drop(kind, cell) => self.drop_one(kind, cell),
            Task::Store(actor, value) => self.store(code, actor, Box::into_inner(value)),
            Task::Keep(actor, callback, cell) => self.keep(code, actor, Held { callback, cell }),
            Task::Close(actor, outcome) => self.close(actor, Box::into_inner(outcome)),
        }
    }

    // A reference is dropped: a turn, and it counts no more.
    fn drop_one(&mut self, kind: Kind, cell: CellId) -> Result<(), Fault>
        ensures done { OnOk result (self.new ≡ drops_one kind cell self.old) }
        ensures stuck { OnStuck result (LosesStuck kind cell.0 self.old.heap) }
    {
        if !self.turn() {
            return Ok(());
        }
        self.lose(kind, cell)
    }

    // A branch was taken: its value goes to it, and an error is thrown.
    fn give(
        &mut self,
        code: &Code,
        actor: ActorId,
        branch: u32,
        outcome: Outcome,
    ) -> Result<(), Fault>
        ensures done { OnOk result (Given code.now actor branch outcome self.old self.new) }
        ensures stuck { OnStuck result (GivenStuck code.now actor branch outcome self.old) }
    {
        match outcome {
            Outcome::Value(value) => self.give_value(code, actor, branch, value),
            Outcome::Error(error) => self.throw(actor, error),
        }
    }

    // The value goes to the branch that was taken, and the actor goes on there.
    fn give_value(
        &mut self,
        code: &Code,
        actor: ActorId,
        branch: u32,
        value: Value,
    ) -> Result<(), Fault>
        ensures done { OnOk result (ValueGiven code.now actor branch value self.old self.new) }
        ensures stuck { OnStuck result (StandsStuck code.now.classes.items actor self.old
            (BranchStuck code.now actor branch value self.old)) }
    {
        let stand = self.stand_of(code, actor)?;
        let branch = branch_at(&stand, branch)?;
        let old = self.bind(actor, branch, value)?;
        let pace = self.on_after(stand.at(branch.block, 0)?, old)?;
        self.go_from(code, pace)
    }

    // The value of a branch goes into its place. Gives what is to be dropped: what the place held, or the value where there is
    // no place.
    fn bind(
        &mut self,
        actor: ActorId,
        branch: &Branch,
        value: Value,
    ) -> Result<Option<Value>, Fault>
        ensures over { IfOk result (λ old. referring old
            ≡ bound_over actor.0 branch.now.into value self.old.heap) }
        ensures bound { OnOk result (self.new
            ≡ on_heap (bound actor.0 branch.now.into value) self.old) }
        ensures stuck { OnStuck result (NoPlaceFor actor.0 branch.now.into self.old.heap) }
    {
        match branch.into {
            Some(place) => self.put(actor, place, Some(value)),
            None => Ok(Some(value)),
        }
    }

    // The result of an effect goes into the place of the instruction.
    fn store(&mut self, code: &Code, actor: ActorId, value: Value) -> Result<(), Fault>
        ensures done { OnOk result (Stored code.now actor value self.old self.new) }
        ensures stuck { OnStuck result (StoredStuck code.now actor self.old) }
    {
        let stand = self.stand_of(code, actor)?;
        let Some(instruction) = instruction_at(stand.block, stand.instruction) else {
            return Err(Fault::Stuck);
        };
        let aim = aim_of(instruction)?;
        let old = self.assign(code, actor, aim, value)?;
        self.drop_old(old)?;
        self.go_on(&stand)?;
        Ok(())
    }

    #[tactic(auto, using(crate::proofs::Holding::value_dropped))]
    // What is left over is dropped, if anything.
    fn drop_old(&mut self, old: Option<Value>) -> Result<(), Fault>
        ensures done { OnOk result (self.new ≡ on_heap (dropping (values old)) self.old) }
        ensures stuck { OnStuck result ⊥ }
    {
        if let Some(old) = old {
            self.heap.push_drops(&old)?;
        }
        Ok(())
    }

    // The line; then the operands that are kept are dropped in order, and the values that leave the variables; then the
    // handler begins, or the actor ends.
    fn raise(&mut self, code: &Code, actor: ActorId, error: ErrorCode) -> Result<(), Fault>
        ensures done { OnOk result (Raised code.now actor error self.old self.new) }
        ensures stuck { OnStuck result (RaisedStuck code.now actor self.old) }
    {
        let stand = self.stand_of(code, actor)?;
        self.leave_by(actor, &stand.block.catcher, error)?;
        self.tell(Line::Throw(actor, error));
        Ok(())
    }

    // An error goes to the handler of a block, or out of an actor.
    fn leave_by(
        &mut self,
        actor: ActorId,
        catcher: &Option<Catcher>,
        error: ErrorCode,
    ) -> Result<(), Fault>
        ensures done { OnOk result (Raises actor catcher.now error self.old self.new) }
        ensures stuck { OnStuck result (LeavesStuck actor.0 catcher.now self.old.heap) }
    {
        match catcher {
            Some(catcher) => self.caught(actor, catcher, error),
            None => self.uncaught(actor, error),
        }
    }

    #[tactic(auto, using(crate::proofs::Done::fails_by))]
    // An error goes out of an actor, which is closed.
    fn uncaught(&mut self, actor: ActorId, error: ErrorCode) -> Result<(), Fault>
        ensures done { OnOk result (FailsBy actor error self.old self.new) }
        ensures stuck { OnStuck result (FrameMissing actor.0 self.old.heap) }
    {
        let outcome = Box::new(self.alloc, Outcome::Error(error))?;
        self.heap.push(Task::Close(actor, outcome))?;
        self.lose_all(actor)?;
        self.leave(actor)
    }

    // An error goes to a handler.
    fn caught(&mut self, actor: ActorId, catcher: &Catcher, error: ErrorCode) -> Result<(), Fault>
        ensures done { OnOk result (self.new ≡ on_heap (caught actor catcher.now error) self.old) }
        ensures stuck { OnStuck result (HandlesStuck actor.0 catcher.now self.old.heap) }
    {
        self.heap.push(Task::Catch(actor, error))?;
        let values = self.taken(actor, &catcher.drops)?;
        self.drop_values(values)?;
        self.put_error(actor, catcher.error, error)?;
        self.leave(actor)?;
        self.go(actor, catcher.block, 0)
    }

    // The place of a handler, if it has one, takes the error.
    fn put_error(
        &mut self,
        actor: ActorId,
        place: Option<u32>,
        error: ErrorCode,
    ) -> Result<(), Fault>
        ensures done { OnOk result (self.new ≡ on_heap (with_error actor.0 place error) self.old) }
        ensures stuck { OnStuck result (NoPlaceFor actor.0 place self.old.heap) }
    {
        if let Some(place) = place {
            self.put(actor, place, Some(Value::Error(error)))?;
        }
        Ok(())
    }

    /// The operands of an actor leave all cells, and are dropped.
    pub(crate) fn leave(&mut self, actor: ActorId) -> Result<(), Fault>
        ensures left { OnOk result (self.new ≡ departed actor.0 self.old) }
        ensures drops { OnOk result (DropsOver self.old.heap.tasks self.new.heap.tasks) }
        ensures stuck { OnStuck result (FrameMissing actor.0 self.old.heap) }
    {
        if !self.heap.frames().contains(actor) {
            return Err(Fault::Stuck);
        }
        Ok(self.heap.withdraw(actor)?)
    }

    // The oldest waiter of a cell, where it has content.
    fn next_waiter(&self, kind: Kind, cell: CellId) -> Option<Waiter>
        ensures { result ≡ next_waiter kind cell.0 self.now.heap }
    {
        if !self.is_ready(cell) {
            return None;
        }
        match kind {
            Kind::Promise | Kind::Future => self.first_waiter(cell),
            Kind::PromiseStream | Kind::FutureStream => self.stream_waiter(cell),
        }
    }

    fn first_waiter(&self, cell: CellId) -> Option<Waiter>
        ensures { result ≡ cell_waiter (thing self.now.heap.cells.things cell.0) }
    {
        self.heap.cells().references(cell)?;
        self.heap.cells().first_waiter(cell)
    }

    fn stream_waiter(&self, cell: CellId) -> Option<Waiter>
        ensures { result ≡ stream_waiter (thing self.now.heap.streams.things cell.0) }
    {
        self.heap.streams().references(cell)?;
        self.heap.streams().waiter(cell)
    }

    #[tactic(auto, using(crate::proofs::Done::fires_by, crate::proofs::TasksAmiss::nothing_to_fire))]
    // The oldest waiter takes its branch, and the fire goes on after it. It ends, without a turn, where no waiter is left
    // or, on a stream, neither element nor end.
    fn fire(&mut self, code: &Code, cell: CellId) -> Result<(), Fault>
        ensures done { OnOk result (Fires code.now cell self.old self.new) }
        ensures stuck { OnStuck result (FiresStuck code.now cell self.old) }
    {
        let Some(kind) = self.kind_at(cell) else {
            return Err(Fault::Stuck);
        };
        match self.next_waiter(kind, cell) {
            Some(waiter) => self.fire_to(code, cell, waiter),
            None => self.lose(kind, cell),
        }
    }

    #[tactic(auto, using(crate::proofs::Done::waiter_takes))]
    // A waiter of a cell takes its branch, and the fire goes on after it.
    fn fire_to(&mut self, code: &Code, cell: CellId, waiter: Waiter) -> Result<(), Fault>
        ensures done { OnOk result (WaiterTakes code.now cell waiter self.old self.new) }
        ensures stuck { OnStuck result (WaiterStuck code.now cell waiter (doing
            (Fire cell) self.old)) }
    {
        self.heap.push(Task::Fire(cell))?;
        let stand = self.stand_of(code, waiter.actor)?;
        let branch = branch_of(&stand, waiter.callback)?;
        self.take(&stand, branch, cell)
    }

    // The actor is gone: a turn and the line; then its result is set, where a future refers to it, and otherwise the cell
    // goes and the value is dropped.
    fn close(&mut self, actor: ActorId, outcome: Outcome) -> Result<(), Fault>
        ensures done { OnOk result (IsSomeAnd (thing self.old.heap.actors.things actor.0)
            (λ n. self.new ≡ closed actor outcome n.result self.old)) }
        ensures stuck { OnStuck result (ClosesStuck actor.0 self.old.heap) }
    {
        let cell = self.forget(actor)?;
        self.close_result(actor, cell, outcome)
    }

    #[tactic(auto, using(crate::proofs::Done::closing_by))]
    // A turn and the line of an actor's end, and its outcome goes to its result.
    fn close_result(
        &mut self,
        actor: ActorId,
        cell: Option<CellId>,
        outcome: Outcome,
    ) -> Result<(), Fault>
        ensures done { OnOk result (self.new ≡ closing actor outcome cell self.old) }
        ensures stuck { OnStuck result (EndsStuck cell self.old.heap) }
    {
        if !self.turn() {
            return Ok(());
        }
        let line = end_line(actor, &outcome);
        let ended = self.end_with(cell, outcome);
        self.tell(line);
        ended
    }

    // The outcome of an actor goes to its result, where it has one that a future refers to; otherwise it is dropped.
    fn end_with(&mut self, cell: Option<CellId>, outcome: Outcome) -> Result<(), Fault>
        ensures done { OnOk result (self.new ≡ ended_with cell outcome self.old) }
        ensures stuck { OnStuck result (EndsStuck cell self.old.heap) }
    {
        let Some(cell) = cell else {
            return self.drop_outcome(&outcome);
        };
        if self.futures(cell) > 0 {
            return self.set_result(cell, outcome);
        }
        self.lose(Kind::Promise, cell)?;
        self.drop_outcome(&outcome)
    }

    // The frame of an actor is closed, and its result is told.
    fn forget(&mut self, actor: ActorId) -> Result<Option<CellId>, Fault>
        ensures gone { OnOk result (self.new ≡ on_heap (finished actor.0) self.old) }
        ensures told { IfOk result (λ k. IsSomeAnd (thing self.old.heap.actors.things actor.0)
            (λ n. k ≡ n.result)) }
        ensures stuck { OnStuck result (ForgetsStuck actor.0 self.old.heap) }
    {
        if !self.heap.unfinished(actor) || !self.heap.may_finish(actor) {
            return Err(Fault::Stuck);
        }
        let result = self.heap.result(actor);
        self.heap.finish(actor);
        Ok(result)
    }

    #[tactic(auto, using(crate::proofs::Holding::promise_ended_by))]
    // A turn, and the result is set and fires. The actor's own promise counts no more.
    fn set_result(&mut self, cell: CellId, outcome: Outcome) -> Result<(), Fault>
        ensures done { OnOk result (self.new ≡ result_set cell.0 outcome self.old) }
        ensures stuck { OnStuck result (ResultStuck cell.0 self.old.heap) }
    {
        if !self.turn() {
            return Ok(());
        }
        self.end_promise(cell)?;
        self.fill(Kind::Future, cell, outcome)
    }

    // A promise of a single result counts no more, where others or futures do.
    fn end_promise(&mut self, cell: CellId) -> Result<(), Fault>
        ensures done { OnOk result (IsSomeAnd (thing self.old.heap.cells.things cell.0)
            (λ c. self.new ≡ on_heap (cell_put cell.0
            (record c { references = released Promise c.references })) self.old)) }
        ensures stuck { OnStuck result (NoPromise (thing self.old.heap.cells.things cell.0)) }
    {
        let Some(references) = self.heap.cells().references(cell) else {
            return Err(Fault::Stuck);
        };
        if references.count(Side::Promise) == 0 {
            return Err(Fault::Stuck);
        }
        self.heap.cells_mut().release(cell, Side::Promise);
        Ok(())
    }
}
