// What the world brings to a process at the begin of an event.

ghost use Rattle.std.specs.Prelude.{◌≡◌, OnOk};
ghost use Rattle.flow_value.specs.declared.value.Kind.TheVariants as kind;
ghost use Rattle.flow_value.specs.declared.value.Outcome.TheVariants as outcome;
ghost use Rattle.flow_steps.specs.Holding.{on_heap};
ghost use Rattle.flow_steps.specs.Delivering.{brought, answered, main_dropped};
ghost use Rattle.flow_steps.specs.Stuck.{OnStuck};
ghost use Rattle.flow_steps.specs.StuckTasks.{MainStartsStuck, MainStuck, BringStuck, AnswerStuck};
ghost use Rattle.flow_steps.specs.Tasks.{MainStarts, MainCalled};

use crate::errors::Fault;
use crate::process::Process;
use flow_base::ids::{CellId, ProcId};
use flow_cancel::task::Task;
use flow_code::program::Code;
use flow_value::value::{Kind, Outcome, Value};

impl Process {
    #[tactic(auto, using(crate::proofs::Done::main_not_called, crate::proofs::Done::main_called))]
    /// Calls `main` with the process's number, where no result of `main` is held: this one is from the moment that its cell
    /// is made.
    pub fn call_main(&mut self, code: &Code, me: ProcId) -> Result<(), Fault>
        ensures done { OnOk result (MainCalled code.now me self.old self.new) }
        ensures stuck { OnStuck result (MainStuck code.now me self.old.heap) }
    {
        if self.heap.main().is_some() {
            return Err(Fault::Stuck);
        }
        if !self.turn() {
            return Ok(());
        }
        self.start_main(code, me)
    }

    #[tactic(auto, using(crate::proofs::Done::main_starts_by))]
    // `main` starts, and its result is held.
    fn start_main(&mut self, code: &Code, me: ProcId) -> Result<(), Fault>
        ensures done { OnOk result (MainStarts code.now me self.old self.new) }
        ensures stuck { OnStuck result (MainStartsStuck code.now me self.old.heap) }
    {
        let Some(class) = code.main() else {
            return Err(Fault::Stuck);
        };
        let args = vec![in self.alloc; Value::Int(i64::from(me.0))]?;
        let (actor, cell) = self.enrol(code, class, args)?;
        self.hold(Kind::Future, cell)?;
        self.heap.set_main(Some(cell));
        self.heap.push(Task::Run(actor))?;
        self.tell_start(code, class, actor)
    }

    /// The answer to an open request: its cell is set and fires, and then the request's promise is dropped.
    pub fn answer(&mut self, cell: CellId, outcome: Outcome) -> Result<(), Fault>
        ensures done { OnOk result (self.new ≡ brought kind.Promise cell.0 outcome
            (on_heap (answered cell.0) self.old)) }
        ensures stuck { OnStuck result (AnswerStuck cell.0 outcome self.old.heap) }
    {
        if !self.heap.is_requested(cell) {
            return Err(Fault::Stuck);
        }
        self.heap.end_request(cell);
        self.heap.push(Task::Drop(Kind::Promise, cell))?;
        self.give_in(Kind::Promise, cell, outcome)
    }

    /// An element comes to a port's stream, which fires.
    pub fn bring(&mut self, cell: CellId, item: Value) -> Result<(), Fault>
        ensures done { OnOk result (self.new ≡ brought kind.PromiseStream cell.0
            (outcome.Value item)
            self.old) }
        ensures stuck { OnStuck result (BringStuck kind.PromiseStream cell.0 (outcome.Value item)
            self.old.heap) }
    {
        self.give_in(Kind::PromiseStream, cell, Outcome::Value(item))
    }

    // A turn, and a cell gets content from outside.
    fn give_in(&mut self, kind: Kind, cell: CellId, outcome: Outcome) -> Result<(), Fault>
        ensures done { OnOk result (self.new ≡ brought kind cell.0 outcome self.old) }
        ensures stuck { OnStuck result (BringStuck kind cell.0 outcome self.old.heap) }
    {
        if !self.turn() {
            return Ok(());
        }
        self.hold_outcome(&outcome)?;
        self.fill(kind, cell, outcome)
    }

    /// The hold on the result of `main` is dropped, if there is one.
    pub fn drop_main(&mut self) -> Result<(), Fault>
        ensures done { OnOk result (self.new ≡ on_heap (main_dropped self.old.heap.main) self.old) }
        ensures stuck { OnStuck result ⊥ }
    {
        if let Some(cell) = self.heap.main() {
            self.heap.set_main(None);
            self.heap.push(Task::Drop(Kind::Future, cell))?;
        }
        Ok(())
    }
}
