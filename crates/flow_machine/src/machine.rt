// One process.

ghost use Rattle.std.specs.Prelude.{◌≡◌, ◌<◌, ◌≤◌, ◌^◌, is_some, length, IfOk, IfErr};
ghost use Rattle.flow_value.specs.declared.value.Kind.TheVariants as kind;
ghost use Rattle.flow_value.specs.declared.value.Outcome.TheVariants as outcome;
ghost use Rattle.flow_steps.specs.Doing.{never_ran, begun, vanished};
ghost use Rattle.flow_steps.specs.Holding.{on_heap};
ghost use Rattle.flow_steps.specs.Delivering.{brought, answered, main_dropped};
ghost use Rattle.flow_steps.specs.Views.{frames_in, callbacks_in};
ghost use Rattle.flow_machine.specs.Bursts.{Bursts, MainBursts};
ghost use Rattle.flow_steps.specs.StuckTasks.{AnswerStuck, BringStuck};
ghost use Rattle.flow_machine.specs.Breaking.{MainBreaksOff, BringingBreaksOff};
ghost use Rattle.flow_machine.specs.Cause.{RunCause};

use crate::bursts::{ask, burst};
use crate::host::{Burst, Host, RunFault};
use flow_base::ids::{CellId, ProcId};
use flow_base::memory::NoMemory;
use flow_code::program::Code;
use flow_steps::process::Process;
use flow_steps::views::{CallbackView, FrameView};
use flow_value::value::{Outcome, Value};
use std::alloc::Global;

/// One process of so many.
#[derive(Drop)]
pub struct Machine {
    pub(crate) me: ProcId,
    pub(crate) processes: u8,
    pub(crate) process: Process,
}

impl Machine {
    /// A process of so many, up to 64, by its number, which never ran.
    pub fn new(alloc: Global, me: ProcId, processes: u8) -> Result<Machine, NoMemory>
        requires mine { me.0 < processes }
        requires few { processes ≤ 64 }
        ensures processes { IfOk result (λ m. m.processes ≡ processes) }
        ensures me { IfOk result (λ m. m.me ≡ me) }
        ensures fresh { IfOk result (λ m. m.process ≡ never_ran alloc) }
    {
        Ok(Machine {
            me,
            processes,
            process: Process::new(alloc)?,
        })
    }

    /// How many processes there are.
    pub fn processes(&self) -> u8
        ensures { result ≡ self.now.processes }
    {
        self.processes
    }

    #[tactic(auto, using(crate::proofs::Causes::cause_before, crate::proofs::Rows::main_bursts, crate::proofs::Rows::main_breaks, crate::proofs::Rows::line_breaks, crate::proofs::Rows::after_main))]
    /// Calls `main` with the process's number, and does all that follows: `Rested` where nothing is left to do, `Spent` where
    /// a turn is needed and none is left. `Failed` comes only where the host's count of faults rose. `OutOfMemory` comes where
    /// there is no memory, and where the steps of a burst ask for something more than 2^64 - 1 times. `Stuck` comes where a
    /// result of `main` is held already, or where the classes lead to where no valid class comes.
    pub fn start_main<H: Host>(
        &mut self,
        code: &Code,
        now: u64,
        turns: u32,
        host: &mut H,
    ) -> Result<Burst, RunFault>
        requires { H.processes (H.kept host.old) ≡ self.old.processes }
        ensures bursts { IfOk result (λ e. MainBursts H.serves H.shows H.wrote code.now
            self.old.processes self.old.me (begun now turns self.old.process) host.old
            e self.new.process host.new) }
        ensures cause { RunCause (H.faults host.old) (H.faults host.new) result }
        ensures host { H.kept host.new ≡ H.kept host.old }
        ensures breaks { IfErr result (λ f. MainBreaksOff H.serves H.shows H.wrote H.broke code.now
            self.old.processes self.old.me (begun now turns self.old.process) host.old f host.new) }
        ensures processes { self.new.processes ≡ self.old.processes }
        ensures me { self.new.me ≡ self.old.me }
    {
        self.process.begin(now, turns);
        self.process.call_main(code, self.me)?;
        ask(&mut self.process, self.processes, host)?;
        burst(&mut self.process, self.processes, code, host)
    }

    #[tactic(auto, using(crate::proofs::Rows::bringing_breaks, crate::proofs::Rows::after_bringing))]
    /// Brings the answer to an open request: its cell is set and fires, and then the request's promise is dropped.
    pub fn deliver<H: Host>(
        &mut self,
        code: &Code,
        cell: CellId,
        outcome: Outcome,
        now: u64,
        turns: u32,
        host: &mut H,
    ) -> Result<Burst, RunFault>
        requires { H.processes (H.kept host.old) ≡ self.old.processes }
        ensures bursts { let start = begun now turns self.old.process in
            IfOk result (λ e. Bursts H.serves H.shows H.wrote code.now self.old.processes
            (brought kind.Promise cell.0 outcome (on_heap (answered cell.0) start)) host.old
            e self.new.process host.new) }
        ensures cause { RunCause (H.faults host.old) (H.faults host.new) result }
        ensures host { H.kept host.new ≡ H.kept host.old }
        ensures breaks { let start = begun now turns self.old.process in
            IfErr result (λ f. BringingBreaksOff H.serves H.shows H.wrote H.broke code.now
            self.old.processes
            (AnswerStuck cell.0 outcome start.heap)
            (brought kind.Promise cell.0 outcome (on_heap (answered cell.0) start)) host.old
            f host.new) }
        ensures processes { self.new.processes ≡ self.old.processes }
        ensures me { self.new.me ≡ self.old.me }
    {
        self.process.begin(now, turns);
        self.process.answer(cell, outcome)?;
        burst(&mut self.process, self.processes, code, host)
    }

    #[tactic(auto, using(crate::proofs::Rows::bringing_breaks, crate::proofs::Rows::after_bringing))]
    /// Brings an element to a port's stream, which fires.
    pub fn arrive<H: Host>(
        &mut self,
        code: &Code,
        cell: CellId,
        item: Value,
        now: u64,
        turns: u32,
        host: &mut H,
    ) -> Result<Burst, RunFault>
        requires { H.processes (H.kept host.old) ≡ self.old.processes }
        ensures bursts { let start = begun now turns self.old.process in
            IfOk result (λ e. Bursts H.serves H.shows H.wrote code.now self.old.processes
            (brought kind.PromiseStream cell.0 (outcome.Value item) start) host.old
            e self.new.process host.new) }
        ensures cause { RunCause (H.faults host.old) (H.faults host.new) result }
        ensures host { H.kept host.new ≡ H.kept host.old }
        ensures breaks { let start = begun now turns self.old.process in
            IfErr result (λ f. BringingBreaksOff H.serves H.shows H.wrote H.broke code.now
            self.old.processes
            (BringStuck kind.PromiseStream cell.0 (outcome.Value item) start.heap)
            (brought kind.PromiseStream cell.0 (outcome.Value item) start) host.old f host.new) }
        ensures processes { self.new.processes ≡ self.old.processes }
        ensures me { self.new.me ≡ self.old.me }
    {
        self.process.begin(now, turns);
        self.process.bring(cell, item)?;
        burst(&mut self.process, self.processes, code, host)
    }

    #[tactic(auto, using(crate::proofs::Rows::bringing_breaks, crate::proofs::Rows::after_bringing))]
    /// Drops the hold on the result of `main`, if there is one.
    pub fn stop<H: Host>(
        &mut self,
        code: &Code,
        now: u64,
        turns: u32,
        host: &mut H,
    ) -> Result<Burst, RunFault>
        requires { H.processes (H.kept host.old) ≡ self.old.processes }
        ensures bursts { let start = begun now turns self.old.process in
            IfOk result (λ e. Bursts H.serves H.shows H.wrote code.now self.old.processes
            (on_heap (main_dropped start.heap.main) start) host.old
            e self.new.process host.new) }
        ensures cause { RunCause (H.faults host.old) (H.faults host.new) result }
        ensures host { H.kept host.new ≡ H.kept host.old }
        ensures breaks { let start = begun now turns self.old.process in
            IfErr result (λ f. BringingBreaksOff H.serves H.shows H.wrote H.broke code.now
            self.old.processes ⊥
            (on_heap (main_dropped start.heap.main) start) host.old f host.new) }
        ensures processes { self.new.processes ≡ self.old.processes }
        ensures me { self.new.me ≡ self.old.me }
    {
        self.process.begin(now, turns);
        self.process.drop_main()?;
        burst(&mut self.process, self.processes, code, host)
    }

    /// A loss of power: everything goes but the numbers given so far.
    pub fn vanish(&mut self)
        ensures vanished { self.new.process ≡ vanished self.old.process }
        ensures processes { self.new.processes ≡ self.old.processes }
        ensures me { self.new.me ≡ self.old.me }
    {
        self.process.vanish();
    }

    /// Whether the process holds the result of a `main`.
    pub fn holds_main(&self) -> bool
        ensures { result ≡ is_some self.now.process.heap.main }
    {
        self.process.holds_main()
    }

    /// The frames of unfinished actors, by rising number.
    pub fn frames(&self) -> Result<Vec<FrameView>, NoMemory>
        ensures { IfOk result (λ views. views.items ≡ frames_in self.now.process.heap) }
    {
        self.process.frames()
    }

    /// The callbacks of unfinished actors, by rising number of the actor, and those of an actor in order.
    pub fn callbacks(&self) -> Result<Vec<CallbackView>, NoMemory>
        ensures { IfOk result (λ views. views.items ≡ callbacks_in self.now.process.heap) }
    {
        self.process.callbacks()
    }

    /// How many actors are unfinished.
    pub fn live(&self) -> u64
        ensures { result ≡ length self.now.process.heap.frames.things }
    {
        self.process.live()
    }
}
