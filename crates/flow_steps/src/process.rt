// A process while it runs.

ghost use Rattle.std.specs.Prelude.{◌≡◌, is_some, IfOk};
ghost use Rattle.std.specs.Option.{option_copied};
ghost use Rattle.flow_steps.specs.Stuck.{OnStuck};
ghost use Rattle.flow_steps.specs.StuckTasks.{TasksStuck};
ghost use Rattle.flow_steps.specs.Tasks.{Tasks};
ghost use Rattle.flow_steps.specs.Doing.{never_ran, begun, vanished, asking, telling, unasked};

use crate::call::Call;
use crate::errors::Fault;
use flow_base::memory::NoMemory;
use flow_cancel::heap::Heap;
use flow_code::program::Code;
use flow_trace::line::Line;
use std::alloc::Global;

/// The heap of a process, and of the event in progress the time in ticks, the turns that are left, whether one was needed
/// when none was left, and what the step that was done last asks of the world.
#[derive(Drop)]
pub struct Process {
    pub(crate) alloc: Global,
    pub(crate) heap: Heap,
    pub(crate) time: u64,
    pub(crate) left: u32,
    pub(crate) spent: bool,
    pub(crate) asked: Option<Call>,
}

impl Process {
    /// A process that never ran.
    pub fn new(alloc: Global) -> Result<Process, NoMemory>
        ensures { IfOk result (λ p. p ≡ never_ran alloc) }
    {
        Ok(Process {
            alloc,
            heap: Heap::new(alloc)?,
            time: 0,
            left: 0,
            spent: false,
            asked: None,
        })
    }

    /// An event begins, with its budget of turns.
    pub fn begin(&mut self, now: u64, turns: u32)
        ensures { self.new ≡ begun now turns self.old }
    {
        self.time = now;
        self.left = turns;
        self.spent = false;
    }

    /// A loss of power: everything goes but the numbers given so far.
    pub fn vanish(&mut self)
        ensures { self.new ≡ vanished self.old }
    {
        self.heap.clear();
        self.spent = false;
    }

    /// The time of the event in progress, in ticks.
    pub fn now(&self) -> u64
        ensures { result ≡ self.now.time }
    {
        self.time
    }

    /// Whether the process holds the result of a `main`.
    pub fn holds_main(&self) -> bool
        ensures { result ≡ is_some self.now.heap.main }
    {
        self.heap.main().is_some()
    }

    /// A step asks this of the world.
    pub(crate) fn ask(&mut self, call: Call)
        ensures { self.new ≡ asking call self.old }
    {
        self.asked = Some(call);
    }

    /// A step asks for a line.
    pub(crate) fn tell(&mut self, line: Line)
        ensures { self.new ≡ telling line self.old }
    {
        self.ask(Call::Line(line));
    }

    /// What the step that was done last asks of the world, if anything.
    pub fn asked(&self) -> Option<&Call>
        ensures { option_copied result ≡ self.now.asked }
    {
        self.asked.as_ref()
    }

    /// Hands over what the step that was done last asks of the world, if anything.
    pub fn take_asked(&mut self) -> Option<Call>
        ensures asked { result ≡ self.old.asked }
        ensures left { self.new ≡ unasked self.old }
    {
        self.asked.take()
    }

    /// Does the newest task, and again, until a step asks something of the world, a turn was wanted in vain, or no task is
    /// left. Answers want of memory after `u64::MAX` tasks.
    pub fn run_tasks(&mut self, code: &Code) -> Result<Next, Fault>
        ensures done { IfOk result (λ n. Tasks code.now self.old n self.new) }
        ensures stuck { OnStuck result (TasksStuck code.now self.old) }
    {
        for _step in 0..u64::MAX {
            if self.spent {
                return Ok(Next::Spent);
            }
            let Some(task) = self.heap.next_task() else {
                return Ok(Next::Rested);
            };
            self.do_task(code, task)?;
            if self.asked.is_some() {
                return Ok(Next::Asks);
            }
        }
        Err(Fault::OutOfMemory)
    }
}

/// How a burst goes on: no task is left; a turn was needed and none was left; or a step asks something of the world.
#[derive(Clone, Copy, PartialEq, Eq)]
pub enum Next {
    Rested,
    Spent,
    Asks,
}
