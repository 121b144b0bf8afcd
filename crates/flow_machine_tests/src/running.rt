// One process that runs a program, event by event.

ghost use Rattle.std.specs.Prelude.{OnOk};
ghost use Rattle.flow_heapstate.specs.State.{parts_kept};
ghost use Rattle.flow_heapstate.specs.Sound.{SoundHeap};

use crate::lines::{Lines, are_lines, code, new_host};
use flow_base::ids::{CellId, ProcId};
use flow_code::program::Code;
use flow_heapstate::judging::is_sound;
use flow_heapstate::state::HeapState;
use flow_machine::host::{Burst, RunFault};
use flow_machine::machine::Machine;
use flow_value::value::{Outcome, Value};
use std::alloc::Global;
use std::test::Fail;

/// The only process there is, with the code that it runs and its host. A function that starts one has one end, since all
/// of it is dropped at each.
#[derive(Drop)]
pub(crate) struct Running {
    classes: Code,
    pub(crate) machine: Machine,
    pub(crate) host: Lines,
}

// A process that called `main` with its number, and did all that follows.
fn started(alloc: Global, classes: &Code, host: &mut Lines) -> Result<Machine, RunFault> {
    let mut machine = Machine::new(alloc, ProcId(0), 1)?;
    machine.start_main(classes, 0, 100, host)?;
    Ok(machine)
}

// Whether a state is that of a machine between events; an error where it isn't.
fn judged(alloc: Global, state: &HeapState) -> Result<(), Fail>
    ensures { OnOk result (SoundHeap (parts_kept state.now)) }
{
    if is_sound(alloc, state)? {
        return Ok(());
    }
    Err(Fail::from("not the state of a machine between events"))
}

// A machine made from the state of another one, where that is the state of a machine between events.
fn made_again(alloc: Global, machine: &Machine) -> Result<Machine, Fail> {
    let state = machine.state()?;
    judged(alloc, &state)?;
    Ok(Machine::restore(alloc, ProcId(0), 1, state)?)
}

// An answer of nothing to an open request of the only process.
fn delivered(
    machine: &mut Machine,
    classes: &Code,
    (cell, now): (CellId, u64),
    host: &mut Lines,
) -> Result<Burst, Fail> {
    if machine.processes() != 1 {
        return Err(Fail::from("not the only process"));
    }
    let given = Outcome::Value(Value::Void);
    Ok(machine.deliver(classes, cell, given, now, 100, host)?)
}

// The only process is stopped.
fn stopped(
    machine: &mut Machine,
    classes: &Code,
    now: u64,
    host: &mut Lines,
) -> Result<Burst, Fail> {
    if machine.processes() != 1 {
        return Err(Fail::from("not the only process"));
    }
    Ok(machine.stop(classes, now, 100, host)?)
}

impl Running {
    /// A process that called `main` of a program with its number, and did all that follows.
    pub(crate) fn start(alloc: Global, program: &[u8]) -> Result<Running, Fail> {
        let classes = code(alloc, program)?;
        let mut host = new_host(alloc);
        let machine = started(alloc, &classes, &mut host)?;
        Ok(Running {
            classes,
            machine,
            host,
        })
    }

    /// Answers an open request with nothing, at a time.
    pub(crate) fn deliver(&mut self, cell: CellId, now: u64) -> Result<Burst, Fail> {
        delivered(
            &mut self.machine,
            &self.classes,
            (cell, now),
            &mut self.host,
        )
    }

    /// Stops the process at a time.
    pub(crate) fn stop(&mut self, now: u64) -> Result<Burst, Fail> {
        stopped(&mut self.machine, &self.classes, now, &mut self.host)
    }

    /// Goes on in a machine made from the state of this one, over a host that keeps no line yet.
    pub(crate) fn again(&mut self, alloc: Global) -> Result<(), Fail> {
        self.machine = made_again(alloc, &self.machine)?;
        self.host = new_host(alloc);
        Ok(())
    }

    /// How many actors have a frame.
    pub(crate) fn frames(&self) -> Result<usize, Fail> {
        Ok(self.machine.frames()?.len())
    }

    /// How many callbacks the actors have.
    pub(crate) fn callbacks(&self) -> Result<usize, Fail> {
        Ok(self.machine.callbacks()?.len())
    }

    /// Whether the lines that the host keeps are those of a text.
    pub(crate) fn told(&self, alloc: Global, wanted: &[u8]) -> Result<bool, Fail> {
        are_lines(alloc, self.host.lines.lines(), wanted)
    }
}
