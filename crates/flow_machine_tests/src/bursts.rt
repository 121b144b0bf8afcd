use crate::lines::{Lines, code, new_host};
use crate::running::Running;
use flow_base::ids::{CellId, ProcId};
use flow_code::program::Code;
use flow_machine::host::{Burst, RunFault};
use flow_machine::machine::Machine;
use std::alloc::Global;
use std::test::Fail;

// `main` returns at once.
const RETURNING: &[u8] = b"ACTOR Future<Void> main(int p) { return Void(); }";

// `main` waits for a delay of five ticks, and returns.
const DELAYING: &[u8] = b"ACTOR Future<Void> main(int p) { wait(delay(5)); return Void(); }";

// How `main` ends, with so many turns.
fn starts(alloc: Global, classes: &Code, turns: u32, host: &mut Lines) -> Result<Burst, RunFault> {
    let mut machine = Machine::new(alloc, ProcId(0), 1)?;
    machine.start_main(classes, 0, turns, host)
}

fn starts_alone(alloc: Global, classes: &Code, turns: u32) -> Result<Burst, RunFault> {
    let mut host = new_host(alloc);
    starts(alloc, classes, turns, &mut host)
}

// Whether `main` of a program that returns at once comes to its end with three turns, and not with two.
fn needs_three(alloc: Global, classes: &Code) -> Result<bool, RunFault> {
    Ok(
        starts_alone(alloc, classes, 3)? == Burst::Rested
            && starts_alone(alloc, classes, 2)? == Burst::Spent,
    )
}

fn needs_its_turns(alloc: Global) -> Result<bool, Fail> {
    let classes = code(alloc, RETURNING)?;
    Ok(needs_three(alloc, &classes) == Ok(true))
}

// A start, the end of an actor, and its result that is set: three turns.
#[test]
fn a_burst_needs_its_turns(rt: HostRuntime) -> Result<(), Fail> {
    assert!(rt; needs_its_turns(rt.alloc())?);
    Ok(())
}

fn holds_main(running: &mut Running) -> Result<bool, Fail> {
    Ok(
        running.host.lines.lines().len() == 2
            && running.machine.holds_main()
            && running.stop(1)? == Burst::Rested
            && !running.machine.holds_main(),
    )
}

fn holds_main_alone(alloc: Global) -> Result<bool, Fail> {
    let mut running = Running::start(alloc, RETURNING)?;
    holds_main(&mut running)
}

// The lines of a start and of an end; the result of `main` is held until a stop.
#[test]
fn main_is_held_until_a_stop(rt: HostRuntime) -> Result<(), Fail> {
    assert!(rt; holds_main_alone(rt.alloc())?);
    Ok(())
}

// Whether there is an actor, with one callback.
fn waits(running: &Running) -> Result<bool, Fail> {
    Ok(running.machine.live() == 1 && running.callbacks()? == 1)
}

fn waits_for_a_delay(running: &mut Running) -> Result<bool, Fail> {
    if !waits(running)? {
        return Ok(false);
    }
    let cell = running.host.timer.unwrap_or(CellId(0));
    running.deliver(cell, 5)?;
    Ok(running.machine.live() == 0)
}

fn waits_alone(alloc: Global) -> Result<bool, Fail> {
    let mut running = Running::start(alloc, DELAYING)?;
    waits_for_a_delay(&mut running)
}

// An actor waits with one callback, which takes its branch once the timer sets its cell.
#[test]
fn a_delay_ends_a_wait(rt: HostRuntime) -> Result<(), Fail> {
    assert!(rt; waits_alone(rt.alloc())?);
    Ok(())
}

fn vanishes(running: &mut Running) -> Result<bool, Fail> {
    running.machine.vanish();
    Ok(running.frames()? == 0 && !running.machine.holds_main())
}

fn vanishes_alone(alloc: Global) -> Result<bool, Fail> {
    let mut running = Running::start(alloc, DELAYING)?;
    vanishes(&mut running)
}

// A loss of power leaves neither an actor nor a held result.
#[test]
fn a_loss_of_power_leaves_nothing(rt: HostRuntime) -> Result<(), Fail> {
    assert!(rt; vanishes_alone(rt.alloc())?);
    Ok(())
}
