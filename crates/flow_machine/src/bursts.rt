// Bursts: steps, and what each asks of the world around the process.

ghost use Rattle.std.specs.Prelude.{◌≡◌, ◌+◌, ◌^◌, ◌-ℤ◌, nat_le, None, Some, IfOk, OnOk, IfErr, OnErr, IsErrOf};
ghost use Rattle.flow_eval.specs.Predefined.{natural};
ghost use Rattle.flow_meaning.specs.Effects.{between, is_port, judged};
ghost use Rattle.flow_steps.specs.Doing.{unasked};
ghost use Rattle.flow_machine.specs.Bursts.{Bursts};
ghost use Rattle.flow_machine.specs.Breaking.{IsOperand, ServingStuck, Unwritten, DrawBroke, SendBroke};
ghost use Rattle.flow_machine.specs.Breaking.{ServingBroke, ServingBrokeIf, BreaksOff};
ghost use Rattle.flow_machine.specs.Cause.{RunCause};
ghost use Rattle.flow_machine.specs.declared.host.RunFault.TheVariants.{Stuck};
ghost use Rattle.flow_machine.specs.Requests.{asked_of};
ghost use Rattle.flow_machine.specs.Serving.{DrawServed, DelayServed, ListenServed, DiskServed};
ghost use Rattle.flow_machine.specs.Serving.{SendServed, may_send, Served, ServedIf};

use crate::host::{Burst, Host, RunFault};
use crate::judged::{judged, port_of, process, time_after, width};
use flow_base::errors::{BAD_ARGUMENT, OUT_OF_RANGE, PORT_IN_USE};
use flow_base::ids::{ActorId, CellId};
use flow_base::text::Text;
use flow_code::program::Code;
use flow_steps::call::{Call, DiskCall, Goal};
use flow_steps::process::{Next, Process};
use flow_value::value::Value;

fn draw<H: Host>(
    process: &mut Process,
    actor: ActorId,
    goal: Goal,
    lo: i64,
    hi: i64,
    host: &mut H,
) -> Result<(), RunFault>
    ensures served { let width = natural (hi -ℤ lo) in
        OnOk result (DrawServed H.serves H.shows H.wrote (between (hi -ℤ lo) 1 (2 ^ 32))
        actor goal lo width process.old host.old process.new host.new) }
    ensures cause { RunCause (H.faults host.old) (H.faults host.new) result }
    ensures kept { H.kept host.new ≡ H.kept host.old }
    ensures broke { let width = natural (hi -ℤ lo) in
        OnErr result (DrawBroke H.serves H.shows H.wrote H.broke width host.old host.new) }
    ensures stuck { IsErrOf result Stuck → IsOperand goal }
{
    match width(lo, hi) {
        Some(width) => {
            let number = host.random(lo, width)?;
            process.gives(actor, goal, Value::Int(number))?;
        }
        None => process.throw(actor, BAD_ARGUMENT)?,
    }
    Ok(())
}

fn delay<H: Host>(
    process: &mut Process,
    actor: ActorId,
    goal: Goal,
    ticks: i64,
    host: &mut H,
) -> Result<(), RunFault>
    ensures served { let time = process.old.time + natural ticks in
        OnOk result (DelayServed H.serves H.shows H.wrote (nat_le time (2 ^ 62))
        actor goal time process.old host.old process.new host.new) }
    ensures cause { RunCause (H.faults host.old) (H.faults host.new) result }
    ensures kept { H.kept host.new ≡ H.kept host.old }
    ensures broke { OnErr result
        (Unwritten H.serves H.shows H.wrote H.broke host.old host.new) }
    ensures stuck { IsErrOf result Stuck → ⊥ }
{
    match time_after(process.now(), ticks) {
        Some(at) => {
            let cell = process.gives_open(actor, goal)?;
            host.timer(cell, at)?;
        }
        None => process.throw(actor, OUT_OF_RANGE)?,
    }
    Ok(())
}

// A port that nobody listens to gets a stream.
fn listen<H: Host>(
    process: &mut Process,
    actor: ActorId,
    goal: Goal,
    port: i64,
    host: &mut H,
) -> Result<(), RunFault>
    ensures served { OnOk result (ListenServed H.serves H.shows H.wrote (is_port port)
        actor goal (natural port) process.old host.old process.new host.new) }
    ensures cause { RunCause (H.faults host.old) (H.faults host.new) result }
    ensures kept { H.kept host.new ≡ H.kept host.old }
    ensures broke { OnErr result
        (Unwritten H.serves H.shows H.wrote H.broke host.old host.new) }
    ensures stuck { IsErrOf result Stuck → ⊥ }
{
    let Some(port) = port_of(port) else {
        process.throw(actor, BAD_ARGUMENT)?;
        return Ok(());
    };
    if host.listening(port) {
        process.throw(actor, PORT_IN_USE)?;
        return Ok(());
    }
    let cell = process.gives_port(actor, goal)?;
    host.listen(port, cell)?;
    Ok(())
}

fn ask_disk<H: Host>(
    process: &mut Process,
    actor: ActorId,
    goal: Goal,
    call: DiskCall,
    host: &mut H,
) -> Result<(), RunFault>
    ensures served { OnOk result (DiskServed H.serves H.shows H.wrote (judged (asked_of call))
        actor goal process.old host.old process.new host.new) }
    ensures cause { RunCause (H.faults host.old) (H.faults host.new) result }
    ensures kept { H.kept host.new ≡ H.kept host.old }
    ensures broke { OnErr result
        (Unwritten H.serves H.shows H.wrote H.broke host.old host.new) }
    ensures stuck { IsErrOf result Stuck → ⊥ }
{
    match judged(call) {
        Some(ask) => {
            let cell = process.gives_open(actor, goal)?;
            host.disk(cell, ask)?;
        }
        None => process.throw(actor, BAD_ARGUMENT)?,
    }
    Ok(())
}

fn send_to<H: Host>(
    from: &mut Process,
    processes: u8,
    actor: ActorId,
    to: (i64, i64),
    text: Text,
    host: &mut H,
) -> Result<(), RunFault>
    requires { H.processes (H.kept host.old) ≡ processes }
    ensures served { OnOk result (SendServed H.serves H.shows H.wrote (may_send processes to.0 to.1)
        actor (natural to.0) (natural to.1) text from.old host.old from.new host.new) }
    ensures cause { RunCause (H.faults host.old) (H.faults host.new) result }
    ensures kept { H.kept host.new ≡ H.kept host.old }
    ensures broke { OnErr result
        (SendBroke H.serves H.shows H.wrote H.broke (may_send processes to.0 to.1)
        (natural to.0) (natural to.1) text host.old host.new) }
    ensures stuck { IsErrOf result Stuck → ⊥ }
{
    let (number, port) = to;
    let (Some(to), Some(port)) = (process(processes, number), port_of(port)) else {
        from.throw(actor, BAD_ARGUMENT)?;
        return Ok(());
    };
    from.run_on(actor)?;
    host.packet(to, port, text)?;
    Ok(())
}

// Asks the world for something other than a line.
fn ask_other<H: Host>(
    process: &mut Process,
    processes: u8,
    call: Call,
    host: &mut H,
) -> Result<(), RunFault>
    requires { H.processes (H.kept host.old) ≡ processes }
    ensures served { OnOk result (Served H.serves H.shows H.wrote processes call
        process.old host.old process.new host.new) }
    ensures cause { RunCause (H.faults host.old) (H.faults host.new) result }
    ensures kept { H.kept host.new ≡ H.kept host.old }
    ensures broke { OnErr result
        (ServingBroke H.serves H.shows H.wrote H.broke processes call host.old host.new) }
    ensures stuck { IsErrOf result Stuck → ServingStuck (Some call) }
{
    match call {
        Call::Line(line) => {
            host.line(&line)?;
            Ok(())
        }
        Call::Draw(actor, goal, lo, hi) => draw(process, actor, goal, lo, hi, host),
        Call::Delay(actor, goal, ticks) => delay(process, actor, goal, ticks, host),
        Call::Listen(actor, goal, port) => listen(process, actor, goal, port, host),
        Call::Disk(actor, goal, call) => ask_disk(process, actor, goal, call, host),
        Call::SendTo(actor, number, port, text) => {
            send_to(process, processes, actor, (number, port), text, host)
        }
        Call::Unlisten(cell) => {
            host.unlisten(cell);
            Ok(())
        }
    }
}

/// Asks the world what the last step of a process, of so many, asks of it, if anything.
pub(crate) fn ask<H: Host>(
    process: &mut Process,
    processes: u8,
    host: &mut H,
) -> Result<(), RunFault>
    requires { H.processes (H.kept host.old) ≡ processes }
    ensures served { OnOk result (ServedIf H.serves H.shows H.wrote processes process.old.asked
        (unasked process.old) host.old process.new host.new) }
    ensures cause { RunCause (H.faults host.old) (H.faults host.new) result }
    ensures kept { H.kept host.new ≡ H.kept host.old }
    ensures broke { OnErr result
        (ServingBrokeIf H.serves H.shows H.wrote H.broke processes process.old.asked
        host.old host.new) }
    ensures stuck { IsErrOf result Stuck → ServingStuck process.old.asked }
{
    match process.take_asked() {
        Some(call) => ask_other(process, processes, call, host),
        None => Ok(()),
    }
}

#[tactic(auto, using(crate::proofs::Causes::cause_before, crate::proofs::Rows::burst_rests, crate::proofs::Rows::burst_spent, crate::proofs::Rows::burst_asks, crate::proofs::Rows::further_asks, crate::proofs::Rows::tasks_break, crate::proofs::Rows::asks_break, crate::proofs::Rows::numbers_end))]
/// Steps of a process, of so many, until no task is left, or a turn is needed and none is left. `OutOfMemory` comes where there
/// is no memory, and where steps ask for something more than 2^64 - 1 times.
pub(crate) fn burst<H: Host>(
    process: &mut Process,
    processes: u8,
    code: &Code,
    host: &mut H,
) -> Result<Burst, RunFault>
    requires { H.processes (H.kept host.old) ≡ processes }
    ensures bursts { IfOk result (λ e. Bursts H.serves H.shows H.wrote code.now processes
        process.old host.old e process.new host.new) }
    ensures cause { RunCause (H.faults host.old) (H.faults host.new) result }
    ensures kept { H.kept host.new ≡ H.kept host.old }
    ensures breaks { IfErr result (λ f. BreaksOff H.serves H.shows H.wrote H.broke
        code.now processes process.old host.old f host.new) }
{
    for _step in 0..u64::MAX {
        match process.run_tasks(code)? {
            Next::Rested => return Ok(Burst::Rested),
            Next::Spent => return Ok(Burst::Spent),
            Next::Asks => ask(process, processes, host)?,
        }
    }
    Err(RunFault::OutOfMemory)
}
