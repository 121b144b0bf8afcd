// What an event does to its process.

ghost use Rattle.std.specs.Prelude.{◌≡◌, ◌<◌, IfOk, IfErr};
ghost use Rattle.flow_machine.specs.Cause.{RunCause};
ghost use Rattle.flow_steps.specs.Doing.{begun};
ghost use Rattle.flow_world.specs.Changes.{seen};
ghost use Rattle.flow_world.specs.Actions.{Does, holds_already, up_after};
ghost use Rattle.flow_world.specs.Happening.{Acts};
ghost use Rattle.flow_world.specs.BreakingEvents.{ActionBreaks, ActsBreaks};

use crate::around::Around;
use crate::outside::Outside;
use crate::place::Place;
use flow_base::ids::{CellId, ProcId};
use flow_code::program::Code;
use flow_machine::host::{Burst, Host, RunFault};
use flow_machine::machine::Machine;
use flow_trace::out::LineOut;
use flow_value::value::{Outcome, Value};

/// What an event does to its process, once its line is put: it boots; the hold on the result of its `main` is dropped; a cell
/// gets the answer to a request; or an element comes to the stream of a port.
#[derive(Drop)]
pub enum EventAction {
    Boots,
    Stops,
    Delivers(CellId, Outcome),
    Brings(CellId, Value),
}

/// A process does what follows of a deed, in the world around it.
fn does<H: Host>(
    deed: EventAction,
    machine: &mut Machine,
    code: &Code,
    now: u64,
    turns: u32,
    host: &mut H,
) -> Result<Burst, RunFault>
    requires { H.processes (H.kept host.old) ≡ machine.old.processes }
    ensures does { IfOk result (λ e. Does H.serves H.shows H.wrote code.now now turns
        deed machine.old host.old e machine.new host.new) }
    ensures breaks { IfErr result (λ f. ActionBreaks H.serves H.shows H.wrote H.broke
        code.now deed machine.old (begun now turns machine.old.process) host.old f host.new) }
    ensures cause { RunCause (H.faults host.old) (H.faults host.new) result }
    ensures kept { H.kept host.new ≡ H.kept host.old }
{
    match deed {
        EventAction::Boots => machine.start_main(code, now, turns, host),
        EventAction::Stops => machine.stop(code, now, turns, host),
        EventAction::Delivers(cell, outcome) => machine.deliver(
            code, cell, outcome, now, turns, host,
        ),
        EventAction::Brings(cell, item) => machine.arrive(code, cell, item, now, turns, host),
    }
}

/// Whether the deed is a boot of a process that holds its `main`, so that nothing follows.
pub fn holds_already(deed: &EventAction, machine: &Machine) -> bool
    ensures { result ≡ holds_already deed.now machine.now }
{
    match deed {
        EventAction::Boots => machine.holds_main(),
        _ => false,
    }
}

// Whether a process is up after a deed.
fn up_after(deed: &EventAction, up: bool) -> bool
    ensures { result ≡ up_after deed.now up }
{
    match deed {
        EventAction::Boots => true,
        _ => up,
    }
}

/// A process of a world does what follows of a deed.
pub fn acts<L: LineOut>(
    p: ProcId,
    deed: EventAction,
    place: &mut Place,
    outside: &mut Outside,
    code: &Code,
    turns: u32,
    out: &mut L,
) -> Result<Burst, RunFault>
    requires mine { p.0 < outside.old.net.processes }
    requires processes { place.old.machine.processes ≡ outside.old.net.processes }
    ensures acts { IfOk result (λ e. Acts L.puts code.now turns p deed
        place.old (seen outside.old) out.old e place.new (seen outside.new) out.new) }
    ensures breaks { IfErr result (λ f. ActsBreaks L.puts
        code.now turns p deed place.old (seen outside.old) out.old f out.new) }
    ensures cause { RunCause (L.faults out.old) (L.faults out.new) result }
    ensures kept { L.kept out.new ≡ L.kept out.old }
{
    place.up = up_after(&deed, place.up);
    let now = outside.time;
    let mut around = Around {
        me: p,
        ports: &mut place.ports,
        outside,
        out,
    };
    let burst = does(deed, &mut place.machine, code, now, turns, &mut around);
    let Around {
        me: _,
        ports,
        outside,
        out,
    } = around;
    // No effect at run time. The proof reads what these are from this use of them.
    let _ = &*ports;
    let _ = &*outside;
    let _ = &*out;
    burst
}
