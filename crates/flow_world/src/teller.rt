// Lines that are told to the end.

ghost use Rattle.std.specs.Prelude.{◌≡◌, ◌≤◌, Some};
ghost use Rattle.std.specs.Borrow.{GName};
ghost use Rattle.std.proofs.Props.{props};
ghost use Rattle.flow_base.specs.Faults.{Rose};
ghost use Rattle.flow_base.specs.declared.fault.OutFault.TheVariants.{Failed};
ghost use Rattle.flow_world.specs.FaultedLines.{tells, unless_failed};

use flow_base::fault::OutFault;
use flow_machine::host::RunFault;
use flow_trace::line::Line;
use flow_trace::out::LineOut;
use std::snapshot::Snapshot;

/// Lines of what goes on to its end though a put fails: each is put where none before it failed, the fault of one that does
/// is kept, and no more are put. Who made it takes it apart again, to go on with where the lines go.
pub struct Teller<'l, L: LineOut> {
    pub out: &'l mut L,
    pub fault: Option<OutFault>,
    pub before: Snapshot<L>,
    ghost risen: { L.faults before.value ≤ L.faults out.now },
    ghost cause: { fault ≡ Some Failed → Rose (L.faults before.value)
        (L.faults out.now) } by { Prim.hlevel props },
}

impl<'l, L: LineOut> LineOut for Teller<'l, L> {
    ghost puts = { λ old line answer new. tells L.puts
        (record { out = old.out.now; fault = old.fault }) line answer
        (record { out = new.out.now; fault = new.fault }) };

    ghost faults = { λ _. 0 };

    ghost Kept = { GName × L × L.Kept };

    ghost kept = { λ t. (t.out.ghost_name, t.before.value, L.kept t.out.now) };

    fn put(&mut self, line: &Line) -> Result<(), OutFault> {
        if self.fault.is_none() {
            self.fault = self.out.put(line).err();
        }
        Ok(())
    }

    fn faults(&self) -> u64 {
        0
    }
}

/// The answer, but the fault of the put that failed, if one did.
pub fn unless_failed<T>(answer: Result<T, RunFault>, fault: Option<OutFault>) -> Result<T, RunFault>
where
    T: Drop,
    ensures { result ≡ unless_failed answer fault }
{
    let value = answer?;
    match fault {
        None => Ok(value),
        Some(fault) => Err(RunFault::from(fault)),
    }
}
