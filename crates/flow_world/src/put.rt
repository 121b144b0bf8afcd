// Putting lines.

ghost use Rattle.std.specs.Prelude.{◌≡◌, Ok, [], ◌∷◌, map, IfErr, OnOk, OnErr, IsErrOf};
ghost use Rattle.flow_base.specs.Faults.{HasCause};
ghost use Rattle.flow_meaning.specs.World.{kept_line};
ghost use Rattle.flow_machine.specs.Cause.{RunCause};
ghost use Rattle.flow_machine.specs.declared.host.RunFault.TheVariants as run;
ghost use Rattle.flow_world.specs.Around.{Puts, PutsPart};
ghost use Rattle.flow_world.specs.BreakingEvents.{PutFails};

use flow_base::fault::OutFault;
use flow_machine::host::RunFault;
use flow_simdisk::Kept;
use flow_trace::line::Line;
use flow_trace::out::LineOut;
use std::alloc::Global;

/// Puts a line. `Failed` comes only where the count of faults rose. It takes the line, so that the drop of one isn't written
/// out, kind by kind, at each way out of who makes it.
pub fn put<L: LineOut>(out: &mut L, line: Line) -> Result<(), RunFault>
    ensures puts { OnOk result (L.puts out.old line (Ok tt) out.new) }
    ensures never { ¬ IsErrOf result run.Stuck }
    ensures fails { IfErr result (λ f. PutFails L.puts line out.old f out.new) }
    ensures cause { RunCause (L.faults out.old) (L.faults out.new) result }
    ensures kept { L.kept out.new ≡ L.kept out.old }
{
    match out.put(&line) {
        Ok(()) => Ok(()),
        Err(fault) => Err(RunFault::from(fault)),
    }
}

/// Puts a line as `put` does, and answers the fault as it comes.
pub fn tell<L: LineOut>(out: &mut L, line: Line) -> Result<(), OutFault>
    ensures puts { L.puts out.old line result out.new }
    ensures cause { HasCause (L.faults out.old) (L.faults out.new) result }
    ensures kept { L.kept out.new ≡ L.kept out.old }
{
    out.put(&line)
}

#[tactic(auto, using(flow_machine::proofs::Causes::cause_before))]
/// Puts a line for each write of which a disk kept something or nothing.
pub fn put_kept<L: LineOut>(alloc: Global, fates: &[Kept], out: &mut L) -> Result<(), RunFault>
    ensures never { ¬ IsErrOf result run.Stuck }
    ensures puts { OnOk result (Puts L.puts out.old (map kept_line fates.now) out.new) }
    ensures part { OnErr result (PutsPart L.puts out.old (map kept_line fates.now) out.new) }
    ensures cause { RunCause (L.faults out.old) (L.faults out.new) result }
    ensures kept { L.kept out.new ≡ L.kept out.old }
{
    for kept in fates {
        put_one(alloc, kept, out)?;
    }
    Ok(())
}

// Puts the line of a write.
fn put_one<L: LineOut>(alloc: Global, kept: &Kept, out: &mut L) -> Result<(), RunFault>
    ensures puts { OnOk result (L.puts out.old (kept_line kept.now) (Ok tt) out.new) }
    ensures part { OnErr result (PutsPart L.puts out.old (kept_line kept.now ∷ []) out.new) }
    ensures never { ¬ IsErrOf result run.Stuck }
    ensures cause { RunCause (L.faults out.old) (L.faults out.new) result }
    ensures kept { L.kept out.new ≡ L.kept out.old }
{
    let name = kept.name.copy(alloc)?;
    put(out, Line::Kept(name, kept.offset, kept.length, kept.kept))
}
