// A state goes out.

ghost use Rattle.std.specs.Prelude.{slice_get, OnOk};
ghost use Rattle.std.specs.Io.KnownBytes.{Appends};
ghost use Rattle.flow_base.specs.Bytes.{AppendsPart, Grows};
ghost use Rattle.flow_base.specs.Faults.{HasCause};
ghost use Rattle.flow_world.specs.Views.{NumbersRiseAt};
ghost use Rattle.flow_world.specs.Worlds.{world_seen};
ghost use Rattle.flow_debug.specs.Waits.{waits_seen};
ghost use Rattle.flow_view_laws.specs.Skipped.{CanBeTold, world_view};
ghost use Rattle.flow_top.specs.Debugged.{process_text};

use flow_base::fault::OutFault;
use flow_base::ids::ProcId;
use flow_base::output::write_whole;
use flow_base::sink::Sink;
use flow_debug::print::print_head;
use flow_debug::waits::WaitPlaces;
use flow_debug::write::write_actors;
use flow_world::World;
use std::alloc::Global;

// Writes the lines of the unfinished actors of a process.
fn put_process<S: Sink>(
    alloc: Global,
    waits: &WaitPlaces,
    world: &World,
    process: ProcId,
    out: &mut S,
) -> Result<(), OutFault>
    ensures whole { OnOk result (NumbersRiseAt (slice_get world.now.places.items process.0)
        → Appends (S.seen out.old).written (S.seen out.new).written
        (process_text (waits_seen waits.now) (world_seen world.now) process.0)) }
    ensures part { NumbersRiseAt (slice_get world.now.places.items process.0)
        → AppendsPart (S.seen out.old).written (S.seen out.new).written
        (process_text (waits_seen waits.now) (world_seen world.now) process.0) }
    ensures handed { Grows (S.seen out.old).handed (S.seen out.new).handed }
    ensures cause { HasCause (S.seen out.old).faults (S.seen out.new).faults result }
{
    let Ok(frames) = world.frame_states(process) else {
        return Err(OutFault::OutOfMemory);
    };
    write_actors(
        alloc,
        waits,
        &world.classes().raw().classes,
        process,
        &frames,
        out,
    )
}

/// Writes the state of a world: how many events were run, and the lines of the unfinished actors of each process.
pub fn put_view<S: Sink>(
    alloc: Global,
    waits: &WaitPlaces,
    world: &World,
    out: &mut S,
) -> Result<(), OutFault>
    ensures whole { OnOk result (CanBeTold (world_seen world.now)
        → Appends (S.seen out.old).written (S.seen out.new).written
        (world_view (waits_seen waits.now) (world_seen world.now))) }
    ensures part { CanBeTold (world_seen world.now)
        → AppendsPart (S.seen out.old).written (S.seen out.new).written
        (world_view (waits_seen waits.now) (world_seen world.now)) }
    ensures handed { Grows (S.seen out.old).handed (S.seen out.new).handed }
    ensures cause { HasCause (S.seen out.old).faults (S.seen out.new).faults result }
{
    let (ran, time) = world.at();
    let Ok(head) = print_head(alloc, ran, time) else {
        return Err(OutFault::OutOfMemory);
    };
    write_whole(out, &head)?;
    for number in 0..world.processes() {
        put_process(alloc, waits, world, ProcId(number), out)?;
    }
    Ok(())
}
