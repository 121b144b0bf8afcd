// Views go out.

ghost use Rattle.std.specs.Prelude.{◌≡◌, map, OnOk};
ghost use Rattle.std.specs.List.{flat_map};
ghost use Rattle.std.specs.Io.KnownBytes.{Appends};
ghost use Rattle.flow_base.specs.Bytes.{AppendsPart, Grows};
ghost use Rattle.flow_base.specs.Faults.{HasCause};
ghost use Rattle.flow_class.specs.View.{class_of};
ghost use Rattle.flow_heapstate.specs.State.{actor_kept};
ghost use Rattle.flow_debug.specs.Waits.{waits_seen};
ghost use Rattle.flow_debug.specs.Told.{actors_told};
ghost use Rattle.flow_debug.specs.ViewText.{actor_lines};
ghost use Rattle.flow_debug.specs.Writing.{told_lines};

use crate::print::print_view;
use crate::view::actor_view;
use crate::waits::WaitPlaces;
use flow_base::fault::OutFault;
use flow_base::ids::ProcId;
use flow_base::sink::Sink;
use flow_class::class::Class;
use flow_heapstate::state::ActorState;
use flow_show::show::write_lines;
use std::alloc::Global;

// Writes the lines of what a frame tells of its actor, if it tells anything.
fn write_actor<S: Sink>(
    alloc: Global,
    waits: &WaitPlaces,
    classes: &[Class],
    process: ProcId,
    frame: &ActorState,
    out: &mut S,
) -> Result<(), OutFault>
    ensures whole { OnOk result (Appends (S.seen out.old).written (S.seen out.new).written
        (told_lines (waits_seen waits.now) (map class_of classes.now) process.0
        (actor_kept frame.now))) }
    ensures part { AppendsPart (S.seen out.old).written (S.seen out.new).written
        (told_lines (waits_seen waits.now) (map class_of classes.now) process.0
        (actor_kept frame.now)) }
    ensures handed { Grows (S.seen out.old).handed (S.seen out.new).handed }
    ensures cause { HasCause (S.seen out.old).faults (S.seen out.new).faults result }
{
    let view = match actor_view(alloc, waits, classes, process, frame) {
        Ok(Some(view)) => view,
        Ok(None) => return Ok(()),
        Err(_) => return Err(OutFault::OutOfMemory),
    };
    match print_view(alloc, &view) {
        Ok(text) => write_lines(out, &text),
        Err(_) => Err(OutFault::OutOfMemory),
    }
}

/// Writes what some frames of a process tell of their actors, in order, a line by a call, actor by actor.
pub fn write_actors<S: Sink>(
    alloc: Global,
    waits: &WaitPlaces,
    classes: &[Class],
    process: ProcId,
    frames: &[ActorState],
    out: &mut S,
) -> Result<(), OutFault>
    ensures whole { OnOk result (Appends (S.seen out.old).written (S.seen out.new).written
        (flat_map actor_lines (actors_told (waits_seen waits.now) (map class_of classes.now)
        process.0 (map actor_kept frames.now)))) }
    ensures part { AppendsPart (S.seen out.old).written (S.seen out.new).written
        (flat_map actor_lines (actors_told (waits_seen waits.now) (map class_of classes.now)
        process.0 (map actor_kept frames.now))) }
    ensures handed { Grows (S.seen out.old).handed (S.seen out.new).handed }
    ensures cause { HasCause (S.seen out.old).faults (S.seen out.new).faults result }
{
    for frame in frames {
        write_actor(alloc, waits, classes, process, frame, out)?;
    }
    Ok(())
}
