// The lines of frames.

ghost use Rattle.std.specs.Prelude.{◌≡◌, ◌≤◌, true, drop, length, map, slice_get, None, IfOk, IfErr, OnOk, OnErr, IsErrOf};
ghost use Rattle.flow_machine.specs.Cause.{RunCause};
ghost use Rattle.flow_machine.specs.declared.host.RunFault.TheVariants.{Failed, Stuck};
ghost use Rattle.flow_world.specs.Around.{Puts, PutsPart};
ghost use Rattle.flow_world.specs.FaultedLines.{Telling, tells, whole, failed};
ghost use Rattle.flow_world.specs.Worlds.{world_seen};
ghost use Rattle.flow_world.specs.Tracing.{name_of, own_count, callback_line, frames_lines, own_lines};
ghost use Rattle.flow_world.specs.Tracing.{process_lines, world_lines, lines_if};
ghost use Rattle.flow_world.specs.BreakingTraces.{SomeNoClass, ProcessFramesStuck, FramesStuck, FramesFail};

use crate::World;
use crate::put::put;
use crate::teller::{Teller, unless_failed};
use flow_base::ids::{ActorId, ProcId};
use flow_base::name::Name;
use flow_machine::host::RunFault;
use flow_machine::views::{CallbackView, FrameView};
use flow_trace::line::Line;
use flow_trace::out::LineOut;
use std::alloc::Global;
use std::snapshot::Snapshot;

/// Puts the frames of the unfinished actors where they are asked for: all of them, or up to the line that failed.
pub fn put_frames_if<L: LineOut>(
    with_frames: bool,
    alloc: Global,
    world: &World,
    out: &mut L,
) -> Result<(), RunFault>
    ensures puts { OnOk result (Puts (tells L.puts)
        (whole out.old) (lines_if with_frames (world_seen world.now)) (whole out.new)) }
    ensures part { IsErrOf result Failed → Puts (tells L.puts)
        (whole out.old) (lines_if with_frames (world_seen world.now)) (failed out.new) }
    ensures fails { IfErr result (λ f. (t : Telling L) × (t.out ≡ out.new)
        × FramesFail L.puts with_frames (world_seen world.now) (whole out.old) f t) }
    ensures cause { RunCause (L.faults out.old) (L.faults out.new) result }
    ensures kept { L.kept out.new ≡ L.kept out.old }
{
    if with_frames {
        tell_frames(alloc, world, out)
    } else {
        Ok(())
    }
}

/// Puts the frames of the unfinished actors: all of them, or up to the line that failed.
fn tell_frames<L: LineOut>(alloc: Global, world: &World, out: &mut L) -> Result<(), RunFault>
    ensures puts { OnOk result (Puts (tells L.puts)
        (whole out.old) (world_lines (world_seen world.now)) (whole out.new)) }
    ensures part { IsErrOf result Failed → Puts (tells L.puts)
        (whole out.old) (world_lines (world_seen world.now)) (failed out.new) }
    ensures fails { IfErr result (λ f. (t : Telling L) × (t.out ≡ out.new)
        × FramesFail L.puts true (world_seen world.now) (whole out.old) f t) }
    ensures cause { RunCause (L.faults out.old) (L.faults out.new) result }
    ensures kept { L.kept out.new ≡ L.kept out.old }
{
    let before = Snapshot::of(&*out);
    let mut teller = Teller {
        out,
        fault: None,
        before,
    };
    let done = put_frames(alloc, world, &mut teller);
    let Teller {
        out,
        fault,
        before: _,
    } = teller;
    // No effect at run time. The proof reads what `out` is from this use of it.
    let _ = &*out;
    unless_failed(done, fault)
}

#[tactic(auto, using(flow_machine::proofs::Causes::cause_before))]
/// Puts the frames of the unfinished actors, by process and actor, each with its callbacks by number.
fn put_frames<L: LineOut>(alloc: Global, world: &World, out: &mut L) -> Result<(), RunFault>
    ensures puts { OnOk result (Puts L.puts out.old (world_lines (world_seen world.now)) out.new) }
    ensures part { OnErr result (PutsPart L.puts out.old
        (world_lines (world_seen world.now)) out.new) }
    ensures stuck { IsErrOf result Stuck → FramesStuck (world_seen world.now) }
    ensures cause { RunCause (L.faults out.old) (L.faults out.new) result }
    ensures kept { L.kept out.new ≡ L.kept out.old }
{
    for number in 0..world.processes() {
        let p = ProcId(number);
        put_process(alloc, world, p, out)?;
    }
    Ok(())
}

#[tactic(auto, using(flow_machine::proofs::Causes::cause_before))]
/// Puts the frames of a process, each with its callbacks.
fn put_process<L: LineOut>(
    alloc: Global,
    world: &World,
    p: ProcId,
    out: &mut L,
) -> Result<(), RunFault>
    ensures puts { OnOk result (Puts L.puts out.old (process_lines
        (world_seen world.now) p) out.new) }
    ensures part { OnErr result (PutsPart L.puts out.old (process_lines
        (world_seen world.now) p) out.new) }
    ensures stuck { IsErrOf result Stuck → ProcessFramesStuck (world_seen world.now) p }
    ensures cause { RunCause (L.faults out.old) (L.faults out.new) result }
    ensures kept { L.kept out.new ≡ L.kept out.old }
{
    let frames = world.frames(p)?;
    let callbacks = world.callbacks(p)?;
    put_each(alloc, world, p, &frames, &callbacks, out)
}

#[tactic(auto, using(flow_machine::proofs::Causes::cause_before))]
/// Puts frames of a process, each with its own of these callbacks, which stand in the order of their actors.
fn put_each<L: LineOut>(
    alloc: Global,
    world: &World,
    p: ProcId,
    frames: &[FrameView],
    callbacks: &[CallbackView],
    out: &mut L,
) -> Result<(), RunFault>
    ensures puts { let classes = world.now.code.program.classes.items in OnOk result
        (Puts L.puts out.old (frames_lines classes p frames.now callbacks.now) out.new) }
    ensures part { let classes = world.now.code.program.classes.items in OnErr result
        (PutsPart L.puts out.old (frames_lines classes p frames.now callbacks.now) out.new) }
    ensures stuck { let classes = world.now.code.program.classes.items in
        IsErrOf result Stuck → SomeNoClass classes frames.now }
    ensures cause { RunCause (L.faults out.old) (L.faults out.new) result }
    ensures kept { L.kept out.new ≡ L.kept out.old }
{
    let mut rest = callbacks;
    for frame in frames {
        rest = put_frame(alloc, world, p, frame, rest, out)?;
    }
    Ok(())
}

#[tactic(auto, using(flow_machine::proofs::Causes::cause_before, crate::proofs::Framing::line_before))]
/// Puts a frame of a process with its own of these callbacks, which are the first ones, and gives the others.
fn put_frame<'c, L: LineOut>(
    alloc: Global,
    world: &World,
    p: ProcId,
    frame: &FrameView,
    callbacks: &'c [CallbackView],
    out: &mut L,
) -> Result<&'c [CallbackView], RunFault>
    ensures puts { let classes = world.now.code.program.classes.items in OnOk result
        (Puts L.puts out.old (own_lines classes p frame.now callbacks.now) out.new) }
    ensures part { let classes = world.now.code.program.classes.items in OnErr result
        (PutsPart L.puts out.old (own_lines classes p frame.now callbacks.now) out.new) }
    ensures others { IfOk result (λ others.
        others.now ≡ drop (own_count frame.now.actor callbacks.now) callbacks.now) }
    ensures stuck { let classes = world.now.code.program.classes.items in
        IsErrOf result Stuck → slice_get classes frame.now.class ≡ None }
    ensures cause { RunCause (L.faults out.old) (L.faults out.new) result }
    ensures kept { L.kept out.new ≡ L.kept out.old }
{
    let name = class_name(alloc, world, frame)?;
    put(out, Line::Frame(p, frame.actor, name, frame.state))?;
    let own = own_part(callbacks, frame.actor);
    put_callbacks(p, &callbacks[..own], out)?;
    Ok(&callbacks[own..])
}

/// The name of the class of a frame.
fn class_name(alloc: Global, world: &World, frame: &FrameView) -> Result<Name, RunFault>
    ensures stuck { let classes = world.now.code.program.classes.items in
        IsErrOf result Stuck → slice_get classes frame.now.class ≡ None }
    ensures cause { ¬ IsErrOf result Failed }
    ensures name { IfOk result (λ name. let classes = world.now.code.program.classes.items in
        name ≡ name_of (slice_get classes frame.now.class)) }
{
    let Some(class) = world.classes().raw().classes.get(frame.class as usize) else {
        return Err(RunFault::Stuck);
    };
    Ok(class.name.copy(alloc)?)
}

/// How many of the first callbacks are those of an actor.
fn own_part(callbacks: &[CallbackView], actor: ActorId) -> usize
    ensures own { result ≡ own_count actor callbacks.now }
    ensures bound { result ≤ length callbacks.now }
{
    for (place, callback) in callbacks.iter().enumerate() {
        if callback.actor != actor {
            return place;
        }
    }
    callbacks.len()
}

#[tactic(auto, using(flow_machine::proofs::Causes::cause_before))]
/// Puts callbacks.
fn put_callbacks<L: LineOut>(
    p: ProcId,
    callbacks: &[CallbackView],
    out: &mut L,
) -> Result<(), RunFault>
    ensures puts { OnOk result
        (Puts L.puts out.old (map (callback_line p) callbacks.now) out.new) }
    ensures part { OnErr result
        (PutsPart L.puts out.old (map (callback_line p) callbacks.now) out.new) }
    ensures never { ¬ IsErrOf result Stuck }
    ensures cause { RunCause (L.faults out.old) (L.faults out.new) result }
    ensures kept { L.kept out.new ≡ L.kept out.old }
{
    for view in callbacks {
        put(out, Line::Callback(p, view.actor, view.callback, view.cell))?;
    }
    Ok(())
}
