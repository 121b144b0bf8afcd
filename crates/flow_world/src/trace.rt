// The trace of classes in a world.

ghost use Rattle.std.specs.Prelude.{◌≡◌, ℕ, false, length, IfOk, IfErr, IsErrOf};
ghost use Rattle.std.specs.declared.option.Option.{Option};
ghost use Rattle.flow_base.specs.declared.fault.OutFault.{OutFault as Fault};
ghost use Rattle.flow_monitor.specs.Ears.{names};
ghost use Rattle.flow_machine.specs.Cause.{RunCause};
ghost use Rattle.flow_machine.specs.declared.host.RunFault.TheVariants.{Failed};
ghost use Rattle.flow_worldfile.specs.Worlds.{IsInRange, seen};
ghost use Rattle.flow_world.specs.FaultedLines.{telling, whole};
ghost use Rattle.flow_class.specs.declared.class.RawClasses.{RawClasses};
ghost use Rattle.flow_worldfile.specs.declared.world.World0.{World0 as File};
ghost use Rattle.flow_world.specs.Starting.{Starts};
ghost use Rattle.flow_world.specs.Worlds.{world_seen};
ghost use Rattle.flow_world.specs.Ends.{PutLast};
ghost use Rattle.flow_world.specs.BreakingTraces.{EventsFail, RestFails, TraceFails};
ghost use Rattle.flow_world.specs.Watching.{hearing, watching};
ghost use Rattle.flow_world.specs.WatchedTraces.{IsEnding, last_line, HeardToEnd, HeardInPart, HeardRest, HeardRestPart};
ghost use Rattle.flow_world.specs.WatchedTraces.{HeardTrace, HeardTracePart};

use crate::ending::Ending;
use crate::frames::put_frames_if;
use crate::put::put;
use crate::run_ending::RunEnding;
use crate::{Event, World};
use flow_machine::host::RunFault;
use flow_monitor::Audience;
use flow_trace::line::Line;
use flow_trace::out::LineOut;
use flow_valid::program::ClassProgram;
use flow_worldfile::World0;
use std::alloc::Global;

#[tactic(auto, using(flow_machine::proofs::Causes::cause_before))]
/// Runs classes in a world and puts the lines of the trace, from the first to the last, with the frames after each event
/// that was not spent where they are asked for; or those up to the line that failed; or, where there is no memory, a first part of
/// them. The panel hears the lines of events, and where one of it says Stop in an event that isn't spent, the trace ends after that
/// event and its frames.
pub fn put_trace<P: Audience, L: LineOut>(
    alloc: Global,
    classes: ClassProgram,
    world: World0,
    with_frames: bool,
    panel: &mut P,
    out: &mut L,
) -> Result<RunEnding, RunFault>
    requires { IsInRange (seen world) }
    ensures cause { RunCause (L.faults out.old) (L.faults out.new) result }
    ensures kept { L.kept out.new ≡ L.kept out.old }
    ensures names { names (P.ears panel.new) ≡ names (P.ears panel.old) }
    ensures place { IfOk result (λ ending. IsEnding ending (length (P.ears panel.new))) }
    ensures traces { IfOk result (λ ending. (stop : Option ℕ) × HeardTrace L.puts with_frames
        classes world (watching out.old (P.ears panel.old)) ending
        (whole (hearing out.new (P.ears panel.new) stop))) }
    ensures part { IsErrOf result Failed → (stop : Option ℕ) × HeardTracePart L.puts with_frames
        classes world (watching out.old (P.ears panel.old))
        (hearing out.new (P.ears panel.new) stop) }
    ensures fails { IfErr result (λ f. (stop : Option ℕ) × (fault : Option Fault)
        × TraceFails L.puts with_frames classes world (watching out.old (P.ears panel.old)) f
        (telling (hearing out.new (P.ears panel.new) stop) fault)) }
    ensures last { IfOk result (λ ending. PutLast L.puts (last_line (P.ears panel.old) ending) out.new) }
{
    // What owns a world has few ways out, since all of the world is dropped at each.
    let mut world = World::start(alloc, classes, world)?;
    put_lines(alloc, &mut world, with_frames, panel, out)
}

#[tactic(auto, using(flow_machine::proofs::Causes::cause_before))]
/// Puts the lines of the trace of a world before its first event, from the first to the last; or those up to the line that
/// failed.
fn put_lines<P: Audience, L: LineOut>(
    alloc: Global,
    world: &mut World,
    with_frames: bool,
    panel: &mut P,
    out: &mut L,
) -> Result<RunEnding, RunFault>
    requires { world.old.ended ≡ false }
    ensures cause { RunCause (L.faults out.old) (L.faults out.new) result }
    ensures kept { L.kept out.new ≡ L.kept out.old }
    ensures names { names (P.ears panel.new) ≡ names (P.ears panel.old) }
    ensures place { IfOk result (λ ending. IsEnding ending (length (P.ears panel.new))) }
    ensures traces { IfOk result (λ ending. (classes : RawClasses) (file : File)
        → Starts classes file (world_seen world.old) → (stop : Option ℕ) × HeardTrace L.puts
        with_frames classes file (watching out.old (P.ears panel.old)) ending
        (whole (hearing out.new (P.ears panel.new) stop))) }
    ensures part { IsErrOf result Failed → (classes : RawClasses) (file : File)
        → Starts classes file (world_seen world.old) → (stop : Option ℕ) × HeardTracePart L.puts
        with_frames classes file (watching out.old (P.ears panel.old))
        (hearing out.new (P.ears panel.new) stop) }
    ensures fails { IfErr result (λ f. (classes : RawClasses) (file : File)
        → Starts classes file (world_seen world.old) → (stop : Option ℕ) × (fault : Option Fault)
        × TraceFails L.puts with_frames classes file (watching out.old (P.ears panel.old)) f
        (telling (hearing out.new (P.ears panel.new) stop) fault)) }
    ensures last { IfOk result (λ ending. PutLast L.puts (last_line (P.ears panel.old) ending) out.new) }
{
    put(out, Line::Head)?;
    put_rest(alloc, world, with_frames, panel, out)
}

#[tactic(auto, using(flow_machine::proofs::Causes::cause_before))]
/// Runs a world from where it is to its end and puts the lines of it, with the frames after each event that was not spent where they
/// are asked for, and the last line; or those up to the line that failed; or, where there is no memory, a first part of them. The
/// panel hears the lines of events, and where one of it says Stop in an event that isn't spent, that event and its frames are the
/// last.
pub fn put_rest<P: Audience, L: LineOut>(
    alloc: Global,
    world: &mut World,
    with_frames: bool,
    panel: &mut P,
    out: &mut L,
) -> Result<RunEnding, RunFault>
    requires { world.old.ended ≡ false }
    ensures cause { RunCause (L.faults out.old) (L.faults out.new) result }
    ensures kept { L.kept out.new ≡ L.kept out.old }
    ensures names { names (P.ears panel.new) ≡ names (P.ears panel.old) }
    ensures place { IfOk result (λ ending. IsEnding ending (length (P.ears panel.new))) }
    ensures rests { IfOk result (λ ending. (stop : Option ℕ) × HeardRest L.puts with_frames
        (world_seen world.old) (watching out.old (P.ears panel.old)) ending
        (whole (hearing out.new (P.ears panel.new) stop))) }
    ensures part { IsErrOf result Failed → (stop : Option ℕ) × HeardRestPart L.puts with_frames
        (world_seen world.old) (watching out.old (P.ears panel.old))
        (hearing out.new (P.ears panel.new) stop) }
    ensures fails { IfErr result (λ f. (stop : Option ℕ) × (fault : Option Fault)
        × RestFails L.puts with_frames (world_seen world.old) (watching out.old (P.ears panel.old)) f
        (telling (hearing out.new (P.ears panel.new) stop) fault)) }
    ensures last { IfOk result (λ ending. PutLast L.puts (last_line (P.ears panel.old) ending) out.new) }
{
    let ending = put_events(alloc, world, with_frames, panel, out)?;
    let line = ending.line(alloc, panel)?;
    put(out, line)?;
    Ok(ending)
}

#[tactic(auto, using(flow_machine::proofs::Causes::cause_before))]
/// Runs events up to the end of the run, or to one in which a monitor says Stop, or to one a line of which failed. `OutOfMemory`
/// comes where there is no memory, and after 2^64 - 1 events, since no more are counted; a world's bound is lower.
fn put_events<P: Audience, L: LineOut>(
    alloc: Global,
    world: &mut World,
    with_frames: bool,
    panel: &mut P,
    out: &mut L,
) -> Result<RunEnding, RunFault>
    requires { world.old.ended ≡ false }
    ensures goes { IfOk result (λ ending. (stop : Option ℕ) × HeardToEnd L.puts with_frames ending
        (world_seen world.old) (watching out.old (P.ears panel.old))
        (hearing out.new (P.ears panel.new) stop)) }
    ensures place { IfOk result (λ ending. IsEnding ending (length (P.ears panel.new))) }
    ensures part { IsErrOf result Failed → (stop : Option ℕ) × HeardInPart L.puts with_frames
        (world_seen world.old) (watching out.old (P.ears panel.old))
        (hearing out.new (P.ears panel.new) stop) }
    ensures fails { IfErr result (λ f. (stop : Option ℕ) × (fault : Option Fault)
        × EventsFail L.puts with_frames (world_seen world.old) (watching out.old (P.ears panel.old)) f
        (telling (hearing out.new (P.ears panel.new) stop) fault)) }
    ensures cause { RunCause (L.faults out.old) (L.faults out.new) result }
    ensures kept { L.kept out.new ≡ L.kept out.old }
    ensures names { names (P.ears panel.new) ≡ names (P.ears panel.old) }
{
    'events: for _ in 0..u64::MAX {
        match world.event(panel, out)? {
            Event::Ran => put_frames_if(with_frames, alloc, world, out)?,
            Event::Idle => return Ok(RunEnding::Own(Ending::Idle)),
            Event::BoundReached => return Ok(RunEnding::Own(Ending::Bound)),
            Event::Spent => return Ok(RunEnding::Own(Ending::Spent)),
            Event::Stopped(k) => {
                put_frames_if(with_frames, alloc, world, out)?;
                return Ok(RunEnding::Stopped(k));
            }
        }
    }
    Err(RunFault::OutOfMemory)
}
