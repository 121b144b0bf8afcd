// Traces that go out as they are made.

ghost use Rattle.std.specs.Prelude.{◌≡◌, ℕ, length, IfOk, IfErr, IsErrOf};
ghost use Rattle.std.specs.declared.option.Option.{Option};
ghost use Rattle.flow_base.specs.declared.fault.OutFault.{OutFault as Fault};
ghost use Rattle.flow_base.specs.Bytes.{Grows};
ghost use Rattle.flow_trace.specs.Bytes.{Bytes};
ghost use Rattle.flow_trace.specs.Out.{GrowsTo};
ghost use Rattle.flow_monitor.specs.Ears.{names};
ghost use Rattle.flow_machine.specs.Cause.{RunCause};
ghost use Rattle.flow_machine.specs.declared.host.RunFault.TheVariants.{Failed};
ghost use Rattle.flow_worldfile.specs.Worlds.{IsInRange, seen};
ghost use Rattle.flow_world.specs.FaultedLines.{telling, whole};
ghost use Rattle.flow_world.specs.BreakingTraces.{TraceFails};
ghost use Rattle.flow_world.specs.Watching.{hearing, watching};
ghost use Rattle.flow_world.specs.WatchedTraces.{IsEnding, last_line, HeardTrace, HeardTracePart};
ghost use Rattle.flow_world.specs.Written.{put_bytes};

use crate::run_ending::RunEnding;
use crate::trace::put_trace;
use flow_base::sink::Sink;
use flow_machine::host::RunFault;
use flow_monitor::Audience;
use flow_trace::buffer::LineBuf;
use flow_trace::sink_out::SinkOut;
use flow_valid::program::ClassProgram;
use flow_worldfile::World0;
use std::alloc::Global;
use std::snapshot::Snapshot;

/// Runs classes in a world and writes the lines of the trace, each as it is made, with the frames after each event that was
/// not spent where they are asked for: where the run comes to its end, what was written is the bytes of these lines, from the
/// first to the last; where the sink failed, of the lines up to one in an event, in the frames after it or at the end, of which a
/// first part may be written. The panel hears the lines of events; where one of it says Stop in an event that isn't spent, the
/// trace ends after that event and its frames. Where there is no memory, a first part of the bytes of these lines was written. What
/// was written before stays as it is, and what was handed on. `Failed` comes only where the sink's count of faults rose.
pub fn write_trace<P: Audience, S: Sink>(
    alloc: Global,
    classes: ClassProgram,
    world: World0,
    with_frames: bool,
    panel: &mut P,
    out: &mut S,
) -> Result<RunEnding, RunFault>
    requires { IsInRange (seen world) }
    ensures cause { RunCause (S.seen out.old).faults (S.seen out.new).faults result }
    ensures grows { Grows (S.seen out.old).written (S.seen out.new).written }
    ensures handed { Grows (S.seen out.old).handed (S.seen out.new).handed }
    ensures names { names (P.ears panel.new) ≡ names (P.ears panel.old) }
    ensures place { IfOk result (λ ending. IsEnding ending (length (P.ears panel.new))) }
    ensures traces { IfOk result (λ ending. (stop : Option ℕ) × HeardTrace put_bytes with_frames
        classes world (watching (S.seen out.old).written (P.ears panel.old)) ending
        (whole (hearing (S.seen out.new).written (P.ears panel.new) stop))) }
    ensures part { IsErrOf result Failed → (stop : Option ℕ) × HeardTracePart put_bytes with_frames
        classes world (watching (S.seen out.old).written (P.ears panel.old))
        (hearing (S.seen out.new).written (P.ears panel.new) stop) }
    ensures fails { IfErr result (λ f. (stop : Option ℕ) × (fault : Option Fault)
        × TraceFails put_bytes with_frames classes world
        (watching (S.seen out.old).written (P.ears panel.old)) f
        (telling (hearing (S.seen out.new).written (P.ears panel.new) stop) fault)) }
    ensures last { IfOk result (λ ending. GrowsTo (S.seen out.old).written (S.seen out.new).written
        (Bytes (last_line (P.ears panel.old) ending))) }
{
    let buffer = LineBuf::new(alloc)?;
    let before = Snapshot::of(&*out);
    let mut lines = SinkOut {
        out,
        buffer,
        before,
    };
    let ending = put_trace(alloc, classes, world, with_frames, panel, &mut lines);
    let SinkOut {
        out,
        buffer: _,
        before: _,
    } = lines;
    // No effect at run time. The proof reads what the sink is from this use of `out`.
    let _ = &*out;
    ending
}
