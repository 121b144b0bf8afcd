// A run of a world to its end, of which all lines are put.

ghost use Rattle.std.specs.Prelude.{◌≡◌, ℕ, false, length, IfOk};
ghost use Rattle.std.specs.declared.option.Option.{Option};
ghost use Rattle.flow_tree.specs.DeclView.{program_of};
ghost use Rattle.flow_tree.specs.declared.decl.Program.{Program};
ghost use Rattle.flow_compile_laws.specs.Frames.Framed.{SourceShown};
ghost use Rattle.flow_class.specs.declared.class.RawClasses.{RawClasses};
ghost use Rattle.flow_monitor.specs.Ears.{Ears, names};
ghost use Rattle.flow_worldfile.specs.Worlds.{IsInRange, seen};
ghost use Rattle.flow_worldfile.specs.declared.world.World0.{World0 as File};
ghost use Rattle.flow_world.specs.FaultedLines.{whole};
ghost use Rattle.flow_world.specs.Starting.{Starts};
ghost use Rattle.flow_world.specs.Watching.{hearing, watching};
ghost use Rattle.flow_world.specs.WatchedTraces.{HeardToEnd, HeardTrace, IsEnding, last_line};
ghost use Rattle.flow_world.specs.Worlds.{world_seen};
ghost use Rattle.flow_world.specs.declared.run_ending.RunEnding.{RunEnding as HowItEnds};
ghost use Rattle.flow_sweep.specs.Sweeps.{end_line};
ghost use Rattle.flow_trials.specs.Trying.{Drew, HeardRun, IsReady, heard_by, left_by};

use crate::hears::Hears;
use flow_base::memory::NoMemory;
use flow_base::name::Name;
use flow_machine::host::RunFault;
use flow_monitor::Audience;
use flow_sweep::Ended;
use flow_trace::line::Line;
use flow_trace::out::LineOut;
use flow_world::put::put;
use flow_world::{Ending, Event, RunEnding, World};
use std::alloc::Global;

// Runs events up to the end of the run, or to one in which a monitor says Stop.
fn put_events<P: Audience, L: LineOut>(
    world: &mut World,
    panel: &mut P,
    out: &mut L,
) -> Result<RunEnding, RunFault>
    requires { world.old.ended ≡ false }
    ensures goes { IfOk result (λ ending. (stop : Option ℕ) × (goes : HeardToEnd L.puts false ending
        (world_seen world.old) (watching out.old (P.ears panel.old))
        (hearing out.new (P.ears panel.new) stop))
        × ((world_seen world.new).outside
        ≡ (left_by L.puts ending (world_seen world.old) (watching out.old (P.ears panel.old))
        (hearing out.new (P.ears panel.new) stop) goes).outside)) }
    ensures place { IfOk result (λ ending. IsEnding ending (length (P.ears panel.new))) }
    ensures names { names (P.ears panel.new) ≡ names (P.ears panel.old) }
    ensures code { IfOk result (λ ending.
        (world_seen world.new).code ≡ (world_seen world.old).code) }
{
    'events: for _ in 0..u64::MAX {
        match world.event(panel, out)? {
            Event::Ran => {}
            Event::Idle => return Ok(RunEnding::Own(Ending::Idle)),
            Event::BoundReached => return Ok(RunEnding::Own(Ending::Bound)),
            Event::Spent => return Ok(RunEnding::Own(Ending::Spent)),
            Event::Stopped(k) => return Ok(RunEnding::Stopped(k)),
        }
    }
    Err(RunFault::OutOfMemory)
}

// How a run ended that a panel heard.
#[tactic(auto, using(flow_monitor::proofs::Naming::monitor_name))]
fn ended<P: Audience>(alloc: Global, ending: RunEnding, panel: &P) -> Result<Ended, NoMemory>
    requires { IsEnding ending (length (P.ears panel.now)) }
    ensures { IfOk result (λ ended. end_line ended ≡ last_line (P.ears panel.now) ending) }
{
    match ending {
        RunEnding::Own(Ending::Idle) => Ok(Ended::Idle),
        RunEnding::Own(Ending::Bound) => Ok(Ended::Bound),
        RunEnding::Own(Ending::Spent) => Ok(Ended::Spent),
        RunEnding::Stopped(k) => Ok(Ended::Stopped(Name::new(alloc, panel.name(k).as_bytes())?)),
    }
}

// The last line of a run that ended so.
fn end_line(alloc: Global, ended: &Ended) -> Result<Line, NoMemory>
    ensures { IfOk result (λ line. line ≡ end_line ended.now) }
{
    match ended {
        Ended::Stopped(name) => Ok(Line::EndStop(name.copy(alloc)?)),
        Ended::Spent => Ok(Line::EndSpent),
        Ended::Bound => Ok(Line::EndBound),
        Ended::Idle => Ok(Line::EndIdle),
    }
}

// Puts all lines of a world before its first event, from the first to the last, where a panel hears them.
fn put_lines<P: Audience, L: LineOut>(
    alloc: Global,
    world: &mut World,
    panel: &mut P,
    out: &mut L,
) -> Result<Ended, RunFault>
    requires { world.old.ended ≡ false }
    ensures traces { IfOk result (λ ended. (classes : RawClasses) (file : File)
        → Starts classes file (world_seen world.old) → (ending : HowItEnds) × (others : Ears)
        × (stop : Option ℕ) × (end_line ended ≡ last_line (P.ears panel.old) ending)
        × (trace : HeardTrace L.puts false classes file (watching out.old (P.ears panel.old)) ending
        (whole (hearing out.new others stop)))
        × ((world_seen world.new).outside
        ≡ (left_by L.puts ending trace.first trace.headed trace.before trace.goes).outside)) }
    ensures code { IfOk result (λ ended.
        (world_seen world.new).code ≡ (world_seen world.old).code) }
{
    put(out, Line::Head)?;
    let ending = put_events(world, panel, out)?;
    let ended = ended(alloc, ending, panel)?;
    let line = end_line(alloc, &ended)?;
    put(out, line)?;
    Ok(ended)
}

// Hears all lines of a world before its first event.
pub(crate) fn hear_run<P: Audience>(
    alloc: Global,
    world: &mut World,
    panel: &mut P,
    hears: &mut Hears<'_>,
) -> Result<Ended, NoMemory>
    requires { world.old.ended ≡ false }
    ensures heard { IfOk result (λ ended. (program : Program) (file : File)
        → IsReady program (world_seen world.old).code → IsInRange (seen file)
        → Starts (world_seen world.old).code.program file (world_seen world.old)
        → HeardRun (SourceShown false (program_of program) (seen file))
        (P.ears panel.old) (heard_by hears.old) (heard_by hears.new) ended) }
    ensures drew { IfOk result (λ ended. (classes : RawClasses) (file : File)
        → Starts classes file (world_seen world.old)
        → Drew classes file (P.ears panel.old) (world_seen world.new).outside.draws.used) }
    ensures code { IfOk result (λ ended.
        (world_seen world.new).code ≡ (world_seen world.old).code) }
{
    match put_lines(alloc, world, panel, hears) {
        Ok(ended) => Ok(ended),
        Err(_) => Err(NoMemory),
    }
}
