// Telling what a command line came to.

ghost use Rattle.std.specs.Prelude.{◌≡◌, IfOk, OnOk};
ghost use Rattle.std.specs.Io.KnownBytes.{Appends};
ghost use Rattle.flow_base.specs.Bytes.{AppendsPart, Grows};
ghost use Rattle.flow_base.specs.Faults.{HasCause};
ghost use Rattle.flow_refusal.specs.Refusal.{refusal_text, class_refusal, world_refusal};
ghost use Rattle.flow_machine.specs.declared.host.RunFault.TheVariants.{Stuck};
ghost use Rattle.flow_machine.specs.Cause.{fault_of};
ghost use Rattle.flow_world.specs.WatchedTraces.{IsEnding};
ghost use Rattle.flow_world.specs.declared.run_ending.RunEnding.TheVariants.{Own};
ghost use Rattle.flow_top.specs.Outcomes.{text_of, status_of, world_status, MayRun, MayTell, IsText, IsOnce, IsAgain};
ghost use Rattle.flow_top.specs.Told.{ending_status, run_status, fault_status_of, GoesOut, GoesOutInPart, ReportedTold, ReportedRun, IsCounted, ReportedBench, ReportedShrink, ReportedDebug, Reported};
ghost use Rattle.flow_top.specs.Requests.{alone};
ghost use Rattle.flow_top.specs.Shrunk.{IsStopped, shrunk_text, shrunk_status};
ghost use Rattle.flow_shrink.specs.Shrinking.{Shrinks};
ghost use Rattle.flow_worldfile.specs.Worlds.{seen};
ghost use Rattle.flow_world.specs.Ending.{Seen};
ghost use Rattle.flow_world.specs.Starting.{Starts};
ghost use Rattle.flow_world.specs.Skipping.{SkipsUpTo};
ghost use Rattle.flow_world.specs.Worlds.{world_seen};
ghost use Rattle.flow_debug.specs.Waits.{waits_seen};
ghost use Rattle.flow_view_laws.specs.Skipped.{CanBeTold, SkippedRise, world_view, skipped_text, skipped_status};
ghost use Rattle.flow_top.specs.Outcomes.{MayView};

use crate::counting::Counts;
use crate::outcome::{Answered, BenchRun, DebugRun, Outcome, ProgramRun};
use crate::stage::Stage;
use crate::summary::summary;
use crate::viewing::put_view;
use flow_base::fault::OutFault;
use flow_base::memory::NoMemory;
use flow_base::output::write_whole;
use flow_base::sink::Sink;
use flow_classprint::write_classes;
use flow_classread::fault::ClassFault;
use flow_debug::waits::WaitPlaces;
use flow_machine::host::RunFault;
use flow_monitor::{Audience, Monitor, Panel};
use flow_refusal::{class_line, class_status, refusal_line, refusal_status, world_line};
use flow_show::show::{show_lines, write_lines};
use flow_shrink::{Shrunk, copied, shrink};
use flow_tree::fault::SourceFault;
use flow_world::trace::put_trace;
use flow_world::{Ending, RunEnding, World, write_trace};
use flow_worldfile::{WorldFault, print_world};
use std::alloc::Global;

// Writes the line of a refusal.
fn put_refusal<S: Sink>(alloc: Global, fault: &SourceFault, out: &mut S) -> Result<(), OutFault>
    ensures whole { OnOk result (Appends (S.seen out.old).written (S.seen out.new).written
        (refusal_text fault.now)) }
    ensures part { AppendsPart (S.seen out.old).written (S.seen out.new).written
        (refusal_text fault.now) }
    ensures handed { Grows (S.seen out.old).handed (S.seen out.new).handed }
    ensures cause { HasCause (S.seen out.old).faults (S.seen out.new).faults result }
{
    let Ok(line) = refusal_line(alloc, fault) else {
        return Err(OutFault::OutOfMemory);
    };
    write_whole(out, &line)
}

// Writes the line of a refusal of a class text.
fn put_class_refusal<S: Sink>(
    alloc: Global,
    fault: &ClassFault,
    out: &mut S,
) -> Result<(), OutFault>
    ensures whole { OnOk result (Appends (S.seen out.old).written (S.seen out.new).written
        (class_refusal fault.now)) }
    ensures part { AppendsPart (S.seen out.old).written (S.seen out.new).written
        (class_refusal fault.now) }
    ensures handed { Grows (S.seen out.old).handed (S.seen out.new).handed }
    ensures cause { HasCause (S.seen out.old).faults (S.seen out.new).faults result }
{
    let Ok(line) = class_line(alloc, fault) else {
        return Err(OutFault::OutOfMemory);
    };
    write_whole(out, &line)
}

// Writes the line of a refusal of the world.
fn put_world_refusal<S: Sink>(alloc: Global, fault: WorldFault, out: &mut S) -> Result<(), OutFault>
    ensures whole { OnOk result (Appends (S.seen out.old).written (S.seen out.new).written
        (world_refusal fault)) }
    ensures part { AppendsPart (S.seen out.old).written (S.seen out.new).written
        (world_refusal fault) }
    ensures handed { Grows (S.seen out.old).handed (S.seen out.new).handed }
    ensures cause { HasCause (S.seen out.old).faults (S.seen out.new).faults result }
{
    let Ok(line) = world_line(alloc, fault) else {
        return Err(OutFault::OutOfMemory);
    };
    write_whole(out, &line)
}

// Writes the text of an outcome that is no run.
fn put<S: Sink>(alloc: Global, outcome: Answered, out: &mut S) -> Result<(), OutFault>
    ensures whole { OnOk result (Appends (S.seen out.old).written (S.seen out.new).written
        (text_of outcome)) }
    ensures part { AppendsPart (S.seen out.old).written (S.seen out.new).written (text_of outcome) }
    ensures handed { Grows (S.seen out.old).handed (S.seen out.new).handed }
    ensures cause { HasCause (S.seen out.old).faults (S.seen out.new).faults result }
{
    match outcome {
        Answered::Usage => write_whole(out, b"usage\n"),
        Answered::ReadFault => write_whole(out, b"read fault\n"),
        Answered::OutOfMemory => Ok(()),
        Answered::Refused(fault) => put_refusal(alloc, &fault, out),
        Answered::NoClasses(fault) => put_class_refusal(alloc, &fault, out),
        Answered::NoWorld(fault) => put_world_refusal(alloc, fault, out),
        Answered::LongScript => write_whole(out, b"refused L13\n"),
        Answered::Passed => write_whole(out, b"ok\n"),
        Answered::Printed(classes) => write_classes(alloc, classes.raw(), out),
        Answered::Formatted(program) => show_lines(alloc, &program, out),
    }
}

// The status of a refusal of the world.
fn world_status(fault: WorldFault) -> u8
    ensures { result ≡ world_status fault }
{
    match fault {
        WorldFault::TooLarge => 10,
        WorldFault::OutOfMemory => 7,
        WorldFault::Form(_)
        | WorldFault::Range(_)
        | WorldFault::Twice(_)
        | WorldFault::NoProcess(_) => 3,
    }
}

// The status of an outcome that was told whole.
fn status(outcome: &Answered) -> u8
    ensures { result ≡ status_of outcome.now }
{
    match outcome {
        Answered::Passed => 0,
        Answered::Printed(_) => 0,
        Answered::Formatted(_) => 0,
        Answered::Usage => 2,
        Answered::ReadFault => 5,
        Answered::OutOfMemory => 7,
        Answered::Refused(fault) => refusal_status(fault),
        Answered::NoClasses(fault) => class_status(fault),
        Answered::NoWorld(fault) => world_status(*fault),
        Answered::LongScript => 10,
    }
}

// The status of a fault of the sink.
fn fault_status(fault: OutFault) -> u8
    ensures { result ≡ fault_status_of fault }
{
    match fault {
        OutFault::Failed => 6,
        OutFault::OutOfMemory => 7,
    }
}

/// Writes the text of an outcome that is no run and flushes it, and gives the status.
pub fn report_told<S: Sink>(alloc: Global, outcome: Answered, out: &mut S) -> u8
    ensures reported { ReportedTold outcome (S.seen out.old) (S.seen out.new) result }
    ensures handed { Grows (S.seen out.old).handed (S.seen out.new).handed }
{
    let told = status(&outcome);
    if let Err(fault) = put(alloc, outcome, out) {
        return fault_status(fault);
    }
    if let Err(fault) = out.flush() {
        return fault_status(fault);
    }
    told
}

// The status of a run by its last line.
fn ending_status(ending: Ending) -> u8
    ensures { result ≡ ending_status ending }
{
    match ending {
        Ending::Idle => 0,
        Ending::Bound => 0,
        Ending::Spent => 4,
    }
}

// The status of a run that monitors heard, by its last line.
fn run_status(ending: RunEnding) -> u8
    ensures { result ≡ run_status ending }
{
    match ending {
        RunEnding::Own(own) => ending_status(own),
        RunEnding::Stopped(_) => 8,
    }
}

// The fault of a run that broke off: it never goes astray.
fn run_fault(fault: RunFault) -> OutFault
    requires { fault ≡ Stuck → ⊥ }
    ensures { fault_of result ≡ fault }
{
    match fault {
        RunFault::Failed => OutFault::Failed,
        RunFault::OutOfMemory => OutFault::OutOfMemory,
        RunFault::Stuck => unreachable!(),
    }
}

// Runs classes in the world, writes the lines as they are made and flushes them, and gives the status.
fn report_run<P: Audience, S: Sink>(
    alloc: Global,
    run: ProgramRun,
    panel: &mut P,
    out: &mut S,
) -> u8
    requires { MayRun run }
    ensures reported { ReportedRun run (P.ears panel.old) (S.seen out.old) (S.seen out.new) result }
    ensures handed { Grows (S.seen out.old).handed (S.seen out.new).handed }
{
    let ProgramRun {
        meant: _,
        classes,
        world,
        frames,
        waits: _,
    } = run;
    let ending = match write_trace(alloc, classes, world, frames, panel, out) {
        Ok(ending) => ending,
        Err(fault) => return fault_status(run_fault(fault)),
    };
    if let Err(fault) = out.flush() {
        return fault_status(fault);
    }
    run_status(ending)
}

// How a run ends by itself that nobody hears.
fn own_ending(ending: RunEnding) -> Ending
    requires { IsEnding ending 0 }
    ensures { ending ≡ Own result }
{
    match ending {
        RunEnding::Own(own) => own,
        RunEnding::Stopped(_) => unreachable!(),
    }
}

// Runs classes in the world and counts the lines as they are made; none is kept. Counting never fails, and a run is never stuck:
// where it doesn't come to its end, there was no memory.
fn count_run(alloc: Global, run: ProgramRun) -> Result<(Ending, Counts), NoMemory>
    requires { MayRun run }
    ensures { IfOk result (λ x. IsCounted run x.0 x.1) }
{
    let ProgramRun {
        meant: _,
        classes,
        world,
        frames,
        waits: _,
    } = run;
    let mut nobody = Panel::empty(alloc);
    let mut counts = Counts::new();
    match put_trace(alloc, classes, world, frames, &mut nobody, &mut counts) {
        Ok(ending) => Ok((own_ending(ending), counts)),
        Err(_) => Err(NoMemory),
    }
}

// Writes a text, a line by a call, and flushes it.
fn write_text<S: Sink>(text: &[u8], out: &mut S) -> Result<(), OutFault>
    ensures whole { OnOk result (GoesOut (S.seen out.old) (S.seen out.new) text.now) }
    ensures part { GoesOutInPart (S.seen out.old) (S.seen out.new) text.now }
    ensures handed { Grows (S.seen out.old).handed (S.seen out.new).handed }
    ensures cause { HasCause (S.seen out.old).faults (S.seen out.new).faults result }
{
    write_lines(out, text)?;
    out.flush()
}

// Runs classes in the world, writes the summary and flushes it, and gives the status.
fn report_bench<S: Sink>(alloc: Global, bench: BenchRun, out: &mut S) -> u8
    requires { MayRun bench.run }
    ensures reported { ReportedBench bench (S.seen out.old) (S.seen out.new) result }
    ensures handed { Grows (S.seen out.old).handed (S.seen out.new).handed }
{
    let BenchRun { run, clients, seed } = bench;
    let Ok((ending, counts)) = count_run(alloc, run) else {
        return 7;
    };
    let Ok(text) = summary(alloc, clients, seed, counts, ending) else {
        return 7;
    };
    match write_text(&text, out) {
        Ok(()) => ending_status(ending),
        Err(fault) => fault_status(fault),
    }
}

// Runs a program again and again, in the world and in smaller ones, where the monitor hears each run from its begin.
fn shrink_run(
    alloc: Global,
    run: ProgramRun,
    monitor: Box<dyn Monitor>,
    limit: u64,
) -> Result<Shrunk, NoMemory>
    requires { MayRun run × IsText run.meant }
    ensures { IfOk result (Shrinks (IsStopped run (alone (label monitor) (begun monitor limit)))
        (seen run.world)) }
{
    let ProgramRun {
        meant,
        classes,
        world,
        frames: _,
        waits: _,
    } = run;
    let first = copied(alloc, &world)?;
    let mut stage = Stage {
        alloc,
        meant,
        world: World::start(alloc, classes, first)?,
        runs: 0,
    };
    shrink(alloc, world, monitor, limit, &mut stage)
}

// The text of what making a world smaller came to.
fn shrunk_text(alloc: Global, shrunk: &Shrunk) -> Result<Vec<u8>, NoMemory>
    ensures { IfOk result (λ text. text.items ≡ shrunk_text shrunk.now) }
{
    match shrunk {
        Shrunk::Least(world) => print_world(alloc, world),
        Shrunk::NotStopped => Ok(b"not stopped\n".to_vec(alloc)?),
    }
}

// Its status.
fn shrunk_status(shrunk: &Shrunk) -> u8
    ensures { result ≡ shrunk_status shrunk.now }
{
    match shrunk {
        Shrunk::Least(_) => 0,
        Shrunk::NotStopped => 13,
    }
}

// Makes the world of a run smaller, writes what that comes to and flushes it, and gives the status.
fn report_shrink<S: Sink>(
    alloc: Global,
    run: ProgramRun,
    monitor: Box<dyn Monitor>,
    limit: u64,
    out: &mut S,
) -> u8
    requires { MayRun run × IsText run.meant }
    ensures reported { ReportedShrink run (alone (label monitor) (begun monitor limit))
        (S.seen out.old) (S.seen out.new) result }
    ensures handed { Grows (S.seen out.old).handed (S.seen out.new).handed }
{
    let Ok(shrunk) = shrink_run(alloc, run, monitor, limit) else {
        return 7;
    };
    let Ok(text) = shrunk_text(alloc, &shrunk) else {
        return 7;
    };
    match write_text(&text, out) {
        Ok(()) => shrunk_status(&shrunk),
        Err(fault) => fault_status(fault),
    }
}

// Runs classes up to an event, or up to the end where that comes before. Where the waits stand goes along.
fn run_up_to(
    alloc: Global,
    run: ProgramRun,
    most: u32,
) -> Result<(World, Option<Ending>, WaitPlaces), NoMemory>
    requires { MayRun run }
    ensures { IfOk result (λ x. (first : Seen) × Starts run.classes run.world first
        × SkipsUpTo most first x.1 (world_seen x.0) × (x.2 ≡ run.waits)) }
{
    let ProgramRun {
        meant: _,
        classes,
        world,
        frames: _,
        waits,
    } = run;
    let mut world = World::start(alloc, classes, world)?;
    match world.run_events(most) {
        Ok(ending) => Ok((world, ending, waits)),
        Err(_) => Err(NoMemory),
    }
}

// Writes the state of a world and flushes it.
fn write_view<S: Sink>(
    alloc: Global,
    waits: &WaitPlaces,
    world: &World,
    out: &mut S,
) -> Result<(), OutFault>
    ensures whole { OnOk result (CanBeTold (world_seen world.now)
        → GoesOut (S.seen out.old) (S.seen out.new)
        (world_view (waits_seen waits.now) (world_seen world.now))) }
    ensures part { CanBeTold (world_seen world.now)
        → GoesOutInPart (S.seen out.old) (S.seen out.new)
        (world_view (waits_seen waits.now) (world_seen world.now)) }
    ensures handed { Grows (S.seen out.old).handed (S.seen out.new).handed }
    ensures cause { HasCause (S.seen out.old).faults (S.seen out.new).faults result }
{
    put_view(alloc, waits, world, out)?;
    out.flush()
}

// Writes the state of a world, or that an event was spent, by how its run ended, and flushes it.
fn write_state<S: Sink>(
    alloc: Global,
    waits: &WaitPlaces,
    world: &World,
    ending: Option<Ending>,
    out: &mut S,
) -> Result<(), OutFault>
    ensures whole { OnOk result (SkippedRise ending (world_seen world.now)
        → GoesOut (S.seen out.old) (S.seen out.new)
        (skipped_text (waits_seen waits.now) ending (world_seen world.now))) }
    ensures part { SkippedRise ending (world_seen world.now)
        → GoesOutInPart (S.seen out.old) (S.seen out.new)
        (skipped_text (waits_seen waits.now) ending (world_seen world.now)) }
    ensures handed { Grows (S.seen out.old).handed (S.seen out.new).handed }
    ensures cause { HasCause (S.seen out.old).faults (S.seen out.new).faults result }
{
    match ending {
        Some(Ending::Spent) => write_text(b"end spent\n", out),
        Some(Ending::Idle) | Some(Ending::Bound) | None => write_view(alloc, waits, world, out),
    }
}

// The status of a state.
fn state_status(ending: Option<Ending>) -> u8
    ensures { result ≡ skipped_status ending }
{
    match ending {
        Some(Ending::Spent) => 4,
        Some(Ending::Idle) | Some(Ending::Bound) | None => 0,
    }
}

// Runs classes up to an event, writes the state after it and flushes it, and gives the status.
fn report_debug<S: Sink>(alloc: Global, debug: DebugRun, out: &mut S) -> u8
    requires { MayView debug }
    ensures reported { ReportedDebug debug (S.seen out.old) (S.seen out.new) result }
    ensures handed { Grows (S.seen out.old).handed (S.seen out.new).handed }
{
    let DebugRun { run, most } = debug;
    let Ok((world, ending, waits)) = run_up_to(alloc, run, most) else {
        return 7;
    };
    match write_state(alloc, &waits, &world, ending, out) {
        Ok(()) => state_status(ending),
        Err(fault) => fault_status(fault),
    }
}

/// Writes the text of an outcome that runs no classes, or runs them again and again, and flushes it, and gives the status. The
/// monitor hears each run from its begin.
pub fn report_again<S: Sink>(
    alloc: Global,
    outcome: Outcome,
    monitor: Box<dyn Monitor>,
    limit: u64,
    out: &mut S,
) -> u8
    requires may { MayTell outcome }
    requires again { IsAgain outcome }
    ensures reported { Reported (alone (label monitor) (begun monitor limit)) outcome
        (S.seen out.old) (S.seen out.new) result }
    ensures handed { Grows (S.seen out.old).handed (S.seen out.new).handed }
{
    match outcome {
        Outcome::Answered(told) => report_told(alloc, told, out),
        Outcome::Shrink(run) => report_shrink(alloc, run, monitor, limit, out),
        Outcome::Run(_) | Outcome::Bench(_) | Outcome::Debug(_) => unreachable!(),
    }
}

/// Writes the text of an outcome and flushes it, and gives the status: the outcome's own, or 6 or 7
/// where the sink failed or there was no memory on the way. The panel hears a run.
pub fn report<P: Audience, S: Sink>(
    alloc: Global,
    outcome: Outcome,
    panel: &mut P,
    out: &mut S,
) -> u8
    requires may { MayTell outcome }
    requires once { IsOnce outcome }
    ensures reported { Reported (P.ears panel.old) outcome (S.seen out.old) (S.seen out.new)
        result }
    ensures handed { Grows (S.seen out.old).handed (S.seen out.new).handed }
{
    match outcome {
        Outcome::Answered(told) => report_told(alloc, told, out),
        Outcome::Run(run) => report_run(alloc, run, panel, out),
        Outcome::Bench(bench) => report_bench(alloc, bench, out),
        Outcome::Debug(debug) => report_debug(alloc, debug, out),
        Outcome::Shrink(_) => unreachable!(),
    }
}
