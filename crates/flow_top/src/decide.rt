// What a request and the files come to.

ghost use Rattle.std.specs.Prelude.{◌≡◌, Some};
ghost use Rattle.flow_words.specs.Asked.{request_of};
ghost use Rattle.flow_top.specs.Requests.{tells_frames};
ghost use Rattle.flow_top.specs.Outcomes.{MayTell, IsFor, run_for, shrink_for};
ghost use Rattle.flow_top.specs.Decided.{Decided};

use crate::judge::{judge, world_of};
use crate::outcome::{Answered, BenchRun, DebugRun, Outcome, ProgramRun};
use crate::source::{first_source, read_text, world_source};
use flow_base::files::Files;
use flow_shrink::SCRIPT_LINES;
use flow_words::Asked;
use std::alloc::Global;

// Whether frames are told.
fn tells_frames(asked: &Asked<'_>) -> bool
    ensures { result ≡ tells_frames (request_of asked.now) }
{
    match asked {
        Asked::Run(run) | Asked::Exec(run) => run.frames,
        Asked::Format(_)
        | Asked::Check(_)
        | Asked::Compile(_)
        | Asked::Bench(..)
        | Asked::Shrink(_)
        | Asked::Debug(_)
        | Asked::Upgrade(_) => false,
    }
}

// The outcome where classes are run, the world being made smaller, if its script has few enough lines.
fn shrink_for(run: ProgramRun) -> Outcome
    ensures { result ≡ shrink_for run }
{
    if run.world.script.len() <= SCRIPT_LINES {
        Outcome::Shrink(run)
    } else {
        Outcome::Answered(Answered::LongScript)
    }
}

// The outcome where classes are run for a request.
fn run_for(asked: &Asked<'_>, run: ProgramRun) -> Outcome
    ensures { result ≡ run_for (request_of asked.now) run }
{
    match asked {
        Asked::Bench(clients, seed) => Outcome::Bench(BenchRun {
            run,
            clients: *clients,
            seed: *seed,
        }),
        Asked::Format(_)
        | Asked::Check(_)
        | Asked::Compile(_)
        | Asked::Run(_)
        | Asked::Exec(_)
        | Asked::Upgrade(_) => Outcome::Run(run),
        Asked::Shrink(_) => shrink_for(run),
        Asked::Debug(debug) => Outcome::Debug(DebugRun {
            run,
            most: debug.most,
        }),
    }
}

/// What a request comes to. The world is read only where the text that it begins with passes its rules.
pub fn decide<F: Files>(alloc: Global, asked: &Asked<'_>, files: &mut F) -> Outcome
    ensures may_tell { MayTell result }
    ensures fits { IsFor (request_of asked.now) result }
    ensures decided { Decided (Some (request_of asked.now)) (F.seen files.old) (F.seen files.new)
        result }
{
    let text = match read_text(alloc, first_source(asked), files) {
        Ok(text) => text,
        Err(told) => return Outcome::Answered(told),
    };
    let runnable = match judge(alloc, asked, &text) {
        Ok(runnable) => runnable,
        Err(told) => return Outcome::Answered(told),
    };
    let Some(source) = world_source(asked) else {
        unreachable!()
    };
    let text = match read_text(alloc, source, files) {
        Ok(text) => text,
        Err(told) => return Outcome::Answered(told),
    };
    match world_of(alloc, &text) {
        Ok(world) => run_for(
            asked,
            ProgramRun {
                meant: runnable.meant,
                classes: runnable.classes,
                world,
                frames: tells_frames(asked),
                waits: runnable.waits,
            },
        ),
        Err(told) => Outcome::Answered(told),
    }
}
