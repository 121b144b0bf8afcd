// Tests of flow_shrink: a runner in memory whose runs throw by what stands in the script.

ghost use Rattle.std.specs.Prelude.{◌≡◌, ◌&&◌, ◌||◌, ◌==◌, ℕ, List, [], ◌∷◌, Bool, not, map, Some, if◌then◌else◌};
ghost use Rattle.std.specs.List.{list_any};
ghost use Rattle.flow_trace.specs.declared.line.Line.TheVariants.{Throw, EndIdle};
ghost use Rattle.flow_monitor.specs.Ears.{says_stop};
ghost use Rattle.flow_worldfile.specs.declared.directive.Order.{Order};
ghost use Rattle.flow_worldfile.specs.Worlds.{timed};

use flow_base::ids::{ActorId, ErrorCode};
use flow_base::memory::NoMemory;
use flow_monitor::{Errors, Heard, Monitor};
use flow_shrink::{Runner, Shrunk, shrink};
use flow_trace::line::Line;
use flow_worldfile::{At, World0, print_world, read_world};
use std::alloc::Global;
use std::test::Fail;

/// A run throws where a line of the first time stands in the script, and one of the second or none of the third.
#[derive(Drop)]
struct Trial {
    first: u64,
    second: u64,
    third: u64,
    runs: u64,
}

// Whether a line of this time stands in a script.
fn has(script: &[At], time: u64) -> bool
    ensures { result ≡ list_any (λ x. x.0 == time) (map timed script.now) }
{
    match script {
        [] => false,
        [first, rest @ ..] => first.time == time || has(rest, time),
    }
}

// Tells a monitor a line, and whether it says Stop.
fn tell(mut monitor: Box<dyn Monitor>, line: &Line) -> (bool, Box<dyn Monitor>)
    ensures said { result.0 ≡ says_stop line.now (Some (ear monitor)) }
    ensures begun { begun result.1 ≡ begun monitor }
{
    match monitor.line(line) {
        Heard::Stop => (true, monitor),
        Heard::Go | Heard::Done => (false, monitor),
    }
}

impl Trial {
    // Whether the run of a script throws.
    fn throws(&self, script: &[At]) -> bool
        ensures { let has = λ (time : ℕ). list_any (λ x. x.0 == time) (map timed script.now) in
            result ≡ (has self.now.first && (has self.now.second || not (has self.now.third))) }
    {
        has(script, self.first) && (has(script, self.second) || !has(script, self.third))
    }
}

impl Runner for Trial {
    ghost Kept = { List (ℕ × Order) → Bool };

    ghost kept = { λ t script. list_any (λ x. x.0 == t.first) script
        && (list_any (λ x. x.0 == t.second) script || not (list_any (λ x. x.0 == t.third) script)) };

    ghost means = { λ throws w lines. lines
        ≡ (if throws w.script then Throw (record { 0 = 1 }) (record { 0 = 7 }) ∷ EndIdle ∷ []
        else EndIdle ∷ []) };

    ghost count = { λ t. t.runs };

    fn run(
        &mut self,
        world: &World0,
        monitor: Box<dyn Monitor>,
    ) -> Result<(bool, Box<dyn Monitor>), NoMemory> {
        self.runs = self.runs.saturating_add(1);
        if self.throws(&world.script) {
            let line = Line::Throw(ActorId(1), ErrorCode(7));
            let told = tell(monitor, &line);
            return Ok(told);
        }
        Ok((false, monitor))
    }

    fn runs(&self) -> u64 {
        self.runs
    }
}

// What shrinking leaves of the world of a text, printed; nothing where no monitor stops it.
fn left(alloc: Global, trial: &mut Trial, limit: u64, text: &[u8]) -> Result<Vec<u8>, Fail> {
    let monitor: Box<dyn Monitor> = Box::new(alloc, Errors::new())?;
    let Ok(world) = read_world(alloc, text) else {
        return Err(Fail::from("no world"));
    };
    match shrink(alloc, world, monitor, limit, trial)? {
        Shrunk::Least(world) => Ok(print_world(alloc, &world)?),
        Shrunk::NotStopped => Ok(Vec::new(alloc)),
    }
}

// Whether that is so, by the three times of a trial, and by how many runs.
fn leaves(
    alloc: Global,
    times: [u64; 3],
    limit: u64,
    text: &[u8],
    wanted: &[u8],
    runs: u64,
) -> Result<bool, Fail> {
    let mut trial = Trial {
        first: times[0],
        second: times[1],
        third: times[2],
        runs: 0,
    };
    let printed = left(alloc, &mut trial, limit, text)?;
    Ok(printed.as_slice() == wanted && trial.runs() == runs)
}

const SIX: &[u8] =
    b"at 1 cut 0 0\nat 2 cut 0 0\nat 3 heal 0 0\nat 4 stop 0\nat 5 boot 0\nat 6 cut 0 0\n";

const TWO_LEFT: &[u8] =
    b"seed 0\nprocesses 1\nevents 1000\nturns 100000\nlatency 1 2\ndiskdelay 1 2\nloss 0\nat 2 cut 0 0\nat 5 boot 0\n";

const ONE_LEFT: &[u8] =
    b"seed 0\nprocesses 1\nevents 1000\nturns 100000\nlatency 1 2\ndiskdelay 1 2\nloss 0\nat 2 cut 0 0\n";

#[test]
fn leaves_lines_that_are_needed(rt: HostRuntime) -> Result<(), Fail> {
    let alloc = rt.alloc();
    // Two lines of six that have to be there together.
    assert!(rt; leaves(alloc, [2, 5, 2], 0, SIX, TWO_LEFT, 9)?);
    // The line at 3 can go once that at 1 went, which is tried after it.
    let text = b"at 1 cut 0 0\nat 2 cut 0 0\nat 3 heal 0 0\n";
    assert!(rt; leaves(alloc, [2, 3, 1], 0, text, ONE_LEFT, 7)?);
    // A line that stands twice.
    let text = b"at 2 cut 0 0\nat 2 cut 0 0\n";
    assert!(rt; leaves(alloc, [2, 2, 2], 0, text, ONE_LEFT, 4)?);
    Ok(())
}

#[test]
fn tells_worlds_that_are_not_stopped(rt: HostRuntime) -> Result<(), Fail> {
    let alloc = rt.alloc();
    // No line, a line too few, and a monitor that bears one error.
    assert!(rt; leaves(alloc, [2, 5, 2], 0, b"", b"", 1)?);
    assert!(rt; leaves(alloc, [2, 7, 2], 0, SIX, b"", 1)?);
    assert!(rt; leaves(alloc, [2, 5, 2], 1, SIX, b"", 1)?);
    Ok(())
}
