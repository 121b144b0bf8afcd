// Making a world smaller, as long as a monitor stops its run.

ghost use Rattle.std.specs.Prelude.{◌≡◌, ◌≤◌, ◌<◌, ◌+◌, ◌*◌, length, Decides, IfOk, OnOk};
ghost use Rattle.flow_base.specs.Faults.{next_count};
ghost use Rattle.flow_worldfile.specs.Worlds.{IsInRange, seen};
ghost use Rattle.flow_shrink.specs.Shrinking.{Stops, Shrinks, KeepsRange, most_runs};
ghost use Rattle.flow_shrink.specs.Editing.{Tried, TriedFrom, IsLeastBy, ShrinksBy};

use crate::edits::{Edits, LineGoes};
use crate::runner::Runner;
use flow_base::memory::NoMemory;
use flow_monitor::Monitor;
use flow_worldfile::World0;
use std::alloc::Global;

/// The most lines that a script may have that is made smaller: so many are run some 200 times, and 40,001 times at most.
pub const SCRIPT_LINES: usize = 200;

/// What making a world smaller comes to: a world that is still stopped, and isn't after any one edit more; or the world
/// wasn't stopped at first.
#[derive(Drop)]
pub enum Shrunk {
    Least(World0),
    NotStopped,
}

// Runs a world where the monitor hears it from its begin.
fn is_stopped<R: Runner>(
    runner: &mut R,
    world: &World0,
    mut monitor: Box<dyn Monitor>,
    limit: u64,
) -> Result<(bool, Box<dyn Monitor>), NoMemory>
    requires range { IsInRange (seen world.now) }
    requires ready { R.ready runner.old }
    ensures stopped { IfOk result (λ r. Decides r.0
        (Stops (R.means (R.kept runner.old) (seen world.now)) (begun monitor limit))) }
    ensures begun { IfOk result (λ r. begun r.1 ≡ begun monitor) }
    ensures counted { R.count runner.new ≡ next_count (R.count runner.old) }
    ensures ready { OnOk result (R.ready runner.new) }
    ensures kept { OnOk result (R.kept runner.new ≡ R.kept runner.old) }
{
    monitor.begin(limit);
    runner.run(world, monitor)
}

// Makes the edit at a place, if the world is still stopped after it.
fn try_place<E: Edits, R: Runner>(
    edits: &E,
    runner: &mut R,
    world: &mut World0,
    place: usize,
    monitor: Box<dyn Monitor>,
    limit: u64,
) -> Result<Box<dyn Monitor>, NoMemory>
    requires range { IsInRange (seen world.old) }
    requires ready { R.ready runner.old }
    requires within { place < (E.edit edits.now).places (seen world.old) }
    ensures tried { IfOk result (λ m. Tried (E.edit edits.now)
        (λ w. Stops (R.means (R.kept runner.old) w) (begun monitor limit)) place
        (seen world.old) (seen world.new)) }
    ensures range { IfOk result (λ m. IsInRange (seen world.new)) }
    ensures begun { IfOk result (λ m. begun m ≡ begun monitor) }
    ensures counted { R.count runner.new ≤ next_count (R.count runner.old) }
    ensures ready { OnOk result (R.ready runner.new) }
    ensures kept { OnOk result (R.kept runner.new ≡ R.kept runner.old) }
{
    let smaller = edits.edited(world, place)?;
    let (stopped, monitor) = is_stopped(runner, &smaller, monitor, limit)?;
    if stopped {
        *world = smaller;
        return Ok(monitor);
    }
    Ok(monitor)
}

// Tries each place, from the last to the first.
fn try_each<E: Edits, R: Runner>(
    edits: &E,
    runner: &mut R,
    world: &mut World0,
    monitor: Box<dyn Monitor>,
    limit: u64,
) -> Result<Box<dyn Monitor>, NoMemory>
    requires range { IsInRange (seen world.old) }
    requires ready { R.ready runner.old }
    requires stops { Stops (R.means (R.kept runner.old) (seen world.old)) (begun monitor limit) }
    ensures tried { IfOk result (λ m. TriedFrom (E.edit edits.now)
        (λ w. Stops (R.means (R.kept runner.old) w) (begun monitor limit)) 0
        (seen world.old) (seen world.new)) }
    ensures range { IfOk result (λ m. IsInRange (seen world.new)) }
    ensures begun { IfOk result (λ m. begun m ≡ begun monitor) }
    ensures counted { R.count runner.new
        ≤ R.count runner.old + (E.edit edits.now).places (seen world.old) }
    ensures ready { OnOk result (R.ready runner.new) }
    ensures kept { OnOk result (R.kept runner.new ≡ R.kept runner.old) }
{
    let mut monitor = monitor;
    let mut place = edits.places(world);
    while place > 0 {
        place -= 1;
        monitor = try_place(edits, runner, world, place, monitor, limit)?;
    }
    Ok(monitor)
}

// Tries each place again and again, until no edit is made.
fn try_all<E: Edits, R: Runner>(
    edits: &E,
    runner: &mut R,
    world: &mut World0,
    monitor: Box<dyn Monitor>,
    limit: u64,
) -> Result<(), NoMemory>
    requires range { IsInRange (seen world.old) }
    requires ready { R.ready runner.old }
    requires stops { Stops (R.means (R.kept runner.old) (seen world.old)) (begun monitor limit) }
    ensures least { OnOk result (IsLeastBy (E.edit edits.now)
        (λ w. Stops (R.means (R.kept runner.old) w) (begun monitor limit))
        (seen world.old) (seen world.new)) }
    ensures range { OnOk result (IsInRange (seen world.new)) }
    ensures counted { let n = (E.edit edits.now).places (seen world.old) in
        R.count runner.new ≤ R.count runner.old + n * n }
    ensures ready { OnOk result (R.ready runner.new) }
    ensures kept { OnOk result (R.kept runner.new ≡ R.kept runner.old) }
{
    let mut monitor = monitor;
    for _pass in 0..edits.places(world) {
        let before = edits.places(world);
        monitor = try_each(edits, runner, world, monitor, limit)?;
        if edits.places(world) == before {
            return Ok(());
        }
    }
    Ok(())
}

/// The world after edits that leave it such that the monitor still says Stop in an event that isn't spent, and after any one edit
/// more it doesn't. `NotStopped` where it doesn't in the world as it is. The monitor begins with the limit before each run, and is
/// dropped at the end; n places take 1 + n * n runs at most.
pub fn shrink_by<E: Edits, R: Runner>(
    edits: &E,
    world: World0,
    monitor: Box<dyn Monitor>,
    limit: u64,
    runner: &mut R,
) -> Result<Shrunk, NoMemory>
    requires range { IsInRange (seen world) }
    requires ready { R.ready runner.old }
    ensures shrinks { IfOk result (ShrinksBy (E.edit edits.now)
        (λ w. Stops (R.means (R.kept runner.old) w) (begun monitor limit)) (seen world)) }
    ensures range { IfOk result KeepsRange }
    ensures counted { R.count runner.new ≤ R.count runner.old
        + most_runs ((E.edit edits.now).places (seen world)) }
    ensures ready { OnOk result (R.ready runner.new) }
    ensures kept { OnOk result (R.kept runner.new ≡ R.kept runner.old) }
{
    let mut world = world;
    let (stopped, monitor) = is_stopped(runner, &world, monitor, limit)?;
    if !stopped {
        return Ok(Shrunk::NotStopped);
    }
    try_all(edits, runner, &mut world, monitor, limit)?;
    Ok(Shrunk::Least(world))
}

/// The world with a script of which no line can go: the monitor still says Stop in an event that isn't spent, and without
/// any one line it doesn't. `NotStopped` where it doesn't in the world as it is. The monitor begins with the limit before
/// each run, and is dropped at the end; a script of n lines takes 1 + n * n runs at most.
pub fn shrink<R: Runner>(
    alloc: Global,
    world: World0,
    monitor: Box<dyn Monitor>,
    limit: u64,
    runner: &mut R,
) -> Result<Shrunk, NoMemory>
    requires range { IsInRange (seen world) }
    requires ready { R.ready runner.old }
    ensures shrinks { IfOk result (Shrinks
        (λ w. Stops (R.means (R.kept runner.old) w) (begun monitor limit)) (seen world)) }
    ensures range { IfOk result KeepsRange }
    ensures counted { R.count runner.new ≤ R.count runner.old
        + most_runs (length (seen world).script) }
    ensures ready { OnOk result (R.ready runner.new) }
    ensures kept { OnOk result (R.kept runner.new ≡ R.kept runner.old) }
{
    shrink_by(&LineGoes { alloc }, world, monitor, limit, runner)
}
