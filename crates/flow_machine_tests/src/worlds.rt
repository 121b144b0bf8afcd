// A world that goes on without lines, is looked at, and starts again.

ghost use Rattle.std.specs.Prelude.{IfOk};
ghost use Rattle.flow_worldfile.specs.Worlds.{IsInRange, seen};

use crate::lines::{are_lines, classes};
use flow_base::ids::ProcId;
use flow_draw::question::Question;
use flow_monitor::Panel;
use flow_trace::out::LineVec;
use flow_world::trace::put_rest;
use flow_world::{Ending, World};
use flow_worldfile::{World0, read_world};
use std::alloc::Global;
use std::test::Fail;

// `main` waits for a tick, and prints.
const WAITING: &[u8] =
    b"ACTOR Future<Void> main(int p) { wait(delay(1)); trace(\"late\"); return Void(); }";

const FIRST: &[u8] =
    b"event 1 0 boot 0\nstart 1 main\nwait 1 1\nevent 2 1 timer 0 2\ntake 1 1 0\nprint 1 \"late\"\ndone 1\nend idle\n";

const SECOND: &[u8] = b"event 2 1 timer 0 2\ntake 1 1 0\nprint 1 \"late\"\ndone 1\nend idle\n";

// The lines of its script come by time.
const KILLED: &[u8] = b"at 1 kill 0\nat 0 stop 0\n";

const KILLED_LINES: &[u8] =
    b"event 1 0 stop 0\nevent 2 0 boot 0\nstart 1 main\nwait 1 1\nevent 3 1 kill 0\nend idle\n";

/// The world of a text.
pub(crate) fn file(alloc: Global, text: &[u8]) -> Result<World0, Fail>
    ensures { IfOk result (λ w. IsInRange (seen w)) }
{
    match read_world(alloc, text) {
        Ok(world) => Ok(world),
        Err(_) => Err(Fail::from("no world")),
    }
}

// Whether these lines are put of a world from where it is.
fn rest_is(alloc: Global, world: &mut World, wanted: &[u8]) -> Result<bool, Fail> {
    if world.ended() {
        return Ok(false);
    }
    let mut panel = Panel::empty(alloc);
    let mut lines = LineVec::new(alloc);
    put_rest(alloc, world, false, &mut panel, &mut lines)?;
    are_lines(alloc, lines.lines(), wanted)
}

// Starts again in the world of a text, with these lines.
fn again_is(alloc: Global, world: &mut World, text: &[u8], wanted: &[u8]) -> Result<bool, Fail> {
    world.start_again(file(alloc, text)?)?;
    rest_is(alloc, world, wanted)
}

fn starts_again(alloc: Global, world: &mut World) -> Result<bool, Fail> {
    if !rest_is(alloc, world, FIRST)? {
        return Ok(false);
    }
    if !again_is(alloc, world, KILLED, KILLED_LINES)? {
        return Ok(false);
    }
    again_is(alloc, world, b"", FIRST)
}

/// Runs so many events, and gives how the run ended.
pub(crate) fn skipped(world: &mut World, most: u32) -> Result<Option<Ending>, Fail> {
    if world.ended() {
        return Err(Fail::from("the world has ended"));
    }
    Ok(world.run_events(most)?)
}

// How many actors of a process are unfinished.
fn unfinished(world: &World, process: u8) -> Result<usize, Fail> {
    Ok(world.frame_states(ProcId(process))?.len())
}

fn goes_on(alloc: Global, world: &mut World) -> Result<bool, Fail> {
    if world.at() != (0, 0) || skipped(world, 1)? != None {
        return Ok(false);
    }
    if world.at() != (1, 0) || unfinished(world, 0)? != 1 || unfinished(world, 1)? != 0 {
        return Ok(false);
    }
    rest_is(alloc, world, SECOND)
}

fn ends_early(alloc: Global, world: &mut World) -> Result<bool, Fail> {
    world.start_again(file(alloc, KILLED)?)?;
    Ok(
        skipped(world, 9)? == Some(Ending::Idle)
            && world.at() == (3, 1)
            && world.file().script.len() == 2,
    )
}

fn all_go(alloc: Global) -> Result<bool, Fail> {
    let classes = classes(alloc, WAITING)?;
    let file = file(alloc, b"")?;
    let mut world = World::start(alloc, classes, file)?;
    Ok(goes_on(alloc, &mut world)? && ends_early(alloc, &mut world)?)
}

#[test]
fn a_world_goes_on_without_lines(rt: HostRuntime) -> Result<(), Fail> {
    assert!(rt; all_go(rt.alloc())?);
    Ok(())
}

fn all_start(alloc: Global) -> Result<bool, Fail> {
    let classes = classes(alloc, WAITING)?;
    let file = file(alloc, b"")?;
    let mut world = World::start(alloc, classes, file)?;
    starts_again(alloc, &mut world)
}

#[test]
fn a_world_starts_again(rt: HostRuntime) -> Result<(), Fail> {
    assert!(rt; all_start(rt.alloc())?);
    Ok(())
}

// `main` draws a number, sends a packet, which is lost, and asks its disk.
const DRAWING: &[u8] =
    b"ACTOR Future<Void> main(int p) { int k = randomInt(0, 10); trace(k); sendTo(0, 7, \"a\"); wait(syncFile(\"f\")); return Void(); }";

const DRAWN: &[u8] = b"loss 300\ndiskdelay 1 4\nword 7\nword 0\nword 5\n";

/// What its words are asked for.
const ASKED: [Question; 3] = [
    Question::Among(10),
    Question::Loses(300),
    Question::Among(3),
];

// Whether the first questions of a run are noted.
fn notes_run(world: &mut World, room: usize) -> Result<bool, Fail> {
    Ok(skipped(world, 9)? == Some(Ending::Idle) && world.noted() == &ASKED[..room.min(3)])
}

fn notes_twice(alloc: Global, world: &mut World, room: usize) -> Result<bool, Fail> {
    if !notes_run(world, room)? {
        return Ok(false);
    }
    world.start_again(file(alloc, DRAWN)?)?;
    Ok(world.noted().is_empty() && notes_run(world, room)?)
}

fn notes(alloc: Global, room: usize) -> Result<bool, Fail> {
    let classes = classes(alloc, DRAWING)?;
    let file = file(alloc, DRAWN)?;
    let mut world = World::noting(alloc, classes, file, room)?;
    notes_twice(alloc, &mut world, room)
}

#[test]
fn a_world_notes_what_is_asked(rt: HostRuntime) -> Result<(), Fail> {
    assert!(rt; notes(rt.alloc(), 0)?);
    assert!(rt; notes(rt.alloc(), 2)?);
    assert!(rt; notes(rt.alloc(), 5)?);
    Ok(())
}
