// Tests of traces that monitors hear.

ghost use Rattle.std.specs.Prelude.{codes};
ghost use Rattle.flow_monitor.specs.declared.monitor.Heard.TheVariants.{Go};

use crate::lines::classes;
use flow_base::mem_sink::MemSink;
use flow_base::name::{Name, is_name};
use flow_machine::host::RunFault;
use flow_monitor::{Errors, Heard, Live, Monitor, Panel, Until, Want};
use flow_trace::line::Line;
use flow_world::{Ending, RunEnding, write_trace};
use flow_worldfile::read_world;
use std::alloc::Global;
use std::cell::Cell;
use std::rc::Rc;
use std::test::Fail;

const HELLO: &[u8] = b"ACTOR Future<Void> main(int p) { trace(\"hello\"); return Void(); }";

// `main` starts three actors that wait for ever.
const THREE: &[u8] = b"ACTOR Future<Void> leaf(int n) { wait(Never()); return Void(); }
ACTOR Future<Void> main(int p) {
    state Future<Void> x = leaf(1);
    state Future<Void> y = leaf(2);
    state Future<Void> z = leaf(3);
    wait(Never());
    return Void();
}";

// Counts the lines that it hears.
struct Counting {
    heard: Rc<Cell<u64>>,
}

impl Drop for Counting {
    fn drop(self) {
        let Counting { heard: _ } = self;
    }
}

impl Monitor for Counting {
    ghost label = { λ m. codes "counting" };

    ghost ear = { λ m before line. Go };

    ghost begun = { λ m limit before line. Go };

    fn name(&self) -> &str {
        "counting"
    }

    fn begin(&mut self, _limit: u64) {}

    fn line(&mut self, _line: &Line) -> Heard {
        self.heard.set(self.heard.get().wrapping_add(1));
        Heard::Go
    }
}

fn want(alloc: Global, name: &[u8], limit: u64) -> Result<Want, Fail> {
    if !is_name(name) {
        return Err(Fail::from("no name"));
    }
    Ok(Want {
        name: Name::new(alloc, name)?,
        limit,
    })
}

// Runs a program in the world of a text, heard by the shipped monitors that are wanted.
fn run(
    alloc: Global,
    program: &[u8],
    world: &[u8],
    wanted: &[Want],
    out: &mut MemSink,
) -> Result<Result<RunEnding, RunFault>, Fail> {
    let classes = classes(alloc, program)?;
    let Ok(world) = read_world(alloc, world) else {
        return Err(Fail::from("no world"));
    };
    let mut handed: Vec<Box<dyn Monitor>> = Vec::new(alloc);
    handed.push(Box::new(alloc, Live::new())?)?;
    handed.push(Box::new(alloc, Errors::new())?)?;
    handed.push(Box::new(alloc, Until::new())?)?;
    match Panel::attach(alloc, handed, wanted) {
        Ok(mut panel) => Ok(write_trace(alloc, classes, world, true, &mut panel, out)),
        Err(_) => Err(Fail::from("no panel")),
    }
}

#[test]
fn hello_until_its_first_event(rt: HostRuntime) -> Result<(), Fail> {
    let alloc = rt.alloc();
    let mut sink = MemSink::new(alloc, Vec::new(alloc));
    let wanted = vec![in alloc; want(alloc, b"until", 1)?]?;
    let ended = run(alloc, HELLO, b"", &wanted, &mut sink)?;
    assert!(rt; ended == Ok(RunEnding::Stopped(0)));
    let text =
        "trace 1\nevent 1 0 boot 0\nstart 1 main\nprint 1 \"hello\"\ndone 1\nend stop until\n";
    assert_eq!(rt; sink.bytes(), text.as_bytes());
    Ok(())
}

#[test]
fn frames_come_before_the_stop(rt: HostRuntime) -> Result<(), Fail> {
    let alloc = rt.alloc();
    let mut sink = MemSink::new(alloc, Vec::new(alloc));
    // Both say Stop in the event: live at its fourth actor, and until at the event's line, before that.
    let wanted = vec![in alloc; want(alloc, b"live", 3)?, want(alloc, b"until", 2)?]?;
    let ended = run(alloc, THREE, b"at 5 stop 0\n", &wanted, &mut sink)?;
    assert!(rt; ended == Ok(RunEnding::Stopped(0)));
    let text = "trace 1
event 1 0 boot 0
start 1 main
start 2 leaf
wait 2 1
start 3 leaf
wait 3 1
start 4 leaf
wait 4 1
wait 1 1
frame 0 1 main 1
callback 0 1 0 8
frame 0 2 leaf 1
callback 0 2 0 3
frame 0 3 leaf 1
callback 0 3 0 5
frame 0 4 leaf 1
callback 0 4 0 7
end stop live
";
    assert_eq!(rt; sink.bytes(), text.as_bytes());
    Ok(())
}

#[test]
fn the_first_stop_of_an_event_is_named(rt: HostRuntime) -> Result<(), Fail> {
    let alloc = rt.alloc();
    let mut sink = MemSink::new(alloc, Vec::new(alloc));
    let wanted = vec![in alloc; want(alloc, b"live", 0)?, want(alloc, b"until", 1)?]?;
    let ended = run(alloc, HELLO, b"", &wanted, &mut sink)?;
    assert!(rt; ended == Ok(RunEnding::Stopped(1)));
    Ok(())
}

#[test]
fn a_spent_event_is_not_stopped(rt: HostRuntime) -> Result<(), Fail> {
    let alloc = rt.alloc();
    let mut sink = MemSink::new(alloc, Vec::new(alloc));
    let wanted = vec![in alloc; want(alloc, b"until", 1)?]?;
    let ended = run(alloc, THREE, b"turns 2\n", &wanted, &mut sink)?;
    assert!(rt; ended == Ok(RunEnding::Own(Ending::Spent)));
    Ok(())
}

#[test]
fn a_line_that_failed_is_not_heard(rt: HostRuntime) -> Result<(), Fail> {
    let alloc = rt.alloc();
    let heard = Rc::new(alloc, Cell::new(0u64))?;
    let counting = Counting {
        heard: Rc::clone(&heard)?,
    };
    let mut handed: Vec<Box<dyn Monitor>> = Vec::new(alloc);
    handed.push(Box::new(alloc, counting)?)?;
    let wanted = vec![in alloc; want(alloc, b"counting", 0)?]?;
    let Ok(mut panel) = Panel::attach(alloc, handed, &wanted) else {
        return Err(Fail::from("no panel"));
    };
    let classes = classes(alloc, THREE)?;
    let Ok(world) = read_world(alloc, b"") else {
        return Err(Fail::from("no world"));
    };
    let mut sink = MemSink::new(alloc, vec![in alloc; 4]?);
    let ended = write_trace(alloc, classes, world, false, &mut panel, &mut sink);
    assert!(rt; ended == Err(RunFault::Failed));
    // The event and the start: the first line of the trace isn't told.
    assert_eq!(rt; heard.get(), 2);
    Ok(())
}
