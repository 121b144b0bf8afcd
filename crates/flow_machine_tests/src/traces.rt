use crate::lines::classes;
use flow_base::mem_sink::MemSink;
use flow_machine::host::RunFault;
use flow_monitor::Panel;
use flow_valid::program::ClassProgram;
use flow_world::{Ending, RunEnding, write_trace};
use flow_worldfile::read_world;
use std::alloc::Global;
use std::test::Fail;

// `main` returns at once.
const RETURNING: &[u8] = b"ACTOR Future<Void> main(int p) { return Void(); }";

/// How a run ends, or why it breaks off.
type Ended = Result<RunEnding, RunFault>;

fn written_by(
    alloc: Global,
    classes: ClassProgram,
    world: &[u8],
    with_frames: bool,
    out: &mut MemSink,
) -> Result<Ended, Fail> {
    let mut panel = Panel::empty(alloc);
    match read_world(alloc, world) {
        Ok(world) => Ok(write_trace(alloc, classes, world, with_frames, &mut panel, out)),
        Err(_) => Err(Fail::from("no world")),
    }
}

// The trace of the program in the world of a text.
fn written(
    alloc: Global,
    world: &[u8],
    with_frames: bool,
    out: &mut MemSink,
) -> Result<Ended, Fail> {
    written_by(alloc, classes(alloc, RETURNING)?, world, with_frames, out)
}

#[test]
fn a_bound_of_no_events(rt: HostRuntime) -> Result<(), Fail> {
    let alloc = rt.alloc();
    let mut sink = MemSink::new(alloc, Vec::new(alloc));
    let ended = written(alloc, b"events 0\n", true, &mut sink)?;
    assert!(rt; ended == Ok(RunEnding::Own(Ending::Bound)));
    assert_eq!(rt; sink.bytes(), b"trace 1\nend bound\n".as_slice());
    Ok(())
}

#[test]
fn lines_go_out_as_they_are_made(rt: HostRuntime) -> Result<(), Fail> {
    let alloc = rt.alloc();
    let mut sink = MemSink::new(alloc, vec![in alloc; 3]?);
    let ended = written(alloc, b"at 0 kill 0\n", false, &mut sink)?;
    assert!(rt; ended == Err(RunFault::Failed));
    assert_eq!(rt; sink.bytes(), b"trace 1\nevent 1 0 kill 0\n".as_slice());
    Ok(())
}
