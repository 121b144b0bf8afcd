// Tests of flow_worldfile: what a world is read as, and printed. What is refused stands in cases/worlds.

use flow_base::ids::ProcId;
use flow_base::memory::NoMemory;
use flow_gen::gen_world;
use flow_worldfile::{Act, At, World0, print_world, read_world};
use std::alloc::Global;

const WORLD: &[u8] = b"at 5 cut 1 0\nloss 7\nprocesses 2\nword 9\nat 3 diskfail 1 4\nword 0008\n";

const SCRIPT: [At; 2] = [
    At {
        time: 5,
        act: Act::Cut(ProcId(1), ProcId(0)),
    },
    At {
        time: 3,
        act: Act::DiskFail(ProcId(1), 4),
    },
];

const PRINTED: &[u8] =
    b"seed 0\nprocesses 2\nevents 1000\nturns 100000\nlatency 1 2\ndiskdelay 1 2\nloss 7\nword 9\nword 8\nat 5 cut 1 0\nat 3 diskfail 1 4\n";

const DEFAULT: &[u8] =
    b"seed 0\nprocesses 1\nevents 1000\nturns 100000\nlatency 1 2\ndiskdelay 1 2\nloss 0\n";

const GENERATED: &[u8] =
    b"seed 42\nprocesses 4\nevents 1000000\nturns 1000000\nlatency 1 2\ndiskdelay 1 2\nloss 0\n";

fn prints(alloc: Global, world: &World0, wanted: &[u8]) -> Result<bool, NoMemory> {
    let printed = print_world(alloc, world)?;
    Ok(printed.as_slice() == wanted)
}

// Whether the text of a world is printed so.
fn is_printed(alloc: Global, text: &[u8], wanted: &[u8]) -> Result<bool, NoMemory> {
    let read = read_world(alloc, text);
    match &read {
        Ok(world) => prints(alloc, world, wanted),
        Err(_) => Ok(false),
    }
}

fn has_script(world: &World0) -> bool {
    world.words.as_slice() == [9, 8].as_slice() && world.script.as_slice() == SCRIPT.as_slice()
}

fn is_read_as(alloc: Global, text: &[u8], wanted: &World0) -> bool {
    let read = read_world(alloc, text);
    match &read {
        Ok(world) => world == wanted,
        Err(_) => false,
    }
}

// A world of two processes is as it is told, and is read again of its printed text.
fn is_told(alloc: Global) -> bool {
    let read = read_world(alloc, WORLD);
    match &read {
        Ok(world) => has_script(world) && is_read_as(alloc, PRINTED, world),
        Err(_) => false,
    }
}

#[test]
fn a_world_is_read_and_printed(rt: HostRuntime) -> Result<(), NoMemory> {
    assert!(rt; is_told(rt.alloc()));
    assert!(rt; is_printed(rt.alloc(), WORLD, PRINTED)?);
    Ok(())
}

#[test]
fn an_empty_file_is_the_default_world(rt: HostRuntime) -> Result<(), NoMemory> {
    assert!(rt; is_printed(rt.alloc(), b"", DEFAULT)?);
    Ok(())
}

#[test]
fn the_generated_world_is_as_it_is_printed(rt: HostRuntime) -> Result<(), NoMemory> {
    let text = gen_world(rt.alloc(), 20, 42)?;
    assert!(rt; text.as_slice() == GENERATED);
    assert!(rt; is_printed(rt.alloc(), &text, GENERATED)?);
    Ok(())
}
