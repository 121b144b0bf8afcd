// What bench/world.sh times.

use crate::lines::classes;
use crate::worlds::{file, skipped};
use flow_gen::{gen_program, gen_world};
use flow_monitor::Panel;
use flow_trace::out::LineVec;
use flow_world::World;
use flow_world::trace::put_rest;
use std::alloc::Global;
use std::test::Fail;

/// The event after which the large run has the most unfinished actors; bench/world.sh looks whether it is.
const FULLEST: u32 = 4;

// Ends a name by three letters, another for each number below 26 * 26 * 26.
fn put_letters(text: &mut Vec<u8>, number: u32) -> Result<(), Fail> {
    text.push(b'a' + (number / 676 % 26) as u8)?;
    text.push(b'a' + (number / 26 % 26) as u8)?;
    text.push(b'a' + (number % 26) as u8)?;
    Ok(())
}

// A program of so many actors and `main`, which prints.
fn many_actors(alloc: Global, count: u32) -> Result<Vec<u8>, Fail> {
    let mut text = Vec::new(alloc);
    for number in 0..count {
        text.extend_from_slice(b"ACTOR Future<Void> x")?;
        put_letters(&mut text, number)?;
        text.extend_from_slice(b"(int n) { wait(delay(n)); return Void(); }\n")?;
    }
    text.extend_from_slice(
        b"ACTOR Future<Void> main(int p) { trace(\"hello\"); return Void(); }\n",
    )?;
    Ok(text)
}

// How many lines are put of a world from where it is.
fn lines_left(alloc: Global, world: &mut World) -> Result<usize, Fail> {
    if world.ended() {
        return Err(Fail::from("the world has ended"));
    }
    let mut panel = Panel::empty(alloc);
    let mut lines = LineVec::new(alloc);
    put_rest(alloc, world, false, &mut panel, &mut lines)?;
    Ok(lines.lines().len())
}

fn says_hello_again(alloc: Global, world: &mut World) -> Result<bool, Fail> {
    world.start_again(file(alloc, b"")?)?;
    Ok(lines_left(alloc, world)? == 5)
}

// Whether it says hello each of so many times.
fn says_hello(alloc: Global, world: &mut World, times: u32) -> Result<bool, Fail> {
    for _ in 0..times {
        if !says_hello_again(alloc, world)? {
            return Ok(false);
        }
    }
    Ok(true)
}

fn hellos(alloc: Global, times: u32) -> Result<bool, Fail> {
    let program = many_actors(alloc, 2_499)?;
    let mut world = World::start(alloc, classes(alloc, &program)?, file(alloc, b"")?)?;
    says_hello(alloc, &mut world, times)
}

#[test]
fn a_program_of_2500_actors(rt: HostRuntime) -> Result<(), Fail> {
    assert!(rt; hellos(rt.alloc(), 1)?);
    Ok(())
}

#[test]
fn forty_thousand_hellos(rt: HostRuntime) -> Result<(), Fail> {
    assert!(rt; hellos(rt.alloc(), 40_001)?);
    Ok(())
}

// Whether a world tells its four processes each of so many times.
fn tells_state(world: &World, times: u32) -> Result<bool, Fail> {
    for _ in 0..times {
        if world.state()?.processes.len() != 4 {
            return Ok(false);
        }
    }
    Ok(world.live() == 80_008)
}

// The large run at its fullest, told so many times.
fn large_run(alloc: Global, times: u32) -> Result<bool, Fail> {
    let program = gen_program(alloc, 10_000)?;
    let description = gen_world(alloc, 10_000, 42)?;
    let mut world = World::start(alloc, classes(alloc, &program)?, file(alloc, &description)?)?;
    skipped(&mut world, FULLEST)?;
    tells_state(&world, times)
}

#[test]
fn the_large_run_at_its_fullest(rt: HostRuntime) -> Result<(), Fail> {
    assert!(rt; large_run(rt.alloc(), 0)?);
    Ok(())
}

#[test]
fn the_large_run_told_ten_times(rt: HostRuntime) -> Result<(), Fail> {
    assert!(rt; large_run(rt.alloc(), 10)?);
    Ok(())
}
