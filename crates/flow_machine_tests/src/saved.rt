// Worlds that go on from a state that was kept.

use crate::lines::{classes, text};
use crate::resumable::resumable;
use crate::worlds::{file, skipped};
use flow_base::ids::ProcId;
use flow_monitor::Panel;
use flow_saved::{PendingEvent, ProcState, What, WorldState};
use flow_simdisk::FileState;
use flow_simnet::Packet;
use flow_trace::out::LineVec;
use flow_world::World;
use flow_world::trace::put_rest;
use std::alloc::Global;
use std::test::Fail;

const REQUEST_SERVER: &[u8] =
    b"struct Ask { int n; Promise<int> reply; }; ACTOR Future<Void> server(FutureStream<Ask> asks) { loop { Ask a = waitNext(asks); if (a.n > 0) { a.reply.send(a.n * 2); } } } ACTOR Future<int> client(PromiseStream<Ask> to, int n) { Promise<int> r; to.send(Ask(n, r)); int got = wait(r.getFuture()); return got; } ACTOR Future<Void> main(int p) { state PromiseStream<Ask> asks; state Future<Void> s = server(asks.getFuture()); int good = wait(client(asks, 21)); trace(good); try { int bad = wait(client(asks, 0)); trace(bad); } catch (Error& e) { trace(e.code()); } return Void(); }";

const PACKETS_OUT_OF_ORDER: &[u8] =
    b"ACTOR Future<Void> main(int p) { if (p == 0) { sendTo(1, 7, \"a\"); sendTo(1, 7, \"b\"); sendTo(1, 7, \"c\"); return Void(); } state FutureStream<Packet> in = listen(7); state int i = 0; for (i = 0; i < 3; i++) { Packet k = waitNext(in); trace(k.text); } return Void(); }";

const TWO_PROCESSES: &[u8] =
    b"processes 2\nlatency 1 4\nword 0\nword 2\nword 0\nword 1\nword 0\nword 0\n";

const DISK_AFTER_POWER_LOSS: &[u8] =
    b"ACTOR Future<Void> main(int p) { string old = wait(readFile(\"f\", 0, 10)); trace(old); wait(writeFile(\"f\", 0, \"ab\")); wait(writeFile(\"f\", 2, \"cd\")); wait(syncFile(\"f\")); wait(writeFile(\"f\", 4, \"ef\")); wait(Never()); return Void(); }";

const KILLED_AT_TEN: &[u8] =
    b"events 9\nat 10 kill 0\nat 10 boot 0\nword 0\nword 0\nword 0\nword 0\nword 0\nword 0\n";

// The lines that are put of a world from where it is, with frames.
fn rest(alloc: Global, world: &mut World) -> Result<Vec<u8>, Fail> {
    if world.ended() {
        return Err(Fail::from("the world has ended"));
    }
    let mut panel = Panel::empty(alloc);
    let mut lines = LineVec::new(alloc);
    put_rest(alloc, world, true, &mut panel, &mut lines)?;
    text(alloc, lines.lines())
}

// A world made from the state of another one, in the world of a text.
fn again(
    alloc: Global,
    program: &[u8],
    description: &[u8],
    state: WorldState,
) -> Result<World, Fail> {
    let state = resumable(alloc, file(alloc, description)?, state)?;
    Ok(World::resume(alloc, classes(alloc, program)?, state)?)
}

// Whether a world made again after so many events goes on like the one that it was made from: with these lines.
fn goes_on(
    alloc: Global,
    program: &[u8],
    description: &[u8],
    world: &mut World,
    all: &[u8],
) -> Result<bool, Fail> {
    let mut made = again(alloc, program, description, world.state()?)?;
    let lines = rest(alloc, &mut made)?;
    Ok(lines == rest(alloc, world)? && all.ends_with(&lines))
}

fn goes_on_after(
    alloc: Global,
    program: &[u8],
    description: &[u8],
    most: u32,
    all: &[u8],
) -> Result<bool, Fail> {
    let mut world = World::start(alloc, classes(alloc, program)?, file(alloc, description)?)?;
    if skipped(&mut world, most)? != None {
        return Ok(false);
    }
    goes_on(alloc, program, description, &mut world, all)
}

// Whether it does so after each of so many events, and before the first.
fn goes_on_always(
    alloc: Global,
    program: &[u8],
    description: &[u8],
    events: u32,
) -> Result<bool, Fail> {
    let mut world = World::start(alloc, classes(alloc, program)?, file(alloc, description)?)?;
    let all = rest(alloc, &mut world)?;
    for most in 0..=events {
        if !goes_on_after(alloc, program, description, most, &all)? {
            return Ok(false);
        }
    }
    Ok(true)
}

#[test]
fn goes_on_after_each_event_of_request_server(rt: HostRuntime) -> Result<(), Fail> {
    assert!(rt; goes_on_always(rt.alloc(), REQUEST_SERVER, b"", 1)?);
    Ok(())
}

#[test]
fn goes_on_after_each_event_of_packets_out_of_order(rt: HostRuntime) -> Result<(), Fail> {
    assert!(rt; goes_on_always(rt.alloc(), PACKETS_OUT_OF_ORDER, TWO_PROCESSES, 5)?);
    Ok(())
}

#[test]
fn goes_on_after_each_event_of_disk_after_power_loss(rt: HostRuntime) -> Result<(), Fail> {
    assert!(rt; goes_on_always(rt.alloc(), DISK_AFTER_POWER_LOSS, KILLED_AT_TEN, 9)?);
    Ok(())
}

// The state after so many events, where they all ran.
fn state_after(
    alloc: Global,
    program: &[u8],
    description: &[u8],
    most: u32,
) -> Result<WorldState, Fail> {
    let mut world = World::start(alloc, classes(alloc, program)?, file(alloc, description)?)?;
    skipped(&mut world, most)?;
    Ok(world.state()?)
}

// What a world made of a state tells.
fn state_again(
    alloc: Global,
    program: &[u8],
    description: &[u8],
    state: WorldState,
) -> Result<WorldState, Fail> {
    let world = again(alloc, program, description, state)?;
    Ok(world.state()?)
}

fn is_packet(packet: &Packet, number: u64, text: &[u8]) -> bool {
    packet.number == number
        && packet.from == ProcId(0)
        && packet.to == ProcId(1)
        && packet.port == 7
        && packet.text.bytes() == text
}

// Whether an event brings the packet of a number with this text.
fn brings(event: &PendingEvent, time: u64, number: u64, packet: u64, text: &[u8]) -> bool {
    match &event.what {
        What::Arrival(letter) => {
            event.time == time && event.number == number && is_packet(letter, packet, text)
        }
        _ => false,
    }
}

fn has_packets(pending: &[PendingEvent]) -> bool {
    match pending {
        [first, second, third] => {
            brings(first, 1, 5, 3, b"c".as_slice())
                && brings(second, 2, 4, 2, b"b".as_slice())
                && brings(third, 3, 3, 1, b"a".as_slice())
        }
        _ => false,
    }
}

// The events, links and words of packets_out_of_order after event 2.
fn has_sent(state: &WorldState) -> bool {
    state.events == 2
        && state.time == 0
        && state.script == 0
        && (state.words, state.made, state.packets) == (6, 5, 3)
        && state.cuts.is_empty()
        && has_packets(&state.pending)
}

fn keeps_packets(alloc: Global) -> Result<bool, Fail> {
    let state = state_after(alloc, PACKETS_OUT_OF_ORDER, TWO_PROCESSES, 2)?;
    if !has_sent(&state) {
        return Ok(false);
    }
    let made = state_again(alloc, PACKETS_OUT_OF_ORDER, TWO_PROCESSES, state)?;
    Ok(has_sent(&made))
}

#[test]
fn keeps_timers_and_links(rt: HostRuntime) -> Result<(), Fail> {
    assert!(rt; keeps_packets(rt.alloc())?);
    Ok(())
}

fn is_file(file: &FileState) -> bool {
    let written = match file.unsynced.as_slice() {
        [(offset, text)] => *offset == 4 && text.bytes() == b"ef".as_slice(),
        _ => false,
    };
    file.name.bytes() == b"f".as_slice() && file.durable.as_slice() == b"abcd".as_slice() && written
}

fn has_file(process: &ProcState) -> bool {
    match process.disk.files.as_slice() {
        [file] => process.up && process.disk.fails == 0 && is_file(file),
        _ => false,
    }
}

// The disk of disk_after_power_loss after event 6, and the lines of its script that are done then.
fn has_disk(state: &WorldState) -> bool {
    let kept = match state.processes.as_slice() {
        [process] => has_file(process),
        _ => false,
    };
    (state.events, state.time, state.script) == (6, 5, 0) && kept
}

fn keeps_file(alloc: Global) -> Result<bool, Fail> {
    let state = state_after(alloc, DISK_AFTER_POWER_LOSS, KILLED_AT_TEN, 6)?;
    if !has_disk(&state) {
        return Ok(false);
    }
    let made = state_again(alloc, DISK_AFTER_POWER_LOSS, KILLED_AT_TEN, state)?;
    Ok(has_disk(&made))
}

#[test]
fn keeps_a_disk(rt: HostRuntime) -> Result<(), Fail> {
    assert!(rt; keeps_file(rt.alloc())?);
    Ok(())
}

// After the kill and the boot at one time, whose lines stand in the script: two are done.
fn counts_lines(alloc: Global) -> Result<bool, Fail> {
    let state = state_after(alloc, DISK_AFTER_POWER_LOSS, KILLED_AT_TEN, 8)?;
    if (state.events, state.time, state.script) != (8, 10, 2) {
        return Ok(false);
    }
    let made = state_again(alloc, DISK_AFTER_POWER_LOSS, KILLED_AT_TEN, state)?;
    Ok((made.events, made.time, made.script) == (8, 10, 2))
}

#[test]
fn counts_lines_of_the_script(rt: HostRuntime) -> Result<(), Fail> {
    assert!(rt; counts_lines(rt.alloc())?);
    Ok(())
}
