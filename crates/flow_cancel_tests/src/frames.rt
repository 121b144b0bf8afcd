ghost use Rattle.std.specs.Prelude.{◌≡◌, []};

use flow_base::ids::{ActorId, CellId};
use flow_base::memory::NoMemory;
use flow_frame::frames::Frames;
use flow_frame::held::Held;
use std::alloc::Global;

// A place of the frame of actor 1 holds this, where there is such a place; gives what it held.
fn put(frames: &mut Frames<u64>, place: u32, value: u64) -> Result<Option<u64>, NoMemory> {
    match frames.places_of(ActorId(1)) {
        Some(places) => {
            if place >= places {
                return Ok(None);
            }
            frames.set_slot(ActorId(1), place, Some(value))
        }
        None => Ok(None),
    }
}

// The frame of actor 1 waits in state 2, where it is there.
fn wait(frames: &mut Frames<u64>) -> bool {
    if !frames.contains(ActorId(1)) {
        return false;
    }
    frames.set_state(ActorId(1), 2);
    true
}

// Whether a place holds what it was given last, and the others nothing.
fn holds_what_came(frames: &mut Frames<u64>) -> Result<bool, NoMemory>
    requires { frames.old ≡ record { things = []; greatest = 0 } }
{
    frames.enter(ActorId(1), 7, 3)?;
    let empty = frames.held(ActorId(1), 2) == None;
    let first = put(frames, 1, 10)? == None;
    let second = put(frames, 1, 11)? == Some(10);
    let waits = wait(frames);
    let kept = frames.held(ActorId(1), 1) == Some(&11);
    let others = frames.held(ActorId(1), 2) == None && frames.places_of(ActorId(1)) == Some(3);
    Ok(empty && first && second && waits && kept && others)
}

// A function that makes frames has one end, since all of them are dropped at each.
fn places_in_turn(alloc: Global) -> Result<bool, NoMemory> {
    let mut frames: Frames<u64> = Frames::new(alloc)?;
    holds_what_came(&mut frames)
}

#[test]
fn places_keep_what_they_hold(rt: HostRuntime) -> Result<(), NoMemory> {
    assert!(rt; places_in_turn(rt.alloc())?);
    Ok(())
}

// The frame of actor 1 goes on at block 4 and instruction 5, where it is there.
fn go_on(frames: &mut Frames<u64>) -> bool {
    if !frames.contains(ActorId(1)) {
        return false;
    }
    frames.go(ActorId(1), (4, 5));
    true
}

// Whether the frame of actor 1 stands at this block and instruction.
fn stands_at(frames: &Frames<u64>, at: (u32, u32)) -> bool {
    frames.contains(ActorId(1)) && frames.at(ActorId(1)) == at
}

// Whether the frame of actor 1 is of this class, in this state.
fn is_in(frames: &Frames<u64>, class: u32, state: u32) -> bool {
    frames.contains(ActorId(1))
        && frames.class(ActorId(1)) == class
        && frames.state(ActorId(1)) == state
}

// Whether a frame stands where it was put while it runs, and nowhere while it waits.
fn stands_while_it_runs(frames: &mut Frames<u64>) -> Result<bool, NoMemory>
    requires { frames.old ≡ record { things = []; greatest = 0 } }
{
    frames.enter(ActorId(1), 7, 3)?;
    let runs = go_on(frames) && stands_at(frames, (4, 5)) && is_in(frames, 7, 0);
    let waits = wait(frames) && stands_at(frames, (0, 0)) && is_in(frames, 7, 2);
    Ok(runs && waits)
}

fn states_in_turn(alloc: Global) -> Result<bool, NoMemory> {
    let mut frames: Frames<u64> = Frames::new(alloc)?;
    stands_while_it_runs(&mut frames)
}

#[test]
fn a_waiting_frame_stands_nowhere(rt: HostRuntime) -> Result<(), NoMemory> {
    assert!(rt; states_in_turn(rt.alloc())?);
    Ok(())
}

// Actor 1 waits at this cell besides, where it has a frame.
fn add(frames: &mut Frames<u64>, held: Held) -> Result<bool, NoMemory> {
    if !frames.contains(ActorId(1)) {
        return Ok(false);
    }
    frames.add_callback(ActorId(1), held)?;
    Ok(true)
}

// The first callback of actor 1, which is taken.
fn take(frames: &mut Frames<u64>) -> Option<Held> {
    if !frames.contains(ActorId(1)) {
        return None;
    }
    frames.take_callback(ActorId(1))
}

// How many callbacks actor 1 has.
fn count(frames: &Frames<u64>) -> usize {
    if !frames.contains(ActorId(1)) {
        return 0;
    }
    frames.callbacks(ActorId(1)).len()
}

// Whether callbacks are taken in the order in which they came.
fn takes_the_first(frames: &mut Frames<u64>) -> Result<bool, NoMemory>
    requires { frames.old ≡ record { things = []; greatest = 0 } }
{
    let one = Held {
        callback: 1,
        cell: CellId(8),
    };
    let two = Held {
        callback: 2,
        cell: CellId(9),
    };
    frames.enter(ActorId(1), 7, 0)?;
    let added = add(frames, one)? && add(frames, two)?;
    let both = count(frames) == 2;
    let first = take(frames) == Some(one);
    let second = take(frames) == Some(two);
    Ok(added && both && first && second && take(frames) == None)
}

fn callbacks_in_turn(alloc: Global) -> Result<bool, NoMemory> {
    let mut frames: Frames<u64> = Frames::new(alloc)?;
    takes_the_first(&mut frames)
}

#[test]
fn the_first_callback_comes_first(rt: HostRuntime) -> Result<(), NoMemory> {
    assert!(rt; callbacks_in_turn(rt.alloc())?);
    Ok(())
}

// Whether the number after one is that of the next frame that is there.
fn skips_none(frames: &mut Frames<u64>) -> Result<bool, NoMemory>
    requires { frames.old ≡ record { things = []; greatest = 0 } }
{
    frames.enter(ActorId(2), 7, 1)?;
    frames.enter(ActorId(5), 8, 2)?;
    let class = frames.class(ActorId(5)) == 8;
    let next = frames.next_actor(ActorId(2)) == Some(ActorId(5));
    frames.close(ActorId(5));
    let last = frames.next_actor(ActorId(2)) == None;
    frames.clear();
    let cleared = frames.next_actor(ActorId(0)) == None;
    frames.enter(ActorId(6), 7, 1)?;
    Ok(class && next && last && cleared)
}

fn numbers_in_turn(alloc: Global) -> Result<bool, NoMemory> {
    let mut frames: Frames<u64> = Frames::new(alloc)?;
    skips_none(&mut frames)
}

#[test]
fn the_next_frame_skips_none(rt: HostRuntime) -> Result<(), NoMemory> {
    assert!(rt; numbers_in_turn(rt.alloc())?);
    Ok(())
}
