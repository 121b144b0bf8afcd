// Tests of flow_storm: the text of a world under a storm.

ghost use Rattle.flow_worldfile.specs.Worlds.{IsInRange, seen};

use flow_storm::storm::MOST_HORIZON;
use flow_storm::{Storm, add_storm, has_room};
use flow_worldfile::{World0, print_world, read_world};
use std::alloc::Global;
use std::test::Fail;

const THREE: &[u8] = b"processes 3\nlatency 1 5\nat 2 kill 1\n";

const SIX_FAULTS: &[u8] = b"seed 4
processes 3
events 1000
turns 100000
latency 1 5
diskdelay 1 2
loss 0
at 2 kill 1
at 10 stop 1
at 14 boot 1
at 15 kill 0
at 17 boot 0
at 11 kill 2
at 19 boot 2
at 40 kill 1
at 45 boot 1
at 43 kill 1
at 44 boot 1
at 60 kill 2
at 64 boot 2
";

const ONE: &[u8] = b"seed 9\n";

const FAR: &[u8] = b"seed 18446744073709551615
processes 1
events 1000
turns 100000
latency 1 2
diskdelay 1 2
loss 0
at 651647863 kill 0
at 662482895 boot 0
at 18631478 stop 0
at 49108510 boot 0
at 831037616 kill 0
at 928514410 boot 0
at 75946529 kill 0
at 92328896 boot 0
at 657865218 stop 0
at 722587724 boot 0
";

const NO_FAULT: &[u8] = b"seed 7
processes 1
events 1000
turns 100000
latency 1 2
diskdelay 1 2
loss 0
";

const TWO: &[u8] = b"processes 2\n";

const ALL_KINDS: &[u8] = b"seed 10
processes 2
events 1000
turns 100000
latency 1 2
diskdelay 1 2
loss 0
at 1 kill 1
at 2 boot 1
at 0 kill 0
at 1 boot 0
at 6 stop 1
at 7 boot 1
at 1 stop 0
at 2 boot 0
at 6 cut 1 0
at 7 heal 1 0
at 7 cut 1 0
at 8 heal 1 0
at 4 diskfail 0 1
at 5 cut 0 1
at 6 heal 0 1
";

// The seed of all kinds.
const KINDS_SEED: u64 = 10;

// The world under a storm, printed.
fn stormy(alloc: Global, mut world: World0, seed: u64, storm: Storm) -> Result<Vec<u8>, Fail>
    requires { IsInRange (seen world) }
{
    if storm.horizon > MOST_HORIZON || !has_room(&world, storm) {
        return Err(Fail::from("no such storm"));
    }
    add_storm(alloc, &mut world, seed, storm)?;
    Ok(print_world(alloc, &world)?)
}

// Whether the world of a text is printed so under a storm.
fn is_stormy(
    alloc: Global,
    text: &[u8],
    seed: u64,
    storm: Storm,
    wanted: &[u8],
) -> Result<bool, Fail> {
    match read_world(alloc, text) {
        Ok(world) => Ok(stormy(alloc, world, seed, storm)?.as_slice() == wanted),
        Err(_) => Ok(false),
    }
}

#[test]
fn faults_follow_the_script(rt: HostRuntime) -> Result<(), Fail> {
    let alloc = rt.alloc();
    let storm = Storm {
        faults: 6,
        horizon: 60,
    };
    assert!(rt; is_stormy(alloc, THREE, 4, storm, SIX_FAULTS)?);
    assert!(rt; !is_stormy(alloc, THREE, 5, storm, SIX_FAULTS)?);
    Ok(())
}

#[test]
fn each_kind_of_fault(rt: HostRuntime) -> Result<(), Fail> {
    let alloc = rt.alloc();
    let storm = Storm {
        faults: 8,
        horizon: 7,
    };
    assert!(rt; is_stormy(alloc, TWO, KINDS_SEED, storm, ALL_KINDS)?);
    Ok(())
}

#[test]
fn one_process_has_no_link(rt: HostRuntime) -> Result<(), Fail> {
    let alloc = rt.alloc();
    let far = Storm {
        faults: 5,
        horizon: MOST_HORIZON,
    };
    assert!(rt; is_stormy(alloc, ONE, u64::MAX, far, FAR)?);
    let none = Storm {
        faults: 0,
        horizon: 1,
    };
    assert!(rt; is_stormy(alloc, ONE, 7, none, NO_FAULT)?);
    Ok(())
}
