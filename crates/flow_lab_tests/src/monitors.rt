// Tests of flow_lab_monitors. A trace is a text of lines.

use flow_lab_monitors::{Held, Late, Throws};
use flow_monitor::{Heard, Monitor};
use flow_trace::read::read_line;
use std::alloc::Global;
use std::test::Fail;

fn is_stop<M: Monitor>(alloc: Global, monitor: &mut M, bytes: &[u8]) -> bool {
    match read_line(alloc, bytes) {
        Ok(line) => monitor.line(&line) == Heard::Stop,
        Err(_) => false,
    }
}

// The number of the first line of a text, from 1, at which a monitor says Stop that begins with a limit.
fn first_stop<M: Monitor>(alloc: Global, monitor: &mut M, limit: u64, text: &str) -> Option<u32> {
    monitor.begin(limit);
    let mut number: u32 = 0;
    for line in text.lines() {
        number = number.wrapping_add(1);
        if is_stop(alloc, monitor, line.as_bytes()) {
            return Some(number);
        }
    }
    None
}

#[test]
fn throws_stops_at_its_error(rt: HostRuntime) -> Result<(), Fail> {
    let alloc = rt.alloc();
    let text = "event 1 0 boot 0\nthrow 1 1101\ncatch 1 1101\nthrow 2 7\nthrow 2 65535\n";
    let mut throws = Throws::new();
    assert!(rt; first_stop(alloc, &mut throws, 1101, text) == Some(2));
    assert!(rt; first_stop(alloc, &mut throws, 7, text) == Some(4));
    assert!(rt; first_stop(alloc, &mut throws, 65535, text) == Some(5));
    assert!(rt; first_stop(alloc, &mut throws, 8, text) == None);
    Ok(())
}

#[test]
fn late_stops_past_its_limit(rt: HostRuntime) -> Result<(), Fail> {
    let alloc = rt.alloc();
    let text =
        "event 1 0 boot 0\nstart 1 main\nevent 2 4 cut 0 1\nevent 3 4 timer 0 1\nevent 4 9 packet 1 1\n";
    let mut late = Late::new();
    assert!(rt; first_stop(alloc, &mut late, 0, text) == Some(3));
    assert!(rt; first_stop(alloc, &mut late, 3, text) == Some(3));
    assert!(rt; first_stop(alloc, &mut late, 4, text) == Some(5));
    assert!(rt; first_stop(alloc, &mut late, 9, text) == None);
    Ok(())
}

// Two processes get and give: a kill takes what its own holds alone, and a link's event names no one process.
const HOLDS: &str = "event 1 0 boot 0
print 1 \"-none\"
print 1 \"+lock\"
print 1 \"lock\"
print 1 3
event 2 0 boot 1
print 1 \"+lock\"
event 3 1 cut 0 1
print 1 \"+\"
event 4 2 kill 1
event 5 3 timer 0 4
print 2 \"-\"
print 2 \"+lock\"
print 2 \"+lock\"
";

#[test]
fn held_counts_by_process(rt: HostRuntime) -> Result<(), Fail> {
    let alloc = rt.alloc();
    let mut held = Held::new();
    assert!(rt; first_stop(alloc, &mut held, 0, HOLDS) == Some(3));
    assert!(rt; first_stop(alloc, &mut held, 1, HOLDS) == Some(7));
    assert!(rt; first_stop(alloc, &mut held, 2, HOLDS) == Some(9));
    // After the kill one is left, which is given back.
    assert!(rt; first_stop(alloc, &mut held, 3, HOLDS) == None);
    Ok(())
}
