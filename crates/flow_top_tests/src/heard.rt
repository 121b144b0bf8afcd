// A monitor that is named on the command line hears a line once it has gone out.

ghost use Rattle.std.specs.Prelude.{codes};
ghost use Rattle.flow_monitor.specs.declared.monitor.Heard.TheVariants.{Go};

use crate::tests::{two_files, words};
use flow_base::mem_sink::MemSink;
use flow_monitor::{Heard, Monitor};
use flow_top::flow_main;
use flow_trace::line::Line;
use std::alloc::{AllocError, Global};
use std::cell::Cell;
use std::rc::Rc;

// Clients that ask a server, each with the promise of its reply.
const REQUESTS: &[u8] = b"\
struct Ask {
    int n;
    Promise<int> reply;
};
ACTOR Future<Void> server(FutureStream<Ask> asks) {
    loop {
        Ask a = waitNext(asks);
        if (a.n > 0) {
            a.reply.send(a.n * 2);
        }
    }
}
ACTOR Future<int> client(PromiseStream<Ask> to, int n) {
    Promise<int> r;
    to.send(Ask(n, r));
    int got = wait(r.getFuture());
    return got;
}
ACTOR Future<Void> main(int p) {
    state PromiseStream<Ask> asks;
    state Future<Void> s = server(asks.getFuture());
    int good = wait(client(asks, 21));
    trace(good);
    return Void();
}";

// Counts the lines that it hears.
struct Counting {
    heard: Rc<Cell<u64>>,
}

impl Drop for Counting {
    fn drop(self) {
        let Counting { heard: _ } = self;
    }
}

impl Monitor for Counting {
    ghost label = { λ m. codes "counting" };

    ghost ear = { λ m before line. Go };

    ghost begun = { λ m limit before line. Go };

    fn name(&self) -> &str {
        "counting"
    }

    fn begin(&mut self, _limit: u64) {}

    fn line(&mut self, _line: &Line) -> Heard {
        self.heard.set(self.heard.get().wrapping_add(1));
        Heard::Go
    }
}

// What a run is answered whose sink fails at its fourth call, and which a monitor hears.
fn broken_off(alloc: Global, counting: Counting) -> Result<u8, AllocError> {
    let mut monitors: Vec<Box<dyn Monitor>> = Vec::new(alloc);
    monitors.push(Box::new(alloc, counting)?)?;
    let mut files = two_files(alloc, REQUESTS, b"", Vec::new(alloc))?;
    let mut out = MemSink::new(alloc, vec![in alloc; 4]?);
    let words = words(alloc, &["run", "p", "w", "--monitor", "counting=0"])?;
    Ok(flow_main(alloc, &words, &mut files, &mut out, monitors))
}

#[test]
fn a_line_that_did_not_go_out_is_not_heard(rt: HostRuntime) -> Result<(), AllocError> {
    let alloc = rt.alloc();
    let heard = Rc::new(alloc, Cell::new(0u64))?;
    let counting = Counting {
        heard: Rc::clone(&heard)?,
    };
    assert_eq!(rt; broken_off(alloc, counting)?, 6);
    // The event and the start of main: the first line of the trace isn't told.
    assert_eq!(rt; heard.get(), 2);
    Ok(())
}
