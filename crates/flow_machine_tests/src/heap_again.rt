// A run that goes on in a machine made from the state of the one that it began in.

use crate::running::Running;
use flow_base::ids::CellId;
use flow_machine::host::Burst;
use std::alloc::Global;
use std::test::Fail;

const DROPPED_WHILE_RUNNING: &[u8] =
    b"ACTOR Future<Void> a(Promise<Void> go) { wait(delay(1)); go.send(Void()); trace(\"still running\"); wait(Never()); return Void(); } ACTOR Future<Void> main(int p) { state Promise<Void> go; state Future<Void> f = a(go); wait(go.getFuture()); f = Never(); trace(\"dropped\"); return Void(); }";

const STARTED: &[u8] = b"start 1 main\nstart 2 a\nwait 2 1\nwait 1 1\n";

const DROPPED: &[u8] =
    b"take 2 1 0\ntake 1 1 0\ncancel 2\nprint 1 \"dropped\"\ndone 1\nprint 2 \"still running\"\nthrow 2 1101\nfail 2 1101\n";

fn drops_an_actor(alloc: Global, running: &mut Running) -> Result<bool, Fail> {
    if !running.told(alloc, STARTED)? {
        return Ok(false);
    }
    running.again(alloc)?;
    running.deliver(CellId(4), 1)?;
    running.told(alloc, DROPPED)
}

fn leaves_no_actor(alloc: Global, running: &mut Running) -> Result<bool, Fail> {
    running.again(alloc)?;
    Ok(running.machine.live() == 0 && running.machine.holds_main())
}

fn drops_alone(alloc: Global, running: &mut Running) -> Result<bool, Fail> {
    Ok(drops_an_actor(alloc, running)? && leaves_no_actor(alloc, running)?)
}

fn dropped_while_running(alloc: Global) -> Result<bool, Fail> {
    let mut running = Running::start(alloc, DROPPED_WHILE_RUNNING)?;
    drops_alone(alloc, &mut running)
}

// An actor that is cancelled while it runs: each event begins in a machine made from the state of the one before.
#[test]
fn heap_again_dropped_while_running(rt: HostRuntime) -> Result<(), Fail> {
    assert!(rt; dropped_while_running(rt.alloc())?);
    Ok(())
}

const THREE_LEAVES: &[u8] =
    b"ACTOR Future<Void> leaf(int n) { wait(Never()); return Void(); } ACTOR Future<Void> main(int p) { state Future<Void> x = leaf(1); state Future<Void> y = leaf(2); state Future<Void> z = leaf(3); wait(Never()); return Void(); }";

const CANCELLED: &[u8] =
    b"cancel 1\nthrow 1 1101\ncancel 4\nthrow 4 1101\nfail 4 1101\ncancel 3\nthrow 3 1101\nfail 3 1101\ncancel 2\nthrow 2 1101\nfail 2 1101\nfail 1 1101\n";

fn has_four_waits(alloc: Global, running: &mut Running) -> Result<bool, Fail> {
    running.again(alloc)?;
    Ok(running.frames()? == 4 && running.callbacks()? == 4)
}

fn cancels_all(alloc: Global, running: &mut Running) -> Result<bool, Fail> {
    running.stop(5)?;
    running.told(alloc, CANCELLED)
}

fn leaves_nothing(alloc: Global, running: &mut Running) -> Result<bool, Fail> {
    running.again(alloc)?;
    Ok(running.machine.live() == 0 && !running.machine.holds_main())
}

fn stops(alloc: Global, running: &mut Running) -> Result<bool, Fail> {
    Ok(
        has_four_waits(alloc, running)?
            && cancels_all(alloc, running)?
            && leaves_nothing(alloc, running)?,
    )
}

fn stopped_in_order(alloc: Global) -> Result<bool, Fail> {
    let mut running = Running::start(alloc, THREE_LEAVES)?;
    stops(alloc, &mut running)
}

// A process that is stopped in a machine made from the state of the one that it ran in.
#[test]
fn heap_again_stop_cancels_in_order(rt: HostRuntime) -> Result<(), Fail> {
    assert!(rt; stopped_in_order(rt.alloc())?);
    Ok(())
}

const REQUESTS: &[u8] =
    b"struct Ask { int n; Promise<int> reply; }; ACTOR Future<Void> server(FutureStream<Ask> asks) { loop { Ask a = waitNext(asks); if (a.n > 0) { a.reply.send(a.n * 2); } } } ACTOR Future<int> client(PromiseStream<Ask> to, int n) { Promise<int> r; to.send(Ask(n, r)); int got = wait(r.getFuture()); return got; } ACTOR Future<Void> main(int p) { state PromiseStream<Ask> asks; state Future<Void> s = server(asks.getFuture()); int good = wait(client(asks, 21)); trace(good); try { int bad = wait(client(asks, 0)); trace(bad); } catch (Error& e) { trace(e.code()); } return Void(); }";

const ANSWERED: &[u8] =
    b"start 1 main\nstart 2 server\nwait 2 1\nstart 3 client\ntake 2 1 0\nwait 2 1\ntake 3 1 0\ndone 3\ntake 1 1 0\nprint 1 42\nstart 4 client\ntake 2 1 0\nwait 2 1\nwait 4 1\nbroken 7\ntake 4 1 0\nthrow 4 1100\nfail 4 1100\ntake 1 2 0\nthrow 1 1100\ncatch 1 1100\nprint 1 1100\ncancel 2\nthrow 2 1101\nfail 2 1101\ndone 1\n";

fn answers(alloc: Global, running: &mut Running) -> Result<bool, Fail> {
    if !running.told(alloc, ANSWERED)? {
        return Ok(false);
    }
    running.again(alloc)?;
    Ok(running.machine.holds_main())
}

fn rests(running: &mut Running) -> Result<bool, Fail> {
    Ok(running.stop(1)? == Burst::Rested && running.machine.live() == 0)
}

fn serves(alloc: Global, running: &mut Running) -> Result<bool, Fail> {
    Ok(answers(alloc, running)? && rests(running)?)
}

fn served(alloc: Global) -> Result<bool, Fail> {
    let mut running = Running::start(alloc, REQUESTS)?;
    serves(alloc, &mut running)
}

// Requests that carry the promise of their reply: all in one event, which leaves the held result of `main` alone.
#[test]
fn heap_again_request_server(rt: HostRuntime) -> Result<(), Fail> {
    assert!(rt; served(rt.alloc())?);
    Ok(())
}
