// Traces in words: actors of one number in two processes, a process that is killed and boots twice, every kind of line within an event,
// and a text with signs that are written otherwise elsewhere.

use crate::lines::lines_of;
use flow_base::fault::OutFault;
use flow_base::mem_sink::MemSink;
use flow_explain::texts::{ActorText, actor_texts};
use flow_explain::write_words;
use flow_lex::lex::lex;
use flow_parse::parse::parse;
use std::alloc::Global;
use std::test::Fail;

const PROGRAM: &[u8] = b"ACTOR Future<Void> asks(FutureStream<Packet> in) {
    choose {
        when (Packet k = waitNext(in)) {
            trace(k.text);
        }
        when (wait(delay(20))) {
            throw error(7777);
        }
    }
    return Void();
}
ACTOR Future<Void> main(int p) {
    state FutureStream<Packet> in = listen(7);
    wait(delay(1));
    wait(asks(in));
    return Void();
}
";

const TRACE: &str = "trace 1
event 1 0 boot 0
start 1 main
wait 1 1
event 2 0 boot 1
start 1 asks
wait 1 1
event 3 1 timer 0 2
take 1 1 0
send 1 1 7 \"<&\\\"\\xff\"
start 2 asks
wait 2 1
wait 1 2
event 4 3 packet 1 1
take 1 1 0
print 1 \"<&\\\"\\xff\"
print 1 -3
print 1 true
done 1
event 5 4 kill 1
kept \"f\\n\" 0 4 1
event 6 5 boot 1
start 1 main
take 1 2 0
event 7 6 stop 0
cancel 1
throw 1 1101
catch 1 1101
fail 1 9001
broken 3
take 2 1 1
throw 2 7777
event 8 7 cut 0 1
event 9 8 heal 1 0
event 10 9 diskfail 1 3
event 11 10 read 1 4 \"a\"
event 12 11 write 1 5 fail
event 13 12 sync 1 6 ok
event 14 13 size 1 7 9
send 2 0 7 \"\"
lost 2 cut
send 3 0 7 \"x\"
lost 3 draw
event 15 14 packet 1 4
discard 4
event 16 15 kill 1
event 17 16 boot 1
start 1 asks
end stop live
";

const IN_WORDS: &[u8] = b"trace 1
event 1 at 0: process 0 boots
    main 1 starts
    main 1 waits at 14:5
event 2 at 0: process 1 boots
    asks 1 starts
    asks 1 waits at 2:5
event 3 at 1: a timer of process 0
    main 1 goes on at 14:5
    packet 1 to process 1, port 7: \"<&\\\"\\xff\"
    asks 2 starts
    asks 2 waits at 2:5
    main 1 waits at 15:5
event 4 at 3: packet 1 comes to process 1
    asks 1 goes on at 3:9
    asks 1 prints \"<&\\\"\\xff\"
    asks 1 prints -3
    asks 1 prints true
    asks 1 ends
event 5 at 4: process 1 loses power
    of 4 bytes written to \"f\\n\" at 0, 1 stay
event 6 at 5: process 1 boots
    main 1 starts
    main 1 goes on at 15:5
event 7 at 6: process 0 is stopped
    main 1 is cancelled
    main 1 throws 1101 operation_cancelled
    main 1 catches 1101 operation_cancelled
    main 1 fails by 9001 out of range
    the last promise of cell 3 is gone
    asks 2 goes on at 6:9
    asks 2 throws 7777
event 8 at 7: the link of processes 0 and 1 is cut
event 9 at 8: the link of processes 1 and 0 heals
event 10 at 9: the next 3 disk requests of process 1 fail
event 11 at 10: the disk of process 1 answers a read: \"a\"
event 12 at 11: the disk of process 1 answers a write: fail
event 13 at 12: the disk of process 1 answers a sync: ok
event 14 at 13: the disk of process 1 answers a size: 9
    packet 2 to process 0, port 7: \"\"
    packet 2 is lost: the link is cut
    packet 3 to process 0, port 7: \"x\"
    packet 3 is lost: by a draw
event 15 at 14: packet 4 comes to process 1
    packet 4 is discarded: nobody listens
event 16 at 15: process 1 loses power
event 17 at 16: process 1 boots
    asks 1 starts
end stop live
";

// What stands after two calls.
const FIRST_LINES: &[u8] = b"trace 1\nevent 1 at 0: process 0 boots\n";

// The actors of the program.
fn texts(alloc: Global) -> Option<Vec<ActorText>> {
    let tokens = lex(alloc, PROGRAM).ok()?;
    let program = parse(alloc, &tokens).ok()?;
    actor_texts(alloc, &program.decls).ok()
}

// What is written of the trace where these calls of the sink fail, and how that is answered.
fn written(alloc: Global, failing: Vec<u64>) -> Option<(MemSink, Result<(), OutFault>)> {
    let texts = texts(alloc)?;
    let lines = lines_of(alloc, TRACE)?;
    let mut out = MemSink::new(alloc, failing);
    let answer = write_words(alloc, &texts, &lines, &mut out);
    Some((out, answer))
}

fn is_told_whole(alloc: Global) -> bool {
    match written(alloc, Vec::new(alloc)) {
        Some((out, Ok(()))) => out.bytes() == IN_WORDS,
        _ => false,
    }
}

// Where the third call fails, two lines stand.
fn is_told_in_part(alloc: Global) -> bool {
    let Ok(failing) = Vec::from_array(alloc, [3]) else {
        return false;
    };
    match written(alloc, failing) {
        Some((out, Err(OutFault::Failed))) => out.bytes() == FIRST_LINES,
        _ => false,
    }
}

#[test]
fn a_trace_is_told_in_words(rt: HostRuntime) -> Result<(), Fail> {
    let is_right = is_told_whole(rt.alloc());
    assert!(rt; is_right);
    Ok(())
}

#[test]
fn a_first_part_is_told_where_a_write_fails(rt: HostRuntime) -> Result<(), Fail> {
    let is_right = is_told_in_part(rt.alloc());
    assert!(rt; is_right);
    Ok(())
}
