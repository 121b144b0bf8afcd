//! A program and a world of any size, for measuring: so many clients ask a server, and each process tells the next what it
//! counted.
#![tactic(auto)]

ghost use Rattle.std.specs.Prelude.{◌≡◌, ◌++◌, decimal, IfOk};
ghost use Rattle.flow_gen.specs.Generator.{main_text, program_text, generated_world};

use flow_base::memory::NoMemory;
use itoa::Buffer;
use std::alloc::Global;

/// What a client asks.
const ASK: &[u8] = b"\
struct Ask {
    int n;
    Promise<int> reply;
};
";

/// Who answers as many questions as there are clients, but for each seventh.
const SERVER: &[u8] = b"\
ACTOR Future<Void> server(FutureStream<Ask> asks, int most) {
    state int served = 0;
    while (served < most) {
        Ask a = waitNext(asks);
        served++;
        if (a.n % 7 != 0) {
            a.reply.send(a.n * 2);
        }
    }
    return Void();
}
";

/// Who waits a drawn time, asks and waits for the answer.
const CLIENT: &[u8] = b"\
ACTOR Future<int> client(PromiseStream<Ask> to, int n) {
    int d = randomInt(0, 100);
    wait(delay(d));
    Promise<int> r;
    to.send(Ask(n, r));
    int got = wait(r.getFuture());
    return got;
}
";

/// So many clients, and the sum of what they were answered.
const FAN: &[u8] = b"\
ACTOR Future<int> fan(PromiseStream<Ask> to, int n) {
    if (n == 0) {
        return 0;
    }
    state Future<int> c = client(to, n);
    state Future<int> rest = fan(to, n - 1);
    state int total = 0;
    try {
        int v = wait(c);
        total = v;
    } catch (Error& e) {
        total = 0;
    }
    int w = wait(rest);
    return total + w;
}
";

/// The actor of a process, up to the number of questions.
const MAIN: &[u8] = b"\
ACTOR Future<Void> main(int p) {
    state FutureStream<Packet> in = listen(7);
    state PromiseStream<Ask> asks;
    state Future<Void> s = server(asks.getFuture(), ";

/// From there to the number of clients.
const COUNTED: &[u8] = b"\
);
    int sum = wait(fan(asks, ";

/// From there to the end.
const TOLD: &[u8] = b"\
));
    trace(sum);
    sendTo((p + 1) % 4, 7, to_string(sum));
    Packet k = waitNext(in);
    trace(k.text);
    return Void();
}
";

/// The world of the generated programs, behind its seed: four processes, a million events, a million turns an event.
const SETTINGS: &[u8] = b"
processes 4
events 1000000
turns 1000000
latency 1 2
diskdelay 1 2
loss 0
";

// A piece of text, and a number behind it.
fn put_counted(text: &mut Vec<u8>, piece: &[u8], n: u32) -> Result<(), NoMemory>
    ensures { IfOk result (λ _. text.new.items ≡ text.old.items ++ (piece.now ++ decimal n)) }
{
    text.extend_from_slice(piece)?;
    text.extend_from_slice(Buffer::new().format(n).as_bytes())?;
    Ok(())
}

fn put_main(text: &mut Vec<u8>, n: u32) -> Result<(), NoMemory>
    ensures { IfOk result (λ _. text.new.items ≡ text.old.items ++ main_text (decimal n)) }
{
    put_counted(text, MAIN, n)?;
    put_counted(text, COUNTED, n)?;
    text.extend_from_slice(TOLD)?;
    Ok(())
}

/// The canonical text of the program with `n` clients a process, in bytes.
pub fn gen_program(alloc: Global, n: u32) -> Result<Vec<u8>, NoMemory>
    ensures { IfOk result (λ text. text.items ≡ program_text n) }
{
    let mut text = Vec::new(alloc);
    text.extend_from_slice(ASK)?;
    text.extend_from_slice(SERVER)?;
    text.extend_from_slice(CLIENT)?;
    text.extend_from_slice(FAN)?;
    put_main(&mut text, n)?;
    Ok(text)
}

/// The text of the world in which the generated programs run, whatever their size, with this seed.
pub fn gen_world(alloc: Global, _n: u32, seed: u64) -> Result<Vec<u8>, NoMemory>
    ensures { IfOk result (λ text. text.items ≡ generated_world seed) }
{
    let mut text = Vec::new(alloc);
    text.extend_from_slice(b"seed ")?;
    text.extend_from_slice(Buffer::new().format(seed).as_bytes())?;
    text.extend_from_slice(SETTINGS)?;
    Ok(text)
}
