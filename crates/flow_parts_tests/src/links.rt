// Tests of flow_simnet.

ghost use Rattle.std.specs.Prelude.{◌≤◌, length};

use flow_base::ids::ProcId;
use flow_base::memory::NoMemory;
use flow_base::text::Text;
use flow_draw::Draws;
use flow_draw::question::Question;
use flow_simnet::{Fate, Net, NetState, Packet, Sent};
use std::alloc::Global;

/// When a packet is sent, from which process, and to which.
#[derive(Clone, Copy)]
struct Way {
    now: u64,
    from: ProcId,
    to: ProcId,
}

// Sends a packet on a way between four processes, where few were sent: `None` where it can't be.
fn send(
    alloc: Global,
    net: &mut Net,
    draws: &mut Draws,
    way: Way,
    bytes: &[u8],
) -> Result<Option<Sent>, NoMemory>
    requires { length bytes.now ≤ 4 }
{
    if net.processes() != 4 || way.from.0 >= 4 || way.to.0 >= 4 || way.now >= 1 << 40 {
        return Ok(None);
    }
    if net.sent() >= 1 << 40 || draws.used() >= 1 << 40 {
        return Ok(None);
    }
    let text = Text::new(alloc, bytes)?;
    Ok(Some(net.send(way.now, way.from, way.to, 7, text, draws)?))
}

const THERE: Way = Way {
    now: 0,
    from: ProcId(0),
    to: ProcId(1),
};

const FIRST: Sent = Sent {
    number: 1,
    fate: Fate::At(3),
};

const SECOND: Sent = Sent {
    number: 2,
    fate: Fate::At(2),
};

// Two packets with delays of 3 and 2 ticks.
fn sends_two(alloc: Global, net: &mut Net, draws: &mut Draws) -> Result<bool, NoMemory> {
    let first = send(alloc, net, draws, THERE, b"a")?;
    let second = send(alloc, net, draws, THERE, b"b")?;
    Ok(first == Some(FIRST) && second == Some(SECOND))
}

fn is_second(packet: &Packet) -> bool {
    packet.number == 2
        && packet.from == ProcId(0)
        && packet.to == ProcId(1)
        && packet.port == 7
        && packet.text.bytes() == b"b".as_slice()
}

// Whether the second packet arrives.
fn arrives_whole(net: &mut Net) -> bool {
    let arrived = net.arrive(2);
    match &arrived {
        Some(packet) => is_second(packet),
        None => false,
    }
}

// Whether a packet of this number arrives.
fn arrives(net: &mut Net, number: u64) -> bool {
    net.arrive(number).is_some()
}

fn overtakes(alloc: Global, net: &mut Net, draws: &mut Draws) -> Result<bool, NoMemory> {
    Ok(
        sends_two(alloc, net, draws)?
            && draws.used() == 4
            && arrives_whole(net)
            && !arrives(net, 2)
            && !arrives(net, 4),
    )
}

fn overtakes_over(alloc: Global, draws: &mut Draws) -> Result<bool, NoMemory> {
    let mut net = Net::new(alloc, 4, (1, 4), 0)?;
    overtakes(alloc, &mut net, draws)
}

fn overtakes_alone(alloc: Global) -> Result<bool, NoMemory> {
    let mut draws = Draws::new(alloc, 0, vec![in alloc; 0, 2, 0, 1, 0, 0]?);
    overtakes_over(alloc, &mut draws)
}

#[test]
fn packets_out_of_order(rt: HostRuntime) -> Result<(), NoMemory> {
    assert!(rt; overtakes_alone(rt.alloc())?);
    Ok(())
}

// Cuts the link of two of four processes.
fn cut(net: &mut Net) -> bool {
    if net.processes() != 4 {
        return false;
    }
    net.cut(ProcId(2), ProcId(1));
    true
}

fn heal(net: &mut Net) -> bool {
    if net.processes() != 4 {
        return false;
    }
    net.heal(ProcId(1), ProcId(2));
    true
}

// What becomes of a packet without a byte.
fn fate(
    alloc: Global,
    net: &mut Net,
    draws: &mut Draws,
    from: u8,
    to: u8,
) -> Result<Option<Fate>, NoMemory> {
    let way = Way {
        now: 5,
        from: ProcId(from),
        to: ProcId(to),
    };
    match send(alloc, net, draws, way, b"")? {
        Some(sent) => Ok(Some(sent.fate)),
        None => Ok(None),
    }
}

// Over a cut link no word is drawn, and to itself a process has one that isn't cut.
fn cuts(alloc: Global, net: &mut Net, draws: &mut Draws) -> Result<bool, NoMemory> {
    Ok(
        cut(net)
            && fate(alloc, net, draws, 1, 2)? == Some(Fate::Cut)
            && draws.used() == 0
            && fate(alloc, net, draws, 2, 2)? == Some(Fate::Drawn)
            && draws.used() == 1,
    )
}

// What a packet that is lost and one that comes are asked for.
const LOST: [Question; 1] = [Question::Loses(500)];

const COMES: [Question; 3] = [
    Question::Loses(500),
    Question::Loses(500),
    Question::Among(3),
];

// A cut packet asks nothing, one that is lost one question, and one that comes two.
fn asks(alloc: Global, net: &mut Net, draws: &mut Draws) -> Result<bool, NoMemory> {
    Ok(
        cut(net)
            && fate(alloc, net, draws, 1, 2)? == Some(Fate::Cut)
            && draws.noted().is_empty()
            && fate(alloc, net, draws, 2, 2)? == Some(Fate::Drawn)
            && draws.noted() == LOST.as_slice()
            && fate(alloc, net, draws, 2, 2)? == Some(Fate::At(6))
            && draws.noted() == COMES.as_slice(),
    )
}

fn asks_over(alloc: Global, draws: &mut Draws) -> Result<bool, NoMemory> {
    let mut net = Net::new(alloc, 4, (1, 4), 500)?;
    asks(alloc, &mut net, draws)
}

fn asks_alone(alloc: Global) -> Result<bool, NoMemory> {
    let mut draws = Draws::noting(alloc, 0, vec![in alloc; 499, 500, 9]?, 4)?;
    asks_over(alloc, &mut draws)
}

#[test]
fn questions_of_packets(rt: HostRuntime) -> Result<(), NoMemory> {
    assert!(rt; asks_alone(rt.alloc())?);
    Ok(())
}

fn cuts_over(alloc: Global, draws: &mut Draws) -> Result<bool, NoMemory> {
    let mut net = Net::new(alloc, 4, (1, 2), 500)?;
    cuts(alloc, &mut net, draws)
}

fn cuts_alone(alloc: Global) -> Result<bool, NoMemory> {
    let mut draws = Draws::new(alloc, 0, vec![in alloc; 499, 9]?);
    cuts_over(alloc, &mut draws)
}

#[test]
fn cut_before_any_draw(rt: HostRuntime) -> Result<(), NoMemory> {
    assert!(rt; cuts_alone(rt.alloc())?);
    Ok(())
}

const BACK: Way = Way {
    now: 5,
    from: ProcId(2),
    to: ProcId(1),
};

const AFTER_BACK: Sent = Sent {
    number: 1,
    fate: Fate::At(6),
};

fn is_healed(alloc: Global, net: &mut Net, draws: &mut Draws) -> Result<bool, NoMemory> {
    let sent = send(alloc, net, draws, BACK, b"")?;
    Ok(sent == Some(AFTER_BACK) && draws.used() == 2)
}

fn heals(alloc: Global, net: &mut Net, draws: &mut Draws) -> Result<bool, NoMemory> {
    Ok(cut(net) && heal(net) && is_healed(alloc, net, draws)?)
}

fn heals_over(alloc: Global, draws: &mut Draws) -> Result<bool, NoMemory> {
    let mut net = Net::new(alloc, 4, (1, 2), 500)?;
    heals(alloc, &mut net, draws)
}

fn heals_alone(alloc: Global) -> Result<bool, NoMemory> {
    let mut draws = Draws::new(alloc, 0, vec![in alloc; 500, 9]?);
    heals_over(alloc, &mut draws)
}

#[test]
fn a_healed_link_draws_again(rt: HostRuntime) -> Result<(), NoMemory> {
    assert!(rt; heals_alone(rt.alloc())?);
    Ok(())
}

fn letter(alloc: Global) -> Result<Packet, NoMemory> {
    Ok(Packet {
        number: 2,
        from: ProcId(0),
        to: ProcId(1),
        port: 7,
        text: Text::new(alloc, b"c")?,
    })
}

fn letters(alloc: Global) -> Result<Vec<Packet>, NoMemory> {
    let letter = letter(alloc)?;
    Ok(vec![in alloc; letter]?)
}

fn restored(alloc: Global) -> Result<Net, NoMemory> {
    let cuts = vec![in alloc; (ProcId(2), ProcId(1))]?;
    let on_way = letters(alloc)?;
    let given = NetState {
        packets: 3,
        cuts,
        on_way,
    };
    Net::restore(alloc, 4, (1, 4), 0, given)
}

fn is_kept(state: &NetState) -> bool {
    state.packets == 3
        && state.cuts.as_slice() == [(ProcId(1), ProcId(2))].as_slice()
        && state.on_way.len() == 1
}

fn keeps_parts(net: &Net) -> Result<bool, NoMemory> {
    let state = net.state()?;
    Ok(is_kept(&state))
}

fn gives_letter(net: &mut Net) -> bool {
    let arrived = net.arrive(2);
    match &arrived {
        Some(packet) => packet.text.bytes() == b"c".as_slice(),
        None => false,
    }
}

fn restores(net: &mut Net) -> Result<bool, NoMemory> {
    Ok(keeps_parts(net)? && gives_letter(net))
}

fn restores_alone(alloc: Global) -> Result<bool, NoMemory> {
    let mut net = restored(alloc)?;
    restores(&mut net)
}

#[test]
fn restores_parts(rt: HostRuntime) -> Result<(), NoMemory> {
    assert!(rt; restores_alone(rt.alloc())?);
    Ok(())
}

// The packet with this count is sent: whether the one behind half its number arrives.
fn pass(
    alloc: Global,
    net: &mut Net,
    draws: &mut Draws,
    count: u32,
) -> Result<Option<bool>, NoMemory> {
    let way = Way {
        now: u64::from(count),
        from: ProcId(0),
        to: ProcId((count % 4) as u8),
    };
    let Some(sent) = send(alloc, net, draws, way, b"ping")? else {
        return Ok(None);
    };
    Ok(Some(arrives(net, sent.number / 2 + 1)))
}

// How many packets arrive of a million.
fn arrivals(alloc: Global, net: &mut Net, draws: &mut Draws) -> Result<Option<u64>, NoMemory> {
    let mut arrived = 0u64;
    for count in 0..1_000_000u32 {
        match pass(alloc, net, draws, count)? {
            Some(true) => arrived = arrived.saturating_add(1),
            Some(false) => {}
            None => return Ok(None),
        }
    }
    Ok(Some(arrived))
}

fn arrivals_over(alloc: Global, draws: &mut Draws) -> Result<Option<u64>, NoMemory> {
    let mut net = Net::new(alloc, 4, (1, 100), 10)?;
    arrivals(alloc, &mut net, draws)
}

fn arrivals_alone(alloc: Global) -> Result<Option<u64>, NoMemory> {
    let mut draws = Draws::new(alloc, 7, Vec::new(alloc));
    arrivals_over(alloc, &mut draws)
}

#[test]
fn a_million_packets(rt: HostRuntime) -> Result<(), NoMemory> {
    let arrived = arrivals_alone(rt.alloc())?;
    assert!(rt;
        matches!(arrived, Some(count) if count > 450_000),
        "{arrived:?}"
    );
    Ok(())
}
