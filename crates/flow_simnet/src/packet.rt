// Packets, and what becomes of them.

use flow_base::ids::ProcId;
use flow_base::text::Text;

/// A packet: its number, from 1 over the whole world, the processes that it is from and for, the port that it is
/// for, and its text.
#[derive(Drop)]
pub struct Packet {
    pub number: u64,
    pub from: ProcId,
    pub to: ProcId,
    pub port: u16,
    pub text: Text,
}

/// A packet without its number.
#[derive(Drop)]
pub struct Letter {
    pub from: ProcId,
    pub to: ProcId,
    pub port: u16,
    pub text: Text,
}

/// What becomes of a packet: it is lost over a cut link, or by a drawn word, or it arrives at a time in ticks.
#[derive(Clone, Copy, PartialEq, Eq)]
pub enum Fate {
    Cut,
    Drawn,
    At(u64),
}

/// A packet was sent: its number, and what becomes of it.
#[derive(Clone, Copy, PartialEq, Eq)]
pub struct Sent {
    pub number: u64,
    pub fate: Fate,
}

/// The links as plain data: how many packets were sent, the cut links, each once with the lesser process first, and the
/// packets on their way, both rising.
#[derive(Drop)]
pub struct NetState {
    pub packets: u64,
    pub cuts: Vec<(ProcId, ProcId)>,
    pub on_way: Vec<Packet>,
}
