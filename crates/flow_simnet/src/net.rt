// The links and the packets on their way.

ghost use Rattle.std.specs.Prelude.{◌≡◌, ◌+◌, ◌*◌, ◌<◌, ◌≤◌, ◌^◌, ◌-◌, [], ◌∷◌, false, replicate, OnErr, OnOk, IfOk, option_map, length};
ghost use Rattle.std.specs.Map.{lookup, remove_entry};
ghost use Rattle.std.specs.Ordering.{nat_cmp};
ghost use Rattle.std.specs.BTreeMap.{insert_entry, is_at};
ghost use Rattle.flow_draw.specs.declared.question.Question.TheVariants.{Among};
ghost use Rattle.flow_draw.specs.Words.{next_word, word_in, asked};
ghost use Rattle.flow_simnet.specs.Links.{link, cut, healed, width, draw_in, fate, questions_of, with_sent, numbered, cut_links};
ghost use Rattle.flow_simnet.specs.Links.{open_links, AreBelow, HasLinks, packets_of, all_cut, all_on_way, letter_of};

use crate::packet::{Fate, Letter, NetState, Packet, Sent};
use flow_base::ids::ProcId;
use flow_base::memory::NoMemory;
use flow_base::text::Text;
use flow_draw::Draws;
use std::alloc::Global;
use std::collections::BTreeMap;
use std::marker::Model;

/// The greatest number of processes.
const PROCESSES: usize = 64;

/// The links between up to 64 processes, one for each two and one for each to itself, and the packets on their way.
#[derive(Drop)]
pub struct Net {
    alloc: Global,
    processes: u8,
    latency: (u64, u64),
    loss: u16,
    packets: u64,
    cuts: Vec<bool>,
    on_way: BTreeMap<u64, Letter>,
}

impl Model for Net {
    ghost use Rattle.std.specs.Prelude.{◌≡◌, ◌<◌, ◌≤◌, length};
    ghost use Rattle.flow_simnet.specs.Links.{Links, HasLinks};

    ghost Value = { Links };

    ghost view = { λ n. record {
      processes = n.processes;
      latency = n.latency;
      loss = n.loss;
      sent = n.packets;
      cuts = n.cuts.items;
      on_way = n.on_way.entries;
    } };

    ghost invariant = { λ n. (n.processes ≤ 64) × (length n.cuts.items ≡ 4096)
        × HasLinks n.processes n.cuts.items × (n.latency.0 < n.latency.1)
        × (n.latency.1 ≤ 1000000000) };
}

impl Net {
    /// Links of so many processes, up to 64, of which none is cut, with the range of delays in ticks, its first number and
    /// the one past its last, at most 1,000,000,000, and the permille of packets that are lost.
    pub fn new(
        alloc: Global,
        processes: u8,
        latency: (u64, u64),
        loss: u16,
    ) -> Result<Net, NoMemory>
        requires one { 1 ≤ processes }
        requires few { processes ≤ 64 }
        requires some { latency.0 < latency.1 }
        requires soon { latency.1 ≤ 1000000000 }
        ensures { IfOk result (λ n. n ≡ open_links processes latency loss) }
    {
        Ok(Net {
            alloc,
            processes,
            latency,
            loss,
            packets: 0,
            cuts: vec![in alloc; false; PROCESSES * PROCESSES]?,
            on_way: BTreeMap::new(alloc),
        })
    }

    /// Sends a packet at a time in ticks: gives its number and what becomes of it. On an error the links are unchanged,
    /// and words may have been drawn.
    pub fn send(
        &mut self,
        now: u64,
        from: ProcId,
        to: ProcId,
        port: u16,
        text: Text,
        draws: &mut Draws,
    ) -> Result<Sent, NoMemory>
        requires from { from.0 < self.old.processes }
        requires to { to.0 < self.old.processes }
        requires early { now ≤ 2 ^ 63 }
        requires few { self.old.sent + 1 < 2 ^ 64 }
        requires room { draws.old.used + 2 < 2 ^ 63 }
        ensures number { IfOk result (λ s. s.number ≡ self.old.sent + 1) }
        ensures fate { let word = word_in draws.old in
            IfOk result (λ s. s.fate ≡ fate self.old now from.0 to.0 word) }
        ensures sent { IfOk result (λ s. self.new ≡ with_sent self.old s.fate
            (record { from = from; to = to; port = port; text = text })) }
        ensures drawn { IfOk result (λ s.
            draws.new ≡ asked draws.old (questions_of self.old.loss self.old.latency s.fate)) }
        ensures unchanged { OnErr result (self.new ≡ self.old) }
    {
        let number = self.packets + 1;
        let fate = self.fate(now, from, to, draws);
        if let Fate::At(_) = fate {
            let letter = Letter {
                from,
                to,
                port,
                text,
            };
            self.on_way.insert(number, letter)?;
        }
        self.packets = number;
        Ok(Sent { number, fate })
    }

    /// How many processes there are.
    pub fn processes(&self) -> u8
        ensures { result ≡ self.now.processes }
    {
        self.processes
    }

    /// How many packets were sent.
    pub fn sent(&self) -> u64
        ensures { result ≡ self.now.sent }
    {
        self.packets
    }

    /// What becomes of a packet.
    fn fate(&self, now: u64, from: ProcId, to: ProcId, draws: &mut Draws) -> Fate
        requires from { from.0 < self.now.processes }
        requires to { to.0 < self.now.processes }
        requires early { now ≤ 2 ^ 63 }
        requires room { draws.old.used + 2 < 2 ^ 63 }
        ensures fate { result ≡ fate self.now now from.0 to.0 (word_in draws.old) }
        ensures drawn { let questions = questions_of self.now.loss self.now.latency result in
            draws.new ≡ asked draws.old questions }
    {
        if self.cuts[link(from, to)] {
            return Fate::Cut;
        }
        if draws.loses(self.loss) {
            return Fate::Drawn;
        }
        Fate::At(now + draw(draws, self.latency))
    }

    /// Cuts the link of two processes, in both directions.
    pub fn cut(&mut self, p: ProcId, q: ProcId)
        requires p { p.0 < self.old.processes }
        requires q { q.0 < self.old.processes }
        ensures { self.new ≡ record self.old { cuts = cut self.old.cuts p.0 q.0 } }
    {
        self.cuts[link(p, q)] = true;
    }

    /// Heals the link of two processes, in both directions.
    pub fn heal(&mut self, p: ProcId, q: ProcId)
        requires p { p.0 < self.old.processes }
        requires q { q.0 < self.old.processes }
        ensures { self.new ≡ record self.old { cuts = healed self.old.cuts p.0 q.0 } }
    {
        self.cuts[link(p, q)] = false;
    }

    /// Takes the packet of this number off its way. `None`, and unchanged, exactly where it isn't on its way.
    pub fn arrive(&mut self, number: u64) -> Option<Packet>
        ensures packet { let found = lookup (is_at (nat_cmp number)) self.old.on_way in
            result ≡ option_map (numbered number) found }
        ensures left { let rest = remove_entry (is_at (nat_cmp number)) self.old.on_way in
            self.new ≡ record self.old { on_way = rest } }
    {
        let letter = self.on_way.remove(&number)?;
        Some(Packet {
            number,
            from: letter.from,
            to: letter.to,
            port: letter.port,
            text: letter.text,
        })
    }

    /// The links as plain data, of which they can be restored.
    pub fn state(&self) -> Result<NetState, NoMemory>
        ensures packets { IfOk result (λ s. s.packets ≡ self.now.sent) }
        ensures cuts { IfOk result (λ s. s.cuts.items ≡ cut_links 0 self.now.cuts) }
        ensures on_way { IfOk result (λ s. s.on_way.items ≡ packets_of self.now.on_way) }
        ensures links { IfOk result (λ s. AreBelow self.now.processes s.cuts.items) }
        ensures places { HasLinks self.now.processes self.now.cuts }
    {
        Ok(NetState {
            packets: self.packets,
            cuts: listed(self.alloc, &self.cuts)?,
            on_way: copied(self.alloc, &self.on_way)?,
        })
    }

    /// The links of this state, of so many processes, up to 64, with the range of delays and the permille.
    pub fn restore(
        alloc: Global,
        processes: u8,
        latency: (u64, u64),
        loss: u16,
        state: NetState,
    ) -> Result<Net, NoMemory>
        requires one { 1 ≤ processes }
        requires few { processes ≤ 64 }
        requires some { latency.0 < latency.1 }
        requires soon { latency.1 ≤ 1000000000 }
        requires links { AreBelow processes state.cuts.items }
        ensures { IfOk result (λ n. n ≡ record (open_links processes latency loss) {
          sent = state.packets;
          cuts = all_cut (replicate 4096 false) state.cuts.items;
          on_way = all_on_way [] state.on_way.items;
        }) }
    {
        let mut net = Net::new(alloc, processes, latency, loss)?;
        net.cut_all(&state.cuts);
        net.put_all(state.on_way)?;
        net.packets = state.packets;
        Ok(net)
    }

    /// Cuts these links.
    fn cut_all(&mut self, links: &[(ProcId, ProcId)])
        requires { AreBelow self.old.processes links.now }
        ensures { self.new ≡ record self.old { cuts = all_cut self.old.cuts links.now } }
    {
        for (p, q) in links.iter() {
            self.cut(*p, *q);
        }
    }

    /// Puts these packets on their way.
    fn put_all(&mut self, packets: Vec<Packet>) -> Result<(), NoMemory>
        ensures { OnOk result (self.new ≡ record self.old {
          on_way = all_on_way self.old.on_way packets.items;
        }) }
    {
        for packet in packets {
            self.put(packet)?;
        }
        Ok(())
    }

    /// Puts a packet on its way.
    fn put(&mut self, packet: Packet) -> Result<(), NoMemory>
        ensures { OnOk result (self.new ≡ record self.old {
          on_way = insert_entry nat_cmp self.old.on_way packet.number (letter_of packet);
        }) }
    {
        let letter = Letter {
            from: packet.from,
            to: packet.to,
            port: packet.port,
            text: packet.text,
        };
        self.on_way.insert(packet.number, letter)?;
        Ok(())
    }
}

/// The place of the link of two processes in the table.
fn link(p: ProcId, q: ProcId) -> usize
    requires p { p.0 < 64 }
    requires q { q.0 < 64 }
    ensures place { result ≡ link p.0 q.0 }
    ensures within { result < 4096 }
{
    usize::from(p.0.min(q.0)) * PROCESSES + usize::from(p.0.max(q.0))
}

/// A number of a range, by the next word.
fn draw(draws: &mut Draws, range: (u64, u64)) -> u64
    requires some { range.0 < range.1 }
    requires near { range.1 ≤ 1000000000 }
    requires room { draws.old.used + 1 < 2 ^ 63 }
    ensures number { result ≡ draw_in range (next_word draws.old) }
    ensures below { result < range.1 }
    ensures taken { draws.new ≡ asked draws.old (Among (width range) ∷ []) }
{
    range.0 + draws.below(range.1 - range.0)
}

/// The cut links, by their places.
fn listed(alloc: Global, cuts: &[bool]) -> Result<Vec<(ProcId, ProcId)>, NoMemory>
    requires { length cuts.now ≤ 4096 }
    ensures { IfOk result (λ links. links.items ≡ cut_links 0 cuts.now) }
{
    let mut links = Vec::new(alloc);
    for (place, is_cut) in cuts.iter().enumerate() {
        if *is_cut {
            links.push((
                ProcId((place / PROCESSES) as u8),
                ProcId((place % PROCESSES) as u8),
            ))?;
        }
    }
    Ok(links)
}

/// The packets on their way, copied.
fn copied(alloc: Global, on_way: &BTreeMap<u64, Letter>) -> Result<Vec<Packet>, NoMemory>
    ensures { IfOk result (λ packets. packets.items ≡ packets_of on_way.now.entries) }
{
    let mut packets = Vec::new(alloc);
    for (number, letter) in on_way.iter() {
        packets.push(Packet {
            number: *number,
            from: letter.from,
            to: letter.to,
            port: letter.port,
            text: letter.text.copy(alloc)?,
        })?;
    }
    Ok(packets)
}
