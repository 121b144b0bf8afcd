// The ways of packets.

ghost use Rattle.std.specs.Prelude.{◌≡◌, OnOk};
ghost use Rattle.flow_chart.specs.Drawing.{sends, arrives, packets_after, no_packets};

use crate::spot::Spot;
use flow_base::memory::NoMemory;
use flow_trace::line::Line;
use std::alloc::Global;
use std::collections::BTreeMap;
use std::marker::Model;

/// The way of a packet: where it was sent, and where it comes, if it isn't lost.
#[derive(Clone, Copy)]
pub struct Way {
    pub packet: u64,
    pub sent: Spot,
    pub comes: Option<Spot>,
}

/// The packets under way, by their numbers, each with where it was sent, and the ways that are over. Contracts see it as these.
#[derive(Drop)]
pub struct Packets {
    under_way: BTreeMap<u64, Spot>,
    over: Vec<Way>,
}

impl Model for Packets {
    ghost use Rattle.flow_chart.specs.Drawing.{Packets};

    ghost Value = { Packets };

    ghost view = { λ p. record { under_way = p.under_way.entries; over = p.over.items } };
}

impl Packets {
    /// No packet yet. It takes no memory.
    pub(crate) fn new(alloc: Global) -> Packets
        ensures { result ≡ no_packets }
    {
        Packets {
            under_way: BTreeMap::new(alloc),
            over: Vec::new(alloc),
        }
    }

    /// The ways that are over, in the order in which they ended.
    pub(crate) fn over(&self) -> &[Way]
        ensures { result.now ≡ self.now.over }
    {
        &self.over
    }

    // A packet is sent at a spot.
    fn sends(&mut self, packet: u64, at: Spot) -> Result<(), NoMemory>
        ensures { OnOk result (self.new ≡ sends packet at self.old) }
    {
        self.under_way.insert(packet, at)?;
        Ok(())
    }

    // The way of a packet is over: it comes somewhere, or is lost.
    fn arrives(&mut self, packet: u64, comes: Option<Spot>) -> Result<(), NoMemory>
        ensures { OnOk result (self.new ≡ arrives packet comes self.old) }
    {
        if let Some(sent) = self.under_way.remove(&packet) {
            self.over.push(Way {
                packet,
                sent,
                comes,
            })?;
        }
        Ok(())
    }

    /// A line that stands at a spot.
    pub(crate) fn hear(&mut self, line: &Line, at: Spot) -> Result<(), NoMemory>
        ensures { OnOk result (self.new ≡ packets_after line.now at self.old) }
    {
        match line {
            Line::Send(packet, ..) => self.sends(*packet, at),
            Line::Arrival(_, _, _, packet) => self.arrives(*packet, Some(at)),
            Line::LostCut(packet) | Line::LostDraw(packet) => self.arrives(*packet, None),
            _ => Ok(()),
        }
    }
}
