// The ports of a process.

ghost use Rattle.std.specs.Prelude.{◌≡◌, ℕ, List, [], OnOk, IfOk, None};
ghost use Rattle.std.specs.Option.{option_map};
ghost use Rattle.flow_numbered.specs.Numbered.{Numbered, thing, added};
ghost use Rattle.flow_meaning.specs.Dropping.{port_of};
ghost use Rattle.flow_machine.specs.Hosting.{unheard};
ghost use Rattle.flow_saved.specs.CanResume.{PortsOnce};
ghost use Rattle.flow_world.specs.Ports.{PortsRepresent};
ghost use Rattle.flow_world.specs.Saving.{numbers_of};

use flow_base::ids::CellId;
use flow_base::memory::NoMemory;
use std::alloc::Global;
use std::collections::BTreeMap;

/// The ports that a process listens at, each with the number of its stream.
#[derive(Drop)]
pub struct Ports {
    streams: BTreeMap<u16, u64>,
    ports: BTreeMap<u64, u16>,
}

impl Ports {
    #[tactic(auto, using(crate::proofs::Listening::no_ports))]
    /// No port is listened at.
    pub fn new(alloc: Global) -> Ports
        ensures { PortsRepresent result [] }
    {
        Ports {
            streams: BTreeMap::new(alloc),
            ports: BTreeMap::new(alloc),
        }
    }

    /// The stream of a port, where it is listened at.
    pub fn stream(&self, port: u16) -> Option<CellId>
        ensures { (ps : Numbered ℕ) → PortsRepresent self.now ps
            → option_map (λ k. k.0) result ≡ thing ps port }
    {
        let number = self.streams.get(&port)?;
        Some(CellId(*number))
    }

    /// A port is listened at. On an error the ports are of no use any more.
    pub fn listen(&mut self, port: u16, cell: CellId) -> Result<(), NoMemory>
        ensures { OnOk result ((ps : Numbered ℕ) → PortsRepresent self.old ps → thing ps port ≡ None
            → port_of cell.0 ps ≡ None → PortsRepresent self.new (added ps port cell.0)) }
    {
        self.streams.insert(port, cell.0)?;
        self.ports.insert(cell.0, port)?;
        Ok(())
    }

    #[tactic(auto, using(crate::proofs::Listening::ports_same))]
    /// The port of a stream is listened at no more.
    pub fn unlisten(&mut self, cell: CellId)
        ensures { (ps : Numbered ℕ) → PortsRepresent self.old ps
            → PortsRepresent self.new (unheard cell.0 ps) }
    {
        if let Some(port) = self.ports.remove(&cell.0) {
            self.streams.remove(&port);
        }
    }

    #[tactic(auto, using(crate::proofs::Listening::no_ports))]
    /// No port is listened at any more.
    pub fn clear(&mut self)
        ensures { PortsRepresent self.new [] }
    {
        self.streams.clear();
        self.ports.clear();
    }

    /// These ports are listened at, each at its stream.
    pub fn of(alloc: Global, listed: &[(u16, CellId)]) -> Result<Ports, NoMemory>
        requires { PortsOnce listed.now }
        ensures { IfOk result (λ p. PortsRepresent p (numbers_of listed.now)) }
    {
        let mut ports = Ports::new(alloc);
        for entry in listed {
            ports.listen(entry.0, entry.1)?;
        }
        Ok(ports)
    }

    /// The ports with their streams, by rising port.
    pub fn listed(&self, alloc: Global) -> Result<Vec<(u16, CellId)>, NoMemory>
        ensures { IfOk result (λ list. numbers_of list.items ≡ self.now.streams.entries) }
    {
        let mut list = Vec::new(alloc);
        for (port, cell) in self.streams.iter() {
            list.push((*port, CellId(*cell)))?;
        }
        Ok(list)
    }
}
