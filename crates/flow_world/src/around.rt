// The world around a process in its event.

ghost use Rattle.std.specs.Prelude.{◌≡◌, ◌<◌, Ok, IfOk, IsErrOf};
ghost use Rattle.flow_base.specs.declared.fault.OutFault.TheVariants.{Failed};
ghost use Rattle.flow_meaning.specs.Outside as meaning;
ghost use Rattle.flow_world.specs.Around.{SurroundingsRepresent, Puts, PutsPart};
ghost use Rattle.flow_world.specs.Changes.{seen};
ghost use Rattle.flow_world.specs.Loans.{Loans};

use crate::asked::Asked;
use crate::outside::{Outside, What};
use crate::ports::Ports;
use crate::put::tell;
use flow_base::fault::OutFault;
use flow_base::ids::{CellId, ProcId};
use flow_base::memory::NoMemory;
use flow_base::text::Text;
use flow_machine::host::Host;
use flow_simdisk::DiskAsk;
use flow_simnet::Fate;
use flow_trace::line::Line;
use flow_trace::out::LineOut;

/// The world around a process in its event: its number, its ports, what is outside, and where lines go.
pub struct Around<'p, 'w, 'l, L: LineOut> {
    pub me: ProcId,
    pub ports: &'p mut Ports,
    pub outside: &'w mut Outside,
    pub out: &'l mut L,
    ghost mine: { me.0 < outside.now.net.processes },
}

/// Want of memory as a fault.
fn or_fault<T>(answer: Result<T, NoMemory>) -> Result<T, OutFault>
    ensures cause { ¬ IsErrOf result Failed }
    ensures same { IfOk result (λ value. answer ≡ Ok value) }
{
    match answer {
        Ok(value) => Ok(value),
        Err(NoMemory) => Err(OutFault::OutOfMemory),
    }
}

impl<'p, 'w, 'l, L: LineOut> Host for Around<'p, 'w, 'l, L> {
    ghost Kept = { Loans L.Kept };

    ghost kept = { λ h. record {
      ports = h.ports.ghost_name;
      outside = h.outside.ghost_name;
      out = h.out.ghost_name;
      lines = L.kept h.out.now;
      processes = h.outside.now.net.processes;
    } };

    ghost processes = { λ k. k.processes };

    ghost faults = { λ h. L.faults h.out.now };

    ghost World = { meaning.Outside };

    ghost serves = { meaning.host };

    ghost shows = { λ h ps w. SurroundingsRepresent h.me h.ports.now (seen h.outside.now) ps w };

    ghost wrote = { λ g ls h. Puts L.puts g.out.now ls h.out.now };

    ghost broke = { λ g ls h. PutsPart L.puts g.out.now ls h.out.now };

    fn line(&mut self, line: &Line) -> Result<(), OutFault> {
        self.out.put(line)
    }

    fn random(&mut self, lo: i64, width: u64) -> Result<i64, NoMemory> {
        self.outside.draw(lo, width)
    }

    fn timer(&mut self, cell: CellId, at: u64) -> Result<(), NoMemory> {
        self.outside.add(at, What::Rings(self.me, cell))
    }

    fn packet(&mut self, to: ProcId, port: u16, text: Text) -> Result<(), OutFault> {
        let number = or_fault(self.outside.next_packet())?;
        let copy = or_fault(text.copy(self.outside.alloc))?;
        tell(self.out, Line::Send(number, to, port, copy))?;
        match or_fault(self.outside.send(self.me, to, port, text))? {
            Fate::Cut => tell(self.out, Line::LostCut(number)),
            Fate::Drawn => tell(self.out, Line::LostDraw(number)),
            Fate::At(time) => or_fault(self.outside.add(time, What::Arrives(to, number))),
        }
    }

    fn listening(&self, port: u16) -> bool {
        self.ports.stream(port).is_some()
    }

    fn listen(&mut self, port: u16, cell: CellId) -> Result<(), NoMemory> {
        self.ports.listen(port, cell)
    }

    fn unlisten(&mut self, cell: CellId) {
        self.ports.unlisten(cell);
    }

    fn disk(&mut self, cell: CellId, ask: DiskAsk) -> Result<(), NoMemory> {
        let delay = self.outside.draw_delay()?;
        let time = self.outside.time + delay;
        self.outside
            .add(time, What::Answers(self.me, cell, Asked::new(ask)))
    }

    fn faults(&self) -> u64 {
        self.out.faults()
    }
}
