// The world around a process, and how a burst ends.

ghost use Rattle.std.specs.Prelude.{◌≡◌, ℕ, ◌+◌, ◌^◌, ◌<◌, ◌≤◌, pos, ◌+ℤ◌, ◌≤ℤ◌, ◌<ℤ◌, List, [], ◌∷◌, is_some, IfOk, OnOk, OnErr};
ghost use Rattle.flow_base.specs.Faults.{HasCause};
ghost use Rattle.flow_trace.specs.declared.line.Line.{Line};
ghost use Rattle.flow_numbered.specs.Numbered.{Numbered, thing};
ghost use Rattle.flow_meaning.specs.Requests.{Timer, Packet, Disks};
ghost use Rattle.flow_meaning.specs.Burst as meaning;
ghost use Rattle.flow_saved.specs.Requests.{IsAllowed};
ghost use Rattle.flow_machine.specs.Requests.{call_of};
ghost use Rattle.flow_machine.specs.Hosting.{Serves, Draws, Writes, LinesOf, Listens, Unlistens};

use flow_base::fault::OutFault;
use flow_base::ids::{CellId, ProcId};
use flow_base::memory::NoMemory;
use flow_base::text::Text;
use flow_simdisk::DiskAsk;
use flow_trace::line::Line;

/// The world around a process, as the process sees it while it runs. The count of faults never falls; at 2^64 - 1 it
/// stands still. A call that counts, numbers or keeps something may answer want of memory where its numbers end.
pub trait Host {
    /// What no call changes, as how many processes there are and where the lines go.
    ghost Kept: { Type 0 } = { Unit {0} };

    ghost kept: { Self → Self.Kept };

    /// How many processes there are.
    ghost processes: { Self.Kept → ℕ };

    /// How often it has failed.
    ghost faults: { Self → ℕ };

    /// What can change in the world.
    ghost World: { Type 0 };

    /// What the world does for a request, by its definition.
    ghost serves: { meaning.Host World };

    /// Which ports the process listens at, each with the number of its stream, and what stands in the
    /// world.
    ghost shows: { Self → Numbered ℕ → World → Type 0 };

    /// Which lines were written between one moment and a later one.
    ghost wrote: { Self → List Line → Self → Type 0 };

    /// Of which lines at most a first part was written, where a call broke off.
    ghost broke: { Self → List Line → Self → Type 0 };

    /// Writes a line of the trace.
    fn line(&mut self, line: &Line) -> Result<(), OutFault>
        ensures written { OnOk result
            (Writes serves shows wrote (line.now ∷ []) self.old self.new) }
        ensures broke { OnErr result (broke self.old (line.now ∷ []) self.new) }
        ensures cause { HasCause (faults self.old) (faults self.new) result }
        ensures kept { Self.kept self.new ≡ Self.kept self.old };

    /// One of the `width` numbers from `lo` on, by the next drawn word.
    fn random(&mut self, lo: i64, width: u64) -> Result<i64, NoMemory>
        requires some { 1 ≤ width }
        requires few { width ≤ 2 ^ 32 }
        requires fits { (lo +ℤ pos width) ≤ℤ pos (2 ^ 63) }
        ensures drawn { IfOk result (λ n. Draws serves shows wrote lo width n self.old self.new) }
        ensures from { IfOk result (λ n. lo ≤ℤ n) }
        ensures below { IfOk result (λ n. n <ℤ (lo +ℤ pos width)) }
        ensures broke { OnErr result (broke self.old [] self.new) }
        ensures faults { faults self.old ≤ faults self.new }
        ensures kept { Self.kept self.new ≡ Self.kept self.old };

    /// Has the cell be set at this time, in ticks and not after 2^62, by `deliver` with `Void`.
    fn timer(&mut self, cell: CellId, at: u64) -> Result<(), NoMemory>
        requires { at ≤ 2 ^ 62 }
        ensures served { OnOk result
            (Serves serves shows wrote (Timer cell.0 at) self.old self.new) }
        ensures broke { OnErr result (broke self.old [] self.new) }
        ensures faults { faults self.old ≤ faults self.new }
        ensures kept { Self.kept self.new ≡ Self.kept self.old };

    /// Sends a text to a port of one of the processes, and writes the lines of that.
    fn packet(&mut self, to: ProcId, port: u16, text: Text) -> Result<(), OutFault>
        requires { to.0 < processes (Self.kept self.old) }
        ensures served { OnOk result
            (Serves serves shows wrote (Packet to.0 port text) self.old self.new) }
        ensures broke { OnErr result
            (LinesOf serves shows broke (Packet to.0 port text) self.old self.new) }
        ensures cause { HasCause (faults self.old) (faults self.new) result }
        ensures kept { Self.kept self.new ≡ Self.kept self.old };

    /// Whether the process listens at a port.
    fn listening(&self, port: u16) -> bool
        ensures { (ps : Numbered ℕ) (w : World) → shows self.now ps w
            → result ≡ is_some (thing ps port) };

    /// The process listens at a port where it does not yet: the elements for it come to this stream, by `arrive`.
    fn listen(&mut self, port: u16, cell: CellId) -> Result<(), NoMemory>
        ensures listens { OnOk result (Listens serves shows wrote port cell.0 self.old self.new) }
        ensures broke { OnErr result (broke self.old [] self.new) }
        ensures faults { faults self.old ≤ faults self.new }
        ensures kept { Self.kept self.new ≡ Self.kept self.old };

    /// The process listens no more at the port whose elements came to this stream.
    fn unlisten(&mut self, cell: CellId)
        ensures unlistens { Unlistens serves shows wrote cell.0 self.old self.new }
        ensures faults { faults self.old ≤ faults self.new }
        ensures kept { Self.kept self.new ≡ Self.kept self.old };

    /// Asks the disk of the process, with arguments in their ranges. The answer comes by `deliver` into the cell.
    fn disk(&mut self, cell: CellId, ask: DiskAsk) -> Result<(), NoMemory>
        requires { IsAllowed ask }
        ensures served { OnOk result
            (Serves serves shows wrote (Disks cell.0 (call_of ask)) self.old self.new) }
        ensures broke { OnErr result (broke self.old [] self.new) }
        ensures faults { faults self.old ≤ faults self.new }
        ensures kept { Self.kept self.new ≡ Self.kept self.old };

    /// How often it has failed.
    fn faults(&self) -> u64
        ensures { result ≡ faults self.now };
}

/// How a burst ended: nothing is left to do, or a turn was needed and none was left.
#[derive(Clone, Copy, PartialEq, Eq)]
pub enum Burst {
    Rested,
    Spent,
}

/// Why a burst broke off: the host failed, which its count of faults then shows; there was no memory; or the classes,
/// which were not judged, led where no valid class comes.
#[derive(Clone, Copy, PartialEq, Eq)]
pub enum RunFault {
    Failed,
    OutOfMemory,
    Stuck,
}
