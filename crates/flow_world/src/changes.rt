// What the calls of a world make of what is outside of its processes.

ghost use Rattle.std.specs.Prelude.{◌≡◌, ℕ, ◌+◌, ◌<◌, ◌≤◌, ◌^◌, pos, ◌+ℤ◌, ◌≤ℤ◌, ◌<ℤ◌, None, not, slice_get, IfOk, OnOk, IsErrOf};
ghost use Rattle.flow_draw.specs.Words.{next_word, scaled};
ghost use Rattle.flow_simnet.specs.Links as table;
ghost use Rattle.flow_machine.specs.Requests.{call_of};
ghost use Rattle.flow_machine.specs.declared.host.RunFault.TheVariants.{Failed, Stuck};
ghost use Rattle.flow_world.specs.Changes.{seen, with_pending, with_word, next_delay, fate_of, letter};
ghost use Rattle.flow_world.specs.Changes.{sent_by, DiskServes, DiskLoses, is_request_of, FirstTaken};
ghost use Rattle.flow_world.specs.Changes.{without_requests};
ghost use Rattle.flow_world.specs.Representing.{NumbersOnce};

use crate::asked::Asked;
use crate::outside::{Outside, What};
use flow_base::ids::ProcId;
use flow_base::memory::NoMemory;
use flow_base::text::Text;
use flow_machine::host::RunFault;
use flow_simdisk::{DiskAsk, DiskReply, Kept};
use flow_simnet::Fate;
use flow_timers::Keeps;

/// The last number that is given.
const LAST_NUMBER: u64 = (1 << 63) - 1;

impl Outside {
    /// Takes the first pending event, if there is one.
    pub fn take_first(&mut self) -> Option<What>
        ensures { FirstTaken (seen self.old).timers.pending result (seen self.old) (seen self.new) }
    {
        let (time, number) = self.timers.first()?;
        self.timers.remove(time, number)
    }

    /// One more pending event. Want of memory too where its number would be past the last.
    pub fn add(&mut self, time: u64, what: What) -> Result<(), NoMemory>
        ensures net { self.new.net ≡ self.old.net }
        ensures added { OnOk result (seen self.new ≡ with_pending (seen self.old) time what) }
    {
        if self.timers.made() >= LAST_NUMBER {
            return Err(NoMemory);
        }
        self.timers.add(time, what)?;
        Ok(())
    }

    /// One of the `width` numbers from `lo` on, by the next drawn word. Want of memory where no more words are given.
    pub fn draw(&mut self, lo: i64, width: u64) -> Result<i64, NoMemory>
        requires some { 1 ≤ width }
        requires few { width ≤ 2 ^ 32 }
        requires fits { (lo +ℤ pos width) ≤ℤ pos (2 ^ 63) }
        ensures net { self.new.net ≡ self.old.net }
        ensures from { IfOk result (λ n. lo ≤ℤ n) }
        ensures below { IfOk result (λ n. n <ℤ (lo +ℤ pos width)) }
        ensures number { IfOk result (λ n. n ≡ scaled lo width (next_word self.old.draws)) }
        ensures drawn { OnOk result (seen self.new ≡ with_word width (seen self.old)) }
    {
        if self.draws.used() >= LAST_NUMBER - 1 {
            return Err(NoMemory);
        }
        Ok(self.draws.in_range(lo, width))
    }

    /// A delay of a disk in ticks, by the next drawn word. Want of memory where no more words are given.
    pub fn draw_delay(&mut self) -> Result<u64, NoMemory>
        ensures net { self.new.net ≡ self.old.net }
        ensures short { IfOk result (λ n. n < 1000000000) }
        ensures delay { IfOk result (λ n. n ≡ next_delay (seen self.old)) }
        ensures drawn { let width = table.width self.old.disk_delay in
            OnOk result (seen self.new ≡ with_word width (seen self.old)) }
    {
        if self.draws.used() >= LAST_NUMBER - 1 {
            return Err(NoMemory);
        }
        let (from, end) = self.disk_delay;
        Ok(from + self.draws.below(end - from))
    }

    /// The number of the packet that is sent next. Want of memory where no more numbers are given.
    pub fn next_packet(&self) -> Result<u64, NoMemory>
        ensures { IfOk result (λ n. n ≡ self.now.net.sent + 1) }
    {
        if self.net.sent() >= LAST_NUMBER {
            return Err(NoMemory);
        }
        Ok(self.net.sent() + 1)
    }

    /// Sends a packet, and says what becomes of it. Want of memory too where no more words or numbers are given.
    pub fn send(
        &mut self,
        from: ProcId,
        to: ProcId,
        port: u16,
        text: Text,
    ) -> Result<Fate, NoMemory>
        requires from { from.0 < self.old.net.processes }
        requires to { to.0 < self.old.net.processes }
        ensures processes { self.new.net.processes ≡ self.old.net.processes }
        ensures fate { IfOk result (λ f. f ≡ fate_of (seen self.old) from to) }
        ensures sent { IfOk result (λ f. seen self.new
            ≡ sent_by f (letter from to port text) (seen self.old)) }
    {
        if self.draws.used() >= LAST_NUMBER - 2 || self.net.sent() >= LAST_NUMBER {
            return Err(NoMemory);
        }
        let sent = self
            .net
            .send(self.time, from, to, port, text, &mut self.draws)?;
        Ok(sent.fate)
    }

    /// The disk of a process serves a request.
    pub fn serve(&mut self, p: ProcId, asked: &Asked) -> Result<DiskReply, RunFault>
        ensures cause { ¬ IsErrOf result Failed }
        ensures stuck { IsErrOf result Stuck → slice_get (seen self.old).disks p.0 ≡ None }
        ensures served { IfOk result (λ reply.
            DiskServes p (call_of asked.now) (seen self.old) (seen self.new) reply) }
    {
        let Some(disk) = self.disks.get_mut(usize::from(p.0)) else {
            return Err(RunFault::Stuck);
        };
        match asked.ask() {
            DiskAsk::Read(name, offset, count) => Ok(disk.read(name, *offset, *count)?),
            DiskAsk::Write(name, offset, text) => {
                let name = name.copy(self.alloc)?;
                let text = text.copy(self.alloc)?;
                Ok(disk.write(name, *offset, text)?)
            }
            DiskAsk::Sync(name) => Ok(disk.sync(name)?),
            DiskAsk::Size(name) => Ok(disk.size(name)),
        }
    }

    /// The disk of a process loses what it may at a loss of power. Want of memory too where no more words are given.
    pub fn lose_disk(&mut self, p: ProcId) -> Result<Vec<Kept>, RunFault>
        ensures cause { ¬ IsErrOf result Failed }
        ensures stuck { IsErrOf result Stuck → slice_get (seen self.old).disks p.0 ≡ None }
        ensures lost { IfOk result (λ fates. DiskLoses p (seen self.old)
            (seen self.new) fates.items) }
    {
        let Some(disk) = self.disks.get_mut(usize::from(p.0)) else {
            return Err(RunFault::Stuck);
        };
        let words = disk.most_words();
        if words >= LAST_NUMBER || self.draws.used() >= LAST_NUMBER - words {
            return Err(RunFault::OutOfMemory);
        }
        Ok(disk.kill(&mut self.draws)?)
    }

    /// The timers and disk requests of a process are gone.
    pub fn forget(&mut self, p: ProcId) -> Result<(), NoMemory>
        ensures { OnOk result ((made : ℕ) → NumbersOnce made (seen self.old).timers.pending
            → seen self.new ≡ without_requests p (seen self.old)) }
    {
        self.timers.retain(&OfOthers(p));
        Ok(())
    }
}

/// Of the pending events those stay that aren't timers or disk requests of this process.
#[derive(Drop)]
struct OfOthers(ProcId);

impl Keeps<What> for OfOthers {
    ghost keeps = { λ o what. not (is_request_of o.0 what) };

    fn keeps(&self, what: &What) -> bool {
        !what.is_request_of(self.0)
    }
}

impl What {
    /// Whether it is a timer or a disk request of this process.
    fn is_request_of(&self, p: ProcId) -> bool
        ensures { result ≡ is_request_of p self.now }
    {
        match self {
            What::Boots(_) | What::Arrives(..) => false,
            What::Rings(q, _) | What::Answers(q, _, _) => *q == p,
        }
    }
}
