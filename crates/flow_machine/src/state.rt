// What a process between events keeps, as plain data, and a process made from that.

ghost use Rattle.std.specs.Prelude.{◌≡◌, ◌<◌, ◌≤◌, IfOk, map};
ghost use Rattle.flow_heapstate.specs.State.{NumbersRise, actor_kept, parts_kept, parts_of};
ghost use Rattle.flow_heapstate.specs.Sound.{SoundHeap};
ghost use Rattle.flow_heapstate.specs.Restoring.{restored};
ghost use Rattle.flow_machine.specs.Resting.{RestsAs};

use crate::machine::Machine;
use flow_base::ids::ProcId;
use flow_base::memory::NoMemory;
use flow_heapstate::listing::{actors, state};
use flow_heapstate::restoring::restore;
use flow_heapstate::state::{ActorState, HeapState};
use flow_steps::process::Process;
use std::alloc::Global;

impl Machine {
    /// What a process between events keeps to the next one: the parts of its heap by rising number, and the greatest
    /// numbers given. `NoMemory` comes only for want of memory.
    pub fn state(&self) -> Result<HeapState, NoMemory>
        ensures { IfOk result (λ s. NumbersRise self.now.process.heap
            → parts_kept s ≡ parts_of self.now.process.heap) }
    {
        state(self.process.alloc(), self.process.heap())
    }

    /// Its unfinished actors as they stand between events, by rising number. `NoMemory` comes only for want of memory.
    pub fn actor_states(&self) -> Result<Vec<ActorState>, NoMemory>
        ensures { IfOk result (λ states. let heap = self.now.process.heap in NumbersRise heap
            → map actor_kept states.items ≡ (parts_of heap).actors) }
    {
        actors(self.process.alloc(), self.process.heap())
    }

    /// A process of so many, up to 64, by its number, between events, with the heap of a state that is sound (as
    /// `flow_heapstate::judging::is_sound` decides). `NoMemory` comes only for want of memory.
    pub fn restore(
        alloc: Global,
        me: ProcId,
        processes: u8,
        state: HeapState,
    ) -> Result<Machine, NoMemory>
        requires mine { me.0 < processes }
        requires few { processes ≤ 64 }
        requires sound { SoundHeap (parts_kept state) }
        ensures rests { IfOk result (λ m. RestsAs alloc me processes (parts_kept state) m) }
        ensures made { IfOk result (λ m. m.process.heap ≡ restored state) }
    {
        let heap = restore(alloc, state)?;
        Ok(Machine {
            me,
            processes,
            process: Process::resting(alloc, heap),
        })
    }
}
