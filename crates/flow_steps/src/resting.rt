// A process between events.

ghost use Rattle.std.specs.Prelude.{◌≡◌};
ghost use Rattle.flow_steps.specs.Doing.{never_ran};

use crate::process::Process;
use flow_cancel::heap::Heap;
use std::alloc::Global;

impl Process {
    /// A process between events that has this heap.
    pub fn resting(alloc: Global, heap: Heap) -> Process
        ensures { result ≡ record (never_ran alloc) { heap = heap } }
    {
        Process {
            alloc,
            heap,
            time: 0,
            left: 0,
            spent: false,
            asked: None,
        }
    }

    /// Where its memory comes from.
    pub fn alloc(&self) -> Global
        ensures { result ≡ self.now.alloc }
    {
        self.alloc
    }

    /// Its heap.
    pub fn heap(&self) -> &Heap
        ensures { result.now ≡ self.now.heap }
    {
        &self.heap
    }
}
