// A sink in memory.

ghost use Rattle.std.specs.Prelude.{◌≡◌, [], Some, length};
ghost use Rattle.std.proofs.Common.{take_all, le_refl, ap};
ghost use Rattle.flow_base.specs.Calls.{no_calls};
ghost use Rattle.flow_base.specs.MemorySink.{Writes, Flushes, seen_of};

use crate::calls::Calls;
use crate::fault::OutFault;
use crate::sink::Sink;
use std::alloc::Global;
use std::marker::Model;

/// A sink that keeps what is written. Its calls of `write` and `flush` are numbered from 1, a number
/// at 2^64 - 1 staying there, and the listed ones fail.
#[derive(Drop)]
pub struct MemSink {
    bytes: Vec<u8>,
    calls: Calls,
}

impl Model for MemSink {
    ghost use Rattle.flow_base.specs.MemorySink.{SinkState};

    ghost Value = { SinkState };

    ghost view = { λ s. record { bytes = s.bytes.items; calls = s.calls } };
}

impl MemSink {
    /// An empty sink, with the numbers of the calls that will fail. It takes no memory.
    pub fn new(alloc: Global, failing: Vec<u64>) -> MemSink
        ensures { result ≡ record { bytes = []; calls = no_calls failing.items } }
    {
        MemSink {
            bytes: Vec::new(alloc),
            calls: Calls::new(failing),
        }
    }

    /// What was written.
    pub fn bytes(&self) -> &[u8]
        ensures { result.now ≡ self.now.bytes }
    {
        &self.bytes
    }
}

impl Sink for MemSink {
    ghost seen = { seen_of };

    ghost handed_first = { λ s. ap Some (take_all (length s.bytes) s.bytes (le_refl _)) };

    fn write(&mut self, piece: &[u8]) -> Result<usize, OutFault>
        ensures { Writes self.old piece.now result self.new }
    {
        if self.calls.next_fails() {
            return Err(self.calls.fail());
        }
        if self.bytes.extend_from_slice(piece).is_err() {
            return Err(OutFault::OutOfMemory);
        }
        self.calls.pass();
        Ok(piece.len())
    }

    fn flush(&mut self) -> Result<(), OutFault>
        ensures { Flushes self.old result self.new }
    {
        if self.calls.next_fails() {
            return Err(self.calls.fail());
        }
        self.calls.pass();
        Ok(())
    }

    fn faults(&self) -> u64 {
        self.calls.faults()
    }
}
