// Lines that go out as they are put.

ghost use Rattle.std.specs.Prelude.{◌≡◌, IfOk};
ghost use Rattle.std.specs.Borrow.{GName};
ghost use Rattle.std.proofs.Props.{props};
ghost use Rattle.flow_base.specs.Bytes.{Grows};
ghost use Rattle.flow_trace.specs.Out.{WritesLine};

use crate::buffer::{LineBuf, print_line};
use crate::line::Line;
use crate::out::LineOut;
use flow_base::fault::OutFault;
use flow_base::memory::NoMemory;
use flow_base::output::write_whole;
use flow_base::sink::Sink;
use std::alloc::Global;
use std::snapshot::Snapshot;

/// Lines that are written to a sink as they are put, each by one call where the sink takes it whole; and the sink as it was
/// before the first of them: what was written then stays. Who made it takes it apart again, to go on with the sink.
pub struct SinkOut<'a, S: Sink> {
    pub out: &'a mut S,
    pub buffer: LineBuf,
    pub before: Snapshot<S>,
    ghost grown: { Grows (S.seen before.value).written
        (S.seen out.now).written } by { Prim.hlevel props },
    ghost handed: { Grows (S.seen before.value).handed
        (S.seen out.now).handed } by { Prim.hlevel props },
}

impl<'a, S: Sink> SinkOut<'a, S> {
    /// Over a sink that lines are to go to from now on. It takes memory for a line.
    pub fn new(alloc: Global, out: &'a mut S) -> Result<SinkOut<'a, S>, NoMemory>
        ensures same_sink { IfOk result (λ w. (w.out.ghost_name ≡ out.entry.ghost_name)
            × (w.out.now ≡ out.old)) }
        ensures before { IfOk result (λ w. w.before.value ≡ out.old) }
    {
        let buffer = LineBuf::new(alloc)?;
        let before = Snapshot::of(&*out);
        Ok(SinkOut {
            out,
            buffer,
            before,
        })
    }
}

impl<'a, S: Sink> LineOut for SinkOut<'a, S> {
    ghost puts = { λ old line answer new. (new.before.value ≡ old.before.value)
        × WritesLine (S.seen old.out.now).written (S.seen new.out.now).written line answer };

    ghost faults = { λ w. (S.seen w.out.now).faults };

    ghost Kept = { GName × S };

    ghost kept = { λ w. (w.out.ghost_name, w.before.value) };

    fn put(&mut self, line: &Line) -> Result<(), OutFault> {
        print_line(line, &mut self.buffer);
        write_whole(self.out, self.buffer.bytes())
    }

    fn faults(&self) -> u64 {
        self.out.faults()
    }
}
