// Lines that are drawn, and the picture of them.

ghost use Rattle.std.specs.Prelude.{◌≡◌, Some, IfOk, OnOk};
ghost use Rattle.std.specs.Io.KnownBytes.{Appends};
ghost use Rattle.flow_base.specs.Bytes.{AppendsPart, Grows};
ghost use Rattle.flow_base.specs.Faults.{HasCause};
ghost use Rattle.flow_chart.specs.Charting.{charted, Charts};
ghost use Rattle.flow_chart.specs.Drawing.{drawn, empty_drawing};
ghost use Rattle.flow_chart.specs.Picture.{picture};

use crate::drawing::Drawing;
use crate::picture::picture;
use flow_base::fault::OutFault;
use flow_base::memory::NoMemory;
use flow_base::output::write_whole;
use flow_base::sink::Sink;
use flow_trace::buffer::LineBuf;
use flow_trace::line::Line;
use flow_trace::out::LineOut;
use std::alloc::Global;

/// The greatest number of events of a picture.
pub const MOST_EVENTS: u32 = 2_000;

/// Lines that are drawn as they are put, while there are not too many events for a picture. Putting one fails for want of memory alone.
#[derive(Drop)]
pub struct ChartOut {
    pub drawing: Option<Drawing>,
    alloc: Global,
    buffer: LineBuf,
}

impl ChartOut {
    /// No line yet. It takes memory for a line.
    pub fn new(alloc: Global) -> Result<ChartOut, NoMemory>
        ensures { IfOk result (λ c. c.drawing ≡ Some empty_drawing) }
    {
        Ok(ChartOut {
            drawing: Some(Drawing::new(alloc)),
            alloc,
            buffer: LineBuf::new(alloc)?,
        })
    }

    // Draws a line. Where there are too many events then, all is forgotten.
    fn draw(&mut self, line: &Line) -> Result<(), NoMemory>
        ensures { OnOk result (self.new.drawing ≡ charted line.now self.old.drawing) }
    {
        let Some(drawing) = &mut self.drawing else {
            return Ok(());
        };
        drawing.draw(self.alloc, line, &mut self.buffer)?;
        if MOST_EVENTS < drawing.events() {
            self.drawing = None;
        }
        Ok(())
    }
}

impl LineOut for ChartOut {
    ghost puts = { λ old line answer new. Charts old.drawing line answer new.drawing };

    ghost faults = { λ _. 0 };

    ghost kept = { λ _. record {} };

    fn put(&mut self, line: &Line) -> Result<(), OutFault> {
        match self.draw(line) {
            Ok(()) => Ok(()),
            Err(_) => Err(OutFault::OutOfMemory),
        }
    }

    fn faults(&self) -> u64 {
        0
    }
}

/// Writes the picture of what was drawn of a run of so many processes; or, where a write fails or there is no memory, a first part of
/// its bytes. `Failed` comes only where the sink's count of faults rose.
pub fn write_picture<S: Sink>(
    alloc: Global,
    processes: u8,
    drawing: &Drawing,
    out: &mut S,
) -> Result<(), OutFault>
    ensures whole { OnOk result (Appends (S.seen out.old).written (S.seen out.new).written
        (picture processes drawing.now)) }
    ensures part { AppendsPart (S.seen out.old).written (S.seen out.new).written
        (picture processes drawing.now) }
    ensures handed { Grows (S.seen out.old).handed (S.seen out.new).handed }
    ensures cause { HasCause (S.seen out.old).faults (S.seen out.new).faults result }
{
    let Ok(page) = picture(alloc, processes, drawing) else {
        return Err(OutFault::OutOfMemory);
    };
    write_whole(out, page.bytes())
}
