// What is drawn of lines, one after another.

ghost use Rattle.std.specs.Prelude.{◌≡◌, map, OnOk};
ghost use Rattle.flow_chart.specs.Drawing.{drawn, empty_drawing, with_event, with_sign};
ghost use Rattle.flow_chart.specs.Notes.{note_of};

use crate::marks::{Sign, end_of, moment_of, sign_of};
use crate::notes::{Note, add_event, add_sign};
use crate::packets::Packets;
use crate::spot::{Cursor, Moment};
use crate::uptimes::Uptimes;
use flow_base::memory::NoMemory;
use flow_trace::buffer::LineBuf;
use flow_trace::line::Line;
use std::alloc::Global;
use std::marker::Model;

/// What is drawn of some lines: how many events there were, where the drawing stands, what is written, when processes are up, the ways
/// of packets, and the text of the last line. Contracts see it as these.
#[derive(Drop)]
pub struct Drawing {
    events: u32,
    cursor: Cursor,
    notes: Vec<Note>,
    uptimes: Uptimes,
    packets: Packets,
    end: Vec<u8>,
}

impl Model for Drawing {
    ghost use Rattle.std.specs.Prelude.{map};
    ghost use Rattle.flow_chart.specs.Drawing.{Drawing};
    ghost use Rattle.flow_chart.specs.Notes.{note_of};

    ghost Value = { Drawing };

    ghost view = { λ d. record {
      events = d.events;
      cursor = d.cursor;
      notes = map note_of d.notes.items;
      uptimes = d.uptimes;
      packets = d.packets;
      end = d.end.items;
    } };
}

impl Drawing {
    /// Before the first line. It takes no memory.
    pub fn new(alloc: Global) -> Drawing
        ensures { result ≡ empty_drawing }
    {
        Drawing {
            events: 0,
            cursor: Cursor {
                row: 0,
                process: 0,
                marked: false,
            },
            notes: Vec::new(alloc),
            uptimes: Uptimes::new(alloc),
            packets: Packets::new(alloc),
            end: Vec::new(alloc),
        }
    }

    /// How many events there were.
    pub fn events(&self) -> u32
        ensures { result ≡ self.now.events }
    {
        self.events
    }

    pub(crate) fn row(&self) -> u32
        ensures { result ≡ self.now.cursor.row }
    {
        self.cursor.row
    }

    pub(crate) fn notes(&self) -> &[Note]
        ensures { map note_of result.now ≡ self.now.notes }
    {
        &self.notes
    }

    pub(crate) fn uptimes(&self) -> &Uptimes
        ensures { result.now ≡ self.now.uptimes }
    {
        &self.uptimes
    }

    pub(crate) fn packets(&self) -> &Packets
        ensures { result.now ≡ self.now.packets }
    {
        &self.packets
    }

    pub(crate) fn end(&self) -> &[u8]
        ensures { result.now ≡ self.now.end }
    {
        &self.end
    }

    // One event more, if there is one, and its note.
    fn draw_event(&mut self, moment: Option<Moment>) -> Result<(), NoMemory>
        ensures { OnOk result (self.new ≡ with_event moment self.old) }
    {
        if moment.is_some() {
            let Some(events) = self.events.checked_add(1) else {
                return Err(NoMemory);
            };
            self.events = events;
        }
        self.cursor = self.cursor.at_event(moment)?;
        add_event(&mut self.notes, moment, self.cursor)
    }

    // A mark, if there is one.
    fn draw_sign(&mut self, sign: Option<Sign>) -> Result<(), NoMemory>
        ensures { OnOk result (self.new ≡ with_sign sign self.old) }
    {
        let Some(sign) = sign else {
            return Ok(());
        };
        self.cursor = self.cursor.at_mark()?;
        add_sign(&mut self.notes, sign, self.cursor)
    }

    /// Draws one line more, which is printed to a buffer on the way.
    pub fn draw(&mut self, alloc: Global, line: &Line, buffer: &mut LineBuf) -> Result<(), NoMemory>
        ensures { OnOk result (self.new ≡ drawn line.now self.old) }
    {
        self.draw_event(moment_of(line))?;
        self.draw_sign(sign_of(alloc, line, buffer)?)?;
        self.uptimes.hear(line, self.cursor.row)?;
        self.packets.hear(line, self.cursor.spot())?;
        if let Some(end) = end_of(alloc, line, buffer)? {
            self.end = end;
        }
        Ok(())
    }
}
