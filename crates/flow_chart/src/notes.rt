// What is written in a picture.

ghost use Rattle.std.specs.Prelude.{◌≡◌, ◌++◌, Some, map, OnOk};
ghost use Rattle.flow_chart.specs.Drawing.{event_note, sign_note};
ghost use Rattle.flow_chart.specs.Notes.{note_of};

use crate::marks::Sign;
use crate::spot::{Cursor, Moment, Spot, Tone};
use flow_base::memory::NoMemory;

/// What is written at a spot: the number and the time of an event, in ticks, or a mark with its text.
#[derive(Drop)]
pub enum Note {
    Event(u64, u64, Spot),
    Mark(Tone, Spot, Vec<u8>),
}

/// Adds what is written of an event, if there is one.
pub(crate) fn add_event(
    notes: &mut Vec<Note>,
    moment: Option<Moment>,
    at: Cursor,
) -> Result<(), NoMemory>
    ensures { OnOk result (map note_of notes.new.items
        ≡ map note_of notes.old.items ++ event_note moment at) }
{
    if let Some(moment) = moment {
        notes.push(Note::Event(moment.number, moment.time, at.spot()))?;
    }
    Ok(())
}

/// Adds a mark.
pub(crate) fn add_sign(notes: &mut Vec<Note>, sign: Sign, at: Cursor) -> Result<(), NoMemory>
    ensures { OnOk result (map note_of notes.new.items
        ≡ map note_of notes.old.items ++ sign_note sign at) }
{
    notes.push(Note::Mark(sign.tone, at.spot(), sign.text))?;
    Ok(())
}
