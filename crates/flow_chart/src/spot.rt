// Where marks stand in a picture.

ghost use Rattle.std.specs.Prelude.{◌≡◌, suc, IfOk};
ghost use Rattle.flow_chart.specs.Drawing.{at_event, at_mark, spot_at};

use flow_base::memory::NoMemory;

/// A spot in a picture: its column, which is the number of a process, and its row, from 0.
#[derive(Clone, Copy, PartialEq, Eq)]
pub struct Spot {
    pub column: u8,
    pub row: u32,
}

/// What a mark tells: something printed, or something that goes wrong.
#[derive(Clone, Copy, PartialEq, Eq)]
pub enum Tone {
    Printed,
    Faulty,
}

/// An event: its number, its time in ticks, and the process in whose column it stands, of a link the first one.
#[derive(Clone, Copy)]
pub struct Moment {
    pub number: u64,
    pub time: u64,
    pub process: u8,
}

/// Where a drawing stands: the row, the process of the last event, and whether the row has a mark.
#[derive(Clone, Copy)]
pub struct Cursor {
    pub row: u32,
    pub process: u8,
    pub marked: bool,
}

// A row further down.
fn next_row(row: u32) -> Result<u32, NoMemory>
    ensures { IfOk result (λ next. next ≡ suc row) }
{
    match row.checked_add(1) {
        Some(next) => Ok(next),
        None => Err(NoMemory),
    }
}

impl Cursor {
    /// Its spot.
    pub(crate) fn spot(self) -> Spot
        ensures { result ≡ spot_at self }
    {
        Spot {
            column: self.process,
            row: self.row,
        }
    }

    /// Where the drawing stands after an event, if there is one.
    pub(crate) fn at_event(self, moment: Option<Moment>) -> Result<Cursor, NoMemory>
        ensures { IfOk result (λ c. c ≡ at_event moment self) }
    {
        match moment {
            Some(moment) => Ok(Cursor {
                row: next_row(self.row)?,
                process: moment.process,
                marked: false,
            }),
            None => Ok(self),
        }
    }

    /// Where it stands after a mark.
    pub(crate) fn at_mark(self) -> Result<Cursor, NoMemory>
        ensures { IfOk result (λ c. c ≡ at_mark self) }
    {
        let row = if self.marked {
            next_row(self.row)?
        } else {
            self.row
        };
        Ok(Cursor {
            row,
            process: self.process,
            marked: true,
        })
    }
}
