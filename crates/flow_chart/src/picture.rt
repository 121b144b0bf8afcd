// The picture of a run.

ghost use Rattle.std.specs.Prelude.{◌≡◌, ◌+◌, ◌*◌, ◌++◌, ◌∷◌, [], codes, decimal, map, OnOk, IfOk};
ghost use Rattle.std.specs.List.{flat_map, range_with_len};
ghost use Rattle.flow_chart.specs.Drawing.{if_any};
ghost use Rattle.flow_chart.specs.Elements.{element_bytes, opening, Holding};
ghost use Rattle.flow_chart.specs.Notes.{note_of};
ghost use Rattle.flow_chart.specs.Picture.{column, height, line_element, text_element, plain_text, dot, class_of, note_elements, bar_element, bars_left, way_to, way_element, label, styles, ground, worded, measured, picture};

use crate::drawing::Drawing;
use crate::notes::Note;
use crate::packets::Way;
use crate::page::{Attribute, Page};
use crate::spot::{Spot, Tone};
use crate::uptimes::{Bar, Uptimes};
use flow_base::memory::NoMemory;
use itoa::Buffer;
use std::alloc::Global;

// A point of a picture, in pixels.
#[derive(Clone, Copy)]
struct Point {
    x: u64,
    y: u64,
}

// The middle of a column.
fn column(process: u8) -> u64
    ensures { result ≡ column process }
{
    205 + 190 * u64::from(process)
}

// The middle of a row.
fn height(row: u32) -> u64
    ensures { result ≡ height row }
{
    40 + 18 * u64::from(row)
}

fn middle(spot: Spot) -> Point
    ensures { result ≡ record { x = column spot.column; y = height spot.row } }
{
    Point {
        x: column(spot.column),
        y: height(spot.row),
    }
}

fn class_of(tone: Tone) -> &'static [u8]
    ensures { result.now ≡ class_of tone }
{
    match tone {
        Tone::Printed => b"p",
        Tone::Faulty => b"f",
    }
}

impl Page {
    // Adds a line of a class.
    fn line(&mut self, class: &[u8], from: Point, to: Point) -> Result<(), NoMemory>
        ensures { OnOk result (self.new
            ≡ self.old ++ element_bytes (line_element class.now from.x from.y to.x to.y)) }
    {
        self.empty(
            b"line",
            &[
                Attribute::Worded(b"class", class),
                Attribute::Measured(b"x1", from.x),
                Attribute::Measured(b"y1", from.y),
                Attribute::Measured(b"x2", to.x),
                Attribute::Measured(b"y2", to.y),
            ],
        )
    }

    // Adds a text of a class.
    fn text(&mut self, class: &[u8], at: Point, text: &[u8]) -> Result<(), NoMemory>
        ensures { OnOk result (self.new
            ≡ self.old ++ element_bytes (text_element class.now at.x at.y text.now)) }
    {
        self.holding(
            b"text",
            &[
                Attribute::Worded(b"class", class),
                Attribute::Measured(b"x", at.x),
                Attribute::Measured(b"y", at.y),
            ],
            text,
        )
    }

    // Adds a text of no class.
    fn plain_text(&mut self, at: Point, text: &[u8]) -> Result<(), NoMemory>
        ensures { OnOk result (self.new ≡ self.old ++ element_bytes (plain_text at.x at.y text.now)) }
    {
        self.holding(
            b"text",
            &[
                Attribute::Measured(b"x", at.x),
                Attribute::Measured(b"y", at.y),
            ],
            text,
        )
    }

    // Adds the dot of an event.
    fn dot(&mut self, at: Spot) -> Result<(), NoMemory>
        ensures { OnOk result (self.new ≡ self.old ++ element_bytes (dot at)) }
    {
        self.empty(
            b"circle",
            &[
                Attribute::Worded(b"class", b"e"),
                Attribute::Measured(b"cx", column(at.column)),
                Attribute::Measured(b"cy", height(at.row)),
                Attribute::Worded(b"r", b"3"),
            ],
        )
    }

    // Adds a note.
    fn note(&mut self, alloc: Global, note: &Note) -> Result<(), NoMemory>
        ensures { OnOk result (self.new
            ≡ self.old ++ flat_map element_bytes (note_elements (note_of note.now))) }
    {
        match note {
            Note::Event(number, time, at) => {
                let text = moment_text(alloc, *number, *time)?;
                let left = Point {
                    x: 8,
                    y: height(at.row) + 4,
                };
                self.text(b"t", left, &text)?;
                self.dot(*at)
            }
            Note::Mark(tone, at, text) => {
                let right = Point {
                    x: column(at.column) + 8,
                    y: height(at.row) + 4,
                };
                self.text(class_of(*tone), right, text)
            }
        }
    }

    // Adds notes.
    fn put_notes(&mut self, alloc: Global, notes: &[Note]) -> Result<(), NoMemory>
        ensures { OnOk result (self.new
            ≡ self.old ++ flat_map element_bytes (flat_map note_elements (map note_of notes.now))) }
    {
        for note in notes {
            self.note(alloc, note)?;
        }
        Ok(())
    }

    // Adds the bar of a time when a process is up.
    fn bar(&mut self, bar: Bar) -> Result<(), NoMemory>
        ensures { OnOk result (self.new ≡ self.old ++ element_bytes (bar_element bar)) }
    {
        let x = column(bar.process);
        let from = Point {
            x,
            y: height(bar.first),
        };
        let to = Point {
            x,
            y: height(bar.last),
        };
        self.line(b"b", from, to)
    }

    // Adds a bar, if there is one.
    fn maybe_bar(&mut self, bar: Option<Bar>) -> Result<(), NoMemory>
        ensures { OnOk result (self.new
            ≡ self.old ++ flat_map element_bytes (map bar_element (if_any bar))) }
    {
        match bar {
            Some(bar) => self.bar(bar),
            None => Ok(()),
        }
    }

    // Adds bars.
    fn put_bars(&mut self, bars: &[Bar]) -> Result<(), NoMemory>
        ensures { OnOk result (self.new
            ≡ self.old ++ flat_map element_bytes (map bar_element bars.now)) }
    {
        for bar in bars {
            self.bar(*bar)?;
        }
        Ok(())
    }

    // Adds the bars of the processes that are up to the end.
    fn put_bars_left(&mut self, processes: u8, row: u32, uptimes: &Uptimes) -> Result<(), NoMemory>
        ensures { OnOk result (self.new ≡ self.old
            ++ flat_map element_bytes (map bar_element (bars_left processes row uptimes.now.since))) }
    {
        for process in 0..processes {
            self.maybe_bar(uptimes.still(process, row))?;
        }
        Ok(())
    }

    // Adds the way of a packet.
    fn way(&mut self, way: Way) -> Result<(), NoMemory>
        ensures { OnOk result (self.new ≡ self.old ++ element_bytes (way_element way)) }
    {
        let from = middle(way.sent);
        match way.comes {
            Some(spot) => self.line(b"a", from, middle(spot)),
            None => {
                let stub = Point {
                    x: from.x + 30,
                    y: from.y + 12,
                };
                self.line(b"l", from, stub)
            }
        }
    }

    // Adds the ways of packets.
    fn put_ways(&mut self, ways: &[Way]) -> Result<(), NoMemory>
        ensures { OnOk result (self.new
            ≡ self.old ++ flat_map element_bytes (map way_element ways.now)) }
    {
        for way in ways {
            self.way(*way)?;
        }
        Ok(())
    }

    // Adds the labels of the processes.
    fn put_labels(&mut self, alloc: Global, processes: u8) -> Result<(), NoMemory>
        ensures { OnOk result (self.new ≡ self.old
            ++ flat_map element_bytes (map label (range_with_len 0 processes))) }
    {
        for process in 0..processes {
            let text = numbered(alloc, b"process ", u64::from(process))?;
            let at = Point {
                x: 175 + 190 * u64::from(process),
                y: 20,
            };
            self.plain_text(at, &text)?;
        }
        Ok(())
    }

    // Adds the styles and the ground of a picture.
    fn ground(&mut self) -> Result<(), NoMemory>
        ensures { OnOk result (self.new ≡ self.old
            ++ flat_map element_bytes (Holding (codes "style") [] styles ∷ ground ∷ [])) }
    {
        self.holding(b"style", &[], STYLES)?;
        self.empty(
            b"rect",
            &[
                Attribute::Worded(b"width", b"100%"),
                Attribute::Worded(b"height", b"100%"),
                Attribute::Worded(b"fill", b"#fff"),
            ],
        )
    }

    // Opens a picture of so many processes and a height.
    fn begin(&mut self, processes: u8, height: u64) -> Result<(), NoMemory>
        ensures { OnOk result (self.new ≡ self.old ++ opening (codes "svg")
            (worded (codes "xmlns") (codes "http://www.w3.org/2000/svg")
            ∷ measured (codes "width") (110 + 190 * processes) ∷ measured (codes "height") height ∷ [])
            ++ 62 ∷ 10 ∷ []) }
    {
        self.open(
            b"svg",
            &[
                Attribute::Worded(b"xmlns", b"http://www.w3.org/2000/svg"),
                Attribute::Measured(b"width", 110 + 190 * u64::from(processes)),
                Attribute::Measured(b"height", height),
            ],
        )?;
        self.put(b">\n")
    }

    // Draws what was drawn of a run of so many processes.
    fn draw(&mut self, alloc: Global, processes: u8, drawing: &Drawing) -> Result<(), NoMemory>
        ensures { OnOk result (self.new ≡ self.old ++ picture processes drawing.now) }
    {
        let bottom = height(drawing.row());
        self.begin(processes, bottom + 40)?;
        self.ground()?;
        self.put_labels(alloc, processes)?;
        self.put_bars(drawing.uptimes().over())?;
        self.put_bars_left(processes, drawing.row(), drawing.uptimes())?;
        self.put_ways(drawing.packets().over())?;
        self.put_notes(alloc, drawing.notes())?;
        let at = Point {
            x: 8,
            y: bottom + 28,
        };
        self.plain_text(at, drawing.end())?;
        self.close(b"svg")
    }
}

// What the classes of elements look like.
const STYLES: &[u8] =
    b"text{font:11px monospace}.t{fill:#888}.p{fill:#063}.f{fill:#a00}.e{fill:#333}\
.b{stroke:#9ab;stroke-width:5}.a{stroke:#36c}.l{stroke:#c00;stroke-dasharray:3}";

// A word and a number.
fn numbered(alloc: Global, word: &[u8], number: u64) -> Result<Vec<u8>, NoMemory>
    ensures { IfOk result (λ v. v.items ≡ word.now ++ decimal number) }
{
    let mut text = word.to_vec(alloc)?;
    text.extend_from_slice(Buffer::new().format(number).as_bytes())?;
    Ok(text)
}

// The text of an event: its number and its time.
fn moment_text(alloc: Global, number: u64, time: u64) -> Result<Vec<u8>, NoMemory>
    ensures { IfOk result (λ v. v.items ≡ decimal number ++ codes " at " ++ decimal time) }
{
    let mut text = numbered(alloc, b"", number)?;
    text.extend_from_slice(b" at ")?;
    text.extend_from_slice(Buffer::new().format(time).as_bytes())?;
    Ok(text)
}

/// The picture of what was drawn of a run of so many processes.
pub fn picture(alloc: Global, processes: u8, drawing: &Drawing) -> Result<Page, NoMemory>
    ensures { IfOk result (λ page. page ≡ picture processes drawing.now) }
{
    let mut page = Page::new(alloc);
    page.draw(alloc, processes, drawing)?;
    Ok(page)
}
