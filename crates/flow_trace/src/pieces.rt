// The pieces that a line is printed from.

ghost use Rattle.std.specs.Prelude.{◌≡◌, ◌≤◌, ◌<◌, ◌^◌, ◌+◌, ℕ, List, [], ◌∷◌, ◌++◌, map, length, codes, decimal, true, false};
ghost use Rattle.flow_base.specs.Quote.{quoted};
ghost use Rattle.flow_trace.specs.Bytes.{fields, spelled, outcome, truth, text, IsField, IsLine};
ghost use Rattle.flow_base.specs.Names.{IsName};
ghost use Rattle.flow_trace.specs.Groups.{is_event, is_deed};
ghost use Rattle.flow_trace.specs.Pieces.{words_of, piece_words, room_of, piece_room};
ghost use Rattle.flow_trace.specs.declared.pieces.Piece.TheVariants.{Absent, Word, Number, Integer, Quoted};

use crate::line::Line;
use flow_base::ids::{ActorId, CellId, ErrorCode, ProcId};
use flow_base::name::Name;
use flow_base::text::Text;

/// A word of a line, not yet spelled.
#[derive(Clone, Copy)]
pub(crate) enum Piece<'a> {
    Absent,
    Word(&'a [u8]),
    Number(u64),
    Integer(i64),
    Quoted(&'a [u8]),
}

/// The words of a line, not yet spelled: a fixed word, and six more at most.
#[derive(Clone, Copy)]
pub(crate) struct Pieces<'a> {
    pub(crate) first: &'a [u8],
    pub(crate) second: Piece<'a>,
    pub(crate) third: Piece<'a>,
    pub(crate) fourth: Piece<'a>,
    pub(crate) fifth: Piece<'a>,
    pub(crate) sixth: Piece<'a>,
    pub(crate) seventh: Piece<'a>,
}

// A line of five words at most.
fn words<'a>(
    first: &'a [u8],
    second: Piece<'a>,
    third: Piece<'a>,
    fourth: Piece<'a>,
    fifth: Piece<'a>,
) -> Pieces<'a>
    ensures words { words_of result ≡ first.now
        ∷ piece_words second.entry ++ piece_words third.entry ++ piece_words fourth.entry
        ++ piece_words fifth.entry ++ [] }
    ensures room { room_of result ≡ length first.now + piece_room second.entry
        + piece_room third.entry + piece_room fourth.entry + piece_room fifth.entry + 1 }
{
    Pieces {
        first,
        second,
        third,
        fourth,
        fifth,
        sixth: Piece::Absent,
        seventh: Piece::Absent,
    }
}

// A line of two fixed words.
fn fixed<'a>(first: &'a [u8], second: &'a [u8]) -> Pieces<'a>
    ensures words { words_of result ≡ first.now ∷ second.now ∷ [] }
    ensures room { room_of result ≡ length first.now + length second.now + 2 }
{
    Pieces {
        first,
        second: Piece::Word(second),
        third: Piece::Absent,
        fourth: Piece::Absent,
        fifth: Piece::Absent,
        sixth: Piece::Absent,
        seventh: Piece::Absent,
    }
}

// A line of a fixed word and a number.
fn numbered<'a>(first: &'a [u8], number: u64) -> Pieces<'a>
    ensures words { words_of result ≡ first.now ∷ decimal number ∷ [] }
    ensures range { number < 2 ^ 64 }
    ensures room { room_of result ≡ length first.now + 22 }
{
    Pieces {
        first,
        second: Piece::Number(number),
        third: Piece::Absent,
        fourth: Piece::Absent,
        fifth: Piece::Absent,
        sixth: Piece::Absent,
        seventh: Piece::Absent,
    }
}

// A line of a fixed word, a number and one word more.
fn numbered_with<'a>(first: &'a [u8], number: u64, third: Piece<'a>) -> Pieces<'a>
    ensures words { words_of result ≡ first.now ∷ decimal number ∷ piece_words third.entry }
    ensures range { number < 2 ^ 64 }
    ensures room { room_of result ≡ length first.now + 22 + piece_room third.entry }
{
    Pieces {
        first,
        second: Piece::Number(number),
        third,
        fourth: Piece::Absent,
        fifth: Piece::Absent,
        sixth: Piece::Absent,
        seventh: Piece::Absent,
    }
}

// The line of an event of a process.
fn event<'a>(number: u64, time: u64, what: &'a [u8], process: ProcId) -> Pieces<'a>
    ensures words { words_of result ≡ codes "event" ∷ decimal number ∷ decimal time ∷ what.now
        ∷ decimal process.0 ∷ [] }
    ensures range { process.0 < 2 ^ 8 }
    ensures room { room_of result ≡ 70 + length what.now }
{
    Pieces {
        first: b"event",
        second: Piece::Number(number),
        third: Piece::Number(time),
        fourth: Piece::Word(what),
        fifth: Piece::Number(u64::from(process.0)),
        sixth: Piece::Absent,
        seventh: Piece::Absent,
    }
}

// The line of an event of a process, with one word more.
fn event_with<'a>(
    number: u64,
    time: u64,
    what: &'a [u8],
    process: ProcId,
    sixth: Piece<'a>,
) -> Pieces<'a>
    ensures words { words_of result ≡ codes "event" ∷ decimal number ∷ decimal time ∷ what.now
        ∷ decimal process.0 ∷ piece_words sixth.entry }
    ensures range { process.0 < 2 ^ 8 }
    ensures room { room_of result ≡ 70 + length what.now + piece_room sixth.entry }
{
    Pieces {
        first: b"event",
        second: Piece::Number(number),
        third: Piece::Number(time),
        fourth: Piece::Word(what),
        fifth: Piece::Number(u64::from(process.0)),
        sixth,
        seventh: Piece::Absent,
    }
}

// The line of an answer of the disk into a cell of a process.
fn answer<'a>(
    number: u64,
    time: u64,
    what: &'a [u8],
    process: ProcId,
    cell: CellId,
    seventh: Piece<'a>,
) -> Pieces<'a>
    ensures words { words_of result ≡ codes "event" ∷ decimal number ∷ decimal time ∷ what.now
        ∷ decimal process.0 ∷ decimal cell.0 ∷ piece_words seventh.entry }
    ensures process { process.0 < 2 ^ 8 }
    ensures cell { cell.0 < 2 ^ 64 }
    ensures room { room_of result ≡ 91 + length what.now + piece_room seventh.entry }
{
    Pieces {
        first: b"event",
        second: Piece::Number(number),
        third: Piece::Number(time),
        fourth: Piece::Word(what),
        fifth: Piece::Number(u64::from(process.0)),
        sixth: Piece::Number(cell.0),
        seventh,
    }
}

// The number of a process.
fn process<'a>(process: ProcId) -> Piece<'a>
    ensures piece { result ≡ Number process.0 }
    ensures range { process.0 < 2 ^ 8 }
{
    Piece::Number(u64::from(process.0))
}

fn actor<'a>(actor: ActorId) -> Piece<'a>
    ensures { result ≡ Number actor.0 }
{
    Piece::Number(actor.0)
}

fn number<'a>(number: u32) -> Piece<'a>
    ensures { result ≡ Number number }
{
    Piece::Number(u64::from(number))
}

fn cell<'a>(cell: CellId) -> Piece<'a>
    ensures { result ≡ Number cell.0 }
{
    Piece::Number(cell.0)
}

fn error<'a>(error: ErrorCode) -> Piece<'a>
    ensures piece { result ≡ Number error.0 }
    ensures range { error.0 < 2 ^ 16 }
{
    Piece::Number(u64::from(error.0))
}

fn outcome<'a>(ok: bool) -> Piece<'a>
    ensures words { piece_words result ≡ spelled (outcome ok) ∷ [] }
    ensures room { piece_room result ≤ 5 }
{
    if ok {
        Piece::Word(b"ok")
    } else {
        Piece::Word(b"fail")
    }
}

fn truth<'a>(value: bool) -> Piece<'a>
    ensures words { piece_words result ≡ spelled (truth value) ∷ [] }
    ensures room { piece_room result ≤ 6 }
{
    if value {
        Piece::Word(b"true")
    } else {
        Piece::Word(b"false")
    }
}

fn named<'a>(value: &'a Name) -> Piece<'a>
    ensures words { piece_words result ≡ value.now ∷ [] }
    ensures range { IsName value.now }
    ensures room { piece_room result ≤ 256 }
{
    Piece::Word(value.bytes())
}

fn quoted<'a>(value: &'a Text) -> Piece<'a>
    ensures words { piece_words result ≡ quoted value.now ∷ [] }
    ensures range { IsField (text value.now) }
    ensures room { piece_room result ≤ 262143 }
{
    quoted_bytes(value.bytes())
}

fn quoted_bytes<'a>(bytes: &'a [u8]) -> Piece<'a>
    requires { length bytes.now ≤ 65535 }
    ensures words { piece_words result ≡ quoted bytes.now ∷ [] }
    ensures range { IsField (text bytes.now) }
    ensures room { piece_room result ≤ 262143 }
{
    Piece::Quoted(bytes)
}

// The pieces of an event's line.
fn event_pieces<'a>(line: &'a Line) -> Pieces<'a>
    requires { is_event line.now ≡ true }
    ensures words { words_of result ≡ map spelled (fields line.now) }
    ensures range { IsLine line.now }
    ensures room { room_of result ≤ 262238 }
{
    match line {
        Line::Boot(n, t, p) => event(*n, *t, b"boot", *p),
        Line::Kill(n, t, p) => event(*n, *t, b"kill", *p),
        Line::Stop(n, t, p) => event(*n, *t, b"stop", *p),
        Line::Cut(n, t, p, q) => event_with(*n, *t, b"cut", *p, process(*q)),
        Line::Heal(n, t, p, q) => event_with(*n, *t, b"heal", *p, process(*q)),
        Line::DiskFail(n, t, p, k) => event_with(*n, *t, b"diskfail", *p, number(*k)),
        Line::Timer(n, t, p, c) => event_with(*n, *t, b"timer", *p, cell(*c)),
        Line::Arrival(n, t, q, m) => event_with(*n, *t, b"packet", *q, Piece::Number(*m)),
        Line::Read(n, t, p, c, Some(text)) => answer(*n, *t, b"read", *p, *c, quoted(text)),
        Line::Read(n, t, p, c, None) => answer(*n, *t, b"read", *p, *c, Piece::Word(b"fail")),
        Line::Write(n, t, p, c, ok) => answer(*n, *t, b"write", *p, *c, outcome(*ok)),
        Line::Sync(n, t, p, c, ok) => answer(*n, *t, b"sync", *p, *c, outcome(*ok)),
        Line::Size(n, t, p, c, Some(k)) => answer(*n, *t, b"size", *p, *c, number(*k)),
        Line::Size(n, t, p, c, None) => answer(*n, *t, b"size", *p, *c, Piece::Word(b"fail")),
        _ => unreachable!(),
    }
}

// The pieces of a line that tells what an actor does.
fn deed_pieces<'a>(line: &'a Line) -> Pieces<'a>
    requires { is_deed line.now ≡ true }
    ensures words { words_of result ≡ map spelled (fields line.now) }
    ensures range { IsLine line.now }
    ensures room { room_of result ≤ 262238 }
{
    match line {
        Line::Start(a, class) => numbered_with(b"start", a.0, named(class)),
        Line::Wait(a, group) => numbered_with(b"wait", a.0, number(*group)),
        Line::Take(a, group, branch) => words(
            b"take",
            actor(*a),
            number(*group),
            number(*branch),
            Piece::Absent,
        ),
        Line::Throw(a, e) => numbered_with(b"throw", a.0, error(*e)),
        Line::Catch(a, e) => numbered_with(b"catch", a.0, error(*e)),
        Line::Fail(a, e) => numbered_with(b"fail", a.0, error(*e)),
        Line::Finish(a) => numbered(b"done", a.0),
        Line::Cancel(a) => numbered(b"cancel", a.0),
        Line::Broken(c) => numbered(b"broken", c.0),
        Line::PrintInt(a, value) => numbered_with(b"print", a.0, Piece::Integer(*value)),
        Line::PrintBool(a, value) => numbered_with(b"print", a.0, truth(*value)),
        Line::PrintText(a, text) => numbered_with(b"print", a.0, quoted(text)),
        _ => unreachable!(),
    }
}

// The pieces of a line of a packet or a write, of a frame, or at an edge of a trace.
fn other_pieces<'a>(line: &'a Line) -> Pieces<'a>
    requires no_event { is_event line.now ≡ false }
    requires no_deed { is_deed line.now ≡ false }
    ensures words { words_of result ≡ map spelled (fields line.now) }
    ensures range { IsLine line.now }
    ensures room { room_of result ≤ 262238 }
{
    match line {
        Line::Head => fixed(b"trace", b"1"),
        Line::Send(m, q, port, text) => words(
            b"send",
            Piece::Number(*m),
            process(*q),
            Piece::Number(u64::from(*port)),
            quoted(text),
        ),
        Line::LostCut(m) => numbered_with(b"lost", *m, Piece::Word(b"cut")),
        Line::LostDraw(m) => numbered_with(b"lost", *m, Piece::Word(b"draw")),
        Line::Discard(m) => numbered(b"discard", *m),
        Line::Kept(file, offset, len, kept) => words(
            b"kept",
            quoted(file),
            number(*offset),
            number(*len),
            number(*kept),
        ),
        Line::Frame(p, a, class, group) => words(
            b"frame",
            process(*p),
            actor(*a),
            named(class),
            number(*group),
        ),
        Line::Callback(p, a, k, c) => words(
            b"callback",
            process(*p),
            actor(*a),
            number(*k),
            cell(*c),
        ),
        Line::EndIdle => fixed(b"end", b"idle"),
        Line::EndBound => fixed(b"end", b"bound"),
        Line::EndSpent => fixed(b"end", b"spent"),
        Line::EndStop(monitor) => words(
            b"end",
            Piece::Word(b"stop"),
            named(monitor),
            Piece::Absent,
            Piece::Absent,
        ),
        _ => unreachable!(),
    }
}

/// The pieces of a line, which has room in so many bytes; and every line is in the range of its type.
pub(crate) fn line_pieces<'a>(line: &'a Line) -> Pieces<'a>
    ensures words { words_of result ≡ map spelled (fields line.now) }
    ensures range { IsLine line.now }
    ensures room { room_of result ≤ 262238 }
{
    if line.is_event() {
        event_pieces(line)
    } else if line.is_deed() {
        deed_pieces(line)
    } else {
        other_pieces(line)
    }
}
