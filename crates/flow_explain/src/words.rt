// Each line in words.

ghost use Rattle.std.specs.Prelude.{◌≡◌, true, false, ℕ, List, [], ◌∷◌, ◌++◌, map, codes, decimal, option_copied, OnOk};
ghost use Rattle.std.specs.Option.{option_map};
ghost use Rattle.flow_base.specs.Quote.{quoted};
ghost use Rattle.flow_trace.specs.Bytes.{spelled, joined, outcome, truth, fields};
ghost use Rattle.flow_trace.specs.Groups.{is_event, is_deed};
ghost use Rattle.flow_explain.specs.Living.{Telling};
ghost use Rattle.flow_explain.specs.Texts.{ActorText};
ghost use Rattle.flow_explain.specs.Phrases.{phrase, error_fields, who, actor_text, wait_of, wait_place, branch_place, text_or_fail, size_or_fail, stays_same};
ghost use Rattle.flow_explain.specs.Pieces.{piece_bytes};
ghost use Rattle.flow_explain.specs.Words.{line_in_words};

use crate::errors::error_name;
use crate::living::Telling;
use crate::pieces::{LineBytes, Piece};
use crate::texts::ActorText;
use flow_base::ids::{ActorId, ErrorCode, ProcId};
use flow_base::memory::NoMemory;
use flow_base::place::Place;
use flow_base::text::Text;
use flow_trace::line::Line;

fn process<'a>(process: ProcId) -> Piece<'a>
    ensures { piece_bytes result ≡ decimal process.0 }
{
    Piece::Number(u64::from(process.0))
}

fn number<'a>(number: u32) -> Piece<'a>
    ensures { piece_bytes result ≡ decimal number }
{
    Piece::Number(u64::from(number))
}

fn text_or_fail<'a>(text: &'a Option<Text>) -> Piece<'a>
    ensures { piece_bytes result ≡ spelled (text_or_fail text.now) }
{
    match text {
        Some(text) => Piece::Quoted(text.bytes()),
        None => Piece::Words(b"fail"),
    }
}

fn size_or_fail<'a>(size: Option<u32>) -> Piece<'a>
    ensures { piece_bytes result ≡ spelled (size_or_fail size) }
{
    match size {
        Some(size) => number(size),
        None => Piece::Words(b"fail"),
    }
}

fn outcome<'a>(ok: bool) -> Piece<'a>
    ensures { piece_bytes result ≡ spelled (outcome ok) }
{
    if ok {
        Piece::Words(b"ok")
    } else {
        Piece::Words(b"fail")
    }
}

fn truth<'a>(value: bool) -> Piece<'a>
    ensures { piece_bytes result ≡ spelled (truth value) }
{
    if value {
        Piece::Words(b"true")
    } else {
        Piece::Words(b"false")
    }
}

fn name_of<'a>(text: Option<&'a ActorText>) -> &'a [u8]
    ensures { result.now ≡ spelled (who (option_copied text.entry)) }
{
    match text {
        Some(text) => text.name(),
        None => b"?",
    }
}

fn wait_place(text: Option<&ActorText>, group: u32) -> Option<Place>
    ensures { result ≡ wait_place (wait_of (option_copied text.entry) group) }
{
    let wait = text?.wait(group)?;
    Some(wait.at())
}

fn branch_place(text: Option<&ActorText>, group: u32, branch: u32) -> Option<Place>
    ensures { result ≡ branch_place (wait_of (option_copied text.entry) group) branch }
{
    let wait = text?.wait(group)?;
    wait.branch(branch)
}

impl LineBytes {
    // The line of an event: its number, its time, and what happens.
    fn event(&mut self, number: u64, time: u64, what: &[Piece<'_>]) -> Result<(), NoMemory>
        ensures { OnOk result (self.new ≡ joined (codes "event" ∷ decimal number ∷ codes "at"
            ∷ (decimal time ++ codes ":") ∷ map piece_bytes what.now)) }
    {
        self.begin(b"event")?;
        self.put_pieces(&[
            Piece::Number(number),
            Piece::Words(b"at"),
            Piece::Marked(time, b':'),
        ])?;
        self.put_pieces(what)
    }

    // The line of something within an event.
    fn inner(&mut self, what: &[Piece<'_>]) -> Result<(), NoMemory>
        ensures { OnOk result (self.new ≡ joined ([] ∷ [] ∷ [] ∷ [] ∷ map piece_bytes what.now)) }
    {
        self.begin(b"   ")?;
        self.put_pieces(what)
    }

    // The line of what an actor does.
    fn deed(&mut self, name: &[u8], actor: ActorId, what: &[Piece<'_>]) -> Result<(), NoMemory>
        ensures { OnOk result (self.new ≡ joined ([] ∷ [] ∷ [] ∷ [] ∷ name.now ∷ decimal actor.0
            ∷ map piece_bytes what.now)) }
    {
        self.inner(&[Piece::Words(name), Piece::Number(actor.0)])?;
        self.put_pieces(what)
    }

    // The line of what an actor does by an error.
    fn error_deed(
        &mut self,
        name: &[u8],
        actor: ActorId,
        what: &[u8],
        error: ErrorCode,
    ) -> Result<(), NoMemory>
        ensures { OnOk result (self.new ≡ joined ([] ∷ [] ∷ [] ∷ [] ∷ name.now ∷ decimal actor.0
            ∷ what.now ∷ map spelled (error_fields error))) }
    {
        let number = Piece::Number(u64::from(error.0));
        self.deed(name, actor, &[Piece::Words(what), number])?;
        self.put(error_name(error))
    }

    // The line of what becomes of a packet.
    fn packet(&mut self, number: u64, what: &[Piece<'_>]) -> Result<(), NoMemory>
        ensures { OnOk result (self.new ≡ joined ([] ∷ [] ∷ [] ∷ [] ∷ codes "packet"
            ∷ decimal number ∷ map piece_bytes what.now)) }
    {
        self.inner(&[Piece::Words(b"packet"), Piece::Number(number)])?;
        self.put_pieces(what)
    }

    // The line of what a process does.
    fn of_process(&mut self, n: u64, t: u64, p: ProcId, what: &[u8]) -> Result<(), NoMemory>
        ensures { OnOk result (self.new ≡ joined (codes "event" ∷ decimal n ∷ codes "at"
            ∷ (decimal t ++ codes ":") ∷ codes "process" ∷ decimal p.0 ∷ what.now ∷ [])) }
    {
        self.event(
            n,
            t,
            &[Piece::Words(b"process"), process(p), Piece::Words(what)],
        )
    }

    // The line of what a link does.
    fn of_link(
        &mut self,
        n: u64,
        t: u64,
        one: ProcId,
        other: ProcId,
        what: &[u8],
    ) -> Result<(), NoMemory>
        ensures { OnOk result (self.new ≡ joined (codes "event" ∷ decimal n ∷ codes "at"
            ∷ (decimal t ++ codes ":") ∷ codes "the link of processes" ∷ decimal one.0
            ∷ codes "and" ∷ decimal other.0 ∷ what.now ∷ [])) }
    {
        self.event(
            n,
            t,
            &[
                Piece::Words(b"the link of processes"),
                process(one),
                Piece::Words(b"and"),
                process(other),
                Piece::Words(what),
            ],
        )
    }

    // The line of an answer of a disk.
    fn of_disk<'x>(
        &mut self,
        n: u64,
        t: u64,
        p: ProcId,
        request: &'x [u8],
        answer: Piece<'x>,
    ) -> Result<(), NoMemory>
        ensures { OnOk result (self.new ≡ joined (codes "event" ∷ decimal n ∷ codes "at"
            ∷ (decimal t ++ codes ":") ∷ codes "the disk of process" ∷ decimal p.0
            ∷ codes "answers a" ∷ request.now ∷ piece_bytes answer.entry ∷ [])) }
    {
        self.event(
            n,
            t,
            &[
                Piece::Words(b"the disk of process"),
                process(p),
                Piece::Words(b"answers a"),
                Piece::Words(request),
                answer,
            ],
        )
    }

    // The line of disk requests that fail.
    fn disk_fails(&mut self, n: u64, t: u64, p: ProcId, k: u32) -> Result<(), NoMemory>
        ensures { OnOk result (self.new ≡ joined (codes "event" ∷ decimal n ∷ codes "at"
            ∷ (decimal t ++ codes ":") ∷ codes "the next" ∷ decimal k
            ∷ codes "disk requests of process" ∷ decimal p.0 ∷ codes "fail" ∷ [])) }
    {
        self.event(
            n,
            t,
            &[
                Piece::Words(b"the next"),
                number(k),
                Piece::Words(b"disk requests of process"),
                process(p),
                Piece::Words(b"fail"),
            ],
        )
    }

    // The line of a timer.
    fn timer(&mut self, n: u64, t: u64, p: ProcId) -> Result<(), NoMemory>
        ensures { OnOk result (self.new ≡ joined (codes "event" ∷ decimal n ∷ codes "at"
            ∷ (decimal t ++ codes ":") ∷ codes "a timer of process" ∷ decimal p.0 ∷ [])) }
    {
        self.event(n, t, &[Piece::Words(b"a timer of process"), process(p)])
    }

    // The line of a packet that comes.
    fn comes(&mut self, n: u64, t: u64, q: ProcId, m: u64) -> Result<(), NoMemory>
        ensures { OnOk result (self.new ≡ joined (codes "event" ∷ decimal n ∷ codes "at"
            ∷ (decimal t ++ codes ":") ∷ codes "packet" ∷ decimal m ∷ codes "comes to process"
            ∷ decimal q.0 ∷ [])) }
    {
        self.event(
            n,
            t,
            &[
                Piece::Words(b"packet"),
                Piece::Number(m),
                Piece::Words(b"comes to process"),
                process(q),
            ],
        )
    }

    // A line in words, but for its line feed.
    fn tell_line(
        &mut self,
        texts: &[ActorText],
        told: &Telling,
        line: &Line,
    ) -> Result<(), NoMemory>
        ensures { OnOk result (self.new ≡ joined (map spelled (phrase texts.now told.now line.now))) }
    {
        match line {
            Line::Boot(n, t, p) => self.of_process(*n, *t, *p, b"boots"),
            Line::Kill(n, t, p) => self.of_process(*n, *t, *p, b"loses power"),
            Line::Stop(n, t, p) => self.of_process(*n, *t, *p, b"is stopped"),
            Line::Cut(n, t, p, q) => self.of_link(*n, *t, *p, *q, b"is cut"),
            Line::Heal(n, t, p, q) => self.of_link(*n, *t, *p, *q, b"heals"),
            Line::DiskFail(n, t, p, k) => self.disk_fails(*n, *t, *p, *k),
            Line::Timer(n, t, p, _) => self.timer(*n, *t, *p),
            Line::Arrival(n, t, q, m) => self.comes(*n, *t, *q, *m),
            Line::Read(n, t, p, _, text) => {
                self.of_disk(*n, *t, *p, b"read:", text_or_fail(text))
            }
            Line::Write(n, t, p, _, ok) => self.of_disk(*n, *t, *p, b"write:", outcome(*ok)),
            Line::Sync(n, t, p, _, ok) => self.of_disk(*n, *t, *p, b"sync:", outcome(*ok)),
            Line::Size(n, t, p, _, size) => {
                self.of_disk(*n, *t, *p, b"size:", size_or_fail(*size))
            }
            _ => self.inner_line(texts, told, line),
        }
    }

    // The line of what an actor does within an event, or another within it.
    fn inner_line(
        &mut self,
        texts: &[ActorText],
        told: &Telling,
        line: &Line,
    ) -> Result<(), NoMemory>
        requires { is_event line.now ≡ false }
        ensures { OnOk result (self.new ≡ joined (map spelled (phrase texts.now told.now line.now))) }
    {
        match line {
            Line::Start(a, class) => self.deed(class.bytes(), *a, &[Piece::Words(b"starts")]),
            Line::Wait(a, group) => {
                let text = told.text(texts, *a);
                let at = Piece::Spot(wait_place(text, *group));
                self.deed(name_of(text), *a, &[Piece::Words(b"waits at"), at])
            }
            Line::Take(a, group, branch) => {
                let text = told.text(texts, *a);
                let at = Piece::Spot(branch_place(text, *group, *branch));
                self.deed(name_of(text), *a, &[Piece::Words(b"goes on at"), at])
            }
            Line::Throw(a, e) => self.error_deed(name_of(told.text(texts, *a)), *a, b"throws", *e),
            Line::Catch(a, e) => self.error_deed(name_of(told.text(texts, *a)), *a, b"catches", *e),
            Line::Fail(a, e) => self.error_deed(name_of(told.text(texts, *a)), *a, b"fails by", *e),
            Line::Finish(a) => {
                self.deed(name_of(told.text(texts, *a)), *a, &[Piece::Words(b"ends")])
            }
            Line::Cancel(a) => {
                self.deed(
                    name_of(told.text(texts, *a)),
                    *a,
                    &[Piece::Words(b"is cancelled")],
                )
            }
            Line::Broken(c) => {
                let cell = Piece::Number(c.0);
                self.inner(&[
                    Piece::Words(b"the last promise of cell"),
                    cell,
                    Piece::Words(b"is gone"),
                ])
            }
            Line::PrintInt(a, value) => {
                self.prints(name_of(told.text(texts, *a)), *a, Piece::Integer(*value))
            }
            Line::PrintBool(a, value) => {
                self.prints(name_of(told.text(texts, *a)), *a, truth(*value))
            }
            Line::PrintText(a, text) => {
                self.prints(
                    name_of(told.text(texts, *a)),
                    *a,
                    Piece::Quoted(text.bytes()),
                )
            }
            _ => self.other_line(line),
        }
    }

    // The line of what becomes of a packet or of a write, or one that stays as it is.
    fn other_line(&mut self, line: &Line) -> Result<(), NoMemory>
        requires no_event { is_event line.now ≡ false }
        requires no_deed { is_deed line.now ≡ false }
        ensures { (texts : List ActorText) (s : Telling)
            → OnOk result (self.new ≡ joined (map spelled (phrase texts s line.now))) }
    {
        match line {
            Line::Send(m, q, port, text) => {
                let port = Piece::Marked(u64::from(*port), b':');
                let process = Piece::Marked(u64::from(q.0), b',');
                let text = Piece::Quoted(text.bytes());
                self.packet(
                    *m,
                    &[
                        Piece::Words(b"to process"),
                        process,
                        Piece::Words(b"port"),
                        port,
                        text,
                    ],
                )
            }
            Line::LostCut(m) => self.packet(*m, &[Piece::Words(b"is lost: the link is cut")]),
            Line::LostDraw(m) => self.packet(*m, &[Piece::Words(b"is lost: by a draw")]),
            Line::Discard(m) => self.packet(*m, &[Piece::Words(b"is discarded: nobody listens")]),
            Line::Kept(file, offset, length, kept) => self.kept(file, *offset, *length, *kept),
            _ => self.same_line(line),
        }
    }

    // The line of what a disk kept of a write.
    fn kept(&mut self, file: &Text, offset: u32, length: u32, kept: u32) -> Result<(), NoMemory>
        ensures { OnOk result (self.new ≡ joined ([] ∷ [] ∷ [] ∷ [] ∷ codes "of" ∷ decimal length
            ∷ codes "bytes written to" ∷ quoted file.now ∷ codes "at" ∷ (decimal offset ++ codes ",")
            ∷ decimal kept ∷ codes "stay" ∷ [])) }
    {
        self.inner(&[
            Piece::Words(b"of"),
            number(length),
            Piece::Words(b"bytes written to"),
            Piece::Quoted(file.bytes()),
            Piece::Words(b"at"),
            Piece::Marked(u64::from(offset), b','),
            number(kept),
            Piece::Words(b"stay"),
        ])
    }

    // The line of something printed.
    fn prints<'x>(
        &mut self,
        name: &'x [u8],
        actor: ActorId,
        what: Piece<'x>,
    ) -> Result<(), NoMemory>
        ensures { OnOk result (self.new ≡ joined ([] ∷ [] ∷ [] ∷ [] ∷ name.now ∷ decimal actor.0
            ∷ codes "prints" ∷ piece_bytes what.entry ∷ [])) }
    {
        self.deed(name, actor, &[Piece::Words(b"prints"), what])
    }

    // A line of two words, of the first or the last of a trace.
    fn edge(&mut self, first: &[u8], second: &[u8]) -> Result<(), NoMemory>
        ensures { OnOk result (self.new ≡ joined (first.now ∷ second.now ∷ [])) }
    {
        self.begin(first)?;
        self.put_pieces(&[Piece::Words(second)])
    }

    // A line that stays as it is: the first or the last one of a trace, or a frame's.
    fn same_line(&mut self, line: &Line) -> Result<(), NoMemory>
        requires { stays_same line.now ≡ true }
        ensures { OnOk result (self.new ≡ joined (map spelled (fields line.now))) }
    {
        match line {
            Line::Head => self.edge(b"trace", b"1"),
            Line::Frame(p, a, class, group) => {
                self.begin(b"frame")?;
                let name = Piece::Words(class.bytes());
                self.put_pieces(&[process(*p), Piece::Number(a.0), name, number(*group)])
            }
            Line::Callback(p, a, k, c) => {
                self.begin(b"callback")?;
                let cell = Piece::Number(c.0);
                self.put_pieces(&[process(*p), Piece::Number(a.0), number(*k), cell])
            }
            Line::EndIdle => self.edge(b"end", b"idle"),
            Line::EndBound => self.edge(b"end", b"bound"),
            Line::EndSpent => self.edge(b"end", b"spent"),
            Line::EndStop(monitor) => {
                self.begin(b"end")?;
                self.put_pieces(&[Piece::Words(b"stop"), Piece::Words(monitor.bytes())])
            }
            _ => unreachable!(),
        }
    }

    /// Replaces the bytes by those of a line in words, behind what others told.
    pub(crate) fn tell(
        &mut self,
        texts: &[ActorText],
        told: &Telling,
        line: &Line,
    ) -> Result<(), NoMemory>
        ensures { OnOk result (self.new ≡ line_in_words texts.now told.now line.now) }
    {
        self.tell_line(texts, told, line)?;
        self.put(b"\n")
    }
}
