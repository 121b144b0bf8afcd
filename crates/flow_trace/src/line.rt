// The lines of a trace.

ghost use Rattle.std.specs.Prelude.{◌≡◌, true, false, IfOk};
ghost use Rattle.flow_trace.specs.Groups.{is_event, is_deed};

use flow_base::ids::{ActorId, CellId, ErrorCode, ProcId};
use flow_base::memory::NoMemory;
use flow_base::name::Name;
use flow_base::text::Text;
use std::alloc::Global;

/// A line of a trace. Events begin with their number from 1 and their time; groups are numbered from 1,
/// branches and callbacks from 0. The lines between two events belong to the process of the first.
#[derive(Drop)]
pub enum Line {
    /// The first line of each trace.
    Head,
    /// A process boots.
    Boot(u64, u64, ProcId),
    /// A process is killed.
    Kill(u64, u64, ProcId),
    /// A process is stopped.
    Stop(u64, u64, ProcId),
    /// The link between two processes is cut.
    Cut(u64, u64, ProcId, ProcId),
    /// The link between two processes heals.
    Heal(u64, u64, ProcId, ProcId),
    /// So many of the next requests to the disk of a process fail.
    DiskFail(u64, u64, ProcId, u32),
    /// A timer of a process fires into a cell.
    Timer(u64, u64, ProcId, CellId),
    /// A packet arrives at a process.
    Arrival(u64, u64, ProcId, u64),
    /// A read answers into a cell, with the bytes or a failure.
    Read(u64, u64, ProcId, CellId, Option<Text>),
    /// A write answers into a cell, well or not.
    Write(u64, u64, ProcId, CellId, bool),
    /// A sync answers into a cell, well or not.
    Sync(u64, u64, ProcId, CellId, bool),
    /// A question for a file's size answers into a cell, with the size or a failure.
    Size(u64, u64, ProcId, CellId, Option<u32>),
    /// An actor of a class starts.
    Start(ActorId, Name),
    /// An actor waits at a group.
    Wait(ActorId, u32),
    /// An actor takes a branch of a group.
    Take(ActorId, u32, u32),
    /// An actor throws an error.
    Throw(ActorId, ErrorCode),
    /// An actor catches an error.
    Catch(ActorId, ErrorCode),
    /// An actor ends by an error.
    Fail(ActorId, ErrorCode),
    /// An actor ends well.
    Finish(ActorId),
    /// An actor is cancelled.
    Cancel(ActorId),
    /// A promise's cell is broken.
    Broken(CellId),
    /// An actor prints a number.
    PrintInt(ActorId, i64),
    /// An actor prints a truth value.
    PrintBool(ActorId, bool),
    /// An actor prints a text.
    PrintText(ActorId, Text),
    /// A packet is sent to a port of a process.
    Send(u64, ProcId, u16, Text),
    /// A packet is lost, since the link is cut.
    LostCut(u64),
    /// A packet is lost by a drawn word.
    LostDraw(u64),
    /// A packet is discarded where it arrives.
    Discard(u64),
    /// What the disk kept of a write at a loss of power: the file, the offset, the length, and how much.
    Kept(Text, u32, u32, u32),
    /// A live actor's frame: its process, number, class and group.
    Frame(ProcId, ActorId, Name, u32),
    /// A callback of a frame: its process, actor, number and cell.
    Callback(ProcId, ActorId, u32, CellId),
    /// The trace ends with nothing left to do.
    EndIdle,
    /// The trace ends at the bound of events.
    EndBound,
    /// The trace ends at an event that was spent.
    EndSpent,
    /// The trace ends since a monitor said so.
    EndStop(Name),
}

impl Line {
    /// Whether a line is an event's.
    pub(crate) fn is_event(&self) -> bool
        ensures { result ≡ is_event self.now }
    {
        matches!(
            self,
            Line::Boot(..)
                | Line::Kill(..)
                | Line::Stop(..)
                | Line::Cut(..)
                | Line::Heal(..)
                | Line::DiskFail(..)
                | Line::Timer(..)
                | Line::Arrival(..)
                | Line::Read(..)
                | Line::Write(..)
                | Line::Sync(..)
                | Line::Size(..)
        )
    }

    /// Whether a line tells what an actor does.
    pub(crate) fn is_deed(&self) -> bool
        ensures { result ≡ is_deed self.now }
    {
        matches!(
            self,
            Line::Start(..)
                | Line::Wait(..)
                | Line::Take(..)
                | Line::Throw(..)
                | Line::Catch(..)
                | Line::Fail(..)
                | Line::Finish(_)
                | Line::Cancel(_)
                | Line::Broken(_)
                | Line::PrintInt(..)
                | Line::PrintBool(..)
                | Line::PrintText(..)
        )
    }

    // An equal line, of an event's.
    fn copy_event(&self, alloc: Global) -> Result<Line, NoMemory>
        requires { is_event self.now ≡ true }
        ensures { IfOk result (λ line. line ≡ self.now) }
    {
        match self {
            Line::Boot(n, t, p) => Ok(Line::Boot(*n, *t, *p)),
            Line::Kill(n, t, p) => Ok(Line::Kill(*n, *t, *p)),
            Line::Stop(n, t, p) => Ok(Line::Stop(*n, *t, *p)),
            Line::Cut(n, t, p, q) => Ok(Line::Cut(*n, *t, *p, *q)),
            Line::Heal(n, t, p, q) => Ok(Line::Heal(*n, *t, *p, *q)),
            Line::DiskFail(n, t, p, k) => Ok(Line::DiskFail(*n, *t, *p, *k)),
            Line::Timer(n, t, p, c) => Ok(Line::Timer(*n, *t, *p, *c)),
            Line::Arrival(n, t, q, m) => Ok(Line::Arrival(*n, *t, *q, *m)),
            Line::Read(n, t, p, c, Some(text)) => Ok(Line::Read(
                *n,
                *t,
                *p,
                *c,
                Some(text.copy(alloc)?),
            )),
            Line::Read(n, t, p, c, None) => Ok(Line::Read(*n, *t, *p, *c, None)),
            Line::Write(n, t, p, c, ok) => Ok(Line::Write(*n, *t, *p, *c, *ok)),
            Line::Sync(n, t, p, c, ok) => Ok(Line::Sync(*n, *t, *p, *c, *ok)),
            Line::Size(n, t, p, c, size) => Ok(Line::Size(*n, *t, *p, *c, *size)),
            _ => unreachable!(),
        }
    }

    // An equal line, of one that tells what an actor does.
    fn copy_deed(&self, alloc: Global) -> Result<Line, NoMemory>
        requires { is_deed self.now ≡ true }
        ensures { IfOk result (λ line. line ≡ self.now) }
    {
        match self {
            Line::Start(a, class) => Ok(Line::Start(*a, class.copy(alloc)?)),
            Line::Wait(a, group) => Ok(Line::Wait(*a, *group)),
            Line::Take(a, group, branch) => Ok(Line::Take(*a, *group, *branch)),
            Line::Throw(a, e) => Ok(Line::Throw(*a, *e)),
            Line::Catch(a, e) => Ok(Line::Catch(*a, *e)),
            Line::Fail(a, e) => Ok(Line::Fail(*a, *e)),
            Line::Finish(a) => Ok(Line::Finish(*a)),
            Line::Cancel(a) => Ok(Line::Cancel(*a)),
            Line::Broken(c) => Ok(Line::Broken(*c)),
            Line::PrintInt(a, value) => Ok(Line::PrintInt(*a, *value)),
            Line::PrintBool(a, value) => Ok(Line::PrintBool(*a, *value)),
            Line::PrintText(a, text) => Ok(Line::PrintText(*a, text.copy(alloc)?)),
            _ => unreachable!(),
        }
    }

    // An equal line, of the rest.
    fn copy_other(&self, alloc: Global) -> Result<Line, NoMemory>
        requires no_event { is_event self.now ≡ false }
        requires no_deed { is_deed self.now ≡ false }
        ensures { IfOk result (λ line. line ≡ self.now) }
    {
        match self {
            Line::Head => Ok(Line::Head),
            Line::Send(m, q, port, text) => Ok(Line::Send(*m, *q, *port, text.copy(alloc)?)),
            Line::LostCut(m) => Ok(Line::LostCut(*m)),
            Line::LostDraw(m) => Ok(Line::LostDraw(*m)),
            Line::Discard(m) => Ok(Line::Discard(*m)),
            Line::Kept(file, offset, len, kept) => Ok(Line::Kept(
                file.copy(alloc)?,
                *offset,
                *len,
                *kept,
            )),
            Line::Frame(p, a, class, group) => Ok(Line::Frame(*p, *a, class.copy(alloc)?, *group)),
            Line::Callback(p, a, k, c) => Ok(Line::Callback(*p, *a, *k, *c)),
            Line::EndIdle => Ok(Line::EndIdle),
            Line::EndBound => Ok(Line::EndBound),
            Line::EndSpent => Ok(Line::EndSpent),
            Line::EndStop(monitor) => Ok(Line::EndStop(monitor.copy(alloc)?)),
            _ => unreachable!(),
        }
    }

    /// An equal line.
    pub fn copy(&self, alloc: Global) -> Result<Line, NoMemory>
        ensures { IfOk result (λ line. line ≡ self.now) }
    {
        if self.is_event() {
            self.copy_event(alloc)
        } else if self.is_deed() {
            self.copy_deed(alloc)
        } else {
            self.copy_other(alloc)
        }
    }
}
