// The lines of a world file, read.

ghost use Rattle.std.specs.Prelude.{◌≡◌, ◌↔◌, ◌<◌, ◌≤◌, IsTrue};
ghost use Rattle.flow_worldfile.specs.Directives.{IsSpan, OrderInRange, InRange, OrderNames, Names};
ghost use Rattle.flow_worldfile.specs.Worlds.{order_of, processes_in};

use crate::world::Act;
use flow_base::ids::ProcId;

/// What an `at` line orders, with numbers of processes as they stand in the file.
#[derive(Clone, Copy)]
pub enum Order {
    Kill(u128),
    Stop(u128),
    Boot(u128),
    Cut(u128, u128),
    Heal(u128, u128),
    DiskFail(u128, u128),
}

/// What a line of a world file says, with its numbers as they stand there, in their range or not.
#[derive(Clone, Copy)]
pub enum Directive {
    Seed(u128),
    Processes(u128),
    Events(u128),
    Turns(u128),
    Latency(u128, u128),
    DiskDelay(u128, u128),
    Loss(u128),
    Word(u128),
    At(u128, Order),
}

impl Order {
    /// Whether its numbers are in their ranges, but for numbers of processes.
    fn is_in_range(&self) -> bool
        ensures { IsTrue result ↔ OrderInRange self.now }
    {
        match self {
            Order::DiskFail(_, count) => *count <= 1_000_000,
            _ => true,
        }
    }

    /// Whether it names no other processes than the `count` ones that are there, from 0 on.
    fn names(&self, count: u8) -> bool
        ensures { IsTrue result ↔ OrderNames count self.now }
    {
        let count = u128::from(count);
        match self {
            Order::Kill(p) | Order::Stop(p) | Order::Boot(p) | Order::DiskFail(p, _) => *p < count,
            Order::Cut(p, q) | Order::Heal(p, q) => *p < count && *q < count,
        }
    }

    /// The same for a script.
    pub fn act(self, count: u8) -> Act
        requires in_range { OrderInRange self }
        requires named { OrderNames count self }
        ensures { order_of result ≡ self }
    {
        match self {
            Order::Kill(p) => Act::Kill(ProcId(p as u8)),
            Order::Stop(p) => Act::Stop(ProcId(p as u8)),
            Order::Boot(p) => Act::Boot(ProcId(p as u8)),
            Order::Cut(p, q) => Act::Cut(ProcId(p as u8), ProcId(q as u8)),
            Order::Heal(p, q) => Act::Heal(ProcId(p as u8), ProcId(q as u8)),
            Order::DiskFail(p, n) => Act::DiskFail(ProcId(p as u8), n as u32),
        }
    }
}

/// Whether a delay can be drawn from `lo` up to below `hi`, and isn't too long.
fn is_span(lo: u128, hi: u128) -> bool
    ensures { IsTrue result ↔ IsSpan lo hi }
{
    lo < hi && hi <= 1_000_000_000
}

impl Directive {
    /// Whether its numbers are in their ranges, but for numbers of processes.
    pub fn is_in_range(&self) -> bool
        ensures { IsTrue result ↔ InRange self.now }
    {
        match self {
            Directive::Seed(n) => *n < 1 << 64,
            Directive::Processes(n) => 1 <= *n && *n <= 64,
            Directive::Events(n) => *n <= 1_000_000,
            Directive::Turns(n) => 1 <= *n && *n <= 1_000_000,
            Directive::Latency(lo, hi) | Directive::DiskDelay(lo, hi) => is_span(*lo, *hi),
            Directive::Loss(n) => *n <= 1000,
            Directive::Word(n) => *n < 1 << 32,
            Directive::At(time, order) => *time <= 1 << 62 && order.is_in_range(),
        }
    }

    /// The count of processes that it says.
    pub fn processes(&self) -> Option<u128>
        ensures { result ≡ processes_in self.now }
    {
        match self {
            Directive::Processes(count) => Some(*count),
            _ => None,
        }
    }

    /// Whether it names no other processes than the `count` ones that are there, from 0 on.
    pub fn names(&self, count: u8) -> bool
        ensures { IsTrue result ↔ Names count self.now }
    {
        match self {
            Directive::At(_, order) => order.names(count),
            _ => true,
        }
    }
}

impl Act {
    /// The same as it stands in a world file.
    pub fn order(&self) -> Order
        ensures { result ≡ order_of self.now }
    {
        match self {
            Act::Kill(p) => Order::Kill(p.0.into()),
            Act::Stop(p) => Order::Stop(p.0.into()),
            Act::Boot(p) => Order::Boot(p.0.into()),
            Act::Cut(p, q) => Order::Cut(p.0.into(), q.0.into()),
            Act::Heal(p, q) => Order::Heal(p.0.into(), q.0.into()),
            Act::DiskFail(p, n) => Order::DiskFail(p.0.into(), (*n).into()),
        }
    }
}
