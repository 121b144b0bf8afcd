// Tasks, and what a dropped reference leads to.

use flow_base::ids::{ActorId, CellId, ErrorCode};
use flow_value::value::{Kind, Outcome, Value};

/// Work that a process still has to do. What a task holds counts as stored. Values stand in boxes, so that a task is
/// small.
#[derive(Drop)]
pub enum Task {
    /// The actor takes its next step.
    Run(ActorId),
    /// The actor goes on at a branch that was taken, by its number in its group, with what it took.
    Give(ActorId, u32, Box<Outcome>),
    /// An error is thrown where the actor stands.
    Throw(ActorId, ErrorCode),
    /// The handler of the actor's error begins.
    Catch(ActorId, ErrorCode),
    /// The waiters of a cell take their branches.
    Fire(CellId),
    /// A reference is dropped.
    Drop(Kind, CellId),
    /// The result of an effect is stored where the actor's instruction says.
    Store(ActorId, Box<Value>),
    /// A cell is kept as an operand of the actor's wait, by the number of its branch through the whole class.
    Keep(ActorId, u32, CellId),
    /// The actor ends.
    Close(ActorId, Box<Outcome>),
}

/// What the loss of a reference led to: nothing more; the cell is gone; the cell is to be broken; the actor of this
/// result is to be cancelled; or the stream is gone, and with it its port.
#[derive(Clone, Copy, PartialEq, Eq)]
pub enum Dropped {
    Nothing,
    Freed,
    Broken,
    Cancel(ActorId),
    PortFreed,
}
