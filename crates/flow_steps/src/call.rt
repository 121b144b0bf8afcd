// What a step asks of the world.

use flow_base::ids::{ActorId, CellId};
use flow_base::text::Text;
use flow_trace::line::Line;

/// Where the result of an effect goes: into the place of the actor's instruction, or among the operands of its wait, as
/// the one of the branch with this number through the whole class.
#[derive(Clone, Copy, PartialEq, Eq)]
pub enum Goal {
    Stored,
    Kept(u32),
}

/// A request to a disk, with arguments as the program gave them.
#[derive(Drop)]
pub enum DiskCall {
    Read(Text, i64, i64),
    Write(Text, i64, Text),
    Sync(Text),
    Size(Text),
}

/// What a step asks of the world, with arguments as the program gave them. Those that a process makes of an actor's effect
/// or message have the actor first, and the goal of the result.
#[derive(Drop)]
pub enum Call {
    /// A line is written.
    Line(Line),
    /// A number is drawn, from the first on, the last one left out.
    Draw(ActorId, Goal, i64, i64),
    /// A timer sets a new cell after so many ticks.
    Delay(ActorId, Goal, i64),
    /// A port gets a stream.
    Listen(ActorId, Goal, i64),
    /// A disk is asked.
    Disk(ActorId, Goal, DiskCall),
    /// A text is sent to a port of a process.
    SendTo(ActorId, i64, i64, Text),
    /// A port's stream is gone.
    Unlisten(CellId),
}
