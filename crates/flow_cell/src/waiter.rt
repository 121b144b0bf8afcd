// Waiters.

use flow_base::ids::ActorId;

/// An actor that waits at a cell, and which branch of its waits does, by its number through the whole class.
#[derive(Clone, Copy, PartialEq, Eq)]
pub struct Waiter {
    pub actor: ActorId,
    pub callback: u32,
}
