// Callbacks.

use flow_base::ids::CellId;

/// A branch that waits, or an operand of a wait in progress: its number through all waits of the class, from 0, and
/// the cell that it waits for.
#[derive(Clone, Copy, PartialEq, Eq)]
pub struct Held {
    pub callback: u32,
    pub cell: CellId,
}
