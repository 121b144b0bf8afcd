// One cell.

use crate::counts::References;
use crate::waiters::Waiters;

/// A cell: what it holds, how many references count, and who waits for it.
#[derive(Drop)]
pub(crate) struct Cell<T> {
    pub(crate) content: Option<T>,
    pub(crate) references: References,
    pub(crate) waiters: Waiters,
}
