// What a heap that rests holds.

use flow_base::ids::{ActorId, CellId, ErrorCode};
use flow_cell::waiter::Waiter;
use flow_frame::held::Held;
use flow_value::value::{Outcome, Value};

/// A single result: what it holds, if it is set; who waits for it, oldest first; and whether a request is open on it.
#[derive(Drop)]
pub struct CellState {
    pub cell: CellId,
    pub content: Option<Outcome>,
    pub waiters: Vec<Waiter>,
    pub requested: bool,
}

/// A stream: its elements, oldest first, its end and its waiter, if it has them; and whether it is that of a port.
#[derive(Drop)]
pub struct StreamState {
    pub cell: CellId,
    pub queue: Vec<Value>,
    pub end: Option<ErrorCode>,
    pub waiter: Option<Waiter>,
    pub port: bool,
}

/// An unfinished actor: its result, if it has one, and its frame.
#[derive(Drop)]
pub struct ActorState {
    pub actor: ActorId,
    pub result: Option<CellId>,
    pub class: u32,
    pub state: u32,
    pub places: Vec<Option<Value>>,
    pub callbacks: Vec<Held>,
}

/// A heap that rests: the greatest numbers that were given to a cell and to an actor; the cell whose future the process
/// holds as the result of its `main`; and the single results, streams and actors, each by rising number.
#[derive(Drop)]
pub struct HeapState {
    pub cells_made: u64,
    pub actors_made: u64,
    pub main: Option<CellId>,
    pub cells: Vec<CellState>,
    pub streams: Vec<StreamState>,
    pub actors: Vec<ActorState>,
}
