// What comes of an event.

/// What came of a call for the next event: it ran; nothing is left that could come; as many events as the bound have
/// run; it needed more turns than one event may take; or it ran, and the monitor of this number said Stop first.
#[derive(Clone, Copy, PartialEq, Eq)]
pub enum Event {
    Ran,
    Idle,
    BoundReached,
    Spent,
    Stopped(usize),
}
