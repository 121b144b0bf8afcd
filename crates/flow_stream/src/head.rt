// Answers.

use flow_base::ids::ErrorCode;

/// Whether a waiter was added, or another one stands there.
#[derive(Clone, Copy, PartialEq, Eq)]
pub enum Wait {
    Added,
    Busy,
}

/// What a stream gives: its first element; its end, where it has no element; or nothing, where it has neither.
#[derive(Drop)]
pub enum Head<T> {
    Item(T),
    End(ErrorCode),
    Nothing,
}
