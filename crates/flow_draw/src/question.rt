// What words are drawn for.

/// What a drawn word is asked for. Only its remainder counts.
#[derive(Clone, Copy, PartialEq, Eq)]
pub enum Question {
    /// One of so many numbers, from 0.
    Among(u64),
    /// Whether a packet is lost, of which so many in 1,000 are.
    Loses(u16),
}
