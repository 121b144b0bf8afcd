// Where a frame stands.

/// Where a frame stands: its class and its state, and the block and the instruction.
#[derive(Clone, Copy, PartialEq, Eq)]
pub struct Standing {
    pub class: u32,
    pub state: u32,
    pub block: u32,
    pub instruction: u32,
}
