// What is told of a process between bursts.

pub use flow_steps::views::{CallbackView, FrameView};
