//! Why a program text, a class text or a world file is refused: the line that tells it, and a note that shows the place.
#![tactic(auto)]

mod class;
mod excerpt;
mod line;
mod paint;
mod reading;
mod saying;
mod telling;
mod version;
mod waiting;
mod warned;
mod watcher;
mod words;

pub use class::{class_line, class_status};
pub use line::{refusal_line, refusal_status, world_line};
pub use paint::painted;
pub use telling::{left_note, note};
pub use waiting::put_wait;
pub use warned::warning_note;
pub use watcher::Watcher;
