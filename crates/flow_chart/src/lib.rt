//! Runs as pictures: a column for each process, a row for each event, arrows for packets, in scalable vector graphics.
#![tactic(auto)]

pub mod chart_out;
pub mod drawing;
pub mod laws;
pub mod marks;
pub mod notes;
pub mod packets;
pub mod page;
pub mod picture;
pub mod spot;
pub mod uptimes;

pub use chart_out::{ChartOut, MOST_EVENTS, write_picture};
pub use drawing::Drawing;
