//! Monitors, which hear the lines of a trace and may say that it is to stop, and panels of them.
#![tactic(auto)]

pub mod attach;
pub mod counts;
pub mod errors;
pub mod handed;
pub mod heard;
pub mod live;
pub mod monitor;
pub mod panel;
pub mod picking;
pub mod until;

pub use attach::{PanelFault, Want};
pub use errors::Errors;
pub use handed::{HandedIn, Monitors};
pub use live::Live;
pub use monitor::{Heard, Monitor};
pub use panel::{Audience, Panel};
pub use picking::pick;
pub use until::Until;
