//! Which worlds a sweep runs a program in: those of many seeds, and each with a loss of power at each moment.
#![tactic(auto)]

pub mod family;
pub mod losses;
pub mod times;

pub use family::Family;
pub use losses::{PowerLoss, with_loss};
pub use times::add_time;
