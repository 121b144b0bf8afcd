//! The links of a simulated world: packets are numbered, lost over cut links or by a drawn word, and else
//! come after a drawn delay.
#![tactic(auto)]

pub mod laws;
mod net;
mod packet;

pub use net::Net;
pub use packet::{Fate, NetState, Packet, Sent};
