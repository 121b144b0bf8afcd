//! What steps in memory ask, joined: what an actor asks is asked in the class machine, and the ports of the process of
//! the class machine are those that memory tells; and what a process keeps allows what its actors ask.

pub mod next;
pub mod ports;
