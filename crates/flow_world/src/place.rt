// A process in its world.

use crate::ports::Ports;
use flow_machine::machine::Machine;

/// A process: whether it is up, which it is from its boot to its kill, what it holds, and its ports.
#[derive(Drop)]
pub struct Place {
    pub up: bool,
    pub machine: Machine,
    pub ports: Ports,
}
