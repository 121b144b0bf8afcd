// Ports.

ghost use Rattle.flow_burst_refinement.specs.Requests.Ports as law;

/// A step of the class machine leaves the ports as they are, takes one away, or adds one with a new stream; and where memory shows
/// the process before and after steps that ask nothing of the world, it has lost the port that memory tells, and no other.
pub fn ports_refine()
    ensures step { law.StepPorts }
    ensures left { law.PortsLeft }
{}
