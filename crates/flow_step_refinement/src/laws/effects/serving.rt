// What is asked of the world, served.

ghost use Rattle.flow_step_refinement.specs.Effects.Serving as law;

use flow_machine::host::Host;

/// A step in memory that asks something of the world, and what the host does for it, are together a step of the class machine in
/// its world, and the host wrote the lines that the world writes.
pub fn served_requests_refine<H: Host>()
    ensures { law.AskServed H.serves H.shows H.wrote }
{}
