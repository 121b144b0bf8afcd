// Laws of what the world serves.

ghost use Rattle.flow_step_refinement.specs.Services as law;

use flow_machine::host::Host;

/// Where a process in memory and the host around it show a process and a world of the definitions,
/// they do so after what a step asked is served, and the host wrote the lines that the world writes:
/// a number is drawn, a timer or the disk is asked, a port gets a stream, a text is sent.
pub fn services_refine<H: Host>()
    ensures number { law.Always H H.World (law.NumberDrawn H.serves H.shows H.wrote) }
    ensures timer { law.Always H H.World (law.TimerSet H.serves H.shows H.wrote) }
    ensures disk { law.Always H H.World (law.DiskAsked H.serves H.shows H.wrote) }
    ensures port { law.Always H H.World (law.PortHeard H.serves H.shows H.wrote) }
    ensures text { law.Always H H.World (law.TextSent H.serves H.shows H.wrote) }
{}

/// And so after the line that a step told is written, and after the host is told that the stream of a
/// port is gone.
pub fn written_lines_refine<H: Host>()
    ensures line { law.Always H H.World (law.LineWritten H.serves H.shows H.wrote) }
    ensures port { law.Always H H.World (law.PortUnheard H.serves H.shows H.wrote) }
{}
