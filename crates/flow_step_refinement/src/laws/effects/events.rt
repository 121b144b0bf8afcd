// The begin of events.

ghost use Rattle.flow_step_refinement.specs.Effects.Events as law;

/// An event begins in memory as in the process that is shown; a timer or a disk answers, an element comes to a port, and the hold
/// on the result of `main` is dropped, as the definitions have it.
pub fn event_beginnings_refine()
    ensures begins { law.AtEvents law.EventBegins }
    ensures delivered { law.AtEvents law.Delivered }
    ensures arrived { law.AtEvents law.Arrived }
    ensures stopped { law.AtEvents law.Stopped }
{}

/// After a loss of power memory shows what the definitions leave, and that rests.
pub fn power_loss_refines()
    ensures { law.Vanished }
{}
