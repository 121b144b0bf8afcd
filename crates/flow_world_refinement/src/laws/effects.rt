// What events do to processes.

ghost use Rattle.flow_class.specs.Classes.{RawTree};
ghost use Rattle.flow_code.specs.declared.program.Code.{Code};
ghost use Rattle.flow_world_refinement.specs.Effects.Actions.{ActionRefines};
ghost use Rattle.flow_world_refinement.specs.Effects.Quiescence.{StaysQuiescent};
ghost use Rattle.flow_world_refinement.specs.Effects.Vanishing.{LossFollows};

use flow_trace::out::LineOut;

/// A process in memory that boots, is stopped, gets an answer or an element, and then does all that follows, does what the
/// process of the definitions does in a burst, with its lines.
pub fn event_actions_refine<L: LineOut>()
    ensures { (r : RawTree) (code : Code) → ActionRefines L.puts r code }
{}

/// A process in memory between events has nothing left to do, and stays so when an event begins that does nothing to it.
pub fn processes_stay_quiescent()
    ensures { (r : RawTree) → StaysQuiescent r }
{}

/// A loss of power leaves of a process in memory what it leaves of the process of the definitions, and the same disk, drawn
/// words and pending events, with a line for each write that was not synced.
pub fn power_losses_refine()
    ensures { (r : RawTree) → LossFollows r }
{}
