// What comes to a process in memory, what is made in it and sent.

ghost use Rattle.std.specs.Prelude.{List};
ghost use Rattle.flow_class.specs.Classes.{RawTree};
ghost use Rattle.flow_trace.specs.declared.line.Line.{Line};
ghost use Rattle.flow_meaning.specs.Process.{Proc};
ghost use Rattle.flow_meaning.specs.Frame.{Frame};
ghost use Rattle.flow_steps.specs.declared.process.Process.{Process};
ghost use Rattle.flow_operation_refinement.specs.Matching.{Always};
ghost use Rattle.flow_operation_refinement.specs.Delivering as law;
ghost use Rattle.flow_operation_refinement.specs.Closing as end;

/// Where a process in memory shows one of the definitions, it does so after a cell gets content from outside, a request is
/// answered, or the hold on the result of `main` is dropped; after a cell is made and given; and after an outcome is sent.
pub fn deliveries_refine()
    ensures content { Always law.ContentDelivered }
    ensures request { Always law.RequestAnswered }
    ensures main { Always law.MainDropped }
    ensures cell { Always law.CellMade }
    ensures given { Always law.CellGiven }
    ensures open_request { Always law.RequestGiven }
    ensures stream { Always law.StreamGiven }
    ensures sent { Always law.OutcomeSent }
{}

/// And after an actor ends: its frame is gone; where a turn is left, the line is told, and the outcome goes to its result, or is
/// dropped where no future refers to that.
pub fn actor_ends_refine()
    ensures { (r : RawTree) (ls : List Line) (m : Process) (p : Proc Frame)
        → end.ActorClosed r ls m p }
{}
