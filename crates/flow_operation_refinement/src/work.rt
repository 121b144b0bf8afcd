// What a process in memory does to its own state.

ghost use Rattle.std.specs.Prelude.{List};
ghost use Rattle.flow_class.specs.Classes.{RawTree};
ghost use Rattle.flow_trace.specs.declared.line.Line.{Line};
ghost use Rattle.flow_meaning.specs.Process.{Proc};
ghost use Rattle.flow_meaning.specs.Frame.{Frame};
ghost use Rattle.flow_steps.specs.declared.process.Process.{Process};
ghost use Rattle.flow_operation_refinement.specs.Matching.{Always};
ghost use Rattle.flow_operation_refinement.specs.Working as law;

/// Where a process in memory shows one of the definitions, it does so after each thing that both do to their own state: a turn
/// is taken, a task comes on top, references count or are dropped, a cell gets content or is broken, the result of an effect is
/// given, an actor leaves its wait or is cancelled, a reference is lost.
pub fn state_changes_refine()
    ensures turn { Always law.TurnTaken }
    ensures task { Always law.TaskDone }
    ensures held { Always law.RefHeld }
    ensures all { Always law.RefsHeld }
    ensures dropped { Always law.RefsDropped }
    ensures filled { Always law.CellFilled }
    ensures given { Always law.ResultGiven }
    ensures broken { Always law.CellBroken }
    ensures departed { Always law.ActorDeparted }
    ensures stopped { Always law.ActorStopped }
    ensures owner { Always law.OwnerStopped }
    ensures lost { (r : RawTree) (ls : List Line) (m : Process) (p : Proc Frame)
        → law.RefLost r ls m p }
{}
