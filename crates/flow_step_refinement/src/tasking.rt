// Tasks.

ghost use Rattle.std.specs.Prelude.{List};
ghost use Rattle.flow_class.specs.Classes.{RawTree};
ghost use Rattle.flow_trace.specs.declared.line.Line.{Line};
ghost use Rattle.flow_meaning.specs.Process.{Proc};
ghost use Rattle.flow_meaning.specs.Frame.{Frame};
ghost use Rattle.flow_steps.specs.declared.process.Process.{Process};
ghost use Rattle.flow_step_refinement.specs.Tasking.{TaskFollows};

/// Each task, done in memory, is a step of the class machine, or a row of steps after which its actor
/// goes on; or its actor takes its steps.
pub fn every_task_refines()
    ensures { (r : RawTree) (ls : List Line) (m : Process) (p : Proc Frame) → TaskFollows r ls m p }
{}
