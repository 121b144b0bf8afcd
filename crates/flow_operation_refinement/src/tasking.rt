// Tasks that need no step of an actor.

ghost use Rattle.std.specs.Prelude.{List};
ghost use Rattle.flow_class.specs.Classes.{RawTree};
ghost use Rattle.flow_trace.specs.declared.line.Line.{Line};
ghost use Rattle.flow_meaning.specs.Process.{Proc};
ghost use Rattle.flow_meaning.specs.Frame.{Frame};
ghost use Rattle.flow_steps.specs.declared.process.Process.{Process};
ghost use Rattle.flow_operation_refinement.specs.Tasking as law;
ghost use Rattle.flow_operation_refinement.specs.Throwing.{ThrowDone};
ghost use Rattle.flow_operation_refinement.specs.Stepped.{TopFollows, TaskFollows};

/// A reference is dropped in memory, a handler begins, a cell fires and an error is thrown as the definitions have it.
pub fn simple_tasks_refine()
    ensures drop { (r : RawTree) (ls : List Line) (m : Process) (p : Proc Frame)
        → law.DropDone r ls m p }
    ensures catch { (r : RawTree) (ls : List Line) (m : Process) (p : Proc Frame)
        → law.CatchDone r ls m p }
    ensures fire { (r : RawTree) (ls : List Line) (m : Process) (p : Proc Frame)
        → law.FireDone r ls m p }
    ensures throw { (r : RawTree) (ls : List Line) (m : Process) (p : Proc Frame)
        → ThrowDone r ls m p }
{}

/// The newest task is taken off in memory as in the process; and a drop, a fire, the begin of a handler, a thrown error and the
/// end of an actor, done in memory, are each a step of the class machine.
pub fn task_steps_refine()
    ensures top { (r : RawTree) (ls : List Line) (m : Process) (p : Proc Frame)
        → TopFollows r ls m p }
    ensures task { (r : RawTree) (ls : List Line) (m : Process) (p : Proc Frame)
        → TaskFollows r ls m p }
{}
