// What tasks ask of a process.

ghost use Rattle.std.specs.Prelude.{List};
ghost use Rattle.flow_class.specs.Classes.{RawTree};
ghost use Rattle.flow_code.specs.declared.program.Code.{Code};
ghost use Rattle.flow_trace.specs.declared.line.Line.{Line};
ghost use Rattle.flow_meaning.specs.Process.{Proc};
ghost use Rattle.flow_meaning.specs.Frame.{Frame};
ghost use Rattle.flow_steps.specs.declared.process.Process.{Process};
ghost use Rattle.flow_burst_refinement.specs.Invariants.Allowed.{IsValidCode, BetweenTasks, TaskAllowed, PlainSteps};

/// The newest task of a process in memory that runs valid classes may be done, by what the process keeps that it shows: a drop, a
/// fire, a thrown error, the begin of a handler, the end of an actor. So it is a step of the class machine.
pub fn simple_tasks_are_enabled()
    ensures allowed { (r : RawTree) (code : Code) (run : IsValidCode r code) (ls : List Line)
        (m : Process) (p : Proc Frame) (now : BetweenTasks r ls m p)
        → TaskAllowed r code run ls m p now }
    ensures steps { (r : RawTree) (code : Code) (run : IsValidCode r code) (ls : List Line)
        (m : Process) (p : Proc Frame) (now : BetweenTasks r ls m p)
        → PlainSteps r code run ls m p now }
{}
