// Tasks.

ghost use Rattle.std.specs.Prelude.{List};
ghost use Rattle.flow_class.specs.Classes.{RawTree};
ghost use Rattle.flow_code.specs.declared.program.Code.{Code};
ghost use Rattle.flow_trace.specs.declared.line.Line.{Line};
ghost use Rattle.flow_meaning.specs.Process.{Proc};
ghost use Rattle.flow_meaning.specs.Frame.{Frame};
ghost use Rattle.flow_steps.specs.declared.process.Process.{Process};
ghost use Rattle.flow_burst_refinement.specs.Invariants.Allowed.{BetweenTasks};
ghost use Rattle.flow_burst_refinement.specs.Enabled.Tasking.{IsProgram, AnyAllowed, AnyGoes};

/// Each task that is the newest of a process in memory that runs valid classes may be done, by what the process keeps that it
/// shows, where the actor of a next step or of an operand is in no state of a wait. So it is a row of steps of the class machine,
/// or its actor takes its steps.
pub fn all_tasks_are_enabled()
    ensures allowed { (r : RawTree) (code : Code) (program : IsProgram r code)
        (ls : List Line) (m : Process) (p : Proc Frame) (now : BetweenTasks r ls m p)
        → AnyAllowed r code program ls m p now }
    ensures goes { (r : RawTree) (code : Code) (program : IsProgram r code)
        (ls : List Line) (m : Process) (p : Proc Frame) (now : BetweenTasks r ls m p)
        → AnyGoes r code program ls m p now }
{}
