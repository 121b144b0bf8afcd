// Laws of single steps.

ghost use Rattle.std.specs.Prelude.{ℕ, List};
ghost use Rattle.flow_class.specs.Classes.{RawTree};
ghost use Rattle.flow_code.specs.declared.program.Code.{Code};
ghost use Rattle.flow_trace.specs.declared.line.Line.{Line};
ghost use Rattle.flow_meaning.specs.Requests.{Supply};
ghost use Rattle.flow_meaning.specs.Frame.{Frame};
ghost use Rattle.flow_meaning.specs.References.{Scan};
ghost use Rattle.flow_meaning.specs.Process.{Entry, Proc};
ghost use Rattle.flow_steps.specs.declared.frames.ControlPoint.{ControlPoint};
ghost use Rattle.flow_steps.specs.declared.process.Process.{Process};
ghost use Rattle.flow_machine_progress.specs.Actors.{EffectMeant, InstructionMeant, ChoiceMeant, EndMeant, StepMeant};

/// An effect by which an actor stands has a meaning, and an actor that it calls can be made.
pub fn effects_are_never_stuck()
    ensures { (r : RawTree) (code : Code) (w : Supply) (ls : List Line) (x : Scan) (s : ControlPoint)
        (m : Process) (p : Proc Frame) (i : ℕ) (e : Entry) (f : Frame)
        → EffectMeant r code w ls x s m p i e f }
{}

/// At its wait an actor keeps the next operand, or waits at the cells of all of them.
pub fn waits_are_never_stuck()
    ensures { (r : RawTree) (code : Code) (w : Supply) (ls : List Line) (x : Scan) (s : ControlPoint)
        (m : Process) (p : Proc Frame) (i : ℕ) (e : Entry) (f : Frame)
        → ChoiceMeant r code w ls x s m p i e f }
{}

/// What an actor does by an instruction has a meaning and finds what it looks for.
pub fn instructions_are_never_stuck()
    ensures { (r : RawTree) (code : Code) (w : Supply) (ls : List Line) (x : Scan) (s : ControlPoint)
        (m : Process) (p : Proc Frame) (i : ℕ) (e : Entry) (f : Frame)
        → InstructionMeant r code w ls x s m p i e f }
{}

/// So does what it does at the end of a block.
pub fn block_ends_are_never_stuck()
    ensures { (r : RawTree) (code : Code) (w : Supply) (ls : List Line) (x : Scan) (s : ControlPoint)
        (m : Process) (p : Proc Frame) (i : ℕ) (e : Entry) (f : Frame)
        → EndMeant r code w ls x s m p i e f }
{}

/// The next step of an actor has a meaning, and finds what it looks for.
pub fn actor_steps_are_never_stuck()
    ensures { (r : RawTree) (code : Code) (w : Supply) (ls : List Line) (x : Scan) (s : ControlPoint)
        (m : Process) (p : Proc Frame) (i : ℕ) (e : Entry) (f : Frame)
        → StepMeant r code w ls x s m p i e f }
{}
