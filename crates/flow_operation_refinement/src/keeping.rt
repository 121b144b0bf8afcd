// Operands of waits.

ghost use Rattle.std.specs.Prelude.{List};
ghost use Rattle.flow_class.specs.Classes.{RawTree};
ghost use Rattle.flow_trace.specs.declared.line.Line.{Line};
ghost use Rattle.flow_meaning.specs.Process.{Proc};
ghost use Rattle.flow_meaning.specs.Frame.{Frame};
ghost use Rattle.flow_steps.specs.declared.process.Process.{Process};
ghost use Rattle.flow_operation_refinement.specs.Waiting.{WaitDone};
ghost use Rattle.flow_operation_refinement.specs.Placing.{ForActors};
ghost use Rattle.flow_operation_refinement.specs.Operands as law;

/// An operand in hand is kept in memory as the definitions keep it: a marked actor leaves its wait and is thrown that it was
/// cancelled, an operand that is ready is taken, and otherwise the actor goes on.
pub fn operands_refine()
    ensures { ForActors law.OperandFollows }
{}

/// An actor that has kept all its operands takes the first that is ready; otherwise it waits for all of them, with the line, and
/// its locals are dropped; where a stream refuses it, that is thrown.
pub fn suspensions_refine()
    ensures { (r : RawTree) (ls : List Line) (m : Process) (p : Proc Frame) → WaitDone r ls m p }
{}
