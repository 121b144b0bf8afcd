// Laws of cancelling.

ghost use Rattle.flow_class.specs.Classes.{RawTree};
ghost use Rattle.flow_tree.specs.Decls.{ProgramTree};
ghost use Rattle.flow_meaning.specs.Class.{classes};
ghost use Rattle.flow_meaning.specs.Frame.{Frame};
ghost use Rattle.flow_meaning.specs.Items.{Actor};
ghost use Rattle.flow_meaning.specs.Process.{Proc};
ghost use Rattle.flow_meaning.specs.Source.{source};
ghost use Rattle.flow_meaning.specs.Cancelling.{CancelledThrows, ThrowTells};

/// An actor that was cancelled throws `operation_cancelled` (1101) at each wait whose first operand has a value, though that be
/// ready: in programs and in classes. An error that is thrown is told by its line.
pub fn cancelled_actors_throw_at_waits()
    ensures programs { (program : ProgramTree) (p : Proc Actor)
        → CancelledThrows (source program) p }
    ensures classes { (r : RawTree) (p : Proc Frame) → CancelledThrows (classes r) p }
    ensures told { (program : ProgramTree) (p : Proc Actor) → ThrowTells (source program) p }
    ensures told_by_classes { (r : RawTree) (p : Proc Frame) → ThrowTells (classes r) p }
{}
