// What the code has actors do.

ghost use Rattle.flow_operation_refinement.specs.Placing.{ForActors};
ghost use Rattle.flow_step_refinement.specs.Effects.Instructed as law;

/// Where a program's code has an actor do something by an effect, an operand that is an effect, a predefined call or a method, that
/// is a step of the class machine.
pub fn effect_instructions_refine()
    ensures effect { ForActors law.EffectDoes }
    ensures operand { ForActors law.OperandDoes }
    ensures call { ForActors law.CallDoes }
    ensures void { ForActors law.VoidDoes }
    ensures method { ForActors law.MethodDoes }
{}
