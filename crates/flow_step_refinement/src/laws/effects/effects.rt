// Effects of actors.

ghost use Rattle.flow_operation_refinement.specs.Placing.{ForActors};
ghost use Rattle.flow_step_refinement.specs.Effects.Effects as law;

/// A step in memory by an effect is a step of the class machine: a result that never comes is made, an actor starts, or the world
/// is asked; the result is stored, or the next operand of a wait.
pub fn effects_refine()
    ensures stored { ForActors law.EffectStep }
    ensures operand { ForActors law.EffectOperandStep }
{}
