// What actors evaluate.

ghost use Rattle.flow_operation_refinement.specs.Seeing as law;

/// An expression of an actor's class comes to the same in memory and in the process, turns included.
pub fn expressions_refine()
    ensures { law.ExprFollows }
{}
