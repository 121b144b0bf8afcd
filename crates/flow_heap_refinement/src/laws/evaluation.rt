// What evaluation refers to.

ghost use Rattle.flow_heap_refinement.specs.Evaluation.{EvalNamed, AllEvalNamed, CallNamed};

/// The value of an expression, of arguments, and of a call of a function refers only to what variables, arguments and set cells
/// refer to: where these keep a rule on references that holds of a future when it holds of its promise, the value keeps
/// it.
pub fn evaluation_makes_no_reference()
    ensures value { EvalNamed }
    ensures values { AllEvalNamed }
    ensures call { CallNamed }
{}
