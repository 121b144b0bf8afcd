// What is said of evaluation as a whole.

ghost use Rattle.flow_eval.specs.WellTyped.{KeepsTypes};
ghost use Rattle.flow_eval.specs.MoreTurns.{MoreTurns};

/// A well-typed expression, and a call with arguments of the right types, always mean something: a
/// value of their type, an error, or that turns ran out.
pub fn keeps_types()
    ensures { KeepsTypes }
{}

/// With more turns an expression, its arguments and a call come to the same, with as many turns more left,
/// unless they had run out of turns.
pub fn more_turns()
    ensures { MoreTurns }
{}
