// Laws of lowering.

ghost use Rattle.flow_lowering_laws.specs.Actors.Laws.{WithinWeight, KeepsShape, KeepsText};

/// The class of an actor has no more blocks than the actor weighs.
pub fn lowering_stays_within_weight()
    ensures { WithinWeight }
{}

/// The class of an actor has its name, its result and its parameters; its slots are the parameters and
/// then the state variables, and its groups are the waits, all in the order of the text.
pub fn lowering_keeps_shape()
    ensures { KeepsShape }
{}

/// The class of an actor carries it: at each point of the text stands what the text says.
pub fn lowering_carries_text()
    ensures { KeepsText }
{}
