// What is said of resolving as a whole.

ghost use Rattle.flow_code.specs.Resolved.Resolving.{ResolvedAlike};

/// A resolved expression comes to what its text means, turns included, where records, functions, fields and places are those
/// of its names.
pub fn resolved_alike()
    ensures { ResolvedAlike }
{}
