// What the definitions say of plain data.

ghost use Rattle.flow_simnet.specs.Links.{Restores};

/// Links that are restored from the state of others are equal to them.
pub fn restored()
    ensures { Restores }
{}
