// What the definitions say of plain data.

ghost use Rattle.flow_timers.specs.Pending.{Restores};

/// A queue that is restored from the entries of another, which stand in order, is equal to it.
pub fn restored<T>()
    ensures { Restores T }
{}
