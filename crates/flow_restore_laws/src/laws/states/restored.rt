// Laws of processes that are made from what memory tells of others.

ghost use Rattle.flow_restore_laws.specs.States.Restored.{RestoredInOrder, ProcessesRestored};

/// The heap that is filled from a sound state rests with its parts, and its numbers are in order.
pub fn restored_heaps_are_in_order()
    ensures { RestoredInOrder }
{}

/// A process made from the state of one that is at rest is at rest, and shows the same process of the definitions; what is told of
/// it is sound again.
pub fn restored_processes_rest()
    ensures { ProcessesRestored }
{}
