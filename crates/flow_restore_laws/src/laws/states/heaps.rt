// Laws of heaps at rest.

ghost use Rattle.flow_restore_laws.specs.States.Heaps.{TimesCounted, HeapsSound};

/// How often the parts of a heap at rest name a cell by a kind of reference is how often the process that it shows refers to that
/// side of the cell.
pub fn state_counts_match_references()
    ensures { TimesCounted }
{}

/// The parts of such a heap are sound.
pub fn resting_heaps_are_sound()
    ensures { HeapsSound }
{}
