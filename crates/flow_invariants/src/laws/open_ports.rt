// Laws of the streams of ports.

ghost use Rattle.flow_class.specs.Classes.{RawTree};
ghost use Rattle.flow_invariants.specs.Fitting.Laws.{AreValid};
ghost use Rattle.flow_invariants.specs.OpenPorts.{StepsOpen, StartOpen, EventOpen};

/// The stream of a port has no end: each step keeps it so, of any classes. It is so of each process of a world before its first
/// event, and after each event of valid classes.
pub fn port_streams_never_end()
    ensures steps { StepsOpen }
    ensures start { StartOpen }
    ensures events { (r : RawTree) → AreValid r → EventOpen r }
{}
