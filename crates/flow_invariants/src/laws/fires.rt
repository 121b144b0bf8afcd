// Laws of fires.

ghost use Rattle.flow_class.specs.Classes.{RawTree};
ghost use Rattle.flow_invariants.specs.Fitting.Laws.{AreValid};
ghost use Rattle.flow_invariants.specs.Fires.{StepsFire, RestsFired, StatesFired};

/// Where somebody waits at a cell that is ready, a fire of it is among the tasks: each step keeps it so, of any classes. So a process
/// at rest has nobody at a cell that is ready, and it is so at each boundary of a run of valid classes.
pub fn waiters_at_ready_cells_are_fired()
    ensures steps { StepsFire }
    ensures rests { RestsFired }
    ensures states { (r : RawTree) → AreValid r → StatesFired r }
{}
