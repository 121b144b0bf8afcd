// Laws of runs.

ghost use Rattle.flow_class.specs.Classes.{RawTree};
ghost use Rattle.flow_invariants.specs.Fitting.Laws.{AreValid, StartsFit, EventsKeepFitting, NeverStuck, StatesFit, RunsExist};

/// A world of valid classes at its start, where its file is in range, fits: each of its processes does,
/// and pending events set cells of open requests, of the types of what they bring. Each event that isn't
/// stopped keeps it so, whatever comes: a boot, a stop, a kill, a timer, a packet, an answer of the disk.
/// So the world fits at each boundary of a run.
pub fn boundaries_fit()
    ensures starts { (r : RawTree) → StartsFit r }
    ensures events { (r : RawTree) → AreValid r → EventsKeepFitting r }
    ensures states { (r : RawTree) → AreValid r → StatesFit r }
{}

/// In the world of each file in range valid classes have a trace, and only one: no run comes to what has
/// no meaning.
pub fn valid_classes_have_one_trace()
    ensures gets_stuck { (r : RawTree) → AreValid r → NeverStuck r }
    ensures runs { (r : RawTree) → AreValid r → RunsExist r }
{}
