// Laws of valid classes.

ghost use Rattle.flow_class.specs.Classes.{RawTree};
ghost use Rattle.flow_valid.specs.Validity.{IsValid};
ghost use Rattle.std.specs.Prelude.{List};
ghost use Rattle.flow_tree.specs.Decls.{RoutineTree};
ghost use Rattle.flow_progress.specs.Rules.{ClassRules};
ghost use Rattle.flow_progress.specs.Written.{AreWritten, heads, FunctionsWritten, FunctionsKept};
ghost use Rattle.flow_progress.specs.Frames.{FramesAskWhatFits};
ghost use Rattle.flow_progress.specs.Ending.{BurstsEnd};
ghost use Rattle.flow_progress.specs.Keeping.{ActorsKeepFitting, ResultsPlaced};
ghost use Rattle.flow_progress.specs.Alone.{StepsKeepFitting};
ghost use Rattle.flow_progress.specs.Beginning.{IdleFits, VanishedFits, BootsFit, StoppedFits, ArrivalsFit, DeliveriesFit};
ghost use Rattle.flow_progress.specs.Existing.{RunsOrGetsStuck, AtMostOneTrace};

/// The world around a process.
pub trait Around {
    ghost use Rattle.flow_meaning.specs.Burst.{Host};

    /// What can change in the world.
    ghost World: { Type 0 };

    /// How the world answers.
    ghost host: { Host World };
}

/// Every burst of valid classes ends, from a process in order whose frames are known by what they asked for last: after
/// some steps nothing is left to do, or the event was stopped; or the result of an effect comes to a path that leads to
/// no field.
pub fn every_burst_ends<K: Around>()
    ensures { (r : RawTree) → IsValid r → BurstsEnd r K.host }
{}

/// In the world of each world file valid classes have a trace, and only one; or a run comes to an event that is stopped
/// for want of meaning, or to the result of an effect that has no place. No event goes on for ever.
pub fn valid_classes_run_or_get_stuck()
    ensures runs { (r : RawTree) → IsValid r → RunsOrGetsStuck r }
    ensures once { (r : RawTree) → IsValid r → AtMostOneTrace r }
{}

/// The functions of valid classes are well typed, where they are written as the grammar has them.
pub fn valid_functions_are_well_typed()
    ensures { (r : RawTree) → IsValid r → FunctionsWritten r → FunctionsKept r }
{}

/// No frame of valid classes, whose functions are well typed, is stuck: one that fits asks for what fits, and stands
/// afterwards where what every walk to there fills is filled. So it is of classes that keep the rules, written as what each
/// instruction has to do with types, and valid classes do.
pub fn fitting_frames_are_never_stuck()
    ensures kept { (r : RawTree) (actors : List RoutineTree) → ClassRules r actors
        → FramesAskWhatFits r actors }
    ensures rules { (r : RawTree) → IsValid r → AreWritten r → FunctionsKept r
        → ClassRules r (heads r) }
    ensures valid { (r : RawTree) → IsValid r → AreWritten r → FunctionsKept r
        → FramesAskWhatFits r (heads r) }
{}

/// What an actor of valid classes does keeps a process fitting, for some types of its cells, and has a meaning: its next step,
/// the result of an effect that it stores, an operand that it keeps, a branch that it takes, an error that is thrown where it
/// stands, and its handler. And each step does, also the end of an actor, a fire and a drop, where what is owned is owned
/// alone: the promise sides of the streams of ports and of the results of actors. In a process that fits the result of an
/// effect has a place. Cells of open requests keep their types, and a cell that a step asks the world to set is of what the world
/// answers.
pub fn steps_preserve_fitting()
    ensures actors { (r : RawTree) → IsValid r → AreWritten r → FunctionsKept r
        → ActorsKeepFitting r }
    ensures placed { (r : RawTree) → IsValid r → AreWritten r → FunctionsKept r → ResultsPlaced r }
    ensures steps { (r : RawTree) → IsValid r → AreWritten r → FunctionsKept r
        → StepsKeepFitting r }
{}

/// A process in which nothing is fits, and one that was killed; and one that is booted or stopped, to which a packet comes, or
/// to whose timer or disk request an answer comes that has the type of what its cell holds, where it did before.
pub fn event_beginnings_fit()
    ensures idle { (r : RawTree) → IdleFits r }
    ensures vanished { (r : RawTree) → VanishedFits r }
    ensures boots { (r : RawTree) → IsValid r → AreWritten r → FunctionsKept r → BootsFit r }
    ensures stopped { (r : RawTree) → StoppedFits r }
    ensures arrivals { (r : RawTree) → ArrivalsFit r }
    ensures deliveries { (r : RawTree) → DeliveriesFit r }
{}
