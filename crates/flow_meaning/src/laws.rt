// Laws of runs.

pub mod cancelling;

ghost use Rattle.flow_tree.specs.Decls.{ProgramTree};
ghost use Rattle.flow_class.specs.Classes.{RawTree};
ghost use Rattle.flow_meaning.specs.RunLaw.{RunsFollow, RunsReturn, TracesFollow, TracesReturn, RunsRest, TracesRest};
ghost use Rattle.flow_meaning.specs.Law.{Simulates, BurstsFollow, BurstsReturn, BurstsOnce, KeepsOrder};
ghost use Rattle.flow_meaning.specs.Turns.{Thrifty, WritesFirst};
ghost use Rattle.flow_meaning.specs.Runs.{RunsOnce};
ghost use Rattle.flow_meaning.specs.Source.{source};
ghost use Rattle.flow_meaning.specs.Class.{classes};
ghost use Rattle.flow_meaning.specs.Observations.{ObservationsFollow, ObservationsReturn};
ghost use Rattle.flow_meaning.specs.Placeless.{EvaluatesAlike, ProgramsAlike, ClassesAlike};

/// Two kinds of actors, the world around a process of either, and a relation between actors of the two.
pub trait TwoKinds {
    ghost use Rattle.flow_meaning.specs.Process.{Engine};
    ghost use Rattle.flow_meaning.specs.Burst.{Host};
    ghost use Rattle.flow_meaning.specs.Orderly.{Phase};

    /// The actors of the first kind.
    ghost First: { Type 0 };

    /// The actors of the second kind.
    ghost Second: { Type 0 };

    /// What can change in the world.
    ghost World: { Type 0 };

    /// How actors of the first kind run.
    ghost first: { Engine First };

    /// How actors of the second kind run.
    ghost second: { Engine Second };

    /// The world around a process.
    ghost host: { Host World };

    /// Which actors are related, by what they asked for last.
    ghost related: { Phase → First → Second → Type 0 };
}

/// Where the second kind asks for what the first asks, between related actors, each burst of the first
/// has a burst of the second with equal lines, cells, tasks and requests, and each burst of the second
/// one of the first.
pub fn bursts_alike<K: TwoKinds>()
    ensures follow { Simulates K.first K.second K.related
        → BurstsFollow K.first K.second K.host K.related }
    ensures back { Simulates K.first K.second K.related
        → BurstsReturn K.first K.second K.host K.related }
{}

/// And so with whole runs: from worlds that are alike each run of the first kind has a run of the second
/// with the same lines, through states that are alike at each boundary, and each run of the second kind
/// one of the first. In the world of a world file both kinds have the same traces.
pub fn runs_alike<K: TwoKinds>()
    ensures follow { Simulates K.first K.second K.related → RunsFollow K.first K.second K.related }
    ensures back { Simulates K.first K.second K.related → RunsReturn K.first K.second K.related }
    ensures traces { Simulates K.first K.second K.related
        → TracesFollow K.first K.second K.related }
    ensures traces_back { Simulates K.first K.second K.related
        → TracesReturn K.first K.second K.related }
{}

/// Where related actors that wait do so at the same place of their texts, the same is seen of both kinds
/// in the world of a world file: the lines of a trace, and at each boundary of events the unfinished
/// actors and the branches at which they wait.
pub fn sights_alike<K: TwoKinds>()
    ensures follow { Simulates K.first K.second K.related
        → ObservationsFollow K.first K.second K.related }
    ensures back { Simulates K.first K.second K.related → ObservationsReturn K.first K.second K.related }
{}

/// From a process in order, in which each unfinished actor is suspended or has exactly one thing to do, a
/// burst that isn't stopped comes to one at rest: nothing is left to do, and each unfinished actor is
/// suspended. So every state of a run is at rest.
pub fn orderly_kept<K: TwoKinds>()
    ensures bursts { KeepsOrder K.first K.host }
    ensures runs { RunsRest K.first }
    ensures traces { TracesRest K.first }
{}

/// A burst comes to one end.
pub fn burst_once<K: TwoKinds>()
    ensures { BurstsOnce K.first K.host }
{}

/// A run from a world has one list of states and one trace.
pub fn run_once<K: TwoKinds>()
    ensures { RunsOnce K.first }
{}

/// A burst that was stopped, for want of turns say, has written a first part of what the same burst
/// writes with more turns: where actors see of their turns only whether there are enough, as those of
/// every program and of all classes do.
pub fn stopped_first<K: TwoKinds>()
    ensures thrifty { Thrifty K.first → WritesFirst K.first K.host }
    ensures source { (p : ProgramTree) → WritesFirst (source p) K.host }
    ensures classes { (c : RawTree) → WritesFirst (classes c) K.host }
{}

/// Places don't matter. An expression comes to the same whatever its places are; and of two programs that
/// are equal but for places the same is seen in every world: the lines of the trace, and at each boundary
/// of events the unfinished actors and the branches at which they wait. So it is with classes, which come
/// back with other places when they are printed and read.
pub fn places_aside()
    ensures expressions { EvaluatesAlike }
    ensures programs { ProgramsAlike }
    ensures classes { ClassesAlike }
{}
