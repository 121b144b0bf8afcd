// Laws of what a run asks.

ghost use Rattle.flow_tree.specs.Decls.{ProgramTree};
ghost use Rattle.flow_class.specs.Classes.{RawTree};
ghost use Rattle.flow_meaning.specs.Source.{source};
ghost use Rattle.flow_meaning.specs.Class.{classes};
ghost use Rattle.flow_draw_laws.specs.Laws.{RunsAsk, AskedRuns, SameRun, SameNext};
ghost use Rattle.flow_draw_laws.specs.Listed.{SameTaken, ListedRun, PinnedRun};

/// Actors of one kind.
pub trait Actors {
    ghost use Rattle.flow_meaning.specs.Process.{Engine};

    /// The actors.
    ghost Actor: { Type 0 };

    /// How they run.
    ghost engine: { Engine Actor };
}

/// A run in the world of a file takes of the drawn words only what they answer: worlds that are equal but
/// for seed and words, and whose words answer alike to all that is asked, have the same run, line for line,
/// also one whose last event is spent; and as long as they answer alike, the same is asked next.
pub fn runs_are_functions_of_answers<K: Actors>()
    ensures asks { RunsAsk K.engine }
    ensures runs { AskedRuns K.engine }
    ensures same { SameRun K.engine }
    ensures next { SameNext K.engine }
{}

/// So do the runs of every program, by its text, and of all classes.
pub fn programs_are_functions_of_answers()
    ensures source_same { (p : ProgramTree) → SameRun (source p) }
    ensures source_next { (p : ProgramTree) → SameNext (source p) }
    ensures classes_same { (c : RawTree) → SameRun (classes c) }
    ensures classes_next { (c : RawTree) → SameNext (classes c) }
{}

/// The words that a run takes are all that counts: worlds that are equal but for seed and words, whose first
/// words are the same, as many as are asked for, have the same run. So where as many are listed, it is the
/// run of every seed, and so it is in the world that lists the words which its run takes, and no others.
pub fn words_taken_decide_runs<K: Actors>()
    ensures taken { SameTaken K.engine }
    ensures listed { ListedRun K.engine }
    ensures pinned { PinnedRun K.engine }
{}
