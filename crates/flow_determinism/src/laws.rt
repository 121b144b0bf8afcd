// Laws of the runs of sound programs.

ghost use Rattle.flow_determinism.specs.Laws.{CompilesWritten, ClassesRun, SourcesRun, CompilesWhole, ProgramsKeep, ProgramsRest, SourcesReferred, SourcesEnd};
ghost use Rattle.flow_determinism.specs.Laws.{ClassesShowOne, SourcesShowOne};
ghost use Rattle.flow_determinism.specs.Asked.{LinesByDrawn};

use flow_compile_laws::laws::traces::compile_preserves_traces;
use flow_invariants::laws::fitting::valid_classes_have_one_trace;
use flow_invariants::laws::unmarked::boundaries_have_no_marked_actor;
use flow_meaning::laws::TwoKinds;

/// The classes of a program that the front accepts, and in which no use of a local is lost, are valid, and
/// written as the grammar of class text has classes: each has a block, no path is empty, and the numbers of
/// its places are below 2^64.
pub fn compiled_classes_are_well_formed()
    ensures { CompilesWritten }
{}

/// Such a program has one trace in the world of each file in range, and so have its classes: whatever is
/// said of its traces is said of one.
pub fn accepted_programs_have_one_trace()
    ensures classes { ClassesRun }
    ensures sources { SourcesRun }
{
    compiled_classes_are_well_formed();
    valid_classes_have_one_trace();
    compile_preserves_traces();
}

/// In the world of each file in range exactly one list of lines is shown of such a program, with frames and without, and so of all
/// valid classes.
pub fn one_list_of_lines_is_shown()
    ensures classes { ClassesShowOne }
    ensures sources { SourcesShowOne }
{
    accepted_programs_have_one_trace();
    valid_classes_have_one_trace();
}

/// Each `choose` of such a program has a branch, so each group of its classes has a callback. So between two steps
/// of an event its processes keep what they have to, and at each boundary of a run no unfinished actor is marked
/// as cancelled, and a future refers to the result of each that isn't void.
pub fn compiled_boundaries_have_no_marked_actor()
    ensures whole { CompilesWhole }
    ensures steps { ProgramsKeep }
    ensures states { ProgramsRest }
{
    compiled_classes_are_well_formed();
    boundaries_have_no_marked_actor();
}

/// At each boundary of a run of such a program, by its text, no unfinished actor is marked as cancelled, and a future
/// refers to the result of each that isn't void, by what the variables of its actors hold.
pub fn actors_at_boundaries_are_referred()
    ensures { SourcesReferred }
{}

/// In each event of such a run, unless it is spent: an actor whose last future goes within the event, so that between two
/// steps no future refers to its result, has ended at the end of the event.
pub fn unreferred_actors_of_programs_end()
    ensures { SourcesEnd }
{}

/// Of what drawn words were asked for, lines depend on how many there were alone: from worlds that are equal but for the
/// questions, and have as many, each run of the one has a run of the other with the same lines.
pub fn lines_go_by_how_many_words_were_drawn<K: TwoKinds>()
    ensures { LinesByDrawn K.first }
{}
