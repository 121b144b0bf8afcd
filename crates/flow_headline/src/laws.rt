// The headline.

ghost use Rattle.flow_headline.specs.ReadBack.{CompiledTextShowsProgram};
ghost use Rattle.flow_headline.specs.Complete.{Complete};
ghost use Rattle.flow_headline.specs.Laws.{Compiles, RunTells, ExecIsRun, ExecTells, OneShown, SameBytes, ExecWritesAsRun, Referenced};

use flow_class_places_laws::laws::shown_lines_without_places;
use flow_class_reading_laws::laws::{
    class_texts_have_one_answer, read_classes_are_written, written_classes_are_read_back,
};
use flow_compile_laws::laws::frames::compile_preserves_shown_lines;
use flow_compile_laws::laws::traces::compile_preserves_traces;
use flow_determinism::laws::{actors_at_boundaries_are_referred, one_list_of_lines_is_shown};
use flow_front::laws::one_verdict;
use flow_lowering_laws::laws::programs::compiled_classes_carry_program;
use flow_validity_laws::laws::compiled_classes_are_valid;
use flow_worldfile::laws::one_verdict as one_world_verdict;

/// Of a program that the front accepts, and in which no actor weighs too much, the class text, within the limit on bytes, is read as
/// classes that may be run: of them the same lines are shown as of the program by its text, in every world, with frames and without.
/// It is never refused.
pub fn compiled_text_shows_program()
    ensures { CompiledTextShowsProgram }
{
    written_classes_are_read_back();
    read_classes_are_written();
    shown_lines_without_places();
    compile_preserves_shown_lines();
}

/// For every program text that the rules accept, and in which no actor weighs too much, `compile P` writes the class text of valid
/// classes of its shape, which carry it and have its traces and views; or it answers a fault with its cause.
pub fn compiles()
    ensures { Compiles }
{
    one_verdict();
    compiled_classes_are_valid();
    compiled_classes_carry_program();
    compile_preserves_traces();
}

/// Let `compile P` have written a class text, within the limit on bytes, and let the file C have these bytes. Then in every world in
/// range, with `--frames` and without, with any monitors, `exec C W` writes what is shown of P by its own text, cut where a monitor
/// says Stop, and gives the status of its end; or it answers a fault with its cause. So does `run P W`, and so does `exec` of any
/// class text of valid classes with what is shown of these.
pub fn exec_is_run()
    ensures exec { ExecIsRun }
    ensures run { RunTells }
    ensures classes { ExecTells }
{
    one_verdict();
    one_world_verdict();
    class_texts_have_one_answer();
    compiled_text_shows_program();
}

/// In a world in range exactly one list of lines is shown of a program, with frames and without. So `run P W` and `exec C W` give
/// the same status and write equal bytes, and so does a second run.
pub fn one_shown()
    ensures shown { OneShown }
    ensures same_bytes { SameBytes }
    ensures exec_and_run { ExecWritesAsRun }
{
    one_list_of_lines_is_shown();
    exec_is_run();
}

/// At each boundary of that run each unfinished actor is unmarked, and, unless it is void, a future refers to its result.
pub fn referenced()
    ensures { Referenced }
{
    actors_at_boundaries_are_referred();
}

/// Where the words are a command line, the texts pass their rules and limits, and no call of the files or of the sink failed, the
/// whole text that is due was written and handed on: with status 0, or of a run with 0, 4 or 8; or there was no memory.
pub fn complete()
    ensures { Complete }
{
    one_verdict();
    one_world_verdict();
    class_texts_have_one_answer();
    compiles();
    exec_is_run();
}
