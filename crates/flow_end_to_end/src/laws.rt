// Runs of classes and of programs.

ghost use Rattle.flow_end_to_end.specs.Cut.{ClassesCut, ClassesCutInPart, ProgramCut, ProgramCutInPart};
ghost use Rattle.flow_end_to_end.specs.Cut.{ClassesFailInPart, ProgramFailsInPart, ClassesWrittenInPart, ProgramWrittenInPart};
ghost use Rattle.flow_end_to_end.specs.Exact.{ClassesShown, ProgramShown, ProgramInPart};
ghost use Rattle.flow_end_to_end.specs.Rests.{RestsCut, RestsCutInPart, RestsFailInPart};

use flow_trace::out::LineOut;

/// The lines that a run in memory puts of valid classes are what is shown of them by the definitions: the trace, and the frames
/// and callbacks after each event where they are asked for.
pub fn class_runs_are_exact<L: LineOut>()
    ensures { ClassesShown L.puts }
{}

/// The lines that it puts of a program's classes are what is shown of the program by its text; where a line failed, what is
/// shown was put up to that line.
pub fn program_runs_are_exact<L: LineOut>()
    ensures whole { ProgramShown L.puts }
    ensures part { ProgramInPart L.puts }
{}

/// The lines that a run in memory puts where a panel hears it are what is shown, cut where a monitor says Stop: of valid classes,
/// and of a program by its text; where a line failed, that was put up to this line.
pub fn watched_runs_are_cut<L: LineOut>()
    ensures classes { ClassesCut L.puts }
    ensures classes_in_part { ClassesCutInPart L.puts }
    ensures programs { ProgramCut L.puts }
    ensures programs_in_part { ProgramCutInPart L.puts }
{}

/// A run in memory that a panel hears and that fails isn't stuck. What it put till then is a first part of what is shown, cut where a
/// monitor says Stop, of valid classes, and of a program by its text: whatever failed, a put or for want of memory.
pub fn failed_runs_put_first_parts<L: LineOut>()
    ensures classes { ClassesFailInPart L.puts }
    ensures programs { ProgramFailsInPart L.puts }
{}

/// Where its lines are written, a first part of their bytes was.
pub fn failed_runs_write_first_parts()
    ensures classes { ClassesWrittenInPart }
    ensures programs { ProgramWrittenInPart }
{}

/// What is put of a world in memory from where it is, wherever it comes from, is what is shown from the world of the definitions that it
/// represents on, cut where a monitor says Stop; where a line failed, that was put up to this line; and what fails isn't stuck and has
/// put a first part of it.
pub fn rests_are_cut<L: LineOut>()
    ensures whole { RestsCut L.puts }
    ensures in_part { RestsCutInPart L.puts }
    ensures fails { RestsFailInPart L.puts }
{}
