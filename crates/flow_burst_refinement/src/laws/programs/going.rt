// Bursts of programs.

ghost use Rattle.std.specs.Prelude.{ℕ};
ghost use Rattle.flow_class.specs.Classes.{RawTree};
ghost use Rattle.flow_code.specs.declared.program.Code.{Code};
ghost use Rattle.flow_burst_refinement.specs.Programs.Goes.{ProgramGoes, ProgramFollows};

use flow_machine::host::Host;

/// Each task of a process in memory that runs valid classes, with few places each, is a row of steps of the class machine, and a
/// burst there is a burst of it, from what a process keeps and memory shows.
pub fn program_bursts_refine<H: Host>()
    ensures tasks { (code : Code) (processes : ℕ) (r : RawTree)
        → ProgramGoes H.serves H.shows H.wrote code processes r }
    ensures bursts { (code : Code) (processes : ℕ) (r : RawTree)
        → ProgramFollows H.serves H.shows H.wrote code processes r }
{}
