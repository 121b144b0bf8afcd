// What actors ask.

ghost use Rattle.std.specs.Prelude.{ℕ};
ghost use Rattle.flow_class.specs.Classes.{RawTree};
ghost use Rattle.flow_code.specs.declared.program.Code.{Code};
ghost use Rattle.flow_operation_refinement.specs.Placing.{ForActors};
ghost use Rattle.flow_burst_refinement.specs.Requests.Next as law;
ghost use Rattle.flow_burst_refinement.specs.Requests.Allowing.{AskAllowed};

use flow_machine::host::Host;

/// A step of an actor in memory by an effect, a call statement or an operand by an effect is a step of the class machine.
pub fn requests_refine()
    ensures { ForActors law.AskFollows }
{}

/// What a process of valid classes keeps allows each actor that takes its next step what it asks there.
pub fn requests_are_enabled()
    ensures { AskAllowed }
{}

/// What such a step asks of the world is asked in the class machine, and what the host does for it is what the world does.
pub fn world_requests_refine<H: Host>()
    ensures { (code : Code) (processes : ℕ) (r : RawTree)
        → law.WorldAsked H.serves H.shows H.wrote code processes r }
{}
