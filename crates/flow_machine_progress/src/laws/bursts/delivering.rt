// Laws of what is brought to a process at the begin of an event.

ghost use Rattle.std.specs.Prelude.{ℕ};
ghost use Rattle.flow_class.specs.Classes.{RawTree};
ghost use Rattle.flow_code.specs.declared.program.Code.{Code};
ghost use Rattle.flow_burst_refinement.specs.Boundaries.Delivering.{AtBegins};
ghost use Rattle.flow_machine_progress.specs.Bursts.Delivering.{AnswerNeverStuck, ElementNeverStuck, SpentNeverStuck, DeliveredNeverStuck};

use flow_machine::host::Host;

/// The answer to an open request comes to its cell.
pub fn answers_are_never_stuck()
    ensures { AtBegins AnswerNeverStuck }
{}

/// An element comes to a stream without an end.
pub fn elements_are_never_stuck()
    ensures { AtBegins ElementNeverStuck }
{}

/// No burst goes astray that follows of what was brought, and none of an event that is spent.
pub fn delivered_bursts_are_never_stuck<H: Host>()
    ensures spent { (code : Code) (processes : ℕ) (r : RawTree)
        → SpentNeverStuck H.serves H.shows H.wrote H.broke code processes r }
    ensures brought { (code : Code) (processes : ℕ) (r : RawTree)
        → DeliveredNeverStuck H.serves H.shows H.wrote H.broke code processes r }
{}
