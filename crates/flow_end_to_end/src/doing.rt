// Laws of what events do to processes.

ghost use Rattle.std.specs.Prelude.{ℕ};
ghost use Rattle.flow_class.specs.Classes.{RawTree};
ghost use Rattle.flow_code.specs.declared.program.Code.{Code};
ghost use Rattle.flow_end_to_end.specs.Actions.{MainNeverStuck, BootNeverStuck, BootInPart, ActionFailsInPart};
ghost use Rattle.flow_end_to_end.specs.Parts.{BurstInPart};

use flow_machine::host::Host;
use flow_trace::out::LineOut;

/// `main` can be called.
pub fn main_is_never_stuck()
    ensures { MainNeverStuck }
{}

/// No boot is stuck, and where what follows of one breaks off, a first part of its lines was written.
pub fn boots_are_never_stuck<H: Host>()
    ensures never { (code : Code) (processes : ℕ) (r : RawTree)
        → BootNeverStuck H.serves H.shows H.wrote H.broke code processes r }
    ensures part { (code : Code) (processes : ℕ) (r : RawTree)
        → BootInPart H.serves H.shows H.wrote H.broke code processes r }
{}

/// A burst that breaks off has written a first part of the lines of the burst of the class machine.
pub fn bursts_break_off_in_part<H: Host>()
    ensures { (code : Code) (processes : ℕ) (r : RawTree)
        → BurstInPart H.serves H.shows H.wrote H.broke code processes r }
{}

/// A deed that breaks off isn't stuck, and a first part was put of the lines of what follows of it.
pub fn event_actions_break_off_in_part<L: LineOut>()
    ensures { (r : RawTree) (code : Code) → ActionFailsInPart L.puts r code }
{}
