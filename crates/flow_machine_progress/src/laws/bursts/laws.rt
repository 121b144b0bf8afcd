// Laws of tasks and of bursts.

ghost use Rattle.std.specs.Prelude.{ℕ};
ghost use Rattle.flow_class.specs.Classes.{RawTree};
ghost use Rattle.flow_code.specs.declared.program.Code.{Code};
ghost use Rattle.flow_machine_progress.specs.Bursts.NeverStuck.{TaskNeverStuck, TasksNeverStuck, BurstNeverStuck};

use flow_machine::host::Host;

/// No task goes astray.
pub fn tasks_are_never_stuck<H: Host>()
    ensures task { TaskNeverStuck }
    ensures tasks { (code : Code) (processes : ℕ) (r : RawTree)
        → TasksNeverStuck H.serves H.shows H.wrote H.broke code processes r }
{}

/// No burst goes astray.
pub fn bursts_are_never_stuck<H: Host>()
    ensures { (code : Code) (processes : ℕ) (r : RawTree)
        → BurstNeverStuck H.serves H.shows H.wrote H.broke code processes r }
{}
