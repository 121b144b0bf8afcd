// A law of tasks that need no step of an actor.

ghost use Rattle.flow_machine_progress.specs.Bursts.SimpleTasks.{SimpleTaskNeverStuck};

/// A task that needs no step of an actor doesn't go astray.
pub fn simple_tasks_are_never_stuck()
    ensures { SimpleTaskNeverStuck }
{}
