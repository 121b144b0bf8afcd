// Frames in the state of a wait.

ghost use Rattle.flow_step_refinement.specs.Resuming as law;

/// A frame that is in the state of a wait belongs to an actor that waits, or that is to be thrown an
/// error or to end: each task keeps this, and so do what is done beside the frames, a result that is
/// given, and the call of `main`. So an actor whose own task is the newest of an orderly process is in no
/// state of a wait. A wait of a class has a branch, where the program's groups have a callback each.
pub fn running_actors_have_no_stale_wait()
    ensures tasks { law.TaskKeeps }
    ensures beside { law.AsideKeeps }
    ensures gives { law.GivesKeeps }
    ensures main { law.MainKeeps }
    ensures next { law.AtNextStep }
    ensures branched { law.GroupsBranched }
{}
