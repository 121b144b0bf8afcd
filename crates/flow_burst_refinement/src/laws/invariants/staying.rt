// What memory keeps.

ghost use Rattle.flow_burst_refinement.specs.Invariants.Staying.{StepStays, RunsStay, TaskStays, SortedStays};

/// The time of a process in memory stays in each step of an event, numbers rise in its stores, and the streams of its ports are
/// the same but for one that the step tells to be heard no more.
pub fn steps_keep_time_and_order()
    ensures step { StepStays }
    ensures runs { RunsStay }
    ensures task { TaskStays }
    ensures sorted { SortedStays }
{}
