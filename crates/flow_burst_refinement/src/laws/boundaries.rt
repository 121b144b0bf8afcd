// Boundaries of events.

ghost use Rattle.flow_class.specs.Classes.{RawTree};
ghost use Rattle.flow_invariants.specs.Fitting.Laws.{AreValid};
ghost use Rattle.flow_burst_refinement.specs.Boundaries.Boundaries.{StartKeeps, EventKeeps, ReadyKept, BegunKept, AnswerDue};
ghost use Rattle.flow_burst_refinement.specs.Boundaries.Delivering.{BeginBrings, AnswerBrings, ElementBrings, StopBrings, BurstBegins, AtBegins};

/// The processes of a world of valid classes keep what they have to before the first event and after each; the process of an event
/// does where it begins, and where its burst begins. What a timer or a disk answers is an open request of it.
pub fn events_preserve_invariant()
    ensures start { (r : RawTree) → StartKeeps r }
    ensures event { (r : RawTree) → AreValid r → EventKeeps r }
    ensures ready { (r : RawTree) → AreValid r → ReadyKept r }
    ensures begun { (r : RawTree) → AreValid r → BegunKept r }
    ensures due { (r : RawTree) → AreValid r → AnswerDue r }
{}

/// What is brought to a process in memory at the begin of an event leaves it in order, asking nothing, and showing the process of the
/// definitions to which the same was brought. So a burst of it begins, by what that one keeps, unless the event is spent.
pub fn deliveries_begin_bursts()
    ensures begin { AtBegins BeginBrings }
    ensures answer { AtBegins AnswerBrings }
    ensures element { AtBegins ElementBrings }
    ensures stop { AtBegins StopBrings }
    ensures burst { BurstBegins }
{}
