// The counts that a heap keeps, and the references of the process that it shows.

ghost use Rattle.std.specs.Prelude.{ℕ};
ghost use Rattle.flow_class.specs.Classes.{RawTree};
ghost use Rattle.flow_cancel.specs.Heap.{HeapTree};
ghost use Rattle.flow_meaning.specs.Cells.{Side};
ghost use Rattle.flow_meaning.specs.Process.{Proc};
ghost use Rattle.flow_meaning.specs.Frame.{Frame};
ghost use Rattle.flow_heap_refinement.specs.References as of;
ghost use Rattle.flow_heap_refinement.specs.CountChanges as kept;
ghost use Rattle.flow_heap_refinement.specs.Losing as losing;
ghost use Rattle.flow_heap_refinement.specs.Alive as alive;
ghost use Rattle.flow_heap_refinement.specs.Holds as holds;

/// How many places of a process refer to a side of a cell, after each thing that a process does to its tasks and cells.
pub fn cell_work_changes_references()
    ensures pushed { (p : Proc Frame) (s : Side) (j : ℕ) → of.OfPushed p s j }
    ensures popped { (p : Proc Frame) (s : Side) (j : ℕ) → of.OfPopped p s j }
    ensures dropped { (p : Proc Frame) (s : Side) (j : ℕ) → of.OfDropped p s j }
    ensures values { (p : Proc Frame) (s : Side) (j : ℕ) → of.OfValues p s j }
    ensures made { (p : Proc Frame) (s : Side) (j : ℕ) → of.OfNewCell p s j }
    ensures cell { (p : Proc Frame) (s : Side) (j : ℕ) → of.OfCell p s j }
    ensures gone { (p : Proc Frame) (s : Side) (j : ℕ) → of.OfGone p s j }
    ensures filled { (p : Proc Frame) (s : Side) (j : ℕ) → of.OfFilled p s j }
    ensures taken { (p : Proc Frame) (s : Side) (j : ℕ) → of.OfTaken p s j }
    ensures waiter { (p : Proc Frame) (s : Side) (j : ℕ) → of.OfWaiter p s j }
{}

/// And after each thing that it does to its actors, to the hold on `main`, to ports and to requests. An actor that leaves its
/// wait changes nothing: its waiters, or the operands that it kept, become drops.
pub fn actor_work_changes_references()
    ensures left { (p : Proc Frame) (s : Side) (j : ℕ) → of.OfLeft p s j }
    ensures entry { (p : Proc Frame) (s : Side) (j : ℕ) → of.OfEntry p s j }
    ensures frame { (p : Proc Frame) (s : Side) (j : ℕ) → of.OfFrame p s j }
    ensures new { (p : Proc Frame) (s : Side) (j : ℕ) → of.OfNewActor p s j }
    ensures closed { (p : Proc Frame) (s : Side) (j : ℕ) → of.OfClosed p s j }
    ensures main { (p : Proc Frame) (s : Side) (j : ℕ) → of.OfMain p s j }
    ensures port { (p : Proc Frame) (s : Side) (j : ℕ) → of.OfPort p s j }
    ensures port_gone { (p : Proc Frame) (s : Side) (j : ℕ) → of.OfPortGone p s j }
    ensures request { (p : Proc Frame) (s : Side) (j : ℕ) → of.OfRequest p s j }
    ensures answered { (p : Proc Frame) (s : Side) (j : ℕ) → of.OfAnswered p s j }
{}

/// The counts that a heap keeps after each thing that is done to its cells.
pub fn cell_work_changes_counts()
    ensures cell { (h : HeapTree) (s : Side) (j : ℕ) → kept.CellKeeps h s j }
    ensures stream { (h : HeapTree) (s : Side) (j : ℕ) → kept.StreamKeeps h s j }
    ensures held { (h : HeapTree) (s : Side) (j : ℕ) → kept.CellHeld h s j }
    ensures stream_held { (h : HeapTree) (s : Side) (j : ℕ) → kept.StreamHeld h s j }
    ensures released { (h : HeapTree) (s : Side) (j : ℕ) → kept.CellReleased h s j }
    ensures stream_released { (h : HeapTree) (s : Side) (j : ℕ) → kept.StreamReleased h s j }
    ensures result { (h : HeapTree) (s : Side) (j : ℕ) → kept.ResultKeeps h s j }
    ensures new_stream { (h : HeapTree) (s : Side) (j : ℕ) → kept.NewStreamKeeps h s j }
    ensures freed { (h : HeapTree) (s : Side) (j : ℕ) → kept.CellFreed h s j }
    ensures stream_freed { (h : HeapTree) (s : Side) (j : ℕ) → kept.StreamFreed h s j }
{}

/// Where a heap's counts are the references in its process, and one that was taken out, that reference may be dropped; and
/// what memory says of the loss by its counts is the case of the rule, which is told by a scan for references.
pub fn counts_decide_losses()
    ensures may { (r : RawTree) (h : HeapTree) (p : Proc Frame) → losing.MayDrop r h p }
    ensures follows { (r : RawTree) (h : HeapTree) (p : Proc Frame) → losing.LossFollows r h p }
{}

/// No loss of a reference leaves a cell without one, nor the result of an unmarked actor without a future, but that of the
/// actor that is to be cancelled; a new cell has a reference as soon as one is held. And where a heap's counts are the references
/// in its process, the process's cells and results have theirs too.
pub fn losses_leave_cells_referenced()
    ensures alive { (r : RawTree) (h : HeapTree) (p : Proc Frame) → alive.LossAlive r h p }
    ensures wanted { (r : RawTree) (h : HeapTree) (p : Proc Frame) → alive.LossWanted r h p }
    ensures made { (h : HeapTree) → alive.ResultAlive h }
    ensures stream_made { (h : HeapTree) → alive.StreamAlive h }
    ensures held { (h : HeapTree) → alive.HeldAlive h }
    ensures stream_held { (h : HeapTree) → alive.StreamHeldAlive h }
    ensures marked { (h : HeapTree) → alive.MarkWanted h }
    ensures referenced { (r : RawTree) (h : HeapTree) (p : Proc Frame) → alive.AliveShown r h p }
    ensures awaited { (r : RawTree) (h : HeapTree) (p : Proc Frame) → alive.WantedShown r h p }
{}

/// With the references in hand: one that is stored counts, and so do those of a list; what is in hand goes into a cell, which
/// fires; and the result of an effect is given by a task, under which the actor goes on.
pub fn stored_references_count()
    ensures held { (r : RawTree) (h : HeapTree) (p : Proc Frame) → holds.Held r h p }
    ensures all { (r : RawTree) (h : HeapTree) (p : Proc Frame) → holds.AllHeld r h p }
    ensures filled { (r : RawTree) (h : HeapTree) (p : Proc Frame) → holds.Filled r h p }
    ensures given { (r : RawTree) (h : HeapTree) (p : Proc Frame) → holds.Given r h p }
{}

/// An actor leaves its wait or is cancelled, with the references in hand; and a reference is lost and what that leads to is done
/// as the rule says: the cell is freed or broken, the actor of its result cancelled, or its port freed.
pub fn losses_are_carried_out()
    ensures left { (r : RawTree) (h : HeapTree) (p : Proc Frame) → holds.WaitLeft r h p }
    ensures cancelled { (r : RawTree) (h : HeapTree) (p : Proc Frame) → holds.ActorCancelled r h p }
    ensures lost { (r : RawTree) (h : HeapTree) (p : Proc Frame) → holds.LossDone r h p }
{}
