// What the steps of a process keep.

ghost use Rattle.flow_heap_refinement.specs.CellsTied.{StepsTied, DeliveriesTied, ArrivalsTied, BootsTied, StopsTied, IdleTied, VanishedTied, OwnersStay};
ghost use Rattle.std.specs.Prelude.{ℕ, List};
ghost use Rattle.flow_class.specs.Classes.{RawTree};
ghost use Rattle.flow_value.specs.declared.value.Value.{Value};
ghost use Rattle.flow_meaning.specs.Cells.{Side};
ghost use Rattle.flow_meaning.specs.Process.{Entry, Proc};
ghost use Rattle.flow_meaning.specs.Frame.{Memory, Frame};
ghost use Rattle.flow_frame.specs.Frames.{FrameTree};
ghost use Rattle.flow_heap_refinement.specs.Holding as holding;
ghost use Rattle.flow_heap_refinement.specs.Example.{WaitingRests};
ghost use Rattle.flow_heap_refinement.specs.Starting.{IdleRests, VanishedRests};
ghost use Rattle.flow_heap_refinement.specs.FrameChanges as standing;
ghost use Rattle.flow_heap_refinement.specs.Lonely.{StepsLonely, IdleLonely, VanishedLonely, DeliveriesLonely, ArrivalsLonely, BootsLonely, StopsLonely};
ghost use Rattle.flow_heap_refinement.specs.Alone.{OwnersCounted, NobodyElse, NobodyYet, StaysAlone, BornAlone, PortsOnce, RequestsOnce, OneReference};
ghost use Rattle.flow_heap_refinement.specs.Naming.{StepsNamed, AnyMade, DeliveriesNamed, ArrivalsNamed, BootsNamed, StopsNamed};

/// Each step of classes, and each thing that the world brings to a process, keeps that the branches of an actor that wait at
/// a cell are those of its operands there, that the numbers of cells, requests and ports' streams rise, and that a cell is
/// made for one thing at most: the result of an actor, the stream of a port, an open request; unless it stops the event. So
/// it is of a process that never ran, and after a loss of power. A step makes a cell for something only where it makes it.
pub fn steps_keep_waits_consistent()
    ensures steps { StepsTied }
    ensures deliveries { DeliveriesTied }
    ensures arrivals { ArrivalsTied }
    ensures boots { BootsTied }
    ensures stops { StopsTied }
    ensures idle { IdleTied }
    ensures vanished { VanishedTied }
    ensures owners { OwnersStay }
{}

/// What a frame in memory becomes is what the frame of the process becomes: a place is read or written; the actor goes on
/// elsewhere, keeps an operand, is suspended, is over.
pub fn heap_represents_frame_changes()
    ensures read { (r : RawTree) (m : FrameTree Value) (e : Entry) (f : Frame)
        → standing.PlaceRead r m e f }
    ensures written { (r : RawTree) (m : FrameTree Value) (e : Entry) (f : Frame)
        → standing.PlaceWritten r m e f }
    ensures goes { (r : RawTree) (m : FrameTree Value) (e : Entry) (f : Frame)
        → standing.GoesOn r m e f }
    ensures kept { (r : RawTree) (m : FrameTree Value) (e : Entry) (f : Frame)
        → standing.OperandKept r m e f }
    ensures suspends { (r : RawTree) (m : FrameTree Value) (e : Entry) (f : Frame)
        → standing.Suspends r m e f }
    ensures over { (r : RawTree) (m : FrameTree Value) (e : Entry) (f : Frame)
        → standing.IsOver r m e f }
{}

/// How often a frame refers to a side of a cell, after a place was written or emptied, locals were emptied, or a value was
/// put where a path leads.
pub fn frame_work_changes_references()
    ensures written { (m : Memory) (s : Side) (j : ℕ) → holding.OfWritten m s j }
    ensures emptied { (m : Memory) (s : Side) (j : ℕ) → holding.OfEmptied m s j }
    ensures locals { (m : Memory) (s : Side) (j : ℕ) → holding.OfLocals m s j }
    ensures all { (m : Memory) (s : Side) (j : ℕ) → holding.OfAllLocals m s j }
    ensures path { (m : Memory) (s : Side) (j : ℕ) → holding.OfPath m s j }
{}

/// A process that never ran rests, and so does one after a loss of power, and, for example, one whose `main` waits for a
/// timer: everything that holds at rest holds of it.
pub fn fresh_processes_rest()
    ensures idle { IdleRests }
    ensures vanished { VanishedRests }
    ensures example { WaitingRests }
{}

/// No reference comes from nowhere: a rule on references that holds of all that a process of classes holds, and of the
/// reference to the cell that a step makes, holds after the step, and after each thing that the world brings to the process.
pub fn references_come_from_somewhere()
    ensures steps { StepsNamed }
    ensures any { AnyMade }
    ensures deliveries { DeliveriesNamed }
    ensures arrivals { ArrivalsNamed }
    ensures boots { BootsNamed }
    ensures stops { StopsNamed }
{}

/// What a process made a cell for (the result of an actor, the stream of a port, an open request) is alone in referring to its
/// promise side: it is so of a new cell, each step keeps it, and then there is one promise reference. A cell is the stream of
/// one port at most, and of one open request.
pub fn owners_stay_alone()
    ensures counted { OwnersCounted }
    ensures nobody_else { NobodyElse }
    ensures nobody_yet { NobodyYet }
    ensures born { BornAlone }
    ensures stays { StaysAlone }
    ensures ports { PortsOnce }
    ensures requests { RequestsOnce }
    ensures one { OneReference }
    ensures steps { StepsLonely }
    ensures deliveries { DeliveriesLonely }
    ensures arrivals { ArrivalsLonely }
    ensures boots { BootsLonely }
    ensures stops { StopsLonely }
    ensures idle { IdleLonely }
    ensures vanished { VanishedLonely }
{}
