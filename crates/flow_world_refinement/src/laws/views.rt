// What is told of worlds between events.

ghost use Rattle.flow_class.specs.Classes.{RawTree};
ghost use Rattle.flow_world_refinement.specs.Views.Waiting.{StartWaits, EventWaits};
ghost use Rattle.flow_world_refinement.specs.Views.Views.{ViewsShown};
ghost use Rattle.flow_world_refinement.specs.Views.Reports.{WorldTold};
ghost use Rattle.flow_world_refinement.specs.Views.FrameLines.{BeginningTraced, FramesFollow, FramesTraced};

use crate::laws::traces::Boundary;
use flow_trace::out::LineOut;

/// In a run of any classes each frame that waits is, at each boundary of events, in the state of the
/// wait at which it stands.
pub fn waiting_frames_have_wait_states()
    ensures start { StartWaits }
    ensures event { (r : RawTree) → EventWaits r }
{}

/// The frames of a heap that shows a process at rest are the unfinished actors of the process, by their
/// numbers, and its callbacks are the branches at which these wait.
pub fn heap_represents_views()
    ensures { ViewsShown }
{}

/// Whatever is meant by a boundary, if a process in memory that rests shows one of the definitions: the
/// frames and callbacks of each process and the count of unfinished actors that a world in memory answers
/// are the views of the world that it shows; the lines of frames and callbacks that it puts are those seen
/// of that world; and so the lines that are put of classes in a world are what is shown of these classes, and
/// those of a trace that has begun are a first part of that.
pub fn traces_with_frames_refine<B: Boundary, L: LineOut>()
    ensures told { (r : RawTree) → WorldTold B.rests r }
    ensures frames { (r : RawTree) → FramesFollow B.rests B.keeps B.is_code r }
    ensures traces { FramesTraced B.rests B.keeps B.is_code L.puts }
    ensures part { BeginningTraced B.rests B.keeps B.is_code L.puts }
{}
