// Changes of a heap are changes of the process that it shows.

ghost use Rattle.flow_class.specs.Classes.{RawTree};
ghost use Rattle.flow_cancel.specs.Heap.{HeapTree};
ghost use Rattle.flow_meaning.specs.Process.{Proc};
ghost use Rattle.flow_meaning.specs.Frame.{Frame};
ghost use Rattle.flow_heap_refinement.specs.Changes as tasks_and_cells;
ghost use Rattle.flow_heap_refinement.specs.Acting as actors;
ghost use Rattle.flow_heap_refinement.specs.Leaving as leaving;
ghost use Rattle.flow_heap_refinement.specs.Beside as beside;

/// Tasks: one comes on top, the newest is taken, drops of references and of values come on top.
pub fn heap_represents_task_changes()
    ensures pushed { (r : RawTree) (h : HeapTree) (p : Proc Frame) → tasks_and_cells.Pushed r h p }
    ensures popped { (r : RawTree) (h : HeapTree) (p : Proc Frame) → tasks_and_cells.Popped r h p }
    ensures none { (r : RawTree) (h : HeapTree) (p : Proc Frame) → tasks_and_cells.NoTasks r h p }
    ensures references { (r : RawTree) (h : HeapTree) (p : Proc Frame)
        → tasks_and_cells.Dropped r h p }
    ensures values { (r : RawTree) (h : HeapTree) (p : Proc Frame)
        → tasks_and_cells.ValuesDropped r h p }
{}

/// Cells: one is made, or goes; only its counts change; it gets content and fires; an element is taken.
pub fn heap_represents_cell_changes()
    ensures result { (r : RawTree) (h : HeapTree) (p : Proc Frame)
        → tasks_and_cells.ResultMade r h p }
    ensures stream { (r : RawTree) (h : HeapTree) (p : Proc Frame)
        → tasks_and_cells.StreamMade r h p }
    ensures counted { (r : RawTree) (h : HeapTree) (p : Proc Frame)
        → tasks_and_cells.CellCounted r h p }
    ensures stream_counted { (r : RawTree) (h : HeapTree) (p : Proc Frame)
        → tasks_and_cells.StreamCounted r h p }
    ensures set { (r : RawTree) (h : HeapTree) (p : Proc Frame) → tasks_and_cells.CellSet r h p }
    ensures sent { (r : RawTree) (h : HeapTree) (p : Proc Frame)
        → tasks_and_cells.StreamSent r h p }
    ensures ended { (r : RawTree) (h : HeapTree) (p : Proc Frame)
        → tasks_and_cells.StreamEnded r h p }
    ensures taken { (r : RawTree) (h : HeapTree) (p : Proc Frame)
        → tasks_and_cells.ElementTaken r h p }
    ensures gone { (r : RawTree) (h : HeapTree) (p : Proc Frame) → tasks_and_cells.CellGone r h p }
    ensures stream_gone { (r : RawTree) (h : HeapTree) (p : Proc Frame)
        → tasks_and_cells.StreamGone r h p }
{}

/// Waits: a waiter comes to a cell; an actor leaves its wait, where its operands are dropped in order; and one that is
/// cancelled does, if it is suspended.
pub fn heap_represents_wait_changes()
    ensures awaited { (r : RawTree) (h : HeapTree) (p : Proc Frame)
        → tasks_and_cells.CellAwaited r h p }
    ensures stream_awaited { (r : RawTree) (h : HeapTree) (p : Proc Frame)
        → tasks_and_cells.StreamAwaited r h p }
    ensures withdrawn { (r : RawTree) (h : HeapTree) (p : Proc Frame) → leaving.Withdrawn r h p }
    ensures cancelled { (r : RawTree) (h : HeapTree) (p : Proc Frame) → leaving.Cancelled r h p }
{}

/// Actors: one changes where it stands, or goes on elsewhere while nothing says where it stands; one starts, and is
/// finished.
pub fn heap_represents_actor_changes()
    ensures kept { (r : RawTree) (h : HeapTree) (p : Proc Frame) → actors.ActorKept r h p }
    ensures moved { (r : RawTree) (h : HeapTree) (p : Proc Frame) → actors.ActorMoved r h p }
    ensures frame_kept { (r : RawTree) (h : HeapTree) (p : Proc Frame) → actors.FrameKept r h p }
    ensures frame_moved { (r : RawTree) (h : HeapTree) (p : Proc Frame) → actors.FrameMoved r h p }
    ensures started { (r : RawTree) (h : HeapTree) (p : Proc Frame) → actors.Started r h p }
    ensures finished { (r : RawTree) (h : HeapTree) (p : Proc Frame) → actors.Finished r h p }
{}

/// The hold on the result of `main`, ports, requests, and a loss of power.
pub fn heap_represents_other_changes()
    ensures main { (r : RawTree) (h : HeapTree) (p : Proc Frame) → beside.MainHeld r h p }
    ensures port { (r : RawTree) (h : HeapTree) (p : Proc Frame) → beside.PortAdded r h p }
    ensures port_gone { (r : RawTree) (h : HeapTree) (p : Proc Frame) → beside.PortGone r h p }
    ensures request { (r : RawTree) (h : HeapTree) (p : Proc Frame) → beside.RequestAdded r h p }
    ensures answered { (r : RawTree) (h : HeapTree) (p : Proc Frame) → beside.RequestClosed r h p }
    ensures vanished { (r : RawTree) (h : HeapTree) (p : Proc Frame) → beside.Vanished r h p }
{}
