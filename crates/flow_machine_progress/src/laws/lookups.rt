// Laws of what is there.

ghost use Rattle.flow_machine_progress.specs.Lookups.{NoneMissing, StandFound, LossFound, ForgetFound, EndFound, HandlerFound, BringFound, TakenFound, CellsFound};

/// No reference that leads to a cell there, of its kind, is missing.
pub fn references_are_found()
    ensures { NoneMissing }
{}

/// An actor that stands somewhere stands somewhere in memory, too.
pub fn control_points_are_found()
    ensures { StandFound }
{}

/// What the loss of a reference leads to can be done: the cell may be filled, the actor may be cancelled.
pub fn lost_cells_are_found()
    ensures { LossFound }
{}

/// An actor that is over, without operands, may be forgotten.
pub fn finished_actors_are_found()
    ensures { ForgetFound }
{}

/// The outcome of an actor goes to its result.
pub fn results_are_found()
    ensures { EndFound }
{}

/// An error finds the places of its handler, where the frame has as many.
pub fn handler_places_are_found()
    ensures { HandlerFound }
{}

/// Content that the world brings comes into its cell.
pub fn delivery_cells_are_found()
    ensures { BringFound }
{}

/// A branch takes something from a cell that is ready.
pub fn ready_cells_give_content()
    ensures { TakenFound }
{}

/// The cells of operands that refer to cells there are there.
pub fn operand_cells_are_found()
    ensures { CellsFound }
{}
