// What evaluation sees of cells.

ghost use Rattle.std.specs.Prelude.{◌≡◌, ℕ, Option, None};
ghost use Rattle.std.specs.Option.{option_map, option_copied};
ghost use Rattle.flow_value.specs.Values.{OutcomeTree};
ghost use Rattle.flow_value.specs.View.{outcome_of};

use flow_base::ids::CellId;
use flow_value::value::Outcome;

/// The cells of single results that are set.
pub trait CellView {
    /// What a set cell holds, by its number; none for one that is not set.
    ghost content: { Self → ℕ → Option OutcomeTree };

    /// What the cell holds, or `None` where it is not set.
    fn seen(&self, cell: CellId) -> Option<&Outcome>
        ensures { option_map outcome_of (option_copied result) ≡ content self.now cell.0 };
}

/// No cell that is set.
#[derive(Clone, Copy)]
pub struct NoCells;

impl CellView for NoCells {
    ghost content = { λ _ _. None };

    fn seen(&self, _cell: CellId) -> Option<&Outcome> {
        None
    }
}
