// What an actor of a class sees of cells while it evaluates.

ghost use Rattle.std.specs.Prelude.{◌≡◌, ℕ, Option};
ghost use Rattle.flow_value.specs.Values.{OutcomeTree};
ghost use Rattle.flow_value.specs.View.{outcome_of};
ghost use Rattle.flow_steps.specs.Seen.{content_in};

use flow_base::ids::CellId;
use flow_cell::cells::Cells;
use flow_eval::cells::CellView;
use flow_value::value::Outcome;

/// The single results that are set.
#[derive(Clone, Copy)]
pub(crate) struct Contents<'a> {
    pub(crate) cells: &'a Cells<Outcome>,
}

impl CellView for Contents<'_> {
    ghost content = { λ v k. content_in v.cells.now k };

    fn seen(&self, cell: CellId) -> Option<&Outcome> {
        if self.cells.references(cell).is_none() {
            return None;
        }
        self.cells.content(cell)
    }
}
