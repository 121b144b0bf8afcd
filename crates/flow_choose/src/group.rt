// The groups of a class.

ghost use Rattle.std.specs.Prelude.{◌≡◌, map, IfOk};
ghost use Rattle.flow_class.specs.View.{callback_of, group_of};

use flow_base::memory::NoMemory;
use flow_class::class::{Callback, Group};
use flow_layout::places::Layout;

/// The group of a number, from 1, in a class of this layout: these callbacks in order, as many as the
/// layout has branches there.
pub fn group(_layout: &Layout, _number: u32, callbacks: Vec<Callback>) -> Result<Group, NoMemory>
    ensures { IfOk result (λ g. group_of g ≡ map callback_of callbacks.items) }
{
    Ok(Group { callbacks })
}
