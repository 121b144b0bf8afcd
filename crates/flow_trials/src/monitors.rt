// What makes monitors.

ghost use Rattle.std.specs.Prelude.{◌≡◌, ◌++◌, List, map, OnOk};
ghost use Rattle.flow_monitor.specs.Attaching.{Handed};

use flow_base::memory::NoMemory;
use flow_monitor::Monitor;
use std::alloc::Global;

/// What makes monitors, as often as a run is made: each time the same names with the same beginnings.
pub trait Monitors {
    /// Their names, and what each says once it has begun with a limit.
    ghost handed: { Self → List Handed };

    /// Makes them anew, and adds them to others.
    fn add(&self, alloc: Global, monitors: &mut Vec<Box<dyn Monitor>>) -> Result<(), NoMemory>
        ensures { OnOk result (map {B = Handed} (λ m. record {
          name = label m;
          begun = begun m;
        })
            monitors.new.items ≡ map {B = Handed} (λ m. record { name = label m; begun = begun m })
            monitors.old.items ++ handed self.now) };
}
