// Monitors at hand.

ghost use Rattle.std.specs.Prelude.{◌≡◌, List, [], option_map, map, IfOk};
ghost use Rattle.std.specs.String.{string_bytes};
ghost use Rattle.flow_monitor.specs.Attaching.{Handed, attached, want_fault, AttachFails};

use crate::attach::{PanelFault, Want};
use crate::monitor::Monitor;
use crate::panel::{Audience, Panel};
use flow_trace::line::Line;
use std::alloc::Global;

/// Monitors at hand, of which those that are wanted hear a run. Until they are asked nobody hears.
pub trait Monitors: Audience + Drop {
    /// Their names, and what each says once it has begun with a limit.
    ghost handed: { Self → List Handed };

    /// In the order handed in, the first monitor of each wanted name hears from now on, begun with its limit. The others are
    /// dropped at once, and all of them where there is a fault. `NoMonitor` and `Twice` name the first wanted item that fails.
    fn attach(self, alloc: Global, wanted: &[Want]) -> Result<Self, PanelFault>
        ensures fault { AttachFails (want_fault (map (λ (h : Handed). h.name) (handed self))
            wanted.now) result }
        ensures ears { IfOk result (λ m. Self.ears m ≡ attached wanted.now (handed self)) };
}

/// Monitors that were handed in, and the panel that they make once they are asked.
#[derive(Drop)]
pub struct HandedIn {
    waiting: Vec<Box<dyn Monitor>>,
    panel: Panel,
}

impl HandedIn {
    /// These monitors, of whom none hears yet. It takes no memory.
    pub fn new(alloc: Global, monitors: Vec<Box<dyn Monitor>>) -> HandedIn
        ensures handed { ⟦<HandedIn as Monitors>⟧.handed result
            ≡ map (λ m. record { name = label m; begun = begun m }) monitors.items }
        ensures ears { ⟦<HandedIn as Audience>⟧.ears result ≡ [] }
    {
        HandedIn {
            waiting: monitors,
            panel: Panel::empty(alloc),
        }
    }
}

impl Audience for HandedIn {
    ghost ears = { λ p. map (λ s. record {
      name = string_bytes s.name;
      ear = option_map (λ m. (Monitor-box m).ear m.value) s.monitor;
    }) p.panel.seats.items };

    fn hear(&mut self, line: &Line) -> Option<usize> {
        self.panel.hear(line)
    }

    fn name(&self, k: usize) -> &str {
        self.panel.name(k)
    }
}

impl Monitors for HandedIn {
    ghost handed = { λ p. map (λ m. record {
      name = (Monitor-box m).label m.value;
      begun = (Monitor-box m).begun m.value;
    }) p.waiting.items };

    fn attach(self, alloc: Global, wanted: &[Want]) -> Result<HandedIn, PanelFault> {
        let HandedIn { waiting, panel: _ } = self;
        match Panel::attach(alloc, waiting, wanted) {
            Ok(panel) => Ok(HandedIn {
                waiting: Vec::new(alloc),
                panel,
            }),
            Err(fault) => Err(fault),
        }
    }
}
