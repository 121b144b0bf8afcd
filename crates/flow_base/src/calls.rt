// Numbered calls, of which the listed ones fail.

ghost use Rattle.std.specs.Prelude.{◌≡◌};
ghost use Rattle.flow_base.specs.Calls.{no_calls, next_fails, passed, failed};
ghost use Rattle.flow_base.specs.declared.fault.OutFault.TheVariants.{Failed};

use crate::fault::OutFault;
use std::marker::Model;

/// The calls of an object in memory, numbered from 1, of which the listed ones fail.
#[derive(Drop)]
pub(crate) struct Calls {
    failing: Vec<u64>,
    count: u64,
    faults: u64,
}

impl Model for Calls {
    ghost use Rattle.flow_base.specs.Calls.{CallState};

    ghost Value = { CallState };

    ghost view = { λ s. record { failing = s.failing.items; count = s.count; faults = s.faults } };
}

impl Calls {
    /// No call yet, with the numbers of those that will fail.
    pub(crate) fn new(failing: Vec<u64>) -> Calls
        ensures { result ≡ no_calls failing.items }
    {
        Calls {
            failing,
            count: 0,
            faults: 0,
        }
    }

    /// Whether the next call is one that fails.
    pub(crate) fn next_fails(&self) -> bool
        ensures { result ≡ next_fails self.now }
    {
        self.failing.contains(&self.count.saturating_add(1))
    }

    /// Counts a call that went well.
    pub(crate) fn pass(&mut self)
        ensures { self.new ≡ passed self.old }
    {
        self.count = self.count.saturating_add(1);
    }

    /// Counts a call that failed, and gives its answer.
    pub(crate) fn fail(&mut self) -> OutFault
        ensures answer { result ≡ Failed }
        ensures counted { self.new ≡ failed self.old }
    {
        self.count = self.count.saturating_add(1);
        self.faults = self.faults.saturating_add(1);
        OutFault::Failed
    }

    /// How many calls failed.
    pub(crate) fn faults(&self) -> u64
        ensures { result ≡ self.now.faults }
    {
        self.faults
    }
}
