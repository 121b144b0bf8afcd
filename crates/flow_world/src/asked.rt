// Requests to a disk that wait for their event.

ghost use Rattle.std.specs.Prelude.{◌≡◌};
ghost use Rattle.flow_saved.specs.Requests.{IsAllowed};

use flow_simdisk::DiskAsk;
use std::marker::Model;

/// A request with its arguments in their ranges. Contracts see the request.
#[derive(Drop)]
pub struct Asked {
    ask: DiskAsk,
}

impl Model for Asked {
    ghost use Rattle.flow_simdisk.specs.declared.ask.DiskAsk.{DiskAsk};
    ghost use Rattle.flow_saved.specs.Requests.{IsAllowed};

    ghost Value = { DiskAsk };

    ghost view = { λ a. a.ask };

    ghost invariant = { λ a. IsAllowed a.ask };
}

impl Asked {
    /// This request.
    pub fn new(ask: DiskAsk) -> Asked
        requires { IsAllowed ask }
        ensures { result ≡ ask }
    {
        Asked { ask }
    }

    /// The request.
    pub fn ask(&self) -> &DiskAsk
        ensures ask { result.now ≡ self.now }
        ensures allowed { IsAllowed result.now }
    {
        &self.ask
    }
}
