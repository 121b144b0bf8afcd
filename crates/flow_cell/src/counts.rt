// Counts of references.

ghost use Rattle.std.specs.Prelude.{◌≡◌, ℕ, ◌+◌, ◌<◌, ◌^◌};
ghost use Rattle.flow_cell.specs.Cells.{no_counts, count_of, held, released, loss};

use std::marker::Model;

/// A side of a cell: where it is set, or where it is waited for.
#[derive(Clone, Copy, PartialEq, Eq)]
pub enum Side {
    Promise,
    Future,
}

/// What the loss of a reference leaves: other references of its side; none of its side, which was the promise side, or
/// the future side; or none of either side.
#[derive(Clone, Copy, PartialEq, Eq)]
pub enum Loss {
    Kept,
    LastPromise,
    LastFuture,
    Gone,
}

/// How many references of each side of a cell count.
#[derive(Clone, Copy)]
pub struct References {
    promises: u64,
    futures: u64,
}

impl Model for References {
    ghost use Rattle.flow_cell.specs.Cells.{Counts};

    ghost Value = { Counts };

    ghost view = { λ r. record { promises = r.promises; futures = r.futures } };

    ghost inverse = { λ c. record { promises = c.promises; futures = c.futures } };
}

impl References {
    /// No reference.
    pub fn new() -> References
        ensures { result ≡ no_counts }
    {
        References {
            promises: 0,
            futures: 0,
        }
    }

    /// How many of a side count.
    pub fn count(self, side: Side) -> u64
        ensures { result ≡ count_of side self }
    {
        match side {
            Side::Promise => self.promises,
            Side::Future => self.futures,
        }
    }

    /// Counts one more reference of a side, which stays below 2^64.
    pub fn hold(&mut self, side: Side)
        requires { count_of side self.old + 1 < 2 ^ 64 }
        ensures { self.new ≡ held side self.old }
    {
        match side {
            Side::Promise => self.promises += 1,
            Side::Future => self.futures += 1,
        }
    }

    /// Counts one reference of a side less.
    pub fn release(&mut self, side: Side) -> Loss
        requires { 0 < count_of side self.old }
        ensures counts { self.new ≡ released side self.old }
        ensures loss { result ≡ loss side (released side self.old) }
    {
        let own = match side {
            Side::Promise => {
                self.promises -= 1;
                self.promises
            }
            Side::Future => {
                self.futures -= 1;
                self.futures
            }
        };
        if self.promises == 0 && self.futures == 0 {
            return Loss::Gone;
        }
        if own != 0 {
            return Loss::Kept;
        }
        match side {
            Side::Promise => Loss::LastPromise,
            Side::Future => Loss::LastFuture,
        }
    }
}
