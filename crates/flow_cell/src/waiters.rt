// The waiters of one cell, and the lists of all.

ghost use Rattle.std.specs.Prelude.{◌≡◌, ℕ, [], ◌++◌, ◌∷◌, true, None, slice_get, OnOk, OnErr};
ghost use Rattle.std.specs.HashMap as hash;
ghost use Rattle.slab.specs.Slab.{get};
ghost use Rattle.flow_cell.specs.Waiting.{has_waiter, same_spot, same_waiter, without_newest};
ghost use Rattle.flow_cell.specs.Lines.{line, IsIn, Becomes, Tells};
ghost use Rattle.flow_cell.specs.declared.queue.Spot.{Spot};

use crate::queue::{Spot, Waiting, join, leave, waiter_from};
use crate::waiter::Waiter;
use flow_base::ids::CellId;
use flow_base::memory::NoMemory;
use flow_numbered::links::{Ends, Link};
use slab::Slab;
use std::alloc::Global;
use std::collections::HashMap;

/// Who waits at a cell: nobody; one, who stands here; or those in a list. Most cells never have a second waiter, and so
/// need no list.
#[derive(Drop)]
pub(crate) enum Waiters {
    Nobody,
    One(Waiter),
    Listed(Box<Ends>),
}

/// The lists of waiters of the cells that have one, and for each waiter in a list its newest link there.
#[derive(Drop)]
pub(crate) struct Lists {
    pub(crate) links: Slab<Link<Waiting>>,
    pub(crate) newest: HashMap<Spot, usize>,
    alloc: Global,
}

// Whether they are the same.
fn same_waiter(one: Waiter, other: Waiter) -> bool
    ensures { result ≡ same_waiter one other }
{
    one.actor.0 == other.actor.0 && one.callback == other.callback
}

impl Lists {
    /// No list.
    pub(crate) fn new(alloc: Global) -> Lists
        ensures links { (k : ℕ) → get result.links k ≡ None }
        ensures newest { (s : Spot) → hash.get same_spot result.newest s ≡ None }
    {
        Lists {
            links: Slab::new(alloc),
            newest: HashMap::new(alloc),
            alloc,
        }
    }

    /// Adds a waiter behind the others of a cell. Where there is no memory, the same wait as before.
    pub(crate) fn enter(
        &mut self,
        waiters: &mut Waiters,
        cell: CellId,
        waiter: Waiter,
    ) -> Result<(), NoMemory>
        ensures ok { OnOk result (Becomes cell.0 (λ ws. ws ++ waiter ∷ [])
            (line self.old waiters.old) (line self.new waiters.new)) }
        ensures err { OnErr result (Becomes cell.0 (λ ws. ws) (line self.old waiters.old)
            (line self.new waiters.new)) }
    {
        match waiters {
            Waiters::Nobody => {
                *waiters = Waiters::One(waiter);
                Ok(())
            }
            Waiters::One(first) => {
                let mut ends = Box::new(self.alloc, Ends::new())?;
                let spot = Spot::new(cell, *first);
                join(&mut self.links, &mut self.newest, &mut ends, spot)?;
                let spot = Spot::new(cell, waiter);
                let joined = join(&mut self.links, &mut self.newest, &mut ends, spot);
                *waiters = Waiters::Listed(ends);
                joined?;
                Ok(())
            }
            Waiters::Listed(ends) => {
                join(
                    &mut self.links,
                    &mut self.newest,
                    ends,
                    Spot::new(cell, waiter),
                )?;
                Ok(())
            }
        }
    }

    /// A waiter that waits at a cell leaves it; the newest, where it waits there more than once.
    pub(crate) fn exit(&mut self, waiters: &mut Waiters, cell: CellId, waiter: Waiter)
        requires cell { IsIn cell.0 (line self.old waiters.old) }
        requires waits { has_waiter (line self.old waiters.old).waiters waiter ≡ true }
        ensures { Becomes cell.0 (λ ws. without_newest ws waiter) (line self.old waiters.old)
            (line self.new waiters.new) }
    {
        match waiters {
            Waiters::Nobody => (),
            Waiters::One(_) => *waiters = Waiters::Nobody,
            Waiters::Listed(ends) => {
                leave(
                    &mut self.links,
                    &mut self.newest,
                    ends,
                    Spot::new(cell, waiter),
                )
            }
        }
    }

    /// Whether a waiter waits at a cell.
    pub(crate) fn has(&self, waiters: &Waiters, cell: CellId, waiter: Waiter) -> bool
        ensures { Tells cell.0 (line self.now waiters.now) (λ ws. result ≡ has_waiter ws waiter) }
    {
        match waiters {
            Waiters::Nobody => false,
            Waiters::One(one) => same_waiter(*one, waiter),
            Waiters::Listed(_) => self.newest.contains_key(&Spot::new(cell, waiter)),
        }
    }

    /// The waiter of a cell at a place from 0, the oldest first: `None` past the last.
    pub(crate) fn at(&self, waiters: &Waiters, place: usize) -> Option<Waiter>
        ensures { result ≡ slice_get (line self.now waiters.now).waiters place }
    {
        match waiters {
            Waiters::Nobody => None,
            Waiters::One(one) if place == 0 => Some(*one),
            Waiters::One(_) => None,
            Waiters::Listed(ends) => waiter_from(&self.links, ends.first, ends.length, place),
        }
    }

    /// No list any more.
    pub(crate) fn clear(&mut self)
        ensures links { (k : ℕ) → get self.new.links k ≡ None }
        ensures newest { (s : Spot) → hash.get same_spot self.new.newest s ≡ None }
    {
        self.links.clear();
        self.newest.clear();
    }
}
