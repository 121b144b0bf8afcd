// Cells by number.

ghost use Rattle.std.specs.Prelude.{◌≡◌, ◌+◌, ◌<◌, ◌^◌, [], ◌++◌, ◌∷◌, IsSome, is_some, OnOk, OnErr, IfOk, option_copied, option_map, slice_get, None, Some, true};
ghost use Rattle.std.specs.Option.{ForSome};
ghost use Rattle.flow_numbered.specs.Numbered.{thing, added, removed, next_above, with_thing};
ghost use Rattle.flow_cell.specs.Cells.{no_counts, count_of, held, released, loss, unset};
ghost use Rattle.flow_cell.specs.Waiting.{has_waiter, waits_at, without_newest};

use crate::cell::Cell;
use crate::counts::{Loss, References, Side};
use crate::waiter::Waiter;
use crate::waiters::{Lists, Waiters};
use flow_base::ids::CellId;
use flow_base::memory::NoMemory;
use flow_numbered::numbered::Numbered;
use std::alloc::Global;
use std::marker::Model;

/// Cells by number. Contracts see the list of numbers and cells, by rising number, and the greatest number that was
/// ever made, 0 at first. Each call on a cell asks that it is there.
#[derive(Drop)]
pub struct Cells<T> {
    cells: Numbered<Cell<T>>,
    lists: Lists,
}

impl<T> Model for Cells<T> {
    ghost use Rattle.flow_numbered.specs.Numbered.{Store};
    ghost use Rattle.flow_cell.specs.Cells.{CellTree};

    ghost Value = { Store (CellTree T) };

    ghost use Rattle.flow_cell.specs.Waiting.{AreQueues};
    ghost use Rattle.flow_cell.specs.Lines.{links_of, newest_of};
    ghost use Rattle.flow_cell.specs.Seen.{seen, ends_in};

    ghost view = { λ s. record {
      things = seen (links_of s.lists) s.cells.things;
      greatest = s.cells.greatest;
    } };

    ghost invariant = { λ s. AreQueues (ends_in s.cells.things) (links_of s.lists)
        (newest_of s.lists) };
}

impl<T> Cells<T> {
    /// No cell, and no number made.
    pub fn new(alloc: Global) -> Result<Cells<T>, NoMemory>
        ensures { IfOk result (λ s. s ≡ record { things = []; greatest = 0 }) }
    {
        Ok(Cells {
            cells: Numbered::new(alloc),
            lists: Lists::new(alloc),
        })
    }

    /// An unset cell with a number above all that were made, without a reference or a waiter. Where there is no
    /// memory, nothing changes.
    pub fn make(&mut self, cell: CellId) -> Result<(), NoMemory>
    where
        T: Drop,
        requires { self.old.greatest < cell.0 }
        ensures ok { OnOk result (self.new
            ≡ record { things = added self.old.things cell.0 unset; greatest = cell.0 }) }
        ensures err { OnErr result (self.new ≡ self.old) }
    {
        self.cells.insert(
            cell.0,
            Cell {
                content: None,
                references: References::new(),
                waiters: Waiters::Nobody,
            },
        )?;
        Ok(())
    }

    /// How many references of a cell count: `None` where no cell has this number.
    pub fn references(&self, cell: CellId) -> Option<References>
        ensures { result ≡ option_map (λ c. c.references) (thing self.now.things cell.0) }
    {
        match self.cells.get(cell.0) {
            Some(found) => Some(found.references),
            None => None,
        }
    }

    /// Counts one more reference of a side, which stays below 2^64.
    pub fn hold(&mut self, cell: CellId, side: Side)
        requires there { IsSome (thing self.old.things cell.0) }
        requires fits { ForSome (thing self.old.things cell.0)
            (λ c. count_of side c.references + 1 < 2 ^ 64) }
        ensures { ForSome (thing self.old.things cell.0)
            (λ c. self.new ≡ with_thing self.old cell.0
            (record c { references = held side c.references })) }
    {
        self.cells.get_mut(cell.0).references.hold(side);
    }

    /// Counts one reference less of a side that counts, and says what that leaves.
    pub fn release(&mut self, cell: CellId, side: Side) -> Loss
        requires there { IsSome (thing self.old.things cell.0) }
        requires counts { ForSome (thing self.old.things cell.0)
            (λ c. 0 < count_of side c.references) }
        ensures loss { ForSome (thing self.old.things cell.0)
            (λ c. result ≡ loss side (released side c.references)) }
        ensures counts { ForSome (thing self.old.things cell.0)
            (λ c. self.new ≡ with_thing self.old cell.0
            (record c { references = released side c.references })) }
    {
        self.cells.get_mut(cell.0).references.release(side)
    }

    /// Sets a cell that is unset.
    pub fn set(&mut self, cell: CellId, content: T)
    where
        T: Drop,
        requires there { IsSome (thing self.old.things cell.0) }
        requires unset { ForSome (thing self.old.things cell.0) (λ c. c.content ≡ None) }
        ensures { ForSome (thing self.old.things cell.0)
            (λ c. self.new ≡ with_thing self.old cell.0 (record c { content = Some content })) }
    {
        self.cells.get_mut(cell.0).content = Some(content);
    }

    /// What a cell holds: `None` where it is unset.
    pub fn content(&self, cell: CellId) -> Option<&T>
        requires { IsSome (thing self.now.things cell.0) }
        ensures { ForSome (thing self.now.things cell.0) (λ c. option_copied result ≡ c.content) }
    {
        self.cells.get(cell.0).unwrap().content.as_ref()
    }

    /// Whether a cell is set: `None` where no cell has this number.
    pub fn is_set(&self, cell: CellId) -> Option<bool>
        ensures { result ≡ option_map (λ c. is_some c.content) (thing self.now.things cell.0) }
    {
        match self.cells.get(cell.0) {
            Some(found) => Some(found.content.is_some()),
            None => None,
        }
    }

    /// Adds a waiter behind the others of a cell. Where there is no memory, nothing changes.
    pub fn add_waiter(&mut self, cell: CellId, waiter: Waiter) -> Result<(), NoMemory>
        requires { IsSome (thing self.old.things cell.0) }
        ensures ok { ForSome (thing self.old.things cell.0)
            (λ c. OnOk result (self.new ≡ with_thing self.old cell.0
            (record c { waiters = c.waiters ++ waiter ∷ [] }))) }
        ensures err { OnErr result (self.new ≡ self.old) }
    {
        let entry = self.cells.get_mut(cell.0);
        self.lists.enter(&mut entry.waiters, cell, waiter)?;
        Ok(())
    }

    /// Whether a waiter waits at a cell; nobody waits where no cell has this number.
    pub fn waits(&self, cell: CellId, waiter: Waiter) -> bool
        ensures { result ≡ waits_at (thing self.now.things cell.0) waiter }
    {
        match self.cells.get(cell.0) {
            Some(found) => self.lists.has(&found.waiters, cell, waiter),
            None => false,
        }
    }

    /// Removes a waiter that waits at a cell, in constant time; the newest, where it waits there more than once.
    pub fn remove_waiter(&mut self, cell: CellId, waiter: Waiter)
        requires there { IsSome (thing self.old.things cell.0) }
        requires waits { ForSome (thing self.old.things cell.0)
            (λ c. has_waiter c.waiters waiter ≡ true) }
        ensures { ForSome (thing self.old.things cell.0)
            (λ c. self.new ≡ with_thing self.old cell.0
            (record c { waiters = without_newest c.waiters waiter })) }
    {
        let entry = self.cells.get_mut(cell.0);
        self.lists.exit(&mut entry.waiters, cell, waiter);
    }

    /// The waiter of a cell at a place from 0, the oldest first: `None` past the last.
    pub fn waiter_at(&self, cell: CellId, place: usize) -> Option<Waiter>
        requires { IsSome (thing self.now.things cell.0) }
        ensures { ForSome (thing self.now.things cell.0) (λ c. result ≡ slice_get c.waiters place) }
    {
        let found = self.cells.get(cell.0).unwrap();
        self.lists.at(&found.waiters, place)
    }

    /// The oldest waiter of a cell: `None` where nobody waits.
    pub fn first_waiter(&self, cell: CellId) -> Option<Waiter>
        requires { IsSome (thing self.now.things cell.0) }
        ensures { ForSome (thing self.now.things cell.0) (λ c. result ≡ slice_get c.waiters 0) }
    {
        self.waiter_at(cell, 0)
    }

    /// The least number above this one that a cell has, in constant time where a cell has this one.
    pub fn next_cell(&self, after: CellId) -> Option<CellId>
        ensures { option_map (λ c. c.0) result ≡ next_above self.now.things after.0 }
    {
        self.cells.next_above(after.0).map(CellId)
    }

    /// Removes a cell without a reference and without a waiter, and gives what it held: `None` where it was unset.
    pub fn remove(&mut self, cell: CellId) -> Option<T>
        requires there { IsSome (thing self.old.things cell.0) }
        requires references { ForSome (thing self.old.things cell.0)
            (λ c. c.references ≡ no_counts) }
        requires waiters { ForSome (thing self.old.things cell.0) (λ c. c.waiters ≡ []) }
        ensures content { ForSome (thing self.old.things cell.0) (λ c. result ≡ c.content) }
        ensures rest { self.new ≡ record self.old { things = removed self.old.things cell.0 } }
    {
        let Cell {
            content,
            references: _,
            waiters: _,
        } = self.cells.remove(cell.0);
        content
    }

    /// The greatest number with which a cell was made, 0 at first.
    pub fn greatest(&self) -> u64
        ensures { result ≡ self.now.greatest }
    {
        self.cells.greatest()
    }

    /// Removes all cells. The greatest number stays.
    pub fn clear(&mut self)
    where
        T: Drop,
        ensures { self.new ≡ record self.old { things = [] } }
    {
        self.cells.clear();
        self.lists.clear();
    }
}
