// Things by number.

ghost use Rattle.std.specs.Prelude.{◌≡◌, ℕ, ◌<◌, max, [], Some, None, IsSome, is_some, OnOk, OnErr, option_copied};
ghost use Rattle.std.specs.Borrow.{sem};
ghost use Rattle.flow_numbered.specs.Numbered.{thing, added, removed, next_above, IsRising};

use crate::rows::{Row, live_from, place_of, tidy};
use flow_base::memory::NoMemory;
use std::alloc::Global;
use std::marker::Model;

/// Things by number. Each is found by a search in logarithmic time, or at once where no number near it is missing;
/// the thing last added or lent for writing is found at once, since most look-ups are for it. Contracts see the list of numbers and
/// things, and the greatest number that was ever added, 0 at first.
#[derive(Drop)]
pub struct Numbered<V> {
    rows: Vec<Row<V>>,
    empty: usize,
    recent: usize,
    greatest: u64,
}

impl<V> Model for Numbered<V> {
    ghost use Rattle.flow_numbered.specs.Numbered.{Store, store_code};
    ghost use Rattle.flow_numbered.specs.Rows.{things_in, RowsRise};

    ghost Value = { Store V };

    ghost coded = { store_code V.code };

    ghost view = { λ s. record { things = things_in s.rows.items; greatest = s.greatest } };

    ghost invariant = { λ s. RowsRise 0 s.rows.items s.greatest };
}

impl<V> Numbered<V> {
    ghost use Rattle.flow_numbered.specs.Lending.{LendsThing};

    /// No thing, and no number given.
    pub fn new(alloc: Global) -> Numbered<V>
        ensures { result ≡ record { things = []; greatest = 0 } }
    {
        Numbered {
            rows: Vec::new(alloc),
            empty: 0,
            recent: 0,
            greatest: 0,
        }
    }

    /// Adds a thing with a number above all that were ever added. Where there is no memory, nothing changes.
    pub fn insert(&mut self, number: u64, value: V) -> Result<(), NoMemory>
    where
        V: Drop,
        requires { self.old.greatest < number }
        ensures ok { OnOk result (self.new
            ≡ record { things = added self.old.things number value; greatest = number }) }
        ensures err { OnErr result (self.new ≡ self.old) }
        ensures rising { IsRising 0 self.old.things self.old.greatest }
    {
        self.empty = tidy(&mut self.rows, self.empty);
        self.rows.push(Row {
            number,
            value: Some(value),
        })?;
        self.recent = self.rows.len().saturating_sub(1);
        self.greatest = number;
        Ok(())
    }

    /// The thing with a number, if there is one.
    pub fn get(&self, number: u64) -> Option<&V>
        ensures value { option_copied result ≡ thing self.now.things number }
        ensures rising { IsRising 0 self.now.things self.now.greatest }
    {
        let place = place_of(&self.rows, self.recent, number)?;
        self.rows[place].value.as_ref()
    }

    /// Whether there is a thing with a number.
    pub fn contains(&self, number: u64) -> bool
        ensures { result ≡ is_some (thing self.now.things number) }
    {
        self.get(number).is_some()
    }

    /// The thing with a number, which is there, for writing.
    pub fn get_mut(&mut self, number: u64) -> &mut V
        requires { IsSome (thing self.old.things number) }
        ensures* lends { sem 𝓛 (LendsThing V.row self.entry number result) }
        ensures value { thing self.old.things number ≡ Some result.now }
        ensures rising { IsRising 0 self.old.things self.old.greatest }
    {
        let place = place_of(&self.rows, self.recent, number).unwrap();
        self.recent = place;
        let row = &mut self.rows[place];
        match &mut row.value {
            Some(value) => value,
            None => unreachable!(),
        }
    }

    /// Removes the thing with a number, which is there.
    pub fn remove(&mut self, number: u64) -> V
        requires { IsSome (thing self.old.things number) }
        ensures value { thing self.old.things number ≡ Some result }
        ensures rest { self.new ≡ record self.old { things = removed self.old.things number } }
        ensures rising { IsRising 0 self.old.things self.old.greatest }
    {
        let place = place_of(&self.rows, self.recent, number).unwrap();
        self.empty = self.empty.saturating_add(1);
        self.rows[place].value.take().unwrap()
    }

    /// The least number above this one that a thing has.
    pub fn next_above(&self, number: u64) -> Option<u64>
        ensures value { result ≡ next_above self.now.things number }
        ensures rising { IsRising 0 self.now.things self.now.greatest }
    {
        let from = match place_of(&self.rows, self.recent, number) {
            Some(place) => place + 1,
            None => 0,
        };
        live_from(&self.rows, from, number)
    }

    /// Numbers up to this one count as given.
    pub fn skip_to(&mut self, number: u64)
        ensures skipped { self.new ≡ record self.old { greatest = max self.old.greatest number } }
        ensures rising { IsRising 0 self.new.things self.new.greatest }
    {
        self.greatest = self.greatest.max(number);
    }

    /// The greatest number that a thing ever had, or that was skipped, 0 at first.
    pub fn greatest(&self) -> u64
        ensures { result ≡ self.now.greatest }
    {
        self.greatest
    }

    /// Removes all things. The greatest number stays.
    pub fn clear(&mut self)
    where
        V: Drop,
        ensures { self.new ≡ record self.old { things = [] } }
    {
        self.rows.clear();
        self.empty = 0;
    }
}
