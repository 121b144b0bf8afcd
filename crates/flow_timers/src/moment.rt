// The events of one time.

ghost use Rattle.std.specs.Prelude.{◌≤◌, ◌<◌, ◌≡◌, ◌∷◌, [], List, ◌++◌, map, OnErr, OnOk, IfOk, IfNone, IfSome, option_map, length, filter, ◌==◌};
ghost use Rattle.std.specs.List.Sorted.{IsPartitionPoint};
ghost use Rattle.flow_timers.specs.Moments.{numbered, event_numbered, without_numbered, first_number, at_time, pending_of};

use crate::keeps::Keeps;
use flow_base::memory::NoMemory;
use std::alloc::Global;
use std::collections::VecDeque;
use std::marker::Model;

/// An event with its number.
#[derive(Drop)]
pub struct Event<T> {
    pub number: u64,
    pub what: T,
}

/// The events of one time, in the order of their numbers. Contracts see the list of them.
#[derive(Drop)]
pub struct Moment<T> {
    events: VecDeque<Event<T>>,
}

impl<T> Model for Moment<T> {
    ghost use Rattle.std.specs.Prelude.{List};
    ghost use Rattle.std.specs.List.Sorted.{IsNonDecreasingBy};
    ghost use Rattle.flow_timers.specs.declared.moment.Event.{Event};

    ghost Value = { List (Event T) };

    ghost view = { λ m. m.events.items };

    ghost invariant = { λ m. IsNonDecreasingBy (λ e. e.number) m.events.items };
}

impl<T: Drop> Moment<T> {
    /// One event.
    pub fn only(alloc: Global, number: u64, what: T) -> Result<Moment<T>, NoMemory>
        ensures { IfOk result (λ m. m ≡ record { number = number; what = what } ∷ []) }
    {
        let mut events = VecDeque::new(alloc);
        events.push_back(Event { number, what })?;
        Ok(Moment { events })
    }

    /// Puts an event in the place of its number. Unchanged on an error.
    pub fn place(&mut self, number: u64, what: T) -> Result<(), NoMemory>
        ensures placed { OnOk result (self.new ≡ numbered
            (record { number = number; what = what }) self.old) }
        ensures unchanged { OnErr result (self.new ≡ self.old) }
    {
        let place = self.place_after(number);
        self.events.insert(place, Event { number, what })?;
        Ok(())
    }

    /// How many events have a number up to this: mostly all of them, which only the last one is asked for.
    fn place_after(&self, number: u64) -> usize
        ensures bound { result ≤ length self.now }
        ensures place { IsPartitionPoint (λ e. e.number ≤ number) (λ e. number < e.number) self.now
            result }
    {
        let Some(last) = self.events.back() else {
            return 0;
        };
        if last.number <= number {
            return self.events.len();
        }
        self.search_after(number)
    }

    /// Keeps those events of which the test says so.
    pub fn retain<K: Keeps<T>>(&mut self, test: &K)
        ensures { self.new ≡ filter (λ e. K.keeps test.now e.what) self.old }
    {
        self.events.retain(|event| test.keeps(&event.what));
    }

    // How many events have a number up to this.
    fn search_after(&self, number: u64) -> usize
        ensures bound { result ≤ length self.now }
        ensures place { IsPartitionPoint (λ e. e.number ≤ number) (λ e. number < e.number) self.now
            result }
    {
        self.events.partition_point(|event| event.number <= number)
    }
}

impl<T> Moment<T> {
    /// Takes out the first event of a number. `None`, and unchanged, exactly where there is none.
    pub fn take(&mut self, number: u64) -> Option<T>
        ensures what { result ≡ event_numbered number self.old }
        ensures left { self.new ≡ without_numbered number self.old }
    {
        let place = self.place_from(number);
        if place == self.events.len() {
            return None;
        }
        if self.events[place].number != number {
            return None;
        }
        let event = self.events.remove(place)?;
        Some(event.what)
    }

    /// How many events have a number below this: mostly none of them, which only the first one is asked for.
    fn place_from(&self, number: u64) -> usize
        ensures bound { result ≤ length self.now }
        ensures place { IsPartitionPoint (λ e. e.number < number) (λ e. number ≤ e.number) self.now
            result }
    {
        let Some(first) = self.events.front() else {
            return 0;
        };
        if number <= first.number {
            return 0;
        }
        self.search_from(number)
    }

    // How many events have a number below this.
    fn search_from(&self, number: u64) -> usize
        ensures bound { result ≤ length self.now }
        ensures place { IsPartitionPoint (λ e. e.number < number) (λ e. number ≤ e.number) self.now
            result }
    {
        self.events.partition_point(|event| event.number < number)
    }

    /// Whether there is none.
    pub fn is_empty(&self) -> bool
        ensures { result ≡ (length self.now == 0) }
    {
        self.events.is_empty()
    }

    /// The number of the first event.
    pub fn first(&self) -> Option<u64>
        ensures { result ≡ first_number self.now }
    {
        let event = self.events.front()?;
        Some(event.number)
    }

    /// Adds the events with their time to a list of entries.
    pub fn list<'a>(
        &'a self,
        time: u64,
        entries: &mut Vec<(u64, u64, &'a T)>,
    ) -> Result<(), NoMemory>
        ensures { let before = map pending_of entries.old.items in
            OnOk result (map pending_of entries.new.items ≡ before ++ map (at_time time) self.now) }
    {
        for event in self.events.iter() {
            entries.push((time, event.number, &event.what))?;
        }
        Ok(())
    }
}
