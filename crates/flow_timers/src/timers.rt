// Pending events, by time and number.

ghost use Rattle.std.specs.Prelude.{◌≡◌, ◌+◌, ◌<◌, ◌^◌, [], OnErr, OnOk, IfOk, map, filter};
ghost use Rattle.flow_timers.specs.Moments.{pending_of, event_of};
ghost use Rattle.flow_timers.specs.Pending.{no_events, with_event, placed, event_at, without_event, next_event, in_order, StandInOrder};

use crate::keeps::Keeps;
use crate::moment::Moment;
use flow_base::memory::NoMemory;
use std::alloc::Global;
use std::collections::BTreeMap;
use std::marker::Model;

/// Pending events, each at a time in ticks and with a number, the events being numbered from 1 in the order
/// of making. Contracts see how many were made and those that are pending, in the order in which they come:
/// by time, and at one time by number.
#[derive(Drop)]
pub struct Timers<T> {
    alloc: Global,
    made: u64,
    moments: BTreeMap<u64, Moment<T>>,
}

impl<T> Model for Timers<T> {
    ghost use Rattle.std.specs.Prelude.{List, [], ◌≢◌};
    ghost use Rattle.std.specs.List.{All};
    ghost use Rattle.flow_timers.specs.Pending.{Queue, StandInOrder};
    ghost use Rattle.flow_timers.specs.Moments.{events_of};

    ghost Value = { Queue T };

    ghost view = { λ t. record { made = t.made; pending = events_of t.moments.entries } };

    ghost invariant = { λ t.
        All (λ m. m.1 ≢ []) t.moments.entries × StandInOrder (events_of t.moments.entries) };
}

impl<T: Drop> Timers<T> {
    /// No events.
    pub fn new(alloc: Global) -> Result<Timers<T>, NoMemory>
        ensures { IfOk result (λ t. t ≡ no_events) }
    {
        Ok(Timers::none_of(alloc, 0))
    }

    /// No events, of which so many were made.
    fn none_of(alloc: Global, made: u64) -> Timers<T>
        ensures { result ≡ record { made = made; pending = [] } }
    {
        Timers {
            alloc,
            made,
            moments: BTreeMap::new(alloc),
        }
    }

    /// Makes an event at this time, and gives its number. Unchanged on an error.
    pub fn add(&mut self, time: u64, what: T) -> Result<u64, NoMemory>
        requires { self.old.made + 1 < 2 ^ 64 }
        ensures number { IfOk result (λ n. n ≡ self.old.made + 1) }
        ensures added { OnOk result (self.new ≡ with_event self.old time what) }
        ensures unchanged { OnErr result (self.new ≡ self.old) }
    {
        let number = self.made + 1;
        self.place(time, number, what)?;
        self.made = number;
        Ok(number)
    }

    /// Puts an event in its place. Unchanged on an error.
    fn place(&mut self, time: u64, number: u64, what: T) -> Result<(), NoMemory>
        ensures made { self.new.made ≡ self.old.made }
        ensures placed { OnOk result (self.new.pending ≡ placed
            (record { time = time; number = number; what = what }) self.old.pending) }
        ensures unchanged { OnErr result (self.new ≡ self.old) }
    {
        match self.moments.get_mut(&time) {
            Some(moment) => moment.place(number, what),
            None => {
                let moment = Moment::only(self.alloc, number, what)?;
                self.moments.insert(time, moment)?;
                Ok(())
            }
        }
    }

    /// Takes out the event of this time and number, and gives what happens at it. `None`, and unchanged,
    /// exactly where no such event is pending.
    pub fn remove(&mut self, time: u64, number: u64) -> Option<T>
        ensures what { result ≡ event_at time number self.old.pending }
        ensures left { let rest = without_event time number self.old.pending in
            self.new ≡ record self.old { pending = rest } }
    {
        let moment = self.moments.get_mut(&time)?;
        let what = moment.take(number)?;
        if moment.is_empty() {
            self.moments.remove(&time);
        }
        Some(what)
    }

    /// Keeps those pending events of which the test says so, by one walk over all.
    pub fn retain<K: Keeps<T>>(&mut self, test: &K)
        ensures { self.new ≡ record self.old {
          pending = filter (λ e. K.keeps test.now e.what) self.old.pending;
        } }
    {
        self.moments.retain(|_, moment| {
            moment.retain(test);
            !moment.is_empty()
        });
    }

    /// The queue with these events, in any order, of which so many were made: the next has the number after `made`.
    pub fn restore(
        alloc: Global,
        made: u64,
        entries: Vec<(u64, u64, T)>,
    ) -> Result<Timers<T>, NoMemory>
        ensures { IfOk result (λ t.
            t ≡ record { made = made; pending = in_order (map event_of entries.items) }) }
    {
        let mut timers = Timers::none_of(alloc, made);
        for (time, number, what) in entries {
            timers.place(time, number, what)?;
        }
        Ok(timers)
    }
}

impl<T> Timers<T> {
    /// How many events were made.
    pub fn made(&self) -> u64
        ensures { result ≡ self.now.made }
    {
        self.made
    }

    /// The time and number of the event that comes next: the least time, and at it the least number.
    /// `None` exactly where nothing is pending.
    pub fn first(&self) -> Option<(u64, u64)>
        ensures { result ≡ next_event self.now.pending }
    {
        let (time, moment) = self.moments.first_key_value()?;
        let number = moment.first()?;
        Some((*time, number))
    }

    /// Time, number and content of each pending event, in the order in which they come.
    pub fn entries(&self) -> Result<Vec<(u64, u64, &T)>, NoMemory>
        ensures all { IfOk result (λ es. map pending_of es.items ≡ self.now.pending) }
        ensures in_order { StandInOrder self.now.pending }
    {
        let mut entries = Vec::new(self.alloc);
        for (time, moment) in self.moments.iter() {
            moment.list(*time, &mut entries)?;
        }
        Ok(entries)
    }
}
