// One frame.

ghost use Rattle.std.specs.Prelude.{◌≡◌, ℕ, ◌<◌, ◌≤◌, length, OnOk, OnErr, IfOk, option_copied, slice_index_or, None, [], is_none, take};
ghost use Rattle.std.specs.List.{list_all};
ghost use Rattle.flow_frame.specs.Frames.{padded, fresh, holding, in_state, with_place, with_callback, first_held, other_held, all_empty, standing_of, held_at};

use crate::held::Held;
use crate::standing::Standing;
use flow_base::memory::NoMemory;
use std::alloc::Global;
use std::marker::Model;
use std::mem;

/// How many places get room at once.
const ROOM: usize = 8;

/// A frame. Only the places up to the last one that was filled, or a few more, stand in memory.
#[derive(Drop)]
pub(crate) struct Frame<T> {
    class: u32,
    state: u32,
    block: u32,
    instruction: u32,
    places: u32,
    filled: Vec<Option<T>>,
    callbacks: Vec<Held>,
}

impl<T> Model for Frame<T> {
    ghost use Rattle.flow_frame.specs.Frames.{FrameTree, padded, frame_code};

    ghost Value = { FrameTree T };

    ghost coded = { frame_code T.code };

    ghost view = { λ f. record {
      class = f.class;
      state = f.state;
      block = f.block;
      instruction = f.instruction;
      places = padded f.places f.filled.items;
      callbacks = f.callbacks.items;
    } };
}

#[tactic(auto, using(crate::proofs::Padded::more_padded))]
// Makes room for a place of so many, with nothing in it or in those before it that had no room.
fn reach<T: Drop>(filled: &mut Vec<Option<T>>, place: usize, places: usize) -> Result<(), NoMemory>
    ensures same { (places : ℕ) → padded places filled.new.items ≡ padded places filled.old.items }
    ensures ok { OnOk result (place < length filled.new.items) }
{
    if filled.capacity() <= place {
        let room = places.min(place.saturating_add(ROOM));
        filled.reserve_exact(room.saturating_sub(filled.len()))?;
    }
    while filled.len() <= place {
        filled.push(None)?;
    }
    Ok(())
}

#[tactic(auto, using(crate::proofs::Padded::more_padded))]
// Takes the empty places behind the last filled one off. Their room stays, since the actor fills some of them again when it
// goes on.
fn cut<T: Drop>(filled: &mut Vec<Option<T>>)
    ensures same { (places : ℕ) → padded places filled.new.items ≡ padded places filled.old.items }
{
    while let Some(None) = filled.last() {
        filled.pop();
    }
}

// Whether the first so many of these are empty.
fn are_empty<T>(filled: &[Option<T>], most: usize) -> bool
    ensures { result ≡ list_all is_none (take most filled.now) }
{
    filled.iter().take(most).all(|value| value.is_none())
}

impl<T> Frame<T> {
    /// A frame that begins: in state 0, at block 0 and instruction 0, with so many empty places and no callback.
    pub(crate) fn new(alloc: Global, class: u32, places: u32) -> Frame<T>
        ensures { result ≡ fresh class places }
    {
        Frame {
            class,
            state: 0,
            block: 0,
            instruction: 0,
            places,
            filled: Vec::new(alloc),
            callbacks: Vec::new(alloc),
        }
    }

    /// A frame that begins, of whose places the first hold these.
    pub(crate) fn holding(
        alloc: Global,
        class: u32,
        places: u32,
        filled: Vec<Option<T>>,
    ) -> Frame<T>
        ensures { result ≡ holding class places filled.items }
    {
        Frame {
            class,
            state: 0,
            block: 0,
            instruction: 0,
            places,
            filled,
            callbacks: Vec::new(alloc),
        }
    }

    #[tactic(auto, using(crate::proofs::Padded::length_padded, crate::proofs::Padded::front_padded, crate::proofs::Padded::front_short))]
    /// What its first places hold; those behind hold nothing.
    pub(crate) fn filled(&self) -> &[Option<T>]
        ensures places { padded (length self.now.places) result.now ≡ self.now.places }
        ensures count { length result.now ≤ length self.now.places }
    {
        let places = self.places as usize;
        if self.filled.len() > places {
            return &self.filled[..places];
        }
        &self.filled
    }

    #[tactic(auto, using(crate::proofs::Padded::at_padded, crate::proofs::Padded::length_padded))]
    /// What a place holds.
    pub(crate) fn place(&self, place: u32) -> Option<&T>
        requires { place < length self.now.places }
        ensures { option_copied result ≡ slice_index_or self.now.places place None }
    {
        match self.filled.get(place as usize) {
            Some(Some(value)) => Some(value),
            _ => None,
        }
    }

    #[tactic(auto, using(crate::proofs::Padded::length_padded))]
    /// What a place holds, if there is such a place.
    pub(crate) fn held(&self, place: u32) -> Option<&T>
        ensures { option_copied result ≡ held_at place self.now }
    {
        if place >= self.places {
            return None;
        }
        self.place(place)
    }

    #[tactic(auto, using(crate::proofs::Padded::at_padded, crate::proofs::Padded::length_padded, crate::proofs::Padded::set_padded, crate::proofs::Padded::past_padded, crate::proofs::Padded::unset_padded))]
    /// Has a place hold something or nothing, and gives what it held. Where there is no memory, nothing changes.
    pub(crate) fn set_place(&mut self, place: u32, value: Option<T>) -> Result<Option<T>, NoMemory>
    where
        T: Drop,
        requires { place < length self.old.places }
        ensures old { IfOk result (λ old. old ≡ slice_index_or self.old.places place None) }
        ensures ok { OnOk result (self.new ≡ with_place self.old place value) }
        ensures err { OnErr result (self.new ≡ self.old) }
    {
        let place = place as usize;
        if place >= self.filled.len() {
            if value.is_none() {
                return Ok(None);
            }
            reach(&mut self.filled, place, self.places as usize)?;
        }
        Ok(mem::replace(&mut self.filled[place], value))
    }

    pub(crate) fn standing(&self) -> Standing
        ensures { result ≡ standing_of self.now }
    {
        Standing {
            class: self.class,
            state: self.state,
            block: self.block,
            instruction: self.instruction,
        }
    }

    pub(crate) fn class(&self) -> u32
        ensures { result ≡ self.now.class }
    {
        self.class
    }

    #[tactic(auto, using(crate::proofs::Padded::length_padded))]
    /// How many places it has.
    pub(crate) fn places(&self) -> u32
        ensures { result ≡ length self.now.places }
    {
        self.places
    }

    #[tactic(auto, using(crate::proofs::Padded::empty_padded))]
    /// Whether every place is empty.
    pub(crate) fn is_empty(&self) -> bool
        ensures { result ≡ all_empty self.now.places }
    {
        are_empty(&self.filled, self.places as usize)
    }

    pub(crate) fn state(&self) -> u32
        ensures { result ≡ self.now.state }
    {
        self.state
    }

    /// Puts it into a state. In one other than 0 it stands at block 0 and instruction 0.
    pub(crate) fn set_state(&mut self, state: u32)
    where
        T: Drop,
        ensures { self.new ≡ in_state state self.old }
    {
        self.state = state;
        if state == 0 {
            return;
        }
        self.block = 0;
        self.instruction = 0;
        cut(&mut self.filled);
    }

    /// The block and the instruction at which it stands.
    pub(crate) fn at(&self) -> (u32, u32)
        ensures { result ≡ (self.now.block, self.now.instruction) }
    {
        (self.block, self.instruction)
    }

    pub(crate) fn set_at(&mut self, at: (u32, u32))
        ensures { self.new ≡ record self.old { block = at.0; instruction = at.1 } }
    {
        let (block, instruction) = at;
        self.block = block;
        self.instruction = instruction;
    }

    /// Its callbacks, the first first.
    pub(crate) fn callbacks(&self) -> &[Held]
        ensures { result.now ≡ self.now.callbacks }
    {
        &self.callbacks
    }

    /// Adds a callback behind the others. Where there is no memory, nothing changes.
    pub(crate) fn add_callback(&mut self, held: Held) -> Result<(), NoMemory>
        ensures ok { OnOk result (self.new ≡ with_callback self.old held) }
        ensures err { OnErr result (self.new ≡ self.old) }
    {
        if self.callbacks.is_empty() {
            self.callbacks.reserve_exact(1)?;
        }
        self.callbacks.push(held)?;
        Ok(())
    }

    /// Takes all callbacks, the first first.
    pub(crate) fn take_callbacks(&mut self, alloc: Global) -> Vec<Held>
        ensures all { result.items ≡ self.old.callbacks }
        ensures rest { self.new ≡ record self.old { callbacks = [] } }
    {
        mem::replace(&mut self.callbacks, Vec::new(alloc))
    }

    /// Keeps room for callbacks, where it has none and this holds none.
    pub(crate) fn keep_room(&mut self, room: Vec<Held>)
        ensures { self.new ≡ self.old }
    {
        if self.callbacks.is_empty() && room.is_empty() {
            self.callbacks = room;
        }
    }

    /// Takes the first callback, if there is one.
    pub(crate) fn take_callback(&mut self) -> Option<Held>
        ensures first { result ≡ first_held self.old.callbacks }
        ensures rest { self.new ≡ record self.old { callbacks = other_held self.old.callbacks } }
    {
        if self.callbacks.is_empty() {
            return None;
        }
        Some(self.callbacks.remove(0))
    }
}
