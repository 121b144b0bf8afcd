// Frames by number.

ghost use Rattle.std.specs.Prelude.{◌≡◌, ◌<◌, max, length, IsSome, is_some, OnOk, OnErr, IfOk, option_copied, option_map, slice_index_or, Some, None, true, []};
ghost use Rattle.std.specs.Option.{ForSome};
ghost use Rattle.flow_numbered.specs.Numbered.{thing, added, removed, next_above, with_thing, IsRising};
ghost use Rattle.flow_frame.specs.Frames.{fresh, holding, IsFilled, in_state, with_place, with_callback, first_held, other_held, all_empty, standing_of, held_in};

use crate::frame::Frame;
use crate::held::Held;
use crate::standing::Standing;
use flow_base::ids::ActorId;
use flow_base::memory::NoMemory;
use flow_numbered::numbered::Numbered;
use std::alloc::Global;
use std::marker::Model;

/// The frames of unfinished actors. Contracts see the list of numbers and frames, by rising number, and the greatest
/// number that was ever entered, 0 at first.
#[derive(Drop)]
pub struct Frames<T> {
    frames: Numbered<Frame<T>>,
    alloc: Global,
}

impl<T> Model for Frames<T> {
    ghost use Rattle.flow_numbered.specs.Numbered.{Store, store_code};
    ghost use Rattle.flow_frame.specs.Frames.{FrameTree, frame_code};

    ghost Value = { Store (FrameTree T) };

    ghost coded = { store_code (frame_code T.code) };

    ghost view = { λ s. s.frames };
}

impl<T> Frames<T> {
    /// No frame, and no number entered.
    pub fn new(alloc: Global) -> Result<Frames<T>, NoMemory>
        ensures { IfOk result (λ s. s ≡ record { things = []; greatest = 0 }) }
    {
        Ok(Frames {
            frames: Numbered::new(alloc),
            alloc,
        })
    }

    /// A frame of a class for an actor above all that were entered: in state 0, at block 0 and instruction 0, with
    /// so many empty places and no callback. Where there is no memory, nothing changes.
    pub fn enter(&mut self, actor: ActorId, class: u32, places: u32) -> Result<(), NoMemory>
    where
        T: Drop,
        requires { self.old.greatest < actor.0 }
        ensures ok { OnOk result (self.new ≡ record {
          things = added self.old.things actor.0 (fresh class places);
          greatest = actor.0;
        }) }
        ensures err { OnErr result (self.new ≡ self.old) }
    {
        self.frames
            .insert(actor.0, Frame::new(self.alloc, class, places))
    }

    /// The same, but the first places of the frame hold these.
    pub fn enter_holding(
        &mut self,
        actor: ActorId,
        class: u32,
        places: u32,
        filled: Vec<Option<T>>,
    ) -> Result<(), NoMemory>
    where
        T: Drop,
        requires { self.old.greatest < actor.0 }
        ensures ok { OnOk result (self.new ≡ record {
          things = added self.old.things actor.0 (holding class places filled.items);
          greatest = actor.0;
        }) }
        ensures err { OnErr result (self.new ≡ self.old) }
    {
        self.frames
            .insert(actor.0, Frame::holding(self.alloc, class, places, filled))
    }

    /// What the first places of the frame of an actor hold; those behind hold nothing. Empty where it has no frame.
    pub fn places_held(&self, actor: ActorId) -> &[Option<T>]
        ensures { IsFilled (thing self.now.things actor.0) result.now }
    {
        match self.frames.get(actor.0) {
            Some(frame) => frame.filled(),
            None => &[],
        }
    }

    /// Whether an actor has a frame.
    pub fn contains(&self, actor: ActorId) -> bool
        ensures { result ≡ is_some (thing self.now.things actor.0) }
    {
        self.frames.contains(actor.0)
    }

    // The frame of an actor.
    fn frame(&self, actor: ActorId) -> &Frame<T>
        requires { IsSome (thing self.now.things actor.0) }
        ensures { thing self.now.things actor.0 ≡ Some result.now }
    {
        self.frames.get(actor.0).unwrap()
    }

    /// What a place of a frame holds: `None` where it is empty.
    pub fn slot(&self, actor: ActorId, place: u32) -> Option<&T>
        requires there { IsSome (thing self.now.things actor.0) }
        requires place { ForSome (thing self.now.things actor.0) (λ f. place < length f.places) }
        ensures { ForSome (thing self.now.things actor.0)
            (λ f. option_copied result ≡ slice_index_or f.places place None) }
    {
        self.frame(actor).place(place)
    }

    /// What a place of the frame of an actor holds: `None` where it is empty, or there is no such frame or place.
    pub fn held(&self, actor: ActorId, place: u32) -> Option<&T>
        ensures { option_copied result ≡ held_in place (thing self.now.things actor.0) }
    {
        match self.frames.get(actor.0) {
            Some(frame) => frame.held(place),
            None => None,
        }
    }

    #[tactic(auto, using(flow_numbered::proofs::Things::with_same))]
    /// Has a place of a frame hold something or nothing, and gives what it held: `None` where it was empty. Where
    /// there is no memory, nothing changes.
    pub fn set_slot(
        &mut self,
        actor: ActorId,
        place: u32,
        value: Option<T>,
    ) -> Result<Option<T>, NoMemory>
    where
        T: Drop,
        requires there { IsSome (thing self.old.things actor.0) }
        requires place { ForSome (thing self.old.things actor.0) (λ f. place < length f.places) }
        ensures old { ForSome (thing self.old.things actor.0)
            (λ f. IfOk result (λ old. old ≡ slice_index_or f.places place None)) }
        ensures ok { ForSome (thing self.old.things actor.0)
            (λ f. OnOk result (self.new ≡ with_thing self.old actor.0 (with_place f place value))) }
        ensures err { OnErr result (self.new ≡ self.old) }
    {
        self.frames.get_mut(actor.0).set_place(place, value)
    }

    /// Where the frame of an actor stands: `None` where it has none.
    pub fn standing(&self, actor: ActorId) -> Option<Standing>
        ensures { result ≡ option_map standing_of (thing self.now.things actor.0) }
    {
        match self.frames.get(actor.0) {
            Some(frame) => Some(frame.standing()),
            None => None,
        }
    }

    /// The count of places that the frame of an actor was entered with: `None` where it has none.
    pub fn places_of(&self, actor: ActorId) -> Option<u32>
        ensures { result ≡ option_map (λ f. length f.places) (thing self.now.things actor.0) }
    {
        match self.frames.get(actor.0) {
            Some(frame) => Some(frame.places()),
            None => None,
        }
    }

    /// The class that the frame was entered with.
    pub fn class(&self, actor: ActorId) -> u32
        requires { IsSome (thing self.now.things actor.0) }
        ensures { ForSome (thing self.now.things actor.0) (λ f. result ≡ f.class) }
    {
        self.frame(actor).class()
    }

    /// The count of places that the frame was entered with.
    pub fn places(&self, actor: ActorId) -> u32
        requires { IsSome (thing self.now.things actor.0) }
        ensures { ForSome (thing self.now.things actor.0) (λ f. result ≡ length f.places) }
    {
        self.frame(actor).places()
    }

    /// Whether every place of a frame is empty.
    pub fn is_empty(&self, actor: ActorId) -> bool
        requires { IsSome (thing self.now.things actor.0) }
        ensures { ForSome (thing self.now.things actor.0) (λ f. result ≡ all_empty f.places) }
    {
        self.frame(actor).is_empty()
    }

    /// The least number above this one that a frame has, in constant time where a frame has this one.
    pub fn next_actor(&self, after: ActorId) -> Option<ActorId>
        ensures value { option_map (λ a. a.0) result ≡ next_above self.now.things after.0 }
        ensures rising { IsRising 0 self.now.things self.now.greatest }
    {
        self.frames.next_above(after.0).map(ActorId)
    }

    /// The state of a frame: 0 while its actor runs.
    pub fn state(&self, actor: ActorId) -> u32
        requires { IsSome (thing self.now.things actor.0) }
        ensures { ForSome (thing self.now.things actor.0) (λ f. result ≡ f.state) }
    {
        self.frame(actor).state()
    }

    /// Puts a frame into a state. In one other than 0 it stands at block 0 and instruction 0.
    pub fn set_state(&mut self, actor: ActorId, state: u32)
    where
        T: Drop,
        requires { IsSome (thing self.old.things actor.0) }
        ensures { ForSome (thing self.old.things actor.0)
            (λ f. self.new ≡ with_thing self.old actor.0 (in_state state f)) }
    {
        self.frames.get_mut(actor.0).set_state(state);
    }

    /// The block and the instruction at which a frame stands.
    pub fn at(&self, actor: ActorId) -> (u32, u32)
        requires { IsSome (thing self.now.things actor.0) }
        ensures { ForSome (thing self.now.things actor.0) (λ f. result ≡ (f.block, f.instruction)) }
    {
        self.frame(actor).at()
    }

    /// Puts a frame in state 0 at a block and an instruction.
    pub fn set_at(&mut self, actor: ActorId, at: (u32, u32))
        requires there { IsSome (thing self.old.things actor.0) }
        requires state { ForSome (thing self.old.things actor.0) (λ f. f.state ≡ 0) }
        ensures { ForSome (thing self.old.things actor.0)
            (λ f. self.new ≡ with_thing self.old actor.0
            (record f { block = at.0; instruction = at.1 })) }
    {
        self.frames.get_mut(actor.0).set_at(at);
    }

    /// Puts a frame into state 0 at a block and an instruction.
    pub fn go(&mut self, actor: ActorId, at: (u32, u32))
    where
        T: Drop,
        requires { IsSome (thing self.old.things actor.0) }
        ensures { ForSome (thing self.old.things actor.0)
            (λ f. self.new ≡ with_thing self.old actor.0
            (record f { state = 0; block = at.0; instruction = at.1 })) }
    {
        let frame = self.frames.get_mut(actor.0);
        frame.set_state(0);
        frame.set_at(at);
    }

    /// The callbacks of a frame, the first first.
    pub fn callbacks(&self, actor: ActorId) -> &[Held]
        requires { IsSome (thing self.now.things actor.0) }
        ensures { ForSome (thing self.now.things actor.0) (λ f. result.now ≡ f.callbacks) }
    {
        self.frame(actor).callbacks()
    }

    #[tactic(auto, using(flow_numbered::proofs::Things::with_same))]
    /// Adds a callback behind the others of a frame. Where there is no memory, nothing changes.
    pub fn add_callback(&mut self, actor: ActorId, held: Held) -> Result<(), NoMemory>
        requires { IsSome (thing self.old.things actor.0) }
        ensures ok { ForSome (thing self.old.things actor.0)
            (λ f. OnOk result (self.new ≡ with_thing self.old actor.0 (with_callback f held))) }
        ensures err { OnErr result (self.new ≡ self.old) }
    {
        self.frames.get_mut(actor.0).add_callback(held)
    }

    /// Takes all callbacks of a frame, the first first.
    pub fn take_callbacks(&mut self, actor: ActorId) -> Vec<Held>
        requires { IsSome (thing self.old.things actor.0) }
        ensures all { ForSome (thing self.old.things actor.0) (λ f. result.items ≡ f.callbacks) }
        ensures rest { ForSome (thing self.old.things actor.0)
            (λ f. self.new ≡ with_thing self.old actor.0 (record f { callbacks = [] })) }
    {
        let alloc = self.alloc;
        self.frames.get_mut(actor.0).take_callbacks(alloc)
    }

    #[tactic(auto, using(flow_numbered::proofs::Things::with_same))]
    /// Has a frame that has no callback keep room for some. Nothing happens where there is no such frame.
    pub fn keep_room(&mut self, actor: ActorId, room: Vec<Held>)
        ensures { self.new ≡ self.old }
    {
        if self.frames.contains(actor.0) {
            self.frames.get_mut(actor.0).keep_room(room);
        }
    }

    /// Takes the first callback of a frame: `None` where there is none.
    pub fn take_callback(&mut self, actor: ActorId) -> Option<Held>
        requires { IsSome (thing self.old.things actor.0) }
        ensures first { ForSome (thing self.old.things actor.0)
            (λ f. result ≡ first_held f.callbacks) }
        ensures rest { ForSome (thing self.old.things actor.0)
            (λ f. self.new ≡ with_thing self.old actor.0
            (record f { callbacks = other_held f.callbacks })) }
    {
        self.frames.get_mut(actor.0).take_callback()
    }

    /// Removes a frame whose places are empty and that has no callback.
    pub fn close(&mut self, actor: ActorId)
    where
        T: Drop,
        requires there { IsSome (thing self.old.things actor.0) }
        requires places { ForSome (thing self.old.things actor.0) (λ f. all_empty f.places ≡ true) }
        requires callbacks { ForSome (thing self.old.things actor.0) (λ f. f.callbacks ≡ []) }
        ensures { self.new ≡ record self.old { things = removed self.old.things actor.0 } }
    {
        self.frames.remove(actor.0);
    }

    /// Actors with numbers up to this one count as entered.
    pub fn skip_to(&mut self, actor: ActorId)
        ensures skipped { self.new ≡ record self.old { greatest = max self.old.greatest actor.0 } }
        ensures rising { IsRising 0 self.new.things self.new.greatest }
    {
        self.frames.skip_to(actor.0);
    }

    /// The greatest number with which an actor was entered, or that was skipped, 0 at first.
    pub fn greatest(&self) -> u64
        ensures { result ≡ self.now.greatest }
    {
        self.frames.greatest()
    }

    /// Removes all frames. The greatest number stays.
    pub fn clear(&mut self)
    where
        T: Drop,
        ensures { self.new ≡ record self.old { things = [] } }
    {
        self.frames.clear();
    }
}
