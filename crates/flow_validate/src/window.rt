// 64 places that are followed together through a class, one bit each.

ghost use Rattle.std.specs.Prelude.{◌≡◌, ◌<◌, ◌+◌, ℕ, not, nat_le, nat_eq};
ghost use Rattle.flow_class.specs.declared.class.Slotted as place;
ghost use Rattle.flow_valid.specs.Filling.{same_place, is_local, dropped};
ghost use Rattle.flow_validate.specs.Apart.{is_parameter_of};
ghost use Rattle.flow_validate.specs.Following.{AreBits, ArePassing, Passing, touched, passed, has_bit};

use crate::touch::Touch;
use flow_class::class::Slotted;

/// 64 locals or slots, from the first on.
#[derive(Clone, Copy)]
pub struct Window {
    pub locals: bool,
    pub first: u64,
}

/// Places on the way through a block, one bit each: those that are empty, those that were empty where an error may have been
/// thrown, and those that were read while they were empty.
#[derive(Clone, Copy, PartialEq, Eq)]
pub struct Passage {
    pub empty: u64,
    pub thrown: u64,
    pub misread: u64,
}

// The bit of a number, where 64 numbers from the first on have one.
fn bit_from(first: u64, number: u32) -> u64
    ensures { (j : ℕ) → j < 64 → has_bit result j ≡ nat_eq number (first + j) }
{
    match u64::from(number).checked_sub(first) {
        Some(bit) if bit < 64 => 1 << bit,
        Some(_) => 0,
        None => 0,
    }
}

// The bits of the numbers from a number on, where 64 numbers from the first on have one.
fn bits_from(first: u64, number: u32) -> u64
    ensures { (j : ℕ) → j < 64 → has_bit result j ≡ nat_le number (first + j) }
{
    match u64::from(number).checked_sub(first) {
        Some(bit) if bit < 64 => !((1 << bit) - 1),
        Some(_) => 0,
        None => u64::MAX,
    }
}

impl Window {
    /// The bit of a place, if it is one of these.
    pub fn bit(self, place: Slotted) -> u64
        ensures { AreBits self result (same_place place) }
    {
        match place {
            Slotted::Slot(number) if !self.locals => bit_from(self.first, number),
            Slotted::Local(number) if self.locals => bit_from(self.first, number),
            Slotted::Slot(_) => 0,
            Slotted::Local(_) => 0,
        }
    }

    /// The bits of all locals.
    pub fn all_locals(self) -> u64
        ensures { AreBits self result is_local }
    {
        if self.locals { u64::MAX } else { 0 }
    }

    /// The bits of the places that are no parameters, where there are so many.
    pub fn without(self, params: u32) -> u64
        ensures { AreBits self result (λ p. not (is_parameter_of params p)) }
    {
        if self.locals {
            u64::MAX
        } else {
            bits_from(self.first, params)
        }
    }

    /// The bits of these locals.
    pub fn locals_among(self, numbers: &[u32]) -> u64
        ensures { AreBits self result (dropped numbers.now) }
    {
        let mut bits = 0;
        for number in numbers {
            bits |= self.bit(Slotted::Local(*number));
        }
        bits
    }
}

impl Passage {
    /// Where these places are empty, and nothing has happened.
    pub fn entering(empty: u64) -> Passage
        ensures { result ≡ record { empty = empty; thrown = 0; misread = 0 } }
    {
        Passage {
            empty,
            thrown: 0,
            misread: 0,
        }
    }

    // One more touch.
    fn touched(self, window: Window, touch: Touch) -> Passage
        ensures { (s : place.Slotted → Passing) → ArePassing window self s
            → ArePassing window result (λ p. touched p touch (s p)) }
    {
        match touch {
            Touch::Throws => Passage {
                thrown: self.thrown | self.empty,
                ..self
            },
            Touch::Reads(place) => Passage {
                misread: self.misread | (self.empty & window.bit(place)),
                ..self
            },
            Touch::Fills(place) => Passage {
                empty: self.empty & !window.bit(place),
                ..self
            },
            Touch::Empties(number) => Passage {
                empty: self.empty | window.bit(Slotted::Local(number)),
                ..self
            },
            Touch::Waits => Passage {
                empty: self.empty | window.all_locals(),
                ..self
            },
        }
    }

    /// All these touches, one after another.
    pub fn through(self, window: Window, touches: &[Touch]) -> Passage
        ensures { (s : place.Slotted → Passing) → ArePassing window self s
            → ArePassing window result (λ p. passed p touches.now (s p)) }
    {
        let mut passage = self;
        for touch in touches {
            passage = passage.touched(window, *touch);
        }
        passage
    }
}
