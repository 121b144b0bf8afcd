//! Drawn words: the numbers that decide delays, losses and cuts in a simulated world. They come from
//! a list, and past its end from a generator, so that a world file fixes each of them. Each is asked for by a call that says
//! what for.
#![tactic(auto)]

pub mod question;

ghost use Rattle.std.specs.Prelude.{◌≡◌, ◌+◌, ◌^◌, ◌<◌, ◌≤◌, ◌%◌, pos, ◌+ℤ◌, ◌≤ℤ◌, ◌<ℤ◌, [], ◌∷◌, IfOk, nat_lt};
ghost use Rattle.flow_draw.specs.declared.question.Question.TheVariants.{Among, Loses};
ghost use Rattle.flow_draw.specs.Words.{drawn_from, next_word, noted_in, asked, scaled};

use crate::question::Question;
use flow_base::memory::NoMemory;
use rand_core::utils::NextWord;
use rand_pcg::Lcg64Xsh32;
use std::alloc::Global;
use std::marker::Model;

/// The stream of the generator, whichever its seed.
const STREAM: u64 = 54;

/// How many words there are.
const WORDS: u64 = 1 << 32;

/// A source of 32-bit words. The first are the listed ones in their order, the others the outputs of
/// `Lcg64Xsh32::new(seed, 54)` from its first on. It notes what the first words were asked for, as many as it has room for.
/// Contracts see the seed, the list, how many words were taken, the room, and what was noted.
#[derive(Drop)]
pub struct Draws {
    seed: u64,
    listed: Vec<u32>,
    used: u64,
    generator: Lcg64Xsh32,
    room: usize,
    noted: Vec<Question>,
}

impl Model for Draws {
    ghost use Rattle.std.specs.Prelude.{◌≡◌, ◌-◌, ◌≤◌, length, vec_capacity};
    ghost use Rattle.rand_pcg.specs.Lcg.{advance};
    ghost use Rattle.rand_pcg.specs.Pcg.{multiplier_64};
    ghost use Rattle.flow_draw.specs.Words.{Drawn, generator_of};

    ghost Value = { Drawn };

    ghost view = { λ d. record {
      seed = d.seed;
      listed = d.listed.items;
      used = d.used;
      room = d.room;
      noted = d.noted.items;
    } };

    ghost invariant = { λ d. (d.generator
        ≡ advance 64 multiplier_64 (d.used - length d.listed.items) (generator_of d.seed))
        × (length d.noted.items ≤ d.room) × (d.room ≤ vec_capacity d.noted) };
}

impl Draws {
    /// The words of this seed and list, none of them taken, without room for notes.
    pub fn new(alloc: Global, seed: u64, words: Vec<u32>) -> Draws
        ensures { result ≡ drawn_from seed words.items 0 }
    {
        Draws::at(alloc, seed, words, 0)
    }

    /// The words of this seed and list after the first `used`, at most 2^62, were taken, without room for notes.
    pub fn at(alloc: Global, seed: u64, words: Vec<u32>, used: u64) -> Draws
        requires { used ≤ 2 ^ 62 }
        ensures { result ≡ drawn_from seed words.items used }
    {
        let mut generator = Lcg64Xsh32::new(seed, STREAM);
        generator.advance(used.saturating_sub(words.len() as u64));
        Draws {
            seed,
            listed: words,
            used,
            generator,
            room: 0,
            noted: Vec::new(alloc),
        }
    }

    /// The words of this seed and list, none of them taken, with room for so many notes.
    pub fn noting(alloc: Global, seed: u64, words: Vec<u32>, room: usize) -> Result<Draws, NoMemory>
        ensures { IfOk result (λ d. d ≡ record (drawn_from seed words.items 0) { room = room }) }
    {
        let noted = Vec::with_capacity(alloc, room)?;
        Ok(Draws {
            room,
            noted,
            ..Draws::new(alloc, seed, words)
        })
    }

    /// Takes the next word. The number of words taken stays below 2^63.
    pub fn next(&mut self) -> u32
        requires { self.old.used + 1 < 2 ^ 63 }
        ensures word { result ≡ next_word self.old }
        ensures taken { self.new ≡ asked self.old (Among (2 ^ 32) ∷ []) }
    {
        self.word_for(Question::Among(WORDS))
    }

    /// One of `width` numbers from 0, of which there are 1 to 2^32: the rest of the next word.
    pub fn below(&mut self, width: u64) -> u64
        requires some { 1 ≤ width }
        requires few { width ≤ 2 ^ 32 }
        requires room { self.old.used + 1 < 2 ^ 63 }
        ensures number { result ≡ next_word self.old % width }
        ensures below { result < width }
        ensures taken { self.new ≡ asked self.old (Among width ∷ []) }
    {
        u64::from(self.word_for(Question::Among(width))) % width
    }

    /// Whether a packet is lost, of which so many in 1,000 are: whether the rest of the next word by 1,000 is below that.
    pub fn loses(&mut self, permille: u16) -> bool
        requires { self.old.used + 1 < 2 ^ 63 }
        ensures lost { result ≡ nat_lt (next_word self.old % 1000) permille }
        ensures taken { self.new ≡ asked self.old (Loses permille ∷ []) }
    {
        self.word_for(Question::Loses(permille)) % 1000 < u32::from(permille)
    }

    /// Takes the next word, and gives `lo` plus the rest of that word divided by `width`: one of the
    /// `width` numbers from `lo` on, of which there are 1 to 2^32.
    pub fn in_range(&mut self, lo: i64, width: u64) -> i64
        requires some { 1 ≤ width }
        requires few { width ≤ 2 ^ 32 }
        requires fits { (lo +ℤ pos width) ≤ℤ pos (2 ^ 63) }
        requires room { self.old.used + 1 < 2 ^ 63 }
        ensures number { result ≡ scaled lo width (next_word self.old) }
        ensures from { lo ≤ℤ result }
        ensures below { result <ℤ (lo +ℤ pos width) }
        ensures taken { self.new ≡ asked self.old (Among width ∷ []) }
    {
        lo + self.below(width) as i64
    }

    /// How many words were taken.
    pub fn used(&self) -> u64
        ensures { result ≡ self.now.used }
    {
        self.used
    }

    /// How many notes there is room for in all.
    pub fn room(&self) -> usize
        ensures { result ≡ self.now.room }
    {
        self.room
    }

    /// What the first words were asked for, as many as there was room for.
    pub fn noted(&self) -> &[Question]
        ensures { result.now ≡ self.now.noted }
    {
        &self.noted
    }

    // The next word, which is asked for this.
    fn word_for(&mut self, question: Question) -> u32
        requires { self.old.used + 1 < 2 ^ 63 }
        ensures word { result ≡ next_word self.old }
        ensures taken { self.new ≡ asked self.old (question ∷ []) }
    {
        self.note(question);
        self.word()
    }

    // The question is noted where there is room.
    fn note(&mut self, question: Question)
        ensures { let noted = noted_in self.old.room self.old.noted question in
            self.new ≡ record self.old { noted = noted } }
    {
        if self.noted.len() < self.room {
            self.noted.push_reserved(question);
        }
    }

    // The next word. Nothing is noted.
    fn word(&mut self) -> u32
        requires { self.old.used + 1 < 2 ^ 63 }
        ensures word { result ≡ next_word self.old }
        ensures taken { self.new ≡ record self.old { used = self.old.used + 1 } }
    {
        if self.used < self.listed.len() as u64 {
            let word = self.listed[self.used as usize];
            self.used += 1;
            return word;
        }
        let word = self.generator.next_word();
        self.used += 1;
        word
    }
}
