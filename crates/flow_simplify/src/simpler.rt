// Edits that make a world simpler.

ghost use Rattle.std.specs.Prelude.{◌≡◌, ◌<◌, ◌≤◌, length, IfOk};
ghost use Rattle.flow_worldfile.specs.Worlds.{IsInRange, seen};
ghost use Rattle.flow_simplify.specs.Fewer.{one_place_less};
ghost use Rattle.flow_simplify.specs.Simpler.{edited, made_common, place_of, simpler, uncommon, weight};

use crate::pinning::with_words;
use flow_base::memory::NoMemory;
use flow_shrink::{Edits, LineGoes};
use flow_worldfile::World0;
use std::alloc::Global;

/// A line of the script goes, or a word that isn't the common one becomes it. The words' places come first, so that in a pass from the
/// last place to the first the lines are tried before the words.
#[derive(Drop)]
pub struct Simpler {
    pub alloc: Global,
    pub common: u32,
}

// One, where a word isn't the common one.
fn weight(common: u32, word: u32) -> usize
    ensures { result ≡ weight common word }
{
    if word == common { 0 } else { 1 }
}

// How many words aren't.
fn uncommon(common: u32, words: &[u32]) -> usize
    ensures count { result ≡ uncommon common words.now }
    ensures most { result ≤ length words.now }
{
    let mut count: usize = 0;
    for word in words {
        count += weight(common, *word);
    }
    count
}

// Where the uncommon word of this number stands, from 0, where there are so many.
fn place_of(common: u32, words: &[u32], number: usize) -> usize
    requires { number < uncommon common words.now }
    ensures place { result ≡ place_of common number words.now }
    ensures within { result < length words.now }
{
    let mut left = number;
    let mut place: usize = 0;
    while place < words.len() {
        let one = weight(common, words[place]);
        if one > left {
            return place;
        }
        left -= one;
        place += 1;
    }
    place
}

// A world whose uncommon word of this number became the common one.
fn with_common(
    alloc: Global,
    common: u32,
    world: &World0,
    number: usize,
) -> Result<World0, NoMemory>
    requires { number < uncommon common (seen world.now).words }
    ensures { IfOk result (λ w. seen w ≡ record (seen world.now) {
      words = made_common common number (seen world.now).words;
    }) }
{
    let mut words = world.words.to_vec(alloc)?;
    let at = place_of(common, &words, number);
    words[at] = common;
    let own = with_words(alloc, world, words)?;
    Ok(own)
}

// It is in range, too.
fn word_made_common(
    alloc: Global,
    common: u32,
    world: &World0,
    number: usize,
) -> Result<World0, NoMemory>
    requires range { IsInRange (seen world.now) }
    requires within { number < uncommon common (seen world.now).words }
    ensures made { IfOk result (λ w. seen w ≡ edited common number (seen world.now)) }
    ensures range { IfOk result (λ w. IsInRange (seen w)) }
{
    let own = with_common(alloc, common, world, number)?;
    Ok(own)
}

impl Edits for Simpler {
    ghost edit = { λ e. simpler e.common };

    ghost fewer = { λ e. one_place_less e.common };

    fn places(&self, world: &World0) -> usize {
        uncommon(self.common, &world.words) + world.script.len()
    }

    fn edited(&self, world: &World0, place: usize) -> Result<World0, NoMemory> {
        let uncommon = uncommon(self.common, &world.words);
        if place < uncommon {
            return word_made_common(self.alloc, self.common, world, place);
        }
        let line = LineGoes { alloc: self.alloc };
        line.edited(world, place - uncommon)
    }
}
