// A world with the words that its run takes.

ghost use Rattle.std.specs.Prelude.{◌≡◌, ◌≤◌, IfOk};
ghost use Rattle.std.specs.List.{AllByRecursion};
ghost use Rattle.flow_worldfile.specs.declared.directive.Directive.TheVariants.{Word};
ghost use Rattle.flow_worldfile.specs.Directives.{InRange};
ghost use Rattle.flow_worldfile.specs.Worlds.{IsInRange, most_words, seen};
ghost use Rattle.flow_simplify.specs.Pinning.{first_words, pinned};

use flow_base::memory::NoMemory;
use flow_draw::Draws;
use flow_shrink::copied;
use flow_worldfile::World0;
use std::alloc::Global;

/// The most words that a world lists.
pub const MOST_WORDS: u64 = 100_000;

// The first words of a world: those that it lists, and then those of its seed.
fn first_words(alloc: Global, world: &World0, count: u64) -> Result<Vec<u32>, NoMemory>
    requires { count ≤ most_words }
    ensures words { IfOk result (λ words. words.items ≡ first_words (seen world.now) count) }
    ensures range { IfOk result (λ words. AllByRecursion (λ n. InRange (Word n)) words.items) }
{
    let mut draws = Draws::new(alloc, world.seed, world.words.to_vec(alloc)?);
    let mut words = Vec::new(alloc);
    for _word in 0..count {
        words.push(draws.next())?;
    }
    Ok(words)
}

/// A world with these words in place of its own.
pub fn with_words(alloc: Global, world: &World0, words: Vec<u32>) -> Result<World0, NoMemory>
    ensures { IfOk result (λ w. seen w ≡ record (seen world.now) { words = words.items }) }
{
    let mut own = copied(alloc, world)?;
    own.words = words;
    Ok(own)
}

/// A world that lists its first so many words, 100,000 at most, and no others.
pub fn pinned(alloc: Global, world: &World0, count: u64) -> Result<World0, NoMemory>
    requires few { count ≤ most_words }
    requires range { IsInRange (seen world.now) }
    ensures pinned { IfOk result (λ w. seen w ≡ pinned count (seen world.now)) }
    ensures range { IfOk result (λ w. IsInRange (seen w)) }
{
    let words = first_words(alloc, world, count)?;
    let own = with_words(alloc, world, words)?;
    Ok(own)
}
