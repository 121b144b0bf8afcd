// Tests of flow_draw.

ghost use Rattle.std.specs.Prelude.{◌+◌, ◌<◌, ◌≤◌, ◌^◌};

use flow_base::memory::NoMemory;
use flow_draw::Draws;
use flow_draw::question::Question;
use std::alloc::Global;

/// The first outputs of PCG's 32-bit generator for the state 42 on stream 54, as its authors print
/// them.
const FIRST_OUTPUTS: [u32; 4] = [2707161783, 2068313097, 3122475824, 2211639955];

// Whether this is the next word, after few.
fn takes(draws: &mut Draws, word: u32) -> bool {
    draws.used() < 10_000 && draws.next() == word
}

// Whether these are the words from the first on.
fn takes_all(draws: &mut Draws, words: &[u32]) -> bool {
    for (k, word) in words.iter().enumerate() {
        if draws.used() != k as u64 || !takes(draws, *word) {
            return false;
        }
    }
    true
}

fn seed_is_told(alloc: Global) -> bool {
    let mut draws = Draws::new(alloc, 42, Vec::new(alloc));
    takes_all(&mut draws, &FIRST_OUTPUTS)
}

#[test]
fn a_seed_gives_its_outputs(rt: HostRuntime) {
    assert!(rt; seed_is_told(rt.alloc()));
}

/// Two listed words, and the first outputs.
const LISTED_FIRST: [u32; 4] = [7, 4294967295, 2707161783, 2068313097];

fn lists_first(alloc: Global) -> Result<bool, NoMemory> {
    let mut draws = Draws::new(alloc, 42, vec![in alloc; 7, 4294967295]?);
    Ok(takes_all(&mut draws, &LISTED_FIRST))
}

#[test]
fn listed_words_come_first(rt: HostRuntime) -> Result<(), NoMemory> {
    assert!(rt; lists_first(rt.alloc())?);
    Ok(())
}

fn scales(draws: &mut Draws) -> bool
    requires { draws.old.used + 4 < 2 ^ 63 }
{
    draws.in_range(0, 10) == 3
        && draws.in_range(-5, 10) == 2
        && draws.in_range(i64::MAX, 1) == i64::MAX
        && draws.in_range(i64::MIN, 4294967296) == i64::MIN + 2211639955
}

fn scales_words(alloc: Global) -> bool {
    let mut draws = Draws::new(alloc, 42, Vec::new(alloc));
    scales(&mut draws)
}

#[test]
fn drawn_words(rt: HostRuntime) {
    assert!(rt; scales_words(rt.alloc()));
}

/// What five words are asked for.
const ASKED: [Question; 5] = [
    Question::Among(10),
    Question::Among(1),
    Question::Loses(999),
    Question::Loses(1),
    Question::Among(1 << 32),
];

// Whether the words 13, 7, 999, 1,000 and the greatest answer that.
fn answers(draws: &mut Draws) -> bool
    requires { draws.old.used + 5 < 2 ^ 63 }
{
    draws.below(10) == 3
        && draws.below(1) == 0
        && !draws.loses(999)
        && draws.loses(1)
        && draws.next() == 4294967295
}

// Whether the first questions are noted, in their order.
fn has_noted(draws: &Draws, room: usize) -> bool {
    draws.room() == room && draws.noted() == &ASKED[..room.min(5)]
}

fn notes(alloc: Global, room: usize) -> Result<bool, NoMemory> {
    let words = vec![in alloc; 13, 7, 999, 1000, 4294967295]?;
    let mut draws = Draws::noting(alloc, 42, words, room)?;
    Ok(answers(&mut draws) && has_noted(&draws, room))
}

#[test]
fn words_answer_and_questions_are_noted(rt: HostRuntime) -> Result<(), NoMemory> {
    assert!(rt; notes(rt.alloc(), 0)?);
    assert!(rt; notes(rt.alloc(), 2)?);
    assert!(rt; notes(rt.alloc(), 5)?);
    assert!(rt; notes(rt.alloc(), 9)?);
    Ok(())
}

// Whether the next words of both are alike.
fn take_alike(draws: &mut Draws, there: &mut Draws) -> bool {
    if draws.used() >= 10_000 {
        return false;
    }
    let word = draws.next();
    takes(there, word)
}

fn are_alike(draws: &mut Draws, there: &mut Draws, taken: u64) -> bool {
    draws.used() == taken && there.used() == taken && take_alike(draws, there)
}

// Whether words that begin after so many go on as those of which so many were taken.
fn begins_there(alloc: Global, draws: &mut Draws, taken: u64) -> Result<bool, NoMemory>
    requires { taken ≤ 2 ^ 62 }
{
    let mut there = Draws::at(alloc, 42, vec![in alloc; 7, 8, 9]?, taken);
    Ok(are_alike(draws, &mut there, taken))
}

fn first_unlike(alloc: Global, draws: &mut Draws) -> Result<Option<u64>, NoMemory> {
    for taken in 0..1000u64 {
        if !begins_there(alloc, draws, taken)? {
            return Ok(Some(taken));
        }
    }
    Ok(None)
}

fn unlike_after(alloc: Global) -> Result<Option<u64>, NoMemory> {
    let mut draws = Draws::new(alloc, 42, vec![in alloc; 7, 8, 9]?);
    first_unlike(alloc, &mut draws)
}

#[test]
fn at_is_that_many_words_on(rt: HostRuntime) -> Result<(), NoMemory> {
    assert_eq!(rt; unlike_after(rt.alloc())?, None);
    Ok(())
}
