// The list of the monitors that are wanted.

ghost use Rattle.std.specs.Prelude.{◌≡◌, ◌∷◌, [], ◌==◌, ℕ, ◌<◌, length, MatchOption, IfSome, option_map};
ghost use Rattle.std.specs.List.{slice_split, position};
ghost use Rattle.flow_words.specs.Wants.{cut_at, listed, want_of, wants_of};
ghost use Rattle.flow_words.specs.Asked.{Reads, AddsWant};

use crate::asked::WordsFault;
use crate::number::number_within;
use flow_base::name::{Name, is_name};
use flow_monitor::Want;
use std::alloc::Global;

// The first place of a byte in a text, where it stands there.
fn first_place(text: &[u8], byte: u8) -> Option<usize>
    ensures place { result ≡ position (λ b. b == byte) text.now }
    ensures within { IfSome result (λ place. place < length text.now) }
{
    text.iter().position(|b| *b == byte)
}

/// The part of a text before a byte's first place, and the part behind it; none where the byte doesn't stand there.
#[tactic(auto, using(flow_worldfile::proofs::LineLemmas::one_part, flow_worldfile::proofs::LineLemmas::two_parts, crate::proofs::Lists::cut_here, crate::proofs::Lists::cut_nowhere))]
pub fn split_once(text: &[u8], byte: u8) -> Option<(&[u8], &[u8])>
    ensures cut { option_map (λ parts. (parts.0.now, parts.1.now)) result ≡ cut_at byte text.now }
    ensures parts { MatchOption result (slice_split (λ b. b == byte) text.now ≡ text.now ∷ [])
        (λ parts. slice_split (λ b. b == byte) text.now
        ≡ parts.0.now ∷ slice_split (λ b. b == byte) parts.1.now) }
    ensures shorter { IfSome result (λ parts. length parts.1.now < length text.now) }
{
    let Some(place) = first_place(text, byte) else {
        return None;
    };
    Some((&text[..place], &text[place + 1..]))
}

// The monitor that an item wants.
fn read_want(alloc: Global, item: &[u8]) -> Result<Want, WordsFault>
    ensures { Reads (λ w. w) (want_of item.now) result }
{
    let Some((name, limit)) = split_once(item, b'=') else {
        return Err(WordsFault::Usage);
    };
    let Some(limit) = number_within(limit, 0, u64::MAX) else {
        return Err(WordsFault::Usage);
    };
    if !is_name(name) {
        return Err(WordsFault::Usage);
    }
    let name = Name::new(alloc, name)?;
    Ok(Want { name, limit })
}

// Adds the monitor that an item wants.
fn push_want(alloc: Global, wanted: &mut Vec<Want>, item: &[u8]) -> Result<(), WordsFault>
    ensures { AddsWant (want_of item.now) wanted.old.items result wanted.new.items }
{
    let want = read_want(alloc, item)?;
    wanted.push(want)?;
    Ok(())
}

/// The monitors that a list of `name=n` items wants.
pub fn read_wants(alloc: Global, list: &[u8]) -> Result<Vec<Want>, WordsFault>
    ensures { Reads (λ wanted. wanted.items) (wants_of list.now) result }
{
    let mut wanted = Vec::new(alloc);
    let mut rest = list;
    while let Some((item, more)) = split_once(rest, b',') {
        push_want(alloc, &mut wanted, item)?;
        rest = more;
    }
    push_want(alloc, &mut wanted, rest)?;
    Ok(wanted)
}

/// The monitors of a list, if there is one.
pub fn listed(alloc: Global, list: Option<&str>) -> Result<Vec<Want>, WordsFault>
    ensures { Reads (λ wanted. wanted.items) (listed (option_map (λ s. s.now) list.entry)) result }
{
    match list {
        None => Ok(Vec::new(alloc)),
        Some(list) => read_wants(alloc, list.as_bytes()),
    }
}
