// The words of a command line.

ghost use Rattle.std.specs.Prelude.{◌≡◌, map, string_bytes, option_map, option_and_then, Some};
ghost use Rattle.clap.specs.Words.{found_of, rows_of};
ghost use Rattle.flow_words.specs.Asked.{Reads};
ghost use Rattle.flow_words.specs.Wants.{number_of, number_within, wants_of};
ghost use Rattle.flow_lab_words.specs.Apps.{text_of};
ghost use Rattle.flow_lab_words.specs.Asked.{asked, asked_by, command_of, family_by, if_said, pin_by, pin_of, request_of, seeds_of, simplify_by, simplify_of, storm_by, storm_in, storm_of, storm_rows, sweep_by, sweep_of, sweep_request, telling_of};

use crate::asked::{Asked, CommandWord, PinWords, SimplifyWords, StormWords, SweepWords, Telling};
use crate::matching::{has_flag, sweep_command, text_of};
use clap::ArgMatches;
use flow_family::Family;
use flow_family::family::MOST_DOWN;
use flow_monitor::Want;
use flow_storm::Storm;
use flow_storm::storm::{MOST_FAULTS, MOST_HORIZON};
use flow_words::WordsFault;
use flow_words::matching::{
    first_text, matches, monitor_text, second_text, shrink_command, third_text, three_texts,
    two_texts,
};
use flow_words::number::number_within;
use flow_words::wanting::{listed, read_wants, split_once};
use std::alloc::Global;

/// The most seeds of a sweep.
pub const MOST_SEEDS: u64 = 1_000_000;

// The command of its word.
fn command_of(word: &str) -> Option<CommandWord>
    ensures { result ≡ command_of word.now }
{
    if word == "storm" {
        return Some(CommandWord::Storm);
    }
    if word == "sweep" {
        return Some(CommandWord::Sweep);
    }
    if word == "pin" {
        return Some(CommandWord::Pin);
    }
    if word == "simplify" {
        return Some(CommandWord::Simplify);
    }
    None
}

// A number below 2^64, if the word is there.
fn number_of(word: Option<&str>) -> Option<u64>
    ensures { result ≡ option_and_then number_of (option_map (λ s. s.now) word.entry) }
{
    match word {
        None => None,
        Some(word) => number_within(word.as_bytes(), 0, u64::MAX),
    }
}

// The storm of its two numbers.
fn storm_by(faults: &[u8], horizon: &[u8]) -> Option<Storm>
    ensures { result ≡ storm_by (faults.now, horizon.now) }
{
    let Some(faults) = number_within(faults, 0, u64::from(MOST_FAULTS)) else {
        return None;
    };
    let Some(horizon) = number_within(horizon, 1, MOST_HORIZON) else {
        return None;
    };
    Some(Storm {
        faults: faults as u32,
        horizon,
    })
}

// The storm that a word says.
fn storm_in(word: &str) -> Option<Storm>
    ensures { result ≡ storm_in word.now }
{
    match split_once(word.as_bytes(), b',') {
        None => None,
        Some((faults, horizon)) => storm_by(faults, horizon),
    }
}

// The storm of an option, if it is there.
fn storm_said(word: Option<&str>) -> Option<Option<Storm>>
    ensures { result ≡ if_said storm_in (option_map (λ s. s.now) word.entry) }
{
    let Some(word) = word else {
        return Some(None);
    };
    match storm_in(word) {
        None => None,
        Some(storm) => Some(Some(storm)),
    }
}

// For how long a process is down by an option, if it is there.
fn down_said(word: Option<&str>) -> Option<Option<u64>>
    ensures { result ≡ if_said (number_within 0 1000000000) (option_map (λ s. s.now) word.entry) }
{
    let Some(word) = word else {
        return Some(None);
    };
    match number_within(word.as_bytes(), 0, MOST_DOWN) {
        None => None,
        Some(down) => Some(Some(down)),
    }
}

// The world, the seed and the storm that the matches ask for.
fn storm_rows<'a>(found: &ArgMatches<'a>) -> Result<Asked<'a>, WordsFault>
    ensures { Reads request_of (storm_rows (rows_of (found_of found.now))) result }
{
    let Some(world) = first_text(found) else {
        return Err(WordsFault::Usage);
    };
    let Some(seed) = number_of(second_text(found)) else {
        return Err(WordsFault::Usage);
    };
    let Some(storm) = third_text(found) else {
        return Err(WordsFault::Usage);
    };
    let Some(storm) = storm_in(storm) else {
        return Err(WordsFault::Usage);
    };
    Ok(Asked::Storm(StormWords { world, seed, storm }))
}

// The words are a world's file, a seed and a storm.
fn storm_of<'a>(alloc: Global, words: &'a [String]) -> Result<Asked<'a>, WordsFault>
    ensures { Reads request_of (storm_of (map string_bytes words.entry.now)) result }
{
    let found = matches(three_texts(alloc)?, words)?;
    storm_rows(&found)
}

// What is told of a sweep.
fn telling_of(cover: bool, first: bool) -> Option<Telling>
    ensures { result ≡ telling_of cover first }
{
    match (cover, first) {
        (true, true) => None,
        (true, false) => Some(Telling::Branches),
        (false, true) => Some(Telling::First),
        (false, false) => Some(Telling::Finds),
    }
}

// The seeds from one to another.
fn seeds_of(from: Option<u64>, to: Option<u64>) -> Option<(u64, u64)>
    ensures { result ≡ seeds_of from to }
{
    let Some(from) = from else {
        return None;
    };
    let Some(to) = to else {
        return None;
    };
    if from <= to && to - from < MOST_SEEDS {
        Some((from, to))
    } else {
        None
    }
}

// The worlds in which a sweep runs a program.
fn family_by(found: &ArgMatches<'_>) -> Option<Family>
    ensures { result ≡ family_by (rows_of (found_of found.now)) }
{
    let from = number_of(text_of(found, "from"));
    let to = number_of(text_of(found, "to"));
    let Some((from, to)) = seeds_of(from, to) else {
        return None;
    };
    let Some(storm) = storm_said(text_of(found, "storm")) else {
        return None;
    };
    let Some(down) = down_said(text_of(found, "crash")) else {
        return None;
    };
    Some(Family {
        from,
        to,
        storm,
        down,
    })
}

// The sweep that the matches ask for.
fn sweep_by<'a>(alloc: Global, found: &ArgMatches<'a>) -> Result<SweepWords<'a>, WordsFault>
    ensures { Reads sweep_request (sweep_by (rows_of (found_of found.now))) result }
{
    let Some(program) = text_of(found, "program") else {
        return Err(WordsFault::Usage);
    };
    let Some(world) = text_of(found, "world") else {
        return Err(WordsFault::Usage);
    };
    let Some(family) = family_by(found) else {
        return Err(WordsFault::Usage);
    };
    let Some(telling) = telling_of(has_flag(found, "cover"), has_flag(found, "first")) else {
        return Err(WordsFault::Usage);
    };
    let wanted = listed(alloc, monitor_text(found))?;
    Ok(SweepWords {
        program,
        world,
        family,
        wanted,
        telling,
    })
}

// The words are a sweep's.
fn sweep_of<'a>(alloc: Global, words: &'a [String]) -> Result<SweepWords<'a>, WordsFault>
    ensures { Reads sweep_request (sweep_of (map string_bytes words.entry.now)) result }
{
    match matches(sweep_command(alloc)?, words) {
        Ok(found) => sweep_by(alloc, &found),
        Err(fault) => Err(fault),
    }
}

// The files that the matches ask for.
fn pin_by<'a>(found: &ArgMatches<'a>) -> Result<Asked<'a>, WordsFault>
    ensures { Reads request_of (pin_by (rows_of (found_of found.now))) result }
{
    let Some(program) = first_text(found) else {
        return Err(WordsFault::Usage);
    };
    let Some(world) = second_text(found) else {
        return Err(WordsFault::Usage);
    };
    Ok(Asked::Pin(PinWords { program, world }))
}

// The words are a program's file and a world's.
fn pin_of<'a>(alloc: Global, words: &'a [String]) -> Result<Asked<'a>, WordsFault>
    ensures { Reads request_of (pin_of (map string_bytes words.entry.now)) result }
{
    let found = matches(two_texts(alloc)?, words)?;
    pin_by(&found)
}

// The monitors of a list that has to be there.
fn wanted_by(alloc: Global, list: Option<&str>) -> Result<Vec<Want>, WordsFault>
    ensures { Reads (λ wanted. wanted.items)
        (option_and_then wants_of (option_map (λ s. s.now) list.entry)) result }
{
    match list {
        None => Err(WordsFault::Usage),
        Some(list) => read_wants(alloc, list.as_bytes()),
    }
}

// The files and the monitors that the matches ask for.
fn simplify_by<'a>(alloc: Global, found: &ArgMatches<'a>) -> Result<Asked<'a>, WordsFault>
    ensures { Reads request_of (simplify_by (rows_of (found_of found.now))) result }
{
    let Some(program) = first_text(found) else {
        return Err(WordsFault::Usage);
    };
    let Some(world) = second_text(found) else {
        return Err(WordsFault::Usage);
    };
    let wanted = wanted_by(alloc, monitor_text(found))?;
    Ok(Asked::Simplify(SimplifyWords {
        program,
        world,
        wanted,
    }))
}

// The words are a program's file, a world's and a list of monitors.
fn simplify_of<'a>(alloc: Global, words: &'a [String]) -> Result<Asked<'a>, WordsFault>
    ensures { Reads request_of (simplify_of (map string_bytes words.entry.now)) result }
{
    let found = matches(shrink_command(alloc)?, words)?;
    simplify_by(alloc, &found)
}

// What a command asks for with the words behind it.
fn asked_by<'a>(
    alloc: Global,
    command: CommandWord,
    words: &'a [String],
) -> Result<Asked<'a>, WordsFault>
    ensures { Reads request_of (asked_by (Some command) (map string_bytes words.entry.now)) result }
{
    match command {
        CommandWord::Storm => storm_of(alloc, words),
        CommandWord::Sweep => Ok(Asked::Sweep(sweep_of(alloc, words)?)),
        CommandWord::Pin => pin_of(alloc, words),
        CommandWord::Simplify => simplify_of(alloc, words),
    }
}

/// What the words of a command line ask of the laboratory. `Usage` comes exactly where they ask for nothing: the first is no
/// command, clap doesn't accept those behind it for that command, a number, a storm or a list of monitors is out of form, the seeds
/// are more than 1,000,000 or the last is below the first, or `--cover` stands with `--first`.
pub fn read_words<'a>(alloc: Global, words: &'a [String]) -> Result<Asked<'a>, WordsFault>
    ensures { Reads request_of (asked (map string_bytes words.entry.now)) result }
{
    match words {
        [] => Err(WordsFault::Usage),
        [word, rest @ ..] => {
            let Some(command) = command_of(word.as_str()) else {
                return Err(WordsFault::Usage);
            };
            asked_by(alloc, command, rest)
        }
    }
}
