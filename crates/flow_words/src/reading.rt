// The words of a command line.

ghost use Rattle.std.specs.Prelude.{◌≡◌, map, string_bytes, Some};
ghost use Rattle.clap.specs.Words.{found_of, rows_of};
ghost use Rattle.flow_words.specs.Asked.{Reads, asked, request_of, run_request, command_of, file_of, run_of, run_by, bench_of, bench_by, shrink_of, shrink_by, debug_of, debug_by, asked_by};
ghost use Rattle.flow_words.specs.Wants.{sole};

use crate::asked::{Asked, CommandWord, DebugWords, RunWords, ShrinkWords, WordsFault};
use crate::matching::{
    first_text, has_frames, matches, monitor_text, one_text, run_command, second_text,
    shrink_command, third_text, three_texts, two_texts,
};
use crate::number::{events_of, number_within};
use crate::wanting::listed;
use clap::ArgMatches;
use flow_monitor::Want;
use std::alloc::Global;

// The command of its word.
fn command_of(word: &str) -> Option<CommandWord>
    ensures { result ≡ command_of word.now }
{
    if word == "format" {
        return Some(CommandWord::Format);
    }
    if word == "check" {
        return Some(CommandWord::Check);
    }
    if word == "compile" {
        return Some(CommandWord::Compile);
    }
    if word == "run" {
        return Some(CommandWord::Run);
    }
    if word == "exec" {
        return Some(CommandWord::Exec);
    }
    if word == "bench" {
        return Some(CommandWord::Bench);
    }
    if word == "shrink" {
        return Some(CommandWord::Shrink);
    }
    if word == "debug" {
        return Some(CommandWord::Debug);
    }
    if word == "upgrade" {
        return Some(CommandWord::Upgrade);
    }
    None
}

// The words are a file.
fn file_of<'a>(alloc: Global, words: &'a [String]) -> Result<&'a str, WordsFault>
    ensures { Reads (λ s. s.now) (file_of (map string_bytes words.entry.now)) result }
{
    let found = matches(one_text(alloc)?, words)?;
    match first_text(&found) {
        Some(file) => Ok(file),
        None => Err(WordsFault::Usage),
    }
}

// The run that the matches ask for.
fn run_by<'a>(alloc: Global, found: &ArgMatches<'a>) -> Result<RunWords<'a>, WordsFault>
    ensures { Reads run_request (run_by (rows_of (found_of found.now))) result }
{
    let Some(what) = first_text(found) else {
        return Err(WordsFault::Usage);
    };
    let Some(world) = second_text(found) else {
        return Err(WordsFault::Usage);
    };
    let wanted = listed(alloc, monitor_text(found))?;
    Ok(RunWords {
        what,
        world,
        frames: has_frames(found),
        wanted,
    })
}

// The words are a run's.
fn run_of<'a>(alloc: Global, words: &'a [String]) -> Result<RunWords<'a>, WordsFault>
    ensures { Reads run_request (run_of (map string_bytes words.entry.now)) result }
{
    let found = matches(run_command(alloc)?, words)?;
    run_by(alloc, &found)
}

// The clients and the seed that the matches ask for.
fn bench_by<'a>(found: &ArgMatches<'a>) -> Result<Asked<'a>, WordsFault>
    ensures { Reads request_of (bench_by (rows_of (found_of found.now))) result }
{
    let Some(clients) = first_text(found) else {
        return Err(WordsFault::Usage);
    };
    let Some(seed) = second_text(found) else {
        return Err(WordsFault::Usage);
    };
    let Some(clients) = number_within(clients.as_bytes(), 1, 10_000) else {
        return Err(WordsFault::Usage);
    };
    let Some(seed) = number_within(seed.as_bytes(), 0, u64::MAX) else {
        return Err(WordsFault::Usage);
    };
    Ok(Asked::Bench(clients as u32, seed))
}

// The words are a number of clients and a seed.
fn bench_of<'a>(alloc: Global, words: &'a [String]) -> Result<Asked<'a>, WordsFault>
    ensures { Reads request_of (bench_of (map string_bytes words.entry.now)) result }
{
    let found = matches(two_texts(alloc)?, words)?;
    bench_by(&found)
}

// The one monitor of a list of one.
fn sole(wanted: Vec<Want>) -> Result<Want, WordsFault>
    ensures { Reads (λ want. want) (sole wanted.items) result }
{
    let mut wanted = wanted;
    let Some(want) = wanted.pop() else {
        return Err(WordsFault::Usage);
    };
    if wanted.is_empty() {
        Ok(want)
    } else {
        Err(WordsFault::Usage)
    }
}

// The world and the monitor that the matches ask for.
fn shrink_by<'a>(alloc: Global, found: &ArgMatches<'a>) -> Result<Asked<'a>, WordsFault>
    ensures { Reads request_of (shrink_by (rows_of (found_of found.now))) result }
{
    let Some(program) = first_text(found) else {
        return Err(WordsFault::Usage);
    };
    let Some(world) = second_text(found) else {
        return Err(WordsFault::Usage);
    };
    let wanted = listed(alloc, monitor_text(found))?;
    let want = sole(wanted)?;
    Ok(Asked::Shrink(ShrinkWords {
        program,
        world,
        want,
    }))
}

// The words are a program's file, a world's and a monitor.
fn shrink_of<'a>(alloc: Global, words: &'a [String]) -> Result<Asked<'a>, WordsFault>
    ensures { Reads request_of (shrink_of (map string_bytes words.entry.now)) result }
{
    let found = matches(shrink_command(alloc)?, words)?;
    shrink_by(alloc, &found)
}

// The files and the number of events that the matches ask for.
fn debug_by<'a>(found: &ArgMatches<'a>) -> Result<Asked<'a>, WordsFault>
    ensures { Reads request_of (debug_by (rows_of (found_of found.now))) result }
{
    let Some(program) = first_text(found) else {
        return Err(WordsFault::Usage);
    };
    let Some(world) = second_text(found) else {
        return Err(WordsFault::Usage);
    };
    let Some(most) = third_text(found) else {
        return Err(WordsFault::Usage);
    };
    let Some(most) = events_of(most.as_bytes()) else {
        return Err(WordsFault::Usage);
    };
    Ok(Asked::Debug(DebugWords {
        program,
        world,
        most: most as u32,
    }))
}

// The words are a program's file, a world's and a number of events.
fn debug_of<'a>(alloc: Global, words: &'a [String]) -> Result<Asked<'a>, WordsFault>
    ensures { Reads request_of (debug_of (map string_bytes words.entry.now)) result }
{
    let found = matches(three_texts(alloc)?, words)?;
    debug_by(&found)
}

// What a command asks for with the words behind it.
fn asked_by<'a>(
    alloc: Global,
    command: CommandWord,
    words: &'a [String],
) -> Result<Asked<'a>, WordsFault>
    ensures { Reads request_of (asked_by (Some command) (map string_bytes words.entry.now)) result }
{
    match command {
        CommandWord::Format => Ok(Asked::Format(file_of(alloc, words)?)),
        CommandWord::Check => Ok(Asked::Check(file_of(alloc, words)?)),
        CommandWord::Compile => Ok(Asked::Compile(file_of(alloc, words)?)),
        CommandWord::Run => Ok(Asked::Run(run_of(alloc, words)?)),
        CommandWord::Exec => Ok(Asked::Exec(run_of(alloc, words)?)),
        CommandWord::Bench => bench_of(alloc, words),
        CommandWord::Shrink => shrink_of(alloc, words),
        CommandWord::Debug => debug_of(alloc, words),
        CommandWord::Upgrade => Ok(Asked::Upgrade(file_of(alloc, words)?)),
    }
}

/// What the words of a command line ask for. `Usage` comes exactly where they ask for nothing: the first is no command, clap
/// doesn't accept those behind it for that command, a number or a list of monitors is out of form.
pub fn read_words<'a>(alloc: Global, words: &'a [String]) -> Result<Asked<'a>, WordsFault>
    ensures { Reads request_of (asked (map string_bytes words.entry.now)) result }
{
    match words {
        [] => Err(WordsFault::Usage),
        [word, rest @ ..] => {
            let Some(command) = command_of(word.as_str()) else {
                return Err(WordsFault::Usage);
            };
            asked_by(alloc, command, rest)
        }
    }
}
