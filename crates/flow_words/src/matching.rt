// The arguments of a command by clap.

ghost use Rattle.std.specs.Prelude.{◌≡◌, ◌⊎◌, [], true, false, codes, map, IfOk, string_bytes, option_map};
ghost use Rattle.clap.specs.Words.{app_of, rule_of, found_of, rows_of, is_simple_and_free, with_rule, first_of};
ghost use Rattle.flow_words.specs.Apps as spec;
ghost use Rattle.flow_words.specs.Apps.{one_text_app, two_texts_app, three_texts_app, run_app, shrink_app, matched, first_text, second_text, third_text, monitor_text, has_frames, is_true};
ghost use Rattle.flow_words.specs.Asked.{Reads};

use crate::asked::WordsFault;
use clap::error::ErrorKind;
use clap::{Arg, ArgAction, ArgMatches, Command};
use std::alloc::{AllocError, Global};

/// A text that has to be there.
pub fn required_text<'a>(alloc: Global, id: &'a str) -> Arg<'a>
    ensures rule { rule_of result ≡ spec.required_text id.entry.now }
    ensures own { result.global ≡ false }
{
    Arg::new(alloc, id).required(true).action(ArgAction::Set)
}

/// A flag that may be there.
pub fn flag<'a>(alloc: Global, id: &'a str) -> Arg<'a>
    ensures rule { rule_of result ≡ spec.flag id.entry.now }
    ensures own { result.global ≡ false }
{
    Arg::new(alloc, id).long(id).action(ArgAction::SetTrue)
}

/// An option with a text that may be there.
pub fn option_text<'a>(alloc: Global, id: &'a str) -> Arg<'a>
    ensures rule { rule_of result ≡ spec.option_text id.entry.now }
    ensures own { result.global ≡ false }
{
    Arg::new(alloc, id).long(id).action(ArgAction::Set)
}

/// A command without arguments, without help and version.
pub fn bare_command<'a>(alloc: Global) -> Command<'a>
    ensures { app_of result ≡ spec.bare_app }
{
    Command::new(alloc, "flow")
        .no_binary_name(true)
        .disable_help_flag(true)
        .disable_version_flag(true)
}

/// A command with one text.
pub fn one_text<'a>(alloc: Global) -> Result<Command<'a>, AllocError>
    ensures { IfOk result (λ c. app_of c ≡ one_text_app) }
{
    bare_command(alloc).arg(required_text(alloc, "first"))
}

/// A command with two texts.
pub fn two_texts<'a>(alloc: Global) -> Result<Command<'a>, AllocError>
    ensures { IfOk result (λ c. app_of c ≡ two_texts_app) }
{
    one_text(alloc)?.arg(required_text(alloc, "second"))
}

/// A command with three texts.
pub fn three_texts<'a>(alloc: Global) -> Result<Command<'a>, AllocError>
    ensures { IfOk result (λ c. app_of c ≡ three_texts_app) }
{
    two_texts(alloc)?.arg(required_text(alloc, "third"))
}

/// A command with two texts, `--frames` and `--monitor LIST`.
pub fn run_command<'a>(alloc: Global) -> Result<Command<'a>, AllocError>
    ensures { IfOk result (λ c. app_of c ≡ run_app) }
{
    let framed = two_texts(alloc)?.arg(flag(alloc, "frames"))?;
    framed.arg(option_text(alloc, "monitor"))
}

/// A command with two texts and `--monitor LIST`.
pub fn shrink_command<'a>(alloc: Global) -> Result<Command<'a>, AllocError>
    ensures { IfOk result (λ c. app_of c ≡ shrink_app) }
{
    two_texts(alloc)?.arg(option_text(alloc, "monitor"))
}

/// What clap reads of the words by a simple command.
pub fn matches<'a>(command: Command<'a>, words: &'a [String]) -> Result<ArgMatches<'a>, WordsFault>
    requires { is_simple_and_free (app_of command) ≡ true }
    ensures { Reads (λ m. rows_of (found_of m))
        (matched (app_of command.entry) (map string_bytes words.entry.now)) result }
{
    match command.try_get_matches_from(words) {
        Ok(matches) => Ok(matches),
        Err(error) => {
            if error.kind() == ErrorKind::OutOfMemory {
                Err(WordsFault::OutOfMemory)
            } else {
                Err(WordsFault::Usage)
            }
        }
    }
}

/// The text of the first argument.
pub fn first_text<'a>(matches: &ArgMatches<'a>) -> Option<&'a str>
    ensures { option_map (λ s. s.now) result ≡ first_text (rows_of (found_of matches.now)) }
{
    matches.get_str("first")
}

/// The text of the second argument.
pub fn second_text<'a>(matches: &ArgMatches<'a>) -> Option<&'a str>
    ensures { option_map (λ s. s.now) result ≡ second_text (rows_of (found_of matches.now)) }
{
    matches.get_str("second")
}

/// The text of the third argument.
pub fn third_text<'a>(matches: &ArgMatches<'a>) -> Option<&'a str>
    ensures { option_map (λ s. s.now) result ≡ third_text (rows_of (found_of matches.now)) }
{
    matches.get_str("third")
}

/// The text of `--monitor`, if it is there.
pub fn monitor_text<'a>(matches: &ArgMatches<'a>) -> Option<&'a str>
    ensures { option_map (λ s. s.now) result ≡ monitor_text (rows_of (found_of matches.now)) }
{
    matches.get_str("monitor")
}

/// Whether a text is clap's for a flag that is there.
pub fn is_true(text: Option<&str>) -> bool
    ensures { result ≡ is_true (option_map (λ s. s.now) text.entry) }
{
    match text {
        None => false,
        Some(text) => text == "true",
    }
}

/// Whether `--frames` is there.
pub fn has_frames(matches: &ArgMatches<'_>) -> bool
    ensures { result ≡ has_frames (rows_of (found_of matches.now)) }
{
    is_true(matches.get_str("frames"))
}
