// The arguments of a sweep by clap.

ghost use Rattle.std.specs.Prelude.{◌≡◌, IfOk, option_map};
ghost use Rattle.clap.specs.Words.{app_of, found_of, rows_of};
ghost use Rattle.flow_lab_words.specs.Apps.{family_app, four_names_app, has_flag, sweep_app, text_of};

use clap::{ArgMatches, Command};
use flow_words::matching::{bare_command, flag, is_true, option_text, required_text};
use std::alloc::{AllocError, Global};

// A command with the names of a program and a world, and two numbers.
fn four_names<'a>(alloc: Global) -> Result<Command<'a>, AllocError>
    ensures { IfOk result (λ c. app_of c ≡ four_names_app) }
{
    let program = bare_command(alloc).arg(required_text(alloc, "program"))?;
    let world = program.arg(required_text(alloc, "world"))?;
    let from = world.arg(required_text(alloc, "from"))?;
    from.arg(required_text(alloc, "to"))
}

// The same with `--storm N,T`, `--crash D` and `--monitor LIST`.
fn family_command<'a>(alloc: Global) -> Result<Command<'a>, AllocError>
    ensures { IfOk result (λ c. app_of c ≡ family_app) }
{
    let stormy = four_names(alloc)?.arg(option_text(alloc, "storm"))?;
    let crashed = stormy.arg(option_text(alloc, "crash"))?;
    crashed.arg(option_text(alloc, "monitor"))
}

/// A sweep's command: four texts, `--storm N,T`, `--crash D`, `--monitor LIST`, `--cover` and `--first`.
pub fn sweep_command<'a>(alloc: Global) -> Result<Command<'a>, AllocError>
    ensures { IfOk result (λ c. app_of c ≡ sweep_app) }
{
    let covered = family_command(alloc)?.arg(flag(alloc, "cover"))?;
    covered.arg(flag(alloc, "first"))
}

/// The text of an argument, if it is there.
pub fn text_of<'a>(matches: &ArgMatches<'a>, id: &str) -> Option<&'a str>
    ensures { option_map (λ s. s.now) result ≡ text_of id.now (rows_of (found_of matches.now)) }
{
    matches.get_str(id)
}

/// Whether a flag is there.
pub fn has_flag(matches: &ArgMatches<'_>, id: &str) -> bool
    ensures { result ≡ has_flag id.now (rows_of (found_of matches.now)) }
{
    is_true(matches.get_str(id))
}
