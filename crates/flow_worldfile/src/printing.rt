// Printing a world.

ghost use Rattle.std.specs.Prelude.{◌≡◌, ◌++◌, Some, map, IfOk, OnOk};
ghost use Rattle.std.specs.List.{flat_map};
ghost use Rattle.std.specs.String.{string_bytes};
ghost use Rattle.flow_worldfile.specs.declared.directive.Directive.TheVariants.{Word};
ghost use Rattle.flow_worldfile.specs.Directives.{order_form, form, fields_text, line_text};
ghost use Rattle.flow_worldfile.specs.Worlds.{timed, seen, settings, at_line, world_text};

use crate::directive::{Directive, Order};
use crate::world::{At, World0};
use flow_base::memory::NoMemory;
use std::alloc::Global;
use std::fmt;

impl fmt::Display for Order {
    ghost output = { λ order. Some (fields_text (order_form order)) };

    fn fmt<W: fmt::Write>(&self, f: &mut fmt::Formatter<W>) -> fmt::Result {
        match self {
            Order::Kill(p) => write!(f, "kill {p}"),
            Order::Stop(p) => write!(f, "stop {p}"),
            Order::Boot(p) => write!(f, "boot {p}"),
            Order::Cut(p, q) => write!(f, "cut {p} {q}"),
            Order::Heal(p, q) => write!(f, "heal {p} {q}"),
            Order::DiskFail(p, count) => write!(f, "diskfail {p} {count}"),
        }
    }
}

impl fmt::Display for Directive {
    ghost output = { λ line. Some (fields_text (form line)) };

    fn fmt<W: fmt::Write>(&self, f: &mut fmt::Formatter<W>) -> fmt::Result {
        match self {
            Directive::Seed(n) => write!(f, "seed {n}"),
            Directive::Processes(n) => write!(f, "processes {n}"),
            Directive::Events(n) => write!(f, "events {n}"),
            Directive::Turns(n) => write!(f, "turns {n}"),
            Directive::Latency(lo, hi) => write!(f, "latency {lo} {hi}"),
            Directive::DiskDelay(lo, hi) => write!(f, "diskdelay {lo} {hi}"),
            Directive::Loss(n) => write!(f, "loss {n}"),
            Directive::Word(n) => write!(f, "word {n}"),
            Directive::At(time, order) => write!(f, "at {time} {order}"),
        }
    }
}

/// Adds a line.
fn push_line(out: &mut String, line: Directive) -> Result<(), NoMemory>
    ensures { OnOk result (string_bytes out.new ≡ string_bytes out.old ++ line_text line) }
{
    writeln!(out, "{line}")?;
    Ok(())
}

/// Adds lines.
fn push_lines(out: &mut String, lines: &[Directive]) -> Result<(), NoMemory>
    ensures { OnOk result (string_bytes out.new
        ≡ string_bytes out.old ++ flat_map line_text lines.now) }
{
    for line in lines {
        push_line(out, *line)?;
    }
    Ok(())
}

/// Adds a line for each word.
fn push_words(out: &mut String, words: &[u32]) -> Result<(), NoMemory>
    ensures { OnOk result (string_bytes out.new
        ≡ string_bytes out.old ++ flat_map line_text (map Word words.now)) }
{
    for word in words {
        push_line(out, Directive::Word(u128::from(*word)))?;
    }
    Ok(())
}

/// Adds a line for each act of a script.
fn push_script(out: &mut String, script: &[At]) -> Result<(), NoMemory>
    ensures { OnOk result (string_bytes out.new
        ≡ string_bytes out.old ++ flat_map line_text (map at_line (map timed script.now))) }
{
    for at in script {
        push_line(out, Directive::At(u128::from(at.time), at.act.order()))?;
    }
    Ok(())
}

/// What may be said once, as lines.
fn settings(world: &World0) -> [Directive; 7]
    ensures { result ≡ settings (seen world.now) }
{
    let (shortest, longest) = world.latency;
    let (fastest, slowest) = world.diskdelay;
    [
        Directive::Seed(u128::from(world.seed)),
        Directive::Processes(u128::from(world.processes)),
        Directive::Events(u128::from(world.events)),
        Directive::Turns(u128::from(world.turns)),
        Directive::Latency(u128::from(shortest), u128::from(longest)),
        Directive::DiskDelay(u128::from(fastest), u128::from(slowest)),
        Directive::Loss(u128::from(world.loss)),
    ]
}

/// The text of a world: a line for each thing that may be said once, defaults included, then the
/// words, then the script.
pub fn print_world(alloc: Global, world: &World0) -> Result<Vec<u8>, NoMemory>
    ensures { IfOk result (λ text. text.items ≡ world_text (seen world.now)) }
{
    let mut out = String::new(alloc);
    push_lines(&mut out, &settings(world))?;
    push_words(&mut out, &world.words)?;
    push_script(&mut out, &world.script)?;
    Ok(out.into_bytes())
}
