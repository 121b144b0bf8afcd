// The top call.

ghost use Rattle.std.specs.Prelude.{◌≡◌, None, Some, map, option_map, string_bytes};
ghost use Rattle.flow_base.specs.Bytes.{Grows};
ghost use Rattle.flow_words.specs.Asked.{request_of};
ghost use Rattle.flow_top.specs.Requests.{served, wanted_alone};
ghost use Rattle.flow_top.specs.Answers.{Answers, AnswersTo};

use crate::asking::{ask, attach, pick_wanted};
use crate::decide::decide;
use crate::report::{report, report_again, report_told};
use flow_base::files::Files;
use flow_base::sink::Sink;
use flow_monitor::{HandedIn, Monitor, Want};
use flow_words::Asked;
use std::alloc::Global;

// Does what the words ask for, where a panel of the monitors that they want hears it.
fn answer_heard<F: Files, S: Sink>(
    alloc: Global,
    asked: &Asked<'_>,
    files: &mut F,
    out: &mut S,
    monitors: Vec<Box<dyn Monitor>>,
) -> u8
    requires { wanted_alone (request_of asked.now) ≡ None }
    ensures answers { let handed = map (λ m. record { name = label m; begun = begun m }) monitors.items in
        AnswersTo (served handed (request_of asked.now)) handed
        (F.seen files.old) (F.seen files.new) (S.seen out.old) (S.seen out.new) result }
    ensures handed { Grows (S.seen out.old).handed (S.seen out.new).handed }
{
    match attach(alloc, asked, HandedIn::new(alloc, monitors)) {
        Ok(mut panel) => {
            let outcome = decide(alloc, asked, files);
            report(alloc, outcome, &mut panel, out)
        }
        Err(told) => report_told(alloc, told, out),
    }
}

// Does what the words ask for, where one monitor hears run after run.
fn answer_again<F: Files, S: Sink>(
    alloc: Global,
    asked: &Asked<'_>,
    want: &Want,
    files: &mut F,
    out: &mut S,
    monitors: Vec<Box<dyn Monitor>>,
) -> u8
    requires { wanted_alone (request_of asked.now) ≡ Some want.now }
    ensures answers { let handed = map (λ m. record { name = label m; begun = begun m }) monitors.items in
        AnswersTo (served handed (request_of asked.now)) handed
        (F.seen files.old) (F.seen files.new) (S.seen out.old) (S.seen out.new) result }
    ensures handed { Grows (S.seen out.old).handed (S.seen out.new).handed }
{
    match pick_wanted(want, monitors) {
        Ok(monitor) => {
            let outcome = decide(alloc, asked, files);
            report_again(alloc, outcome, monitor, want.limit, out)
        }
        Err(told) => report_told(alloc, told, out),
    }
}

// The monitor that is wanted alone, and begins anew for each run, if there is one.
fn wanted_alone<'a>(asked: &'a Asked<'_>) -> Option<&'a Want>
    ensures { option_map (λ w. w.now) result ≡ wanted_alone (request_of asked.now) }
{
    match asked {
        Asked::Shrink(shrink) => Some(&shrink.want),
        Asked::Format(_)
        | Asked::Check(_)
        | Asked::Compile(_)
        | Asked::Run(_)
        | Asked::Exec(_)
        | Asked::Bench(..)
        | Asked::Debug(_)
        | Asked::Upgrade(_) => None,
    }
}

/// Does what the words of the command line say, without the program's name: reads files by their
/// names, writes the output, and gives the status. `format P` writes the canonical text of the program
/// of the file P, `check P` whether it passes all rules, `compile P` its classes; `run P W` runs the program in the world of the
/// file W and writes what is shown of it by its text: the trace, and with `--frames` the frames and callbacks after each event, up
/// to where a monitor says Stop that is handed in and named by `--monitor`. `exec C W` does so with the classes of the class text
/// C, and `bench N SEED` writes the summary of a generated run. `shrink P W --monitor name=n` writes the world with a script of
/// which no line can go, so that this monitor still says Stop. `debug P W K` writes the state of the program's own text after K events:
/// where each unfinished actor waits, at which cells, and what its variables hold. `upgrade C` writes the canonical class text, of the
/// newest version, of what the class text C is.
pub fn flow_main<F: Files, S: Sink>(
    alloc: Global,
    words: &[String],
    files: &mut F,
    out: &mut S,
    monitors: Vec<Box<dyn Monitor>>,
) -> u8
    ensures answers { let given = map string_bytes words.now in
        Answers given (map (λ m. record { name = label m; begun = begun m }) monitors.items)
        (F.seen files.old) (F.seen files.new) (S.seen out.old) (S.seen out.new) result }
    ensures handed { Grows (S.seen out.old).handed (S.seen out.new).handed }
{
    let asked = match ask(alloc, words) {
        Ok(asked) => asked,
        Err(told) => return report_told(alloc, told, out),
    };
    match wanted_alone(&asked) {
        Some(want) => answer_again(alloc, &asked, want, files, out, monitors),
        None => answer_heard(alloc, &asked, files, out, monitors),
    }
}
