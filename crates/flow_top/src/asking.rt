// What the words ask for, and who hears it.

ghost use Rattle.std.specs.Prelude.{◌≡◌, ◌∷◌, [], map, option_map, string_bytes, IfOk};
ghost use Rattle.flow_monitor.specs.Attaching.{Handed, attached, want_fault, or_named, first_named};
ghost use Rattle.flow_words.specs.Asked.{asked, request_of};
ghost use Rattle.flow_top.specs.Requests.{wanted_by, alone};
ghost use Rattle.flow_top.specs.Outcomes.{words_outcome_of, panel_outcome_of};
ghost use Rattle.flow_top.specs.Steps.{AsksFor, Attaches};

use crate::outcome::Answered;
use flow_base::name::Name;
use flow_monitor::{Monitor, Monitors, PanelFault, Want};
use flow_words::{Asked, WordsFault, read_words};
use std::alloc::Global;
use std::slice;

// What words come to that aren't read.
fn words_outcome(fault: WordsFault) -> Answered
    ensures { result ≡ words_outcome_of fault }
{
    match fault {
        WordsFault::Usage => Answered::Usage,
        WordsFault::OutOfMemory => Answered::OutOfMemory,
    }
}

// What monitors come to that aren't had.
fn panel_outcome(fault: PanelFault) -> Answered
    ensures { result ≡ panel_outcome_of fault }
{
    match fault {
        PanelFault::NoMonitor(_) | PanelFault::Twice(_) => Answered::Usage,
        PanelFault::OutOfMemory => Answered::OutOfMemory,
    }
}

// The monitors that are wanted.
fn wanted_by<'a>(asked: &'a Asked<'_>) -> &'a [Want]
    ensures { result.now ≡ wanted_by (request_of asked.now) }
{
    match asked {
        Asked::Run(run) | Asked::Exec(run) => &run.wanted,
        Asked::Shrink(shrink) => slice::from_ref(&shrink.want),
        Asked::Format(_)
        | Asked::Check(_)
        | Asked::Compile(_)
        | Asked::Bench(..)
        | Asked::Debug(_)
        | Asked::Upgrade(_) => &[],
    }
}

/// The panel of the monitors that are wanted, which hear a run; or what the command line comes to without it. Those that aren't
/// wanted are dropped.
pub fn attach<M: Monitors>(alloc: Global, asked: &Asked<'_>, monitors: M) -> Result<M, Answered>
    ensures fault { Attaches (want_fault (map (λ (h : Handed). h.name) (M.handed monitors))
        (wanted_by (request_of asked.now))) result }
    ensures ears { IfOk result (λ p. M.ears p
        ≡ attached (wanted_by (request_of asked.now)) (M.handed monitors)) }
{
    match monitors.attach(alloc, wanted_by(asked)) {
        Ok(panel) => Ok(panel),
        Err(fault) => Err(panel_outcome(fault)),
    }
}

/// What the words ask for, or what the command line comes to without that.
pub fn ask<'a>(alloc: Global, words: &'a [String]) -> Result<Asked<'a>, Answered>
    ensures { AsksFor (asked (map string_bytes words.entry.now)) result }
{
    match read_words(alloc, words) {
        Ok(asked) => Ok(asked),
        Err(fault) => Err(words_outcome(fault)),
    }
}

// The first of a name, of what was found before and one more, which is dropped else.
fn or_named(
    found: Option<Box<dyn Monitor>>,
    more: Box<dyn Monitor>,
    name: &Name,
) -> Option<Box<dyn Monitor>>
    ensures { option_map (λ m. record { name = label m; begun = begun m }) result
        ≡ or_named name.now
        (option_map (λ m. record { name = label m; begun = begun m }) found)
        (record { name = label more; begun = begun more }) }
{
    if let Some(first) = found {
        return Some(first);
    }
    if more.name().as_bytes() == name.bytes() {
        return Some(more);
    }
    None
}

// The first monitor of a name; none exactly where there is none. The others are dropped. A trait object that another crate hands out
// counts as one that is made, so this one is found here.
fn first_named(handed: Vec<Box<dyn Monitor>>, name: &Name) -> Option<Box<dyn Monitor>>
    ensures { option_map (λ m. record { name = label m; begun = begun m }) result
        ≡ first_named name.now
        (map (λ m. record { name = label m; begun = begun m }) handed.items) }
{
    let mut found = None;
    for monitor in handed {
        found = or_named(found, monitor, name);
    }
    found
}

/// The one monitor that is wanted, which begins anew for each run; or what the command line comes to without it. The others are
/// dropped.
pub fn pick_wanted(
    want: &Want,
    monitors: Vec<Box<dyn Monitor>>,
) -> Result<Box<dyn Monitor>, Answered>
    ensures fault { Attaches (want_fault (map (λ (h : Handed). h.name)
        (map (λ m. record { name = label m; begun = begun m }) monitors.items)) (want.now ∷ []))
        result }
    ensures ears { IfOk result (λ m. alone (label m) (begun m want.now.limit)
        ≡ attached (want.now ∷ [])
        (map (λ m. record { name = label m; begun = begun m }) monitors.items)) }
{
    match first_named(monitors, &want.name) {
        Some(monitor) => Ok(monitor),
        None => Err(Answered::Usage),
    }
}
