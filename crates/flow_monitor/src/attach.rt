// Which monitors make a panel.

ghost use Rattle.std.specs.Prelude.{◌≡◌, ◌||◌, [], ◌∷◌, ◌++◌, option_map, map, position, Some, IfOk, OnOk, bytes_eq, slice_get};
ghost use Rattle.std.specs.String.{string_bytes};
ghost use Rattle.flow_monitor.specs.Attaching.{limit_of, is_among, has, joins, attached, is_before, fault_of, named_fault, item_fault, or_later, want_fault, AttachFails};
ghost use Rattle.flow_monitor.specs.Ears.{Listener};
ghost use Rattle.flow_monitor.specs.declared.attach.PanelFault.TheVariants.{OutOfMemory};

use crate::monitor::Monitor;
use crate::panel::{Audience, Panel, Seat};
use flow_base::memory::NoMemory;
use flow_base::name::Name;
use std::alloc::{AllocError, Global};

/// A monitor that is wanted, by its name, and its limit.
#[derive(Drop)]
pub struct Want {
    pub name: Name,
    pub limit: u64,
}

/// Why there is no panel: no monitor is handed in for this wanted item, it has an earlier item's name, or there was no
/// memory.
#[derive(Clone, Copy, PartialEq, Eq)]
pub enum PanelFault {
    NoMonitor(usize),
    Twice(usize),
    OutOfMemory,
}

impl From<NoMemory> for PanelFault {
    ghost from_gives = { λ _ fault. fault ≡ OutOfMemory };

    fn from(_error: NoMemory) -> PanelFault {
        PanelFault::OutOfMemory
    }
}

// The limit with which a name is wanted, if it is.
fn limit_of(wanted: &[Want], name: &[u8]) -> Option<u64>
    ensures { result ≡ limit_of wanted.now name.now }
{
    match wanted {
        [] => None,
        [first, rest @ ..] => {
            if first.name.bytes() == name {
                Some(first.limit)
            } else {
                limit_of(rest, name)
            }
        }
    }
}

// The first item of a name.
fn place_of(wanted: &[Want], name: &[u8]) -> Option<usize>
    ensures { result ≡ position (λ w. bytes_eq w.name name.now) wanted.now }
{
    wanted.iter().position(|want| want.name.bytes() == name)
}

fn either(found: bool, here: bool) -> bool
    ensures { result ≡ (found || here) }
{
    found || here
}

fn is_called(monitor: &Box<dyn Monitor>, name: &[u8]) -> bool
    ensures { result ≡ bytes_eq (label monitor.now) name.now }
{
    monitor.name().as_bytes() == name
}

// Whether a monitor of this name is handed in.
fn is_handed(handed: &[Box<dyn Monitor>], name: &[u8]) -> bool
    ensures { result ≡ is_among (map label handed.now) name.now }
{
    let mut found = false;
    for k in 0..handed.len() {
        found = either(found, is_called(&handed[k], name));
    }
    found
}

impl Seat {
    fn is_named(&self, name: &[u8]) -> bool
        ensures { result ≡ bytes_eq (string_bytes self.now.name) name.now }
    {
        self.name.as_bytes() == name
    }
}

// Whether one has this name.
fn has(seats: &[Seat], name: &[u8]) -> bool
    ensures { result ≡ has (map (λ s. record {
      name = string_bytes s.name;
      ear = option_map ear s.monitor;
    }) seats.now) name.now }
{
    let mut found = false;
    for k in 0..seats.len() {
        found = either(found, seats[k].is_named(name));
    }
    found
}

fn is_before(first: Option<usize>, k: usize) -> bool
    ensures { result ≡ is_before first k }
{
    match first {
        None => false,
        Some(first) => first < k,
    }
}

// Why an item fails of whose name another comes before it or not, and for which a monitor is handed in or not.
fn fault_of(twice: bool, there: bool, k: usize) -> Option<PanelFault>
    ensures { result ≡ fault_of twice there k }
{
    if twice {
        return Some(PanelFault::Twice(k));
    }
    if there {
        return None;
    }
    Some(PanelFault::NoMonitor(k))
}

// Why a wanted item of this name fails, if it does.
fn named_fault(
    handed: &[Box<dyn Monitor>],
    wanted: &[Want],
    k: usize,
    name: &[u8],
) -> Option<PanelFault>
    ensures { result ≡ named_fault (map label handed.now) wanted.now k name.now }
{
    let twice = is_before(place_of(wanted, name), k);
    let there = is_handed(handed, name);
    fault_of(twice, there, k)
}

// Why a wanted item fails, if it does.
fn item_fault(handed: &[Box<dyn Monitor>], wanted: &[Want], k: usize) -> Option<PanelFault>
    ensures { result ≡ item_fault (map label handed.now) wanted.now k (slice_get wanted.now k) }
{
    let Some(want) = wanted.get(k) else {
        return None;
    };
    named_fault(handed, wanted, k, want.name.bytes())
}

fn or_later(first: Option<PanelFault>, later: Option<PanelFault>) -> Option<PanelFault>
    ensures { result ≡ or_later first later }
{
    match first {
        Some(fault) => Some(fault),
        None => later,
    }
}

// The first wanted item that fails.
fn want_fault(handed: &[Box<dyn Monitor>], wanted: &[Want]) -> Option<PanelFault>
    ensures { result ≡ want_fault (map label handed.now) wanted.now }
{
    let mut first = None;
    for k in 0..wanted.len() {
        first = or_later(first, item_fault(handed, wanted, k));
    }
    first
}

// The place of a monitor that begins.
fn begun_seat(alloc: Global, mut monitor: Box<dyn Monitor>, limit: u64) -> Result<Seat, NoMemory>
    ensures name { IfOk result (λ s. string_bytes s.name ≡ label monitor) }
    ensures ear { IfOk result (λ s. option_map ear s.monitor ≡ Some (begun monitor limit)) }
{
    let name = String::from_str(alloc, monitor.name())?;
    monitor.begin(limit);
    Ok(Seat {
        name,
        monitor: Some(monitor),
    })
}

#[tactic(auto, using(crate::proofs::Joining::map_last))]
fn push_seat(seats: &mut Vec<Seat>, seat: Seat) -> Result<(), NoMemory>
    ensures { OnOk result (map {B = Listener} (λ s. record {
      name = string_bytes s.name;
      ear = option_map ear s.monitor;
    }) seats.new.items
        ≡ map {B = Listener} (λ s. record {
          name = string_bytes s.name;
          ear = option_map ear s.monitor;
        }) seats.old.items
        ++ record { name = string_bytes seat.name; ear = option_map ear seat.monitor } ∷ []) }
{
    seats.push(seat)?;
    Ok(())
}

// The monitor begins and joins.
fn push_begun(
    alloc: Global,
    monitor: Box<dyn Monitor>,
    limit: u64,
    seats: &mut Vec<Seat>,
) -> Result<(), NoMemory>
    ensures { OnOk result (map {B = Listener} (λ s. record {
      name = string_bytes s.name;
      ear = option_map ear s.monitor;
    }) seats.new.items
        ≡ map {B = Listener} (λ s. record {
          name = string_bytes s.name;
          ear = option_map ear s.monitor;
        }) seats.old.items
        ++ record { name = label monitor; ear = Some (begun monitor limit) } ∷ []) }
{
    let seat = begun_seat(alloc, monitor, limit)?;
    push_seat(seats, seat)?;
    Ok(())
}

// The monitor begins and joins, where its name is wanted and nobody there has it; else it is dropped.
#[tactic(auto, using(crate::proofs::Joining::joins_not, crate::proofs::Joining::joins_unwanted, crate::proofs::Joining::joins_wanted))]
fn join(
    alloc: Global,
    monitor: Box<dyn Monitor>,
    wanted: &[Want],
    seats: &mut Vec<Seat>,
) -> Result<(), NoMemory>
    ensures { OnOk result (map (λ s. record {
      name = string_bytes s.name;
      ear = option_map ear s.monitor;
    }) seats.new.items
        ≡ joins wanted.now (map (λ s. record {
          name = string_bytes s.name;
          ear = option_map ear s.monitor;
        }) seats.old.items)
        (record { name = label monitor; begun = begun monitor })) }
{
    if has(seats, monitor.name().as_bytes()) {
        return Ok(());
    }
    let Some(limit) = limit_of(wanted, monitor.name().as_bytes()) else {
        return Ok(());
    };
    push_begun(alloc, monitor, limit, seats)
}

// Those that are handed in join, in that order.
fn seats_of(
    alloc: Global,
    handed: Vec<Box<dyn Monitor>>,
    wanted: &[Want],
) -> Result<Vec<Seat>, NoMemory>
    ensures { IfOk result (λ seats. map (λ s. record {
      name = string_bytes s.name;
      ear = option_map ear s.monitor;
    }) seats.items ≡ attached wanted.now
        (map (λ m. record { name = label m; begun = begun m }) handed.items)) }
{
    let mut seats = Vec::new(alloc);
    for monitor in handed {
        join(alloc, monitor, wanted, &mut seats)?;
    }
    Ok(seats)
}

impl Panel {
    #[tactic(auto, using(crate::proofs::Joining::attach_faulty, crate::proofs::Joining::attach_wanting, crate::proofs::Joining::attach_made))]
    /// In the order handed in, the first monitor of each wanted name, begun with its limit. The others are dropped at once,
    /// and all of them where there is no panel. `NoMonitor` and `Twice` name the first wanted item that fails.
    pub fn attach(
        alloc: Global,
        handed: Vec<Box<dyn Monitor>>,
        wanted: &[Want],
    ) -> Result<Panel, PanelFault>
        ensures fault { AttachFails (want_fault (map label handed.items) wanted.now) result }
        ensures ears { IfOk result (λ p. ⟦<Panel as Audience>⟧.ears p ≡ attached wanted.now
            (map (λ m. record { name = label m; begun = begun m }) handed.items)) }
    {
        if let Some(fault) = want_fault(&handed, wanted) {
            return Err(fault);
        }
        let seats = seats_of(alloc, handed, wanted)?;
        Ok(Panel { seats })
    }
}
