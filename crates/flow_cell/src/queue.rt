// Lists of waiters: one for each cell that has any, in one slab, and for each waiter in a list its newest link there.

ghost use Rattle.std.specs.Prelude.{◌≡◌, ℕ, IsSome, OnErr, IfOk, Some, None, map, slice_get, if◌then◌else◌};
ghost use Rattle.std.specs.Option.{ForSome};
ghost use Rattle.std.specs.HashMap as hash;
ghost use Rattle.slab.specs.Slab.{get, ContainsKey};
ghost use Rattle.flow_numbered.specs.Links.{walk, pushed, longer, unlinked, shorter};
ghost use Rattle.flow_cell.specs.Waiting.{same_spot, spot_of, waiter_of};
ghost use Rattle.flow_cell.specs.declared.queue.Spot.{Spot};

use crate::waiter::Waiter;
use flow_base::ids::{ActorId, CellId};
use flow_base::memory::NoMemory;
use flow_numbered::links::{Ends, Link, push_last, unlink};
use slab::Slab;
use std::collections::HashMap;

/// A waiter at a cell.
#[derive(Clone, Copy, PartialEq, Eq, Hash)]
pub(crate) struct Spot {
    cell: u64,
    actor: u64,
    callback: u32,
}

/// A waiter in the list of its cell, and the key of the next older link of the same waiter there.
#[derive(Drop)]
pub(crate) struct Waiting {
    spot: Spot,
    older: Option<usize>,
}

impl Spot {
    pub(crate) fn new(cell: CellId, waiter: Waiter) -> Spot
        ensures { result ≡ spot_of cell.0 waiter }
    {
        Spot {
            cell: cell.0,
            actor: waiter.actor.0,
            callback: waiter.callback,
        }
    }
}

/// Adds a waiter behind the others of its cell, and gives the key of its link. Where there is no memory, nothing
/// changes.
pub(crate) fn join(
    links: &mut Slab<Link<Waiting>>,
    newest: &mut HashMap<Spot, usize>,
    ends: &mut Ends,
    spot: Spot,
) -> Result<usize, NoMemory>
    ensures vacant { IfOk result (λ key. get links.old key ≡ None) }
    ensures links { IfOk result (λ key. (k : ℕ) → get links.new k
        ≡ pushed (get links.old) ends.old.last key
        (record { spot = spot; older = hash.get same_spot newest.old spot }) k) }
    ensures ends { IfOk result (λ key. ends.new ≡ longer ends.old key) }
    ensures newest { IfOk result (λ key. (s : Spot) → hash.get same_spot newest.new s
        ≡ (if same_spot spot s then Some key else hash.get same_spot newest.old s)) }
    ensures links_stay { OnErr result ((k : ℕ) → get links.new k ≡ get links.old k) }
    ensures ends_stay { OnErr result (ends.new ≡ ends.old) }
    ensures newest_stays { OnErr result
        ((s : Spot) → hash.get same_spot newest.new s ≡ hash.get same_spot newest.old s) }
{
    newest.reserve(1)?;
    let older = newest.get(&spot).copied();
    let key = push_last(links, ends, Waiting { spot, older })?;
    match newest.insert(spot, key) {
        Ok(_) => Ok(key),
        Err(_) => unreachable!(),
    }
}

// Notes the newest link of a waiter, or that there is none.
fn note(newest: &mut HashMap<Spot, usize>, spot: Spot, key: Option<usize>)
    requires { IsSome (hash.get same_spot newest.old spot) }
    ensures { (s : Spot) → hash.get same_spot newest.new s
        ≡ (if same_spot spot s then key else hash.get same_spot newest.old s) }
{
    match key {
        Some(key) => {
            if let Some(place) = newest.get_mut(&spot) {
                *place = key;
            }
        }
        None => {
            newest.remove(&spot);
        }
    }
}

/// Removes the newest link of a waiter that waits at the cell.
pub(crate) fn leave(
    links: &mut Slab<Link<Waiting>>,
    newest: &mut HashMap<Spot, usize>,
    ends: &mut Ends,
    spot: Spot,
)
    requires there { IsSome (hash.get same_spot newest.old spot) }
    requires link { ForSome (hash.get same_spot newest.old spot)
        (λ key. ContainsKey links.old key) }
    ensures links { ForSome (hash.get same_spot newest.old spot)
        (λ key. ForSome (get links.old key) (λ l. (k : ℕ)
        → get links.new k ≡ unlinked (get links.old) l key k)) }
    ensures ends { ForSome (hash.get same_spot newest.old spot)
        (λ key. ForSome (get links.old key) (λ l. ends.new ≡ shorter ends.old l)) }
    ensures newest { ForSome (hash.get same_spot newest.old spot)
        (λ key. ForSome (get links.old key) (λ l. (s : Spot) → hash.get same_spot newest.new s
        ≡ (if same_spot spot s then l.item.older else hash.get same_spot newest.old s))) }
{
    let key = *newest.get(&spot).unwrap();
    let waiting = unlink(links, ends, key);
    note(newest, spot, waiting.older);
}

impl Waiting {
    /// Who waits.
    pub(crate) fn waiter(&self) -> Waiter
        ensures { result ≡ waiter_of self.now }
    {
        Waiter {
            actor: ActorId(self.spot.actor),
            callback: self.spot.callback,
        }
    }
}

/// The waiter at a place from 0 along the links from a key on, of at most so many links.
pub(crate) fn waiter_from(
    links: &Slab<Link<Waiting>>,
    from: Option<usize>,
    most: usize,
    place: usize,
) -> Option<Waiter>
    ensures { result ≡ slice_get (map waiter_of (walk (get links.now) most from)) place }
{
    if place >= most {
        return None;
    }
    let mut key = from;
    for _ in 0..place {
        key = links.get(key?)?.after;
    }
    Some(links.get(key?)?.item.waiter())
}
