// What a heap notes of unfinished actors.

ghost use Rattle.std.specs.Prelude.{◌≡◌, ℕ, ◌<◌, nat_eq, [], is_some, IsSome, OnOk, None, Some, true, if◌then◌else◌};
ghost use Rattle.std.specs.Option.{ForSome};
ghost use Rattle.flow_numbered.specs.Numbered.{thing, removed, with_thing};
ghost use Rattle.flow_cancel.specs.Heap.{owner, owner_of, with_new, new_note};
ghost use Rattle.std.specs.HashMap as hash;
ghost use Rattle.flow_cancel.specs.Actors.{owners_with, owners_without};
ghost use Rattle.std.specs.HashMap.{spare};

use flow_base::ids::{ActorId, CellId};
use flow_base::memory::NoMemory;
use flow_numbered::numbered::Numbered;
use std::alloc::Global;
use std::collections::HashMap;
use std::marker::Model;

/// An unfinished actor: its result, if it has one, and whether it is marked as cancelled.
#[derive(Clone, Copy, PartialEq, Eq, Drop)]
pub struct Note {
    pub result: Option<CellId>,
    pub marked: bool,
}

/// The unfinished actors by number, and the actor of each result.
#[derive(Drop)]
pub(crate) struct Actors {
    notes: Numbered<Note>,
    owners: HashMap<u64, u64>,
}

impl Model for Actors {
    ghost use Rattle.std.specs.Prelude.{nat_eq};
    ghost use Rattle.std.specs.HashMap as hash;
    ghost use Rattle.flow_numbered.specs.Numbered.{Store};
    ghost use Rattle.flow_cancel.specs.declared.actors.Note.{Note};

    ghost Value = { Store Note };

    ghost use Rattle.flow_cancel.specs.Actors.{IsTold};

    ghost view = { λ s. s.notes };

    ghost invariant = { λ s. IsTold (λ k. hash.get nat_eq s.owners k) s.notes.things };
}

// Tells the actor of a result, if it has one, where there is room for it.
fn own(owners: &mut HashMap<u64, u64>, cell: Option<CellId>, actor: ActorId)
    requires { 0 < spare owners.old }
    ensures { (k : ℕ) → hash.get nat_eq owners.new k
        ≡ owners_with cell actor.0 (λ n. hash.get nat_eq owners.old n) k }
{
    if let Some(cell) = cell {
        match owners.insert(cell.0, actor.0) {
            Ok(_) => (),
            Err(_) => unreachable!(),
        }
    }
}

// Tells the actor of a result, if it had one, no more.
fn disown(owners: &mut HashMap<u64, u64>, cell: Option<CellId>)
    ensures { (k : ℕ) → hash.get nat_eq owners.new k
        ≡ owners_without cell (λ n. hash.get nat_eq owners.old n) k }
{
    if let Some(cell) = cell {
        owners.remove(&cell.0);
    }
}

impl Actors {
    /// No actor, and no number given.
    pub(crate) fn new(alloc: Global) -> Actors
        ensures { result ≡ record { things = []; greatest = 0 } }
    {
        Actors {
            notes: Numbered::new(alloc),
            owners: HashMap::new(alloc),
        }
    }

    /// Notes an actor above all that were noted, whose result, if it has one, is that of no other.
    pub(crate) fn add(&mut self, actor: ActorId, cell: Option<CellId>) -> Result<(), NoMemory>
        requires above { self.old.greatest < actor.0 }
        requires alone { owner_of cell self.old.things ≡ None }
        ensures { OnOk result (self.new ≡ with_new self.old actor.0 (new_note cell)) }
    {
        let note = Note {
            result: cell,
            marked: false,
        };
        self.owners.reserve(1)?;
        self.notes.insert(actor.0, note)?;
        own(&mut self.owners, cell, actor);
        Ok(())
    }

    /// Whether an actor is unfinished.
    pub(crate) fn contains(&self, actor: ActorId) -> bool
        ensures { result ≡ is_some (thing self.now.things actor.0) }
    {
        self.notes.contains(actor.0)
    }

    /// What is noted of an actor.
    pub(crate) fn note(&self, actor: ActorId) -> Note
        requires { IsSome (thing self.now.things actor.0) }
        ensures { thing self.now.things actor.0 ≡ Some result }
    {
        *self.notes.get(actor.0).unwrap()
    }

    /// Marks an actor as cancelled.
    pub(crate) fn mark(&mut self, actor: ActorId)
        requires { IsSome (thing self.old.things actor.0) }
        ensures { ForSome (thing self.old.things actor.0)
            (λ n. self.new ≡ with_thing self.old actor.0 (record n { marked = true })) }
    {
        self.notes.get_mut(actor.0).marked = true;
    }

    /// Forgets an actor.
    pub(crate) fn remove(&mut self, actor: ActorId)
        requires { IsSome (thing self.old.things actor.0) }
        ensures { self.new ≡ record self.old { things = removed self.old.things actor.0 } }
    {
        let note = self.notes.remove(actor.0);
        disown(&mut self.owners, note.result);
    }

    /// The actor whose result a cell is. No actor has the number 0.
    pub(crate) fn owner(&self, cell: CellId) -> Option<u64>
        ensures { result ≡ owner cell.0 self.now.things }
    {
        let owner = self.owners.get(&cell.0).copied().unwrap_or(0);
        match self.notes.get(owner) {
            Some(_) => Some(owner),
            None => None,
        }
    }

    /// The greatest number that an actor ever had, 0 at first.
    pub(crate) fn greatest(&self) -> u64
        ensures { result ≡ self.now.greatest }
    {
        self.notes.greatest()
    }

    /// Forgets all actors. The greatest number stays.
    pub(crate) fn clear(&mut self)
        ensures { self.new ≡ record self.old { things = [] } }
    {
        self.notes.clear();
        self.owners.clear();
    }
}
