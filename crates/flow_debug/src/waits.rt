// The places of a program's waits.

ghost use Rattle.std.specs.Prelude.{◌≡◌, [], ◌∷◌, ◌++◌, map, slice_get, IfOk, OnOk};
ghost use Rattle.flow_tree.specs.DeclView.{decl_of};
ghost use Rattle.flow_debug.specs.Told.{places_of_waits, wait_of};
ghost use Rattle.flow_debug.specs.Waits.{waits_seen};

use flow_base::memory::NoMemory;
use flow_base::place::Place;
use flow_staterule::wait_places;
use flow_tree::decl::Decl;
use std::alloc::Global;

/// The places of the waits of each actor of a program, in the order of the text.
#[derive(Drop)]
pub struct WaitPlaces {
    actors: Vec<Vec<Place>>,
}

impl WaitPlaces {
    /// No place of any wait.
    pub fn none(alloc: Global) -> WaitPlaces
        ensures { waits_seen result ≡ [] }
    {
        WaitPlaces {
            actors: Vec::new(alloc),
        }
    }

    /// The places of the waits of each actor among some declarations, in the order of the text.
    pub fn new(alloc: Global, decls: &[Decl]) -> Result<WaitPlaces, NoMemory>
        ensures { IfOk result (λ w. waits_seen w ≡ places_of_waits (map decl_of decls.now)) }
    {
        let mut waits = WaitPlaces::none(alloc);
        for decl in decls {
            waits.add(alloc, decl)?;
        }
        Ok(waits)
    }

    // The places of what a declaration waits for, where it is an actor.
    fn add(&mut self, alloc: Global, decl: &Decl) -> Result<(), NoMemory>
        ensures { OnOk result (waits_seen self.new
            ≡ waits_seen self.old ++ places_of_waits (decl_of decl.now ∷ [])) }
    {
        match decl {
            Decl::Actor(actor) => {
                self.actors.push(wait_places(alloc, &actor.body)?)?;
                Ok(())
            }
            Decl::Struct(_) | Decl::Function(_) => Ok(()),
        }
    }

    /// The place of a wait of an actor: by the place of the actor among the actors, from 0, and the number of the wait in it, from 1.
    pub fn place(&self, actor: u32, group: u32) -> Option<Place>
        ensures { result ≡ wait_of (slice_get (waits_seen self.now) actor) group }
    {
        let Some(places) = self.actors.get(actor as usize) else {
            return None;
        };
        match group.checked_sub(1) {
            Some(number) => places.get(number as usize).copied(),
            None => None,
        }
    }
}
