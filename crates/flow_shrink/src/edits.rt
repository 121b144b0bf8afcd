// Edits that make a world smaller.

ghost use Rattle.std.specs.Prelude.{◌≡◌, ◌<◌, IfOk};
ghost use Rattle.std.proofs.lemmas.List.Edits.{length-remove};
ghost use Rattle.flow_worldfile.specs.Worlds.{IsInRange, seen};
ghost use Rattle.flow_shrink.specs.Editing.{Edit, TakesAPlace, line_goes};

use flow_base::memory::NoMemory;
use flow_worldfile::World0;
use std::alloc::Global;

/// An edit that makes a world smaller, wherever it can be made.
pub trait Edits {
    /// At how many places of a world it can be made, and the world after it at one of them.
    ghost edit: { Self → Edit };

    /// At how many places of a world it can be made.
    fn places(&self, world: &World0) -> usize
        ensures { result ≡ (edit self.now).places (seen world.now) };

    /// The world after it at a place, counted from 0 on; a world in range stays so.
    fn edited(&self, world: &World0, place: usize) -> Result<World0, NoMemory>
        requires range { IsInRange (seen world.now) }
        requires within { place < (edit self.now).places (seen world.now) }
        ensures edited { IfOk result (λ w. seen w ≡ (edit self.now).edited place (seen world.now)) }
        ensures range { IfOk result (λ w. IsInRange (seen w)) };

    /// After it there is one place less.
    ghost fewer: { (e : Self) → TakesAPlace (edit e) };
}

/// A copy of a world file.
pub fn copied(alloc: Global, world: &World0) -> Result<World0, NoMemory>
    ensures { IfOk result (λ copy. seen copy ≡ seen world.now) }
{
    Ok(World0 {
        seed: world.seed,
        words: world.words.to_vec(alloc)?,
        processes: world.processes,
        events: world.events,
        turns: world.turns,
        latency: world.latency,
        loss: world.loss,
        diskdelay: world.diskdelay,
        script: world.script.to_vec(alloc)?,
    })
}

/// A line of the script goes.
#[derive(Drop)]
pub struct LineGoes {
    pub alloc: Global,
}

impl Edits for LineGoes {
    ghost edit = { λ e. line_goes };

    ghost fewer = { λ e w k within. length-remove w.script k within };

    fn places(&self, world: &World0) -> usize {
        world.script.len()
    }

    fn edited(&self, world: &World0, place: usize) -> Result<World0, NoMemory> {
        let mut edited = copied(self.alloc, world)?;
        edited.script.remove(place);
        Ok(edited)
    }
}
