// The unfinished actors, as lines tell of them.

ghost use Rattle.std.specs.Prelude.{◌≡◌, List, [], Some, map, get_or, set, option_copied, IfOk, OnOk};
ghost use Rattle.flow_explain.specs.Living.{Living, living_in, text_of, without, with_started, text_named, told_nothing, living_after, told_after};
ghost use Rattle.flow_explain.specs.Phrases.{actor_text};

use crate::texts::{ActorText, text_named};
use flow_base::ids::{ActorId, ProcId};
use flow_base::memory::NoMemory;
use flow_monitor::heard::process_after;
use flow_trace::line::Line;
use std::alloc::Global;
use std::collections::BTreeMap;
use std::marker::Model;

/// What lines told so far: the process of the last event line that names just one, and who lives in each process, by
/// number, with the place among the program's actors. Contracts see it as these.
#[derive(Drop)]
pub struct Telling {
    process: ProcId,
    living: Vec<BTreeMap<u64, usize>>,
}

impl Model for Telling {
    ghost use Rattle.std.specs.Prelude.{◌≡◌, map, length};
    ghost use Rattle.flow_explain.specs.Living.{Telling};

    ghost Value = { Telling };

    ghost view = { λ t. record {
      process = t.process.0;
      living = map (λ m. m.entries) t.living.items;
    } };

    ghost invariant = { λ t. length t.living.items ≡ 256 };
}

// For each process nobody.
fn nobody(alloc: Global) -> Result<Vec<BTreeMap<u64, usize>>, NoMemory>
    ensures { IfOk result (λ v. map (λ m. m.entries) v.items ≡ told_nothing.living) }
{
    let mut living = Vec::with_capacity(alloc, 256)?;
    for _process in 0..256_usize {
        living.push(BTreeMap::new(alloc))?;
    }
    Ok(living)
}

impl Telling {
    /// Before the first line.
    pub fn new(alloc: Global) -> Result<Telling, NoMemory>
        ensures { IfOk result (λ t. t ≡ told_nothing) }
    {
        Ok(Telling {
            process: ProcId(0),
            living: nobody(alloc)?,
        })
    }

    /// The place among the program's actors of an actor of the process of the last event, where it lives.
    pub fn place_of(&self, actor: ActorId) -> Option<usize>
        ensures { result ≡ text_of (living_in self.now.living self.now.process) actor.0 }
    {
        self.living[usize::from(self.process.0)]
            .get(&actor.0)
            .copied()
    }

    /// The text of an actor of the process of the last event, where it lives.
    pub fn text<'t>(&self, texts: &'t [ActorText], actor: ActorId) -> Option<&'t ActorText>
        ensures { option_copied result ≡ actor_text texts.now self.now actor.0 }
    {
        let place = self.living[usize::from(self.process.0)].get(&actor.0)?;
        texts.get(*place)
    }

    // An actor lives, by the place of its text.
    fn lives(&mut self, actor: ActorId, text: usize) -> Result<(), NoMemory>
        ensures { OnOk result (self.new ≡ record self.old {
          living = set self.old.living self.old.process
              (with_started actor.0 (Some text) (living_in self.old.living self.old.process));
        }) }
    {
        self.living[usize::from(self.process.0)].insert(actor.0, text)?;
        Ok(())
    }

    // An actor starts.
    fn starts(&mut self, actor: ActorId, text: Option<usize>) -> Result<(), NoMemory>
        ensures { OnOk result (self.new ≡ record self.old {
          living = set self.old.living self.old.process
              (with_started actor.0 text (living_in self.old.living self.old.process));
        }) }
    {
        match text {
            Some(place) => self.lives(actor, place),
            None => {
                self.ends(actor);
                Ok(())
            }
        }
    }

    // An actor is finished.
    fn ends(&mut self, actor: ActorId)
        ensures { self.new ≡ record self.old {
          living = set self.old.living self.old.process
              (without actor.0 (living_in self.old.living self.old.process));
        } }
    {
        self.living[usize::from(self.process.0)].remove(&actor.0);
    }

    // Nobody lives in a process any more.
    fn clear(&mut self, process: ProcId)
        ensures { self.new ≡ record self.old { living = set self.old.living process.0 [] } }
    {
        self.living[usize::from(process.0)].clear();
    }

    /// What is told with one line more.
    pub fn hear(&mut self, texts: &[ActorText], line: &Line) -> Result<(), NoMemory>
        ensures { OnOk result (self.new ≡ told_after texts.now line.now self.old) }
    {
        match line {
            Line::Start(actor, class) => self.starts(*actor, text_named(texts, class.bytes()))?,
            Line::Finish(actor) | Line::Fail(actor, _) => self.ends(*actor),
            Line::Kill(_, _, process) => self.clear(*process),
            _ => {}
        }
        self.process = process_after(self.process, line);
        Ok(())
    }
}
