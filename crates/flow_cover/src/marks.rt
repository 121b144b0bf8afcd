// What is kept of the lines of a run.

ghost use Rattle.std.specs.Prelude.{◌≡◌, false, slice_get, IfOk, OnOk};
ghost use Rattle.flow_cover.specs.Covers.{branches_of, marked, marks_after, no_marks, takes, takes_one};

use crate::cover::{Branch, Cover};
use flow_base::memory::NoMemory;
use flow_explain::living::Telling;
use flow_trace::line::Line;
use std::alloc::Global;
use std::marker::Model;

/// What the lines of a run told, and of each branch that is looked after whether one of them took it. Contracts see it as these.
#[derive(Drop)]
pub struct Marks {
    telling: Telling,
    taken: Vec<bool>,
}

impl Model for Marks {
    ghost use Rattle.flow_cover.specs.Covers.{Marks};

    ghost Value = { Marks };

    ghost view = { λ m. record { telling = m.telling; taken = m.taken.items } };
}

// Whether an actor that lives takes a branch by this line.
fn takes(telling: &Telling, line: &Line, branch: &Branch) -> bool
    ensures { result ≡ takes telling.now line.now branch.now }
{
    match line {
        Line::Take(actor, wait, number) => {
            telling.place_of(*actor) == Some(branch.text)
                && *wait as usize == branch.wait
                && *number as usize == branch.branch
        }
        _ => false,
    }
}

// Whether one takes the branch at this place.
fn takes_at(telling: &Telling, line: &Line, branches: &[Branch], place: usize) -> bool
    ensures { result ≡ takes_one telling.now line.now (slice_get branches.now place) }
{
    match branches.get(place) {
        Some(branch) => takes(telling, line, branch),
        None => false,
    }
}

impl Marks {
    /// Before the first line of a run.
    pub fn new(alloc: Global, cover: &Cover) -> Result<Marks, NoMemory>
        ensures { IfOk result (λ m. m ≡ no_marks cover.now) }
    {
        Ok(Marks {
            telling: Telling::new(alloc)?,
            taken: vec![in alloc; false; cover.branches().len()]?,
        })
    }

    // Marks the branches that a line takes.
    fn mark(&mut self, branches: &[Branch], line: &Line)
        ensures { self.new ≡ record self.old {
          taken = marked self.old.telling line.now branches.now 0 self.old.taken;
        } }
    {
        for k in 0..self.taken.len() {
            let takes = takes_at(&self.telling, line, branches, k);
            self.taken[k] = self.taken[k] | takes;
        }
    }

    /// Hears a line.
    pub fn hear(&mut self, cover: &Cover, line: &Line) -> Result<(), NoMemory>
        ensures { OnOk result (self.new ≡ marks_after cover.now line.now self.old) }
    {
        self.mark(cover.branches(), line);
        self.telling.hear(cover.texts(), line)
    }

    /// Of each branch whether it was taken.
    pub fn taken(self) -> Vec<bool>
        ensures { result.items ≡ self.taken }
    {
        self.taken
    }
}
