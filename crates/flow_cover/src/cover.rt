// The branches of a program.

ghost use Rattle.std.specs.Prelude.{◌≡◌, suc, [], ◌∷◌, ◌++◌, map, length, decimal, slice_get, IfOk, OnOk};
ghost use Rattle.flow_tree.specs.DeclView.{decl_of};
ghost use Rattle.flow_explain.specs.Texts.{actor_texts};
ghost use Rattle.flow_cover.specs.Covers.{actor_branches, branch_line, branches_of, count_of, cover_text, wait_branches};

use flow_base::memory::NoMemory;
use flow_base::name::Name;
use flow_base::place::Place;
use flow_explain::{ActorText, WaitText, actor_texts};
use flow_tree::decl::Decl;
use itoa::Buffer;
use std::alloc::Global;
use std::marker::Model;

/// A branch of a wait: its actor's place among the program's actors, from 0, and its name; its wait's number there, from 1; its own
/// number, from 0; and where it goes on in the text. Contracts see it as these.
#[derive(Drop)]
pub struct Branch {
    pub text: usize,
    pub actor: Name,
    pub wait: usize,
    pub branch: usize,
    pub at: Place,
}

impl Model for Branch {
    ghost use Rattle.flow_cover.specs.Covers.{Branch};

    ghost Value = { Branch };

    ghost view = { λ b. record {
      text = b.text;
      actor = b.actor;
      wait = b.wait;
      branch = b.branch;
      at = b.at;
    } };
}

/// The actors of a program that are looked after, and the branches of their waits in the order of the text.
#[derive(Drop)]
pub struct Cover {
    texts: Vec<ActorText>,
    branches: Vec<Branch>,
}

impl Model for Cover {
    ghost use Rattle.std.specs.Prelude.{◌≡◌, List};
    ghost use Rattle.flow_explain.specs.Texts.{ActorText};
    ghost use Rattle.flow_cover.specs.Covers.{branches_of};

    ghost Value = { List ActorText };

    ghost view = { λ c. c.texts.items };

    ghost invariant = { λ c. c.branches.items ≡ branches_of c.texts.items };
}

// The branches of a wait.
fn add_wait(
    alloc: Global,
    branches: &mut Vec<Branch>,
    text: usize,
    actor: &Name,
    number: usize,
    wait: &WaitText,
) -> Result<(), NoMemory>
    ensures { OnOk result (branches.new.items
        ≡ branches.old.items ++ wait_branches text actor.now number wait.now) }
{
    for (branch, at) in wait.branches().iter().enumerate() {
        branches.push(Branch {
            text,
            actor: actor.copy(alloc)?,
            wait: number,
            branch,
            at: *at,
        })?;
    }
    Ok(())
}

// The branches of an actor.
fn add_actor(
    alloc: Global,
    branches: &mut Vec<Branch>,
    text: usize,
    actor: &ActorText,
) -> Result<(), NoMemory>
    ensures { OnOk result (branches.new.items
        ≡ branches.old.items ++ actor_branches text actor.now) }
{
    for (before, wait) in actor.waits().iter().enumerate() {
        add_wait(alloc, branches, text, actor.own_name(), before + 1, wait)?;
    }
    Ok(())
}

// The branches of actors.
fn branches_of(alloc: Global, texts: &[ActorText]) -> Result<Vec<Branch>, NoMemory>
    ensures { IfOk result (λ v. v.items ≡ branches_of texts.now) }
{
    let mut branches = Vec::new(alloc);
    for (text, actor) in texts.iter().enumerate() {
        add_actor(alloc, &mut branches, text, actor)?;
    }
    Ok(branches)
}

// Adds a word and a number.
fn push_number(text: &mut Vec<u8>, word: &[u8], n: u64) -> Result<(), NoMemory>
    ensures { OnOk result (text.new.items ≡ text.old.items ++ (word.now ++ decimal n)) }
{
    text.extend_from_slice(word)?;
    text.extend_from_slice(Buffer::new().format(n).as_bytes())?;
    Ok(())
}

// The count of a branch by its place, which is none where there is none.
fn count_at(runs: &[u64], place: usize) -> u64
    ensures { result ≡ count_of (slice_get runs.now place) }
{
    match runs.get(place).copied() {
        Some(runs) => runs,
        None => 0,
    }
}

// Adds the line of a branch that so many runs took.
fn push_branch(text: &mut Vec<u8>, branch: &Branch, runs: u64) -> Result<(), NoMemory>
    ensures { OnOk result (text.new.items ≡ text.old.items ++ branch_line branch.now runs) }
{
    text.extend_from_slice(b"branch ")?;
    text.extend_from_slice(branch.actor.bytes())?;
    push_number(text, b" ", branch.wait as u64)?;
    push_number(text, b" ", branch.branch as u64)?;
    push_number(text, b" at ", u64::from(branch.at.line))?;
    push_number(text, b":", u64::from(branch.at.column))?;
    push_number(text, b" runs ", runs)?;
    text.extend_from_slice(b"\n")?;
    Ok(())
}

impl Cover {
    /// No actor is looked after. It takes no memory.
    pub fn none(alloc: Global) -> Cover
        ensures { result ≡ [] }
    {
        Cover {
            texts: Vec::new(alloc),
            branches: Vec::new(alloc),
        }
    }

    /// The actors among some declarations.
    pub fn new(alloc: Global, decls: &[Decl]) -> Result<Cover, NoMemory>
        ensures { IfOk result (λ c. c ≡ actor_texts (map decl_of decls.now)) }
    {
        let texts = actor_texts(alloc, decls)?;
        let branches = branches_of(alloc, &texts)?;
        Ok(Cover { texts, branches })
    }

    /// The actors, in the order of the text.
    pub fn texts(&self) -> &[ActorText]
        ensures { result.now ≡ self.now }
    {
        &self.texts
    }

    /// The branches of their waits, in the order of the text.
    pub fn branches(&self) -> &[Branch]
        ensures { result.now ≡ branches_of self.now }
    {
        &self.branches
    }

    /// A line for each branch, with the number of the runs that took it.
    pub fn text(&self, alloc: Global, runs: &[u64]) -> Result<Vec<u8>, NoMemory>
        ensures { IfOk result (λ text. text.items ≡ cover_text (branches_of self.now) runs.now) }
    {
        let mut text = Vec::new(alloc);
        for (place, branch) in self.branches().iter().enumerate() {
            push_branch(&mut text, branch, count_at(runs, place))?;
        }
        Ok(text)
    }
}
