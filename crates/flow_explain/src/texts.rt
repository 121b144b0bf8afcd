// What the text of a program says of its actors.

ghost use Rattle.std.specs.Prelude.{◌≡◌, [], ◌∷◌, ◌++◌, map, IfOk, OnOk, slice_get, option_copied, Some};
ghost use Rattle.flow_base.specs.declared.place.Place.{Place};
ghost use Rattle.flow_tree.specs.Body.{Body, Branches};
ghost use Rattle.flow_tree.specs.StmtView.{stmt_of, body_of, branch_of, branches_of, simple_of, else_of};
ghost use Rattle.flow_tree.specs.DeclView.{decl_of};
ghost use Rattle.flow_explain.specs.Texts.{waits_in, branch_waits, else_waits, when_places, actor_texts};
ghost use Rattle.flow_explain.specs.Living.{text_named};
ghost use Rattle.flow_explain.specs.Phrases.{wait_of, wait_place, branch_place};

use flow_base::memory::NoMemory;
use flow_base::name::Name;
use flow_base::place::Place;
use flow_tree::decl::{ActorDecl, Decl};
use flow_tree::stmt::{Stmt, StmtKind, When};
use std::alloc::Global;
use std::marker::Model;

/// A wait in a text: its place, and the places at which its branches go on: of a `choose` those of its `when`, else its own.
/// Contracts see it as these.
#[derive(Drop)]
pub struct WaitText {
    at: Place,
    branches: Vec<Place>,
}

impl Model for WaitText {
    ghost use Rattle.flow_explain.specs.Texts.{WaitText};

    ghost Value = { WaitText };

    ghost view = { λ w. record { at = w.at; branches = w.branches.items } };
}

/// An actor in a text: its name, and its waits in the order of the text. Contracts see it as these.
#[derive(Drop)]
pub struct ActorText {
    name: Name,
    waits: Vec<WaitText>,
}

impl Model for ActorText {
    ghost use Rattle.flow_explain.specs.Texts.{ActorText};

    ghost Value = { ActorText };

    ghost view = { λ t. record { name = t.name; waits = t.waits.items } };
}

impl WaitText {
    // A wait that is no `choose`.
    fn alone(alloc: Global, at: Place) -> Result<WaitText, NoMemory>
        ensures { IfOk result (λ w. w ≡ record { at = at; branches = at ∷ [] }) }
    {
        let mut branches = Vec::new(alloc);
        branches.push(at)?;
        Ok(WaitText { at, branches })
    }

    // A `choose` with these branches.
    fn among(alloc: Global, at: Place, whens: &[When]) -> Result<WaitText, NoMemory>
        ensures { IfOk result (λ w. w
            ≡ record { at = at; branches = when_places (branches_of whens.now) }) }
    {
        let mut branches = Vec::new(alloc);
        for when in whens {
            branches.push(when.at)?;
        }
        Ok(WaitText { at, branches })
    }

    /// Where its branches go on.
    pub fn branches(&self) -> &[Place]
        ensures { result.now ≡ self.now.branches }
    {
        &self.branches
    }

    /// Where a branch goes on, by its number from 0.
    pub(crate) fn branch(&self, branch: u32) -> Option<Place>
        ensures { result ≡ slice_get self.now.branches branch }
    {
        self.branches.get(branch as usize).copied()
    }

    /// Where it stands.
    pub(crate) fn at(&self) -> Place
        ensures { result ≡ self.now.at }
    {
        self.at
    }
}

impl ActorText {
    /// Its waits, in the order of the text.
    pub fn waits(&self) -> &[WaitText]
        ensures { result.now ≡ self.now.waits }
    {
        &self.waits
    }

    /// Its name.
    pub fn own_name(&self) -> &Name
        ensures { result.now ≡ self.now.name }
    {
        &self.name
    }

    /// The bytes of its name.
    pub fn name(&self) -> &[u8]
        ensures { result.now ≡ self.now.name }
    {
        self.name.bytes()
    }

    /// A wait by its number, from 1.
    pub(crate) fn wait(&self, group: u32) -> Option<&WaitText>
        ensures { option_copied result ≡ wait_of (Some self.now) group }
    {
        match group.checked_sub(1) {
            Some(place) => self.waits.get(place as usize),
            None => None,
        }
    }

    fn new(alloc: Global, actor: &ActorDecl) -> Result<ActorText, NoMemory>
        ensures { IfOk result (λ t. t
            ≡ record { name = actor.now.name.name; waits = waits_in (body_of actor.now.body.items) }) }
    {
        let mut waits = Vec::new(alloc);
        list_body(alloc, &mut waits, &actor.body)?;
        Ok(ActorText {
            name: actor.name.name.copy(alloc)?,
            waits,
        })
    }
}

// Adds the text of a declaration, where it is an actor's.
fn add_decl(alloc: Global, texts: &mut Vec<ActorText>, decl: &Decl) -> Result<(), NoMemory>
    ensures { OnOk result (texts.new.items ≡ texts.old.items ++ actor_texts (decl_of decl.now ∷ [])) }
{
    match decl {
        Decl::Actor(actor) => {
            texts.push(ActorText::new(alloc, actor)?)?;
            Ok(())
        }
        Decl::Struct(_) | Decl::Function(_) => Ok(()),
    }
}

/// The actors among some declarations, in the order of the text.
pub fn actor_texts(alloc: Global, decls: &[Decl]) -> Result<Vec<ActorText>, NoMemory>
    ensures { IfOk result (λ v. v.items ≡ actor_texts (map decl_of decls.now)) }
{
    let mut texts = Vec::new(alloc);
    for decl in decls {
        add_decl(alloc, &mut texts, decl)?;
    }
    Ok(texts)
}

/// The place of a name among the actors.
pub fn text_named(texts: &[ActorText], name: &[u8]) -> Option<usize>
    ensures { result ≡ text_named texts.now name.now }
{
    texts.iter().position(|text| text.name() == name)
}

#[cycle(waits)]
fn list_body(alloc: Global, waits: &mut Vec<WaitText>, stmts: &[Stmt]) -> Result<(), NoMemory>
    ensures { IfOk result (λ _. waits.new.items
        ≡ waits.old.items ++ waits_in (body_of stmts.now)) }
{
    for stmt in stmts {
        list_stmt(alloc, waits, stmt)?;
    }
    Ok(())
}

#[cycle(waits)]
fn list_stmt(alloc: Global, waits: &mut Vec<WaitText>, stmt: &Stmt) -> Result<(), NoMemory>
    ensures { IfOk result (λ _. (k : Body) → waits.new.items ++ waits_in k
        ≡ waits.old.items ++ waits_in (stmt_of stmt.now k)) }
{
    match &stmt.kind {
        StmtKind::Block(body) => {
            list_body(alloc, waits, body)?;
            Ok(())
        }
        StmtKind::If(_, chosen, otherwise) => {
            list_body(alloc, waits, chosen)?;
            list_else(alloc, waits, otherwise)?;
            Ok(())
        }
        StmtKind::While(_, body) => {
            list_body(alloc, waits, body)?;
            Ok(())
        }
        StmtKind::For(init, _, step, body) => {
            list_part(alloc, waits, init)?;
            list_part(alloc, waits, step)?;
            list_body(alloc, waits, body)?;
            Ok(())
        }
        StmtKind::Loop(body) => {
            list_body(alloc, waits, body)?;
            Ok(())
        }
        StmtKind::Try(body, _, _, handler) => {
            list_body(alloc, waits, body)?;
            list_body(alloc, waits, handler)?;
            Ok(())
        }
        StmtKind::Choose(branches) => {
            waits.push(WaitText::among(alloc, stmt.at, branches)?)?;
            list_branches(alloc, waits, branches)?;
            Ok(())
        }
        StmtKind::Wait(_) => {
            waits.push(WaitText::alone(alloc, stmt.at)?)?;
            Ok(())
        }
        StmtKind::Break => Ok(()),
        StmtKind::Continue => Ok(()),
        StmtKind::Return(_) => Ok(()),
        StmtKind::Throw(_) => Ok(()),
        StmtKind::Declare(_, _) => Ok(()),
        StmtKind::Assign(_, _) => Ok(()),
        StmtKind::Modify(_, _) => Ok(()),
        StmtKind::Call(_, _) => Ok(()),
    }
}

#[cycle(waits)]
fn list_else(
    alloc: Global,
    waits: &mut Vec<WaitText>,
    body: &Option<Vec<Stmt>>,
) -> Result<(), NoMemory>
    ensures { IfOk result (λ _. waits.new.items
        ≡ waits.old.items ++ else_waits (else_of body.now)) }
{
    match body {
        Some(body) => list_body(alloc, waits, body),
        None => Ok(()),
    }
}

#[cycle(waits)]
fn list_part(
    alloc: Global,
    waits: &mut Vec<WaitText>,
    part: &Option<Box<Stmt>>,
) -> Result<(), NoMemory>
    ensures { IfOk result (λ _. waits.new.items
        ≡ waits.old.items ++ waits_in (simple_of part.now)) }
{
    match part {
        Some(stmt) => {
            list_stmt(alloc, waits, stmt)?;
            Ok(())
        }
        None => Ok(()),
    }
}

#[cycle(waits)]
fn list_branches(
    alloc: Global,
    waits: &mut Vec<WaitText>,
    branches: &[When],
) -> Result<(), NoMemory>
    ensures { IfOk result (λ _. waits.new.items
        ≡ waits.old.items ++ branch_waits (branches_of branches.now)) }
{
    for branch in branches {
        list_branch(alloc, waits, branch)?;
    }
    Ok(())
}

#[cycle(waits)]
fn list_branch(alloc: Global, waits: &mut Vec<WaitText>, branch: &When) -> Result<(), NoMemory>
    ensures { IfOk result (λ _. (bs : Branches) → waits.new.items ++ branch_waits bs
        ≡ waits.old.items ++ branch_waits (branch_of branch.now bs)) }
{
    list_body(alloc, waits, &branch.body)?;
    Ok(())
}
