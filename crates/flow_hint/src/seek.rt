// The item of a program at a place, with what is declared there.

use crate::hint::is_there;
use flow_base::memory::NoMemory;
use flow_base::place::Place;
use flow_tree::decl::{Decl, Param, RecordDecl};
use flow_tree::stmt::{Into, Stmt, StmtKind, When};
use flow_tree::ty::Ident;
use flow_types::judge::{Setting, Vars};
use flow_types::program::{Returns, Routine};
use flow_types::top_names::TopNames;
use flow_types::type_view::TypeView;
use indexmap::IndexMap;
use std::alloc::Global;

/// What stands at a place that a rule names.
#[derive(Clone, Copy)]
pub enum Item<'a> {
    Record(&'a RecordDecl),
    Header(Routine<'a>),
    Close(Routine<'a>),
    Stmt(&'a Stmt),
    When(&'a When),
    Catch(&'a Ident),
}

/// A way through a program up to the item at a place.
#[derive(Drop)]
pub struct Seeker<'n, 'a> {
    pub setting: Setting<'n, 'a>,
    /// The names that were declared on the way: parameters, variables and errors of handlers.
    pub declared: Vec<&'a Ident>,
    /// The function or the actor, and none in a record.
    pub routine: Option<Routine<'a>>,
    at: Place,
}

/// A function or an actor as the rules see it, and none for a record.
pub fn routine_of(decl: &Decl) -> Option<Routine<'_>> {
    match decl {
        Decl::Struct(_) => None,
        Decl::Function(function) => Some(Routine {
            at: function.at,
            plain: true,
            returns: Returns::Function(&function.returns),
            name: &function.name,
            params: &function.params,
            body: &function.body,
            close: function.close,
        }),
        Decl::Actor(actor) => Some(Routine {
            at: actor.at,
            plain: false,
            returns: Returns::Actor(&actor.returns),
            name: &actor.name,
            params: &actor.params,
            body: &actor.body,
            close: actor.close,
        }),
    }
}

impl<'n, 'a> Seeker<'n, 'a> {
    /// Before the parameters of a routine, or in a record.
    pub fn new(
        alloc: Global,
        names: &'n TopNames<'a>,
        routine: Option<Routine<'a>>,
        at: Place,
    ) -> Seeker<'n, 'a> {
        let vars: Vars<'a> = IndexMap::new(alloc);
        let plain = match routine {
            Some(routine) => routine.plain,
            None => false,
        };
        Seeker {
            setting: Setting { names, vars, plain },
            declared: Vec::new(alloc),
            routine,
            at,
        }
    }

    /// The item of the routine that stands at the place.
    pub fn item(&mut self) -> Result<Option<Item<'a>>, NoMemory> {
        let Some(routine) = self.routine else {
            return Ok(None);
        };
        if is_there(self.at, routine.at) {
            return Ok(Some(Item::Header(routine)));
        }
        self.params(routine.params)?;
        let found = self.body(routine.body)?;
        if found.is_none() && is_there(self.at, routine.close) {
            return Ok(Some(Item::Close(routine)));
        }
        Ok(found)
    }

    fn params(&mut self, params: &'a [Param]) -> Result<(), NoMemory> {
        for param in params {
            self.declare(&param.name, TypeView::of(&param.ty))?;
        }
        Ok(())
    }

    fn declare(&mut self, name: &'a Ident, ty: TypeView<'a>) -> Result<(), NoMemory> {
        self.declared.push(name)?;
        self.setting.vars.insert(name.name.bytes(), ty)?;
        Ok(())
    }

    fn declare_into(&mut self, into: &'a Option<Into>) -> Result<(), NoMemory> {
        match into {
            Some(into) => self.declare(&into.name, TypeView::of(&into.ty)),
            None => Ok(()),
        }
    }

    // In statements of a scope of their own. What they declare is left, unless it is there.
    #[cycle(seek)]
    fn scoped(&mut self, body: &'a [Stmt]) -> Result<Option<Item<'a>>, NoMemory> {
        let count = self.setting.vars.len();
        let found = self.body(body)?;
        if found.is_none() {
            self.setting.vars.truncate(count);
        }
        Ok(found)
    }

    #[cycle(seek)]
    fn body(&mut self, body: &'a [Stmt]) -> Result<Option<Item<'a>>, NoMemory> {
        for stmt in body {
            let found = self.stmt(stmt)?;
            if found.is_some() {
                return Ok(found);
            }
        }
        Ok(None)
    }

    // In the body of an `else`, unless it was found before.
    #[cycle(seek)]
    fn otherwise(
        &mut self,
        found: Option<Item<'a>>,
        body: &'a Option<Vec<Stmt>>,
    ) -> Result<Option<Item<'a>>, NoMemory> {
        if found.is_some() {
            return Ok(found);
        }
        match body {
            Some(body) => self.scoped(body),
            None => Ok(None),
        }
    }

    // In the init or the step of a `for`, unless it was found before.
    #[cycle(seek)]
    fn part(
        &mut self,
        found: Option<Item<'a>>,
        part: &'a Option<Box<Stmt>>,
    ) -> Result<Option<Item<'a>>, NoMemory> {
        if found.is_some() {
            return Ok(found);
        }
        match part {
            Some(stmt) => self.stmt(stmt),
            None => Ok(None),
        }
    }

    // In the rounds of a `for`, unless it was found before. What its init declares is left behind them.
    #[cycle(seek)]
    fn rounds(
        &mut self,
        found: Option<Item<'a>>,
        count: usize,
        body: &'a [Stmt],
    ) -> Result<Option<Item<'a>>, NoMemory> {
        if found.is_some() {
            return Ok(found);
        }
        let found = self.body(body)?;
        if found.is_none() {
            self.setting.vars.truncate(count);
        }
        Ok(found)
    }

    // At a `catch` and in its handler, unless it was found before.
    #[cycle(seek)]
    fn handler(
        &mut self,
        found: Option<Item<'a>>,
        catch_at: Place,
        error: &'a Ident,
        handler: &'a [Stmt],
    ) -> Result<Option<Item<'a>>, NoMemory> {
        if found.is_some() {
            return Ok(found);
        }
        if is_there(self.at, catch_at) {
            return Ok(Some(Item::Catch(error)));
        }
        let count = self.setting.vars.len();
        self.declare(error, TypeView::Error)?;
        let found = self.body(handler)?;
        if found.is_none() {
            self.setting.vars.truncate(count);
        }
        Ok(found)
    }

    #[cycle(seek)]
    fn branches(&mut self, branches: &'a [When]) -> Result<Option<Item<'a>>, NoMemory> {
        for branch in branches {
            if is_there(self.at, branch.at) {
                return Ok(Some(Item::When(branch)));
            }
            let count = self.setting.vars.len();
            self.declare_into(&branch.waiting.into)?;
            let found = self.body(&branch.body)?;
            if found.is_some() {
                return Ok(found);
            }
            self.setting.vars.truncate(count);
        }
        Ok(None)
    }

    #[cycle(seek)]
    fn stmt(&mut self, stmt: &'a Stmt) -> Result<Option<Item<'a>>, NoMemory> {
        if is_there(self.at, stmt.at) && is_item(&stmt.kind) {
            self.declare_init(&stmt.kind)?;
            return Ok(Some(Item::Stmt(stmt)));
        }
        match &stmt.kind {
            StmtKind::Block(body) => self.scoped(body),
            StmtKind::If(_, chosen, otherwise) => {
                let found = self.scoped(chosen)?;
                self.otherwise(found, otherwise)
            }
            StmtKind::While(_, body) | StmtKind::Loop(body) => self.scoped(body),
            StmtKind::For(init, _, step, body) => {
                let count = self.setting.vars.len();
                let found = self.part(None, init)?;
                let found = self.part(found, step)?;
                self.rounds(found, count, body)
            }
            StmtKind::Try(body, catch_at, error, handler) => {
                let found = self.scoped(body)?;
                self.handler(found, *catch_at, error, handler)
            }
            StmtKind::Choose(branches) => self.branches(branches),
            StmtKind::Declare(into, _) => {
                self.declare(&into.name, TypeView::of(&into.ty))?;
                Ok(None)
            }
            StmtKind::Wait(waiting) => {
                self.declare_into(&waiting.into)?;
                Ok(None)
            }
            _ => Ok(None),
        }
    }

    // What the init of a `for` declares is there at its condition.
    fn declare_init(&mut self, kind: &'a StmtKind) -> Result<(), NoMemory> {
        if let StmtKind::For(Some(init), _, _, _) = kind {
            if let StmtKind::Declare(into, _) = &init.kind {
                self.declare(&into.name, TypeView::of(&into.ty))?;
            }
        }
        Ok(())
    }
}

// Whether a rule names the place of such a statement.
fn is_item(kind: &StmtKind) -> bool {
    match kind {
        StmtKind::Block(_) | StmtKind::Loop(_) | StmtKind::Try(_, _, _, _) => false,
        _ => true,
    }
}
