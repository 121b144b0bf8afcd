// Declarations and programs.

ghost use Rattle.std.specs.Prelude.{◌≡◌, IfOk, map};
ghost use Rattle.flow_tree.specs.GrammarStmt.{has_bare_return};
ghost use Rattle.flow_tree.specs.DeclView.{param_of, slot_of, record_of, function_of, actor_of};

use crate::stmt::{Stmt, copy_stmts};
use crate::ty::{Ident, Ty, copy_result};
use flow_base::memory::NoMemory;
use flow_base::name::Name;
use flow_base::place::Place;
use std::alloc::Global;

/// A parameter of a function or an actor, or a field of a record.
#[derive(Drop)]
pub struct Param {
    pub ty: Ty,
    pub name: Ident,
}

/// A place in an actor's frame that outlives a wait: a parameter or a state variable.
#[derive(Drop)]
pub struct Slot {
    pub ty: Ty,
    pub name: Name,
}

/// A record and its fields in order.
#[derive(Drop)]
pub struct RecordDecl {
    pub at: Place,
    pub name: Ident,
    pub fields: Vec<Param>,
}

/// In what statements stand. Functions of class text of version 1 have a grammar of their own.
#[derive(Clone, Copy, PartialEq, Eq)]
pub enum RoutineKind {
    Actor,
    Function,
    OldFunction,
}

impl RoutineKind {
    /// Whether `return;` stands there by the grammar.
    pub fn has_bare_return(self) -> bool
        ensures { result ≡ has_bare_return self }
    {
        match self {
            RoutineKind::Actor | RoutineKind::Function => true,
            RoutineKind::OldFunction => false,
        }
    }
}

/// A plain function. `close` is the place of its closing brace.
#[derive(Drop)]
pub struct FunctionDecl {
    pub at: Place,
    pub returns: Ty,
    pub name: Ident,
    pub params: Vec<Param>,
    pub body: Vec<Stmt>,
    pub close: Place,
}

/// An actor. `returns` is the type between the angle brackets of its result, which a void actor doesn't
/// have, and `close` is the place of its closing brace.
#[derive(Drop)]
pub struct ActorDecl {
    pub at: Place,
    pub returns: Option<Ty>,
    pub name: Ident,
    pub params: Vec<Param>,
    pub body: Vec<Stmt>,
    pub close: Place,
}

/// A declaration.
#[derive(Drop)]
pub enum Decl {
    Struct(RecordDecl),
    Function(FunctionDecl),
    Actor(ActorDecl),
}

/// A program: its declarations in text order, and the place of the end of the text.
#[derive(Drop)]
pub struct Program {
    pub decls: Vec<Decl>,
    pub end: Place,
}

impl Param {
    /// An equal parameter.
    pub fn copy(&self, alloc: Global) -> Result<Param, NoMemory>
        ensures { IfOk result (λ p. param_of p ≡ param_of self.now) }
    {
        Ok(Param {
            ty: self.ty.copy(alloc)?,
            name: self.name.copy(alloc)?,
        })
    }
}

impl Slot {
    /// An equal slot.
    pub fn copy(&self, alloc: Global) -> Result<Slot, NoMemory>
        ensures { IfOk result (λ s. slot_of s ≡ slot_of self.now) }
    {
        Ok(Slot {
            ty: self.ty.copy(alloc)?,
            name: self.name.copy(alloc)?,
        })
    }
}

/// Equal parameters in the same order.
pub fn copy_params(alloc: Global, params: &[Param]) -> Result<Vec<Param>, NoMemory>
    ensures { IfOk result (λ v. map param_of v.items ≡ map param_of params.now) }
{
    let mut copies = Vec::new(alloc);
    for param in params {
        copies.push(param.copy(alloc)?)?;
    }
    Ok(copies)
}

impl RecordDecl {
    /// An equal record.
    pub fn copy(&self, alloc: Global) -> Result<RecordDecl, NoMemory>
        ensures { IfOk result (λ r. record_of r ≡ record_of self.now) }
    {
        Ok(RecordDecl {
            at: self.at,
            name: self.name.copy(alloc)?,
            fields: copy_params(alloc, &self.fields)?,
        })
    }
}

impl FunctionDecl {
    /// An equal function.
    pub fn copy(&self, alloc: Global) -> Result<FunctionDecl, NoMemory>
        ensures { IfOk result (λ f. function_of f ≡ function_of self.now) }
    {
        let name = self.name.copy(alloc)?;
        let params = copy_params(alloc, &self.params)?;
        let body = copy_stmts(alloc, &self.body)?;
        Ok(FunctionDecl {
            at: self.at,
            returns: self.returns.copy(alloc)?,
            name,
            params,
            body,
            close: self.close,
        })
    }
}

impl ActorDecl {
    /// An equal actor.
    pub fn copy(&self, alloc: Global) -> Result<ActorDecl, NoMemory>
        ensures { IfOk result (λ a. actor_of a ≡ actor_of self.now) }
    {
        let name = self.name.copy(alloc)?;
        let params = copy_params(alloc, &self.params)?;
        let body = copy_stmts(alloc, &self.body)?;
        Ok(ActorDecl {
            at: self.at,
            returns: copy_result(alloc, &self.returns)?,
            name,
            params,
            body,
            close: self.close,
        })
    }
}
