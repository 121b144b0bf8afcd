// Types, and names with their places.

ghost use Rattle.std.specs.Prelude.{◌≡◌, IfOk};
ghost use Rattle.flow_tree.specs.View.{type_of, result_of};

use flow_base::memory::NoMemory;
use flow_base::name::Name;
use flow_base::place::Place;
use std::alloc::Global;

/// A name and the place of its first byte.
#[derive(Drop)]
pub struct Ident {
    pub name: Name,
    pub at: Place,
}

/// A type as it is written. `Named` is a record's name.
#[derive(Drop)]
pub enum Ty {
    Int,
    Bool,
    Str,
    Void,
    Error,
    Named(Name),
    Future(Box<Ty>),
    FutureStream(Box<Ty>),
    Promise(Box<Ty>),
    PromiseStream(Box<Ty>),
    Vector(Box<Ty>),
}

impl Ident {
    /// An equal name at the same place.
    pub fn copy(&self, alloc: Global) -> Result<Ident, NoMemory>
        ensures { IfOk result (λ i. i ≡ self.now) }
    {
        Ok(Ident {
            name: self.name.copy(alloc)?,
            at: self.at,
        })
    }
}

impl Ty {
    /// An equal type.
    pub fn copy(&self, alloc: Global) -> Result<Ty, NoMemory>
        ensures { IfOk result (λ t. type_of t ≡ type_of self.now) }
    {
        match self {
            Ty::Int => Ok(Ty::Int),
            Ty::Bool => Ok(Ty::Bool),
            Ty::Str => Ok(Ty::Str),
            Ty::Void => Ok(Ty::Void),
            Ty::Error => Ok(Ty::Error),
            Ty::Named(name) => Ok(Ty::Named(name.copy(alloc)?)),
            Ty::Future(of) => Ok(Ty::Future(Box::new(alloc, of.copy(alloc)?)?)),
            Ty::FutureStream(of) => Ok(Ty::FutureStream(Box::new(alloc, of.copy(alloc)?)?)),
            Ty::Promise(of) => Ok(Ty::Promise(Box::new(alloc, of.copy(alloc)?)?)),
            Ty::PromiseStream(of) => Ok(Ty::PromiseStream(Box::new(alloc, of.copy(alloc)?)?)),
            Ty::Vector(of) => Ok(Ty::Vector(Box::new(alloc, of.copy(alloc)?)?)),
        }
    }
}

/// The equal result of an actor, where there is one: a void actor has none.
pub fn copy_result(alloc: Global, gives: &Option<Ty>) -> Result<Option<Ty>, NoMemory>
    ensures { IfOk result (λ t. result_of t ≡ result_of gives.now) }
{
    match gives {
        None => Ok(None),
        Some(ty) => Ok(Some(ty.copy(alloc)?)),
    }
}
