// The variables in force, and what is known of them at a point.

ghost use Rattle.std.specs.Prelude.{◌≡◌, [], ◌∷◌, take, length, IfOk};
ghost use Rattle.flow_tree.specs.StmtView.{into_of};
ghost use Rattle.flow_staterule.specs.Uses.{behind, is_stale, use_of, named, declared};
ghost use Rattle.flow_staterule.specs.View.{in_force, Extends, listed};

use crate::ways::Reached;
use flow_ast::stmt::Into;
use flow_ast::ty::Ident;
use flow_base::memory::NoMemory;
use flow_base::name::Name;
use flow_base::place::Place;
use std::alloc::Global;

/// A variable in force, and where it is declared if it is a local.
#[derive(Clone, Copy)]
pub struct Variable<'a> {
    pub name: &'a Name,
    pub local: Option<Place>,
}

/// What is known at a point, of the variables in force numbered from the oldest: no walk leads here from the
/// declarations of those below `from`, and of the others those below `stale` have been led past a wait.
#[derive(Clone, Copy, PartialEq, Eq)]
pub struct Point {
    pub from: usize,
    pub stale: usize,
}

/// A use of a local: where it is used and declared, and whether it may come after a wait.
#[derive(Clone, Copy)]
pub struct Use {
    pub at: Place,
    pub declared: Place,
    pub stale: bool,
}

impl Point {
    /// The begin of a body.
    pub const BEGIN: Point = Point { from: 0, stale: 0 };

    /// The point to which these walks lead from here, with so many variables in force.
    pub fn behind(self, variables: usize, reached: Reached) -> Point
        ensures { result ≡ behind variables self reached }
    {
        if reached.waited {
            return Point {
                from: self.from,
                stale: variables,
            };
        }
        if reached.fresh {
            return self;
        }
        Point {
            from: variables,
            stale: variables,
        }
    }

    /// Whether the variable of this number is stale.
    pub fn is_stale(self, number: usize) -> bool
        ensures { result ≡ is_stale self number }
    {
        self.from <= number && number < self.stale
    }
}

/// The use of the variable of a number at a point, if it is a local.
pub fn use_of(at: Place, point: Point, local: Option<Place>, number: usize) -> Option<Use>
    ensures { listed result ≡ use_of at point local number }
{
    match local {
        None => None,
        Some(declared) => Some(Use {
            at,
            declared,
            stale: point.is_stale(number),
        }),
    }
}

/// The variables in force, the newest last.
#[derive(Drop)]
pub struct Variables<'a> {
    list: Vec<Variable<'a>>,
}

impl<'a> Variables<'a> {
    /// None.
    pub fn new(alloc: Global) -> Variables<'a>
        ensures { in_force result ≡ [] }
    {
        Variables {
            list: Vec::new(alloc),
        }
    }

    /// How many are in force.
    #[tactic(auto, using(crate::proofs::InForce::how_many))]
    pub fn count(&self) -> usize
        ensures items { result ≡ length self.now.list.items }
        ensures count { result ≡ length (in_force self.now) }
    {
        self.list.len()
    }

    /// Declares a variable.
    #[tactic(auto, using(crate::proofs::InForce::one_more, crate::proofs::InForce::take_before))]
    pub fn declare(&mut self, name: &'a Name, local: Option<Place>) -> Result<(), NoMemory>
        ensures declares { IfOk result (λ _. in_force self.new
            ≡ record { name = name.now; local = local } ∷ in_force self.old) }
        ensures keeps { IfOk result (λ _. Extends self.old self.new) }
    {
        self.list.push(Variable { name, local })?;
        Ok(())
    }

    /// Declares a variable of a statement.
    pub fn declare_into(&mut self, into: &'a Into) -> Result<(), NoMemory>
        ensures declares { IfOk result (λ _. in_force self.new
            ≡ declared (into_of into.now) ∷ in_force self.old) }
        ensures keeps { IfOk result (λ _. Extends self.old self.new) }
    {
        let local = if into.state { None } else { Some(into.name.at) };
        self.declare(&into.name.name, local)
    }

    /// Takes those out of force that were declared last, so that so many are left.
    pub fn leave(&mut self, count: usize)
        ensures { self.new.list.items ≡ take count self.old.list.items }
    {
        self.list.truncate(count);
    }

    /// The use that a mention of a name is at a point, if the newest variable of this name is a local.
    #[tactic(auto, using(crate::proofs::InForce::mention_all, crate::proofs::InForce::mention_next, crate::proofs::InForce::mention_here))]
    pub fn mention(&self, point: Point, name: &Ident) -> Option<Use>
        ensures { listed result ≡ named (in_force self.now) point name.now }
    {
        let mut number = self.list.len();
        while number > 0 {
            number -= 1;
            let variable = &self.list[number];
            if variable.name.bytes() == name.name.bytes() {
                return use_of(name.at, point, variable.local, number);
            }
        }
        None
    }
}
