// Variables.

use flow_tree::ty::{Ident, Ty};

/// What a variable is.
#[derive(Clone, Copy, PartialEq, Eq)]
pub enum VarKind {
    Param,
    State,
    Local,
}

/// A variable of a function or an actor.
#[derive(Drop)]
pub struct Variable {
    pub name: Ident,
    pub kind: VarKind,
    pub ty: Ty,
}
