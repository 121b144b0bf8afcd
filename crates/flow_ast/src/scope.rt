// What is in force where an expression stands.

use flow_tree::decl::{ActorDecl, FunctionDecl, Param, RecordDecl};
use flow_tree::ty::Ty;

/// The records, functions and actors of a program, and the variables in force.
#[derive(Drop)]
pub struct Scope {
    pub records: Vec<RecordDecl>,
    pub functions: Vec<FunctionDecl>,
    pub actors: Vec<ActorDecl>,
    pub vars: Vec<Param>,
}

/// The type of an expression, or that it has none.
#[derive(Drop)]
pub enum ExprType {
    Is(Ty),
    None,
}
