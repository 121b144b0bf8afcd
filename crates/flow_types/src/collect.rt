// The variables of functions and actors, in the order of the text.

ghost use Rattle.std.specs.Prelude.{◌≡◌, ◌++◌, ◌∷◌, [], map, IfOk};
ghost use Rattle.std.specs.Option.{option_map};
ghost use Rattle.flow_tree.specs.DeclView.{param_of, params_of, decl_of};
ghost use Rattle.flow_tree.specs.StmtView.{into_of, stmt_of, body_of, branch_of, branches_of, simple_of, else_of};
ghost use Rattle.flow_types.specs.Variables.{param_variable, into_variable, into_variables, error_variable, body_variables, branch_variables, variables_of};
ghost use Rattle.flow_types.specs.VariablesView.{variable_of, variable_list, else_variables, AddsOf, AddsBranch};

use crate::variable::{VarKind, Variable};
use flow_base::memory::NoMemory;
use flow_tree::decl::{Decl, Param};
use flow_tree::stmt::{Into, Stmt, StmtKind, When};
use flow_tree::ty::{Ident, Ty};
use std::alloc::Global;

fn param_variable(alloc: Global, param: &Param) -> Result<Variable, NoMemory>
    ensures { IfOk result (λ v. variable_of v ≡ param_variable (param_of param.now)) }
{
    Ok(Variable {
        name: param.name.copy(alloc)?,
        kind: VarKind::Param,
        ty: param.ty.copy(alloc)?,
    })
}

fn into_variable(alloc: Global, into: &Into) -> Result<Variable, NoMemory>
    ensures { IfOk result (λ v. variable_of v ≡ into_variable (into_of into.now)) }
{
    Ok(Variable {
        name: into.name.copy(alloc)?,
        kind: if into.state {
            VarKind::State
        } else {
            VarKind::Local
        },
        ty: into.ty.copy(alloc)?,
    })
}

fn error_variable(alloc: Global, name: &Ident) -> Result<Variable, NoMemory>
    ensures { IfOk result (λ v. variable_of v ≡ error_variable name.now) }
{
    Ok(Variable {
        name: name.copy(alloc)?,
        kind: VarKind::Local,
        ty: Ty::Error,
    })
}

#[tactic(auto, using(crate::proofs::Adding::params_step, crate::proofs::Adding::params_end))]
fn add_params(alloc: Global, params: &[Param], found: &mut Vec<Variable>) -> Result<(), NoMemory>
    ensures { IfOk result (λ _. variable_list found.new.items
        ≡ variable_list found.old.items ++ map param_variable (params_of params.now)) }
{
    for param in params {
        found.push(param_variable(alloc, param)?)?;
    }
    Ok(())
}

#[tactic(auto, using(crate::proofs::Adding::map_end))]
fn add_into(alloc: Global, into: &Into, found: &mut Vec<Variable>) -> Result<(), NoMemory>
    ensures { IfOk result (λ _. variable_list found.new.items
        ≡ variable_list found.old.items ++ (into_variable (into_of into.now) ∷ [])) }
{
    found.push(into_variable(alloc, into)?)?;
    Ok(())
}

fn add_maybe(alloc: Global, into: &Option<Into>, found: &mut Vec<Variable>) -> Result<(), NoMemory>
    ensures { IfOk result (λ _. variable_list found.new.items
        ≡ variable_list found.old.items ++ into_variables (option_map into_of into.now)) }
{
    match into {
        Some(into) => add_into(alloc, into, found),
        None => Ok(()),
    }
}

#[tactic(auto, using(crate::proofs::Adding::map_end))]
fn add_error(alloc: Global, name: &Ident, found: &mut Vec<Variable>) -> Result<(), NoMemory>
    ensures { IfOk result (λ _. variable_list found.new.items
        ≡ variable_list found.old.items ++ (error_variable name.now ∷ [])) }
{
    found.push(error_variable(alloc, name)?)?;
    Ok(())
}

#[cycle(add)]
#[tactic(auto, using(crate::proofs::Adding::body_step, crate::proofs::Adding::body_end))]
fn add_body(alloc: Global, body: &[Stmt], found: &mut Vec<Variable>) -> Result<(), NoMemory>
    ensures { IfOk result (λ _. variable_list found.new.items
        ≡ variable_list found.old.items ++ body_variables (body_of body.now)) }
{
    for stmt in body {
        add_stmt(alloc, stmt, found)?;
    }
    Ok(())
}

#[cycle(add)]
fn add_else(
    alloc: Global,
    body: &Option<Vec<Stmt>>,
    found: &mut Vec<Variable>,
) -> Result<(), NoMemory>
    ensures { IfOk result (λ _. variable_list found.new.items
        ≡ variable_list found.old.items ++ else_variables (else_of body.now)) }
{
    match body {
        Some(body) => add_body(alloc, body, found),
        None => Ok(()),
    }
}

// The init or the step of a `for`.
#[cycle(add)]
fn add_part(
    alloc: Global,
    part: &Option<Box<Stmt>>,
    found: &mut Vec<Variable>,
) -> Result<(), NoMemory>
    ensures { IfOk result (λ _. variable_list found.new.items
        ≡ variable_list found.old.items ++ body_variables (simple_of part.now)) }
{
    match part {
        Some(stmt) => {
            add_stmt(alloc, stmt, found)?;
            Ok(())
        }
        None => Ok(()),
    }
}

#[cycle(add)]
fn add_branch(alloc: Global, branch: &When, found: &mut Vec<Variable>) -> Result<(), NoMemory>
    ensures { IfOk result (λ _. AddsBranch (branch_of branch.now) found.old.items found.new.items) }
{
    add_maybe(alloc, &branch.waiting.into, found)?;
    add_body(alloc, &branch.body, found)?;
    Ok(())
}

#[cycle(add)]
#[tactic(auto, using(crate::proofs::Adding::branches_step, crate::proofs::Adding::branches_end))]
fn add_branches(alloc: Global, branches: &[When], found: &mut Vec<Variable>) -> Result<(), NoMemory>
    ensures { IfOk result (λ _. variable_list found.new.items
        ≡ variable_list found.old.items ++ branch_variables (branches_of branches.now)) }
{
    for branch in branches {
        add_branch(alloc, branch, found)?;
    }
    Ok(())
}

#[cycle(add)]
fn add_stmt(alloc: Global, stmt: &Stmt, found: &mut Vec<Variable>) -> Result<(), NoMemory>
    ensures { IfOk result (λ _. AddsOf (stmt_of stmt.now) found.old.items found.new.items) }
{
    match &stmt.kind {
        StmtKind::Block(body) => {
            add_body(alloc, body, found)?;
            Ok(())
        }
        StmtKind::If(_, then, otherwise) => {
            add_body(alloc, then, found)?;
            add_else(alloc, otherwise, found)?;
            Ok(())
        }
        StmtKind::While(_, body) => {
            add_body(alloc, body, found)?;
            Ok(())
        }
        StmtKind::For(init, _, step, body) => {
            add_part(alloc, init, found)?;
            add_part(alloc, step, found)?;
            add_body(alloc, body, found)?;
            Ok(())
        }
        StmtKind::Loop(body) => {
            add_body(alloc, body, found)?;
            Ok(())
        }
        StmtKind::Try(body, _, error, handler) => {
            add_body(alloc, body, found)?;
            add_error(alloc, error, found)?;
            add_body(alloc, handler, found)?;
            Ok(())
        }
        StmtKind::Choose(branches) => {
            add_branches(alloc, branches, found)?;
            Ok(())
        }
        StmtKind::Declare(into, _) => {
            add_into(alloc, into, found)?;
            Ok(())
        }
        StmtKind::Wait(waiting) => {
            add_maybe(alloc, &waiting.into, found)?;
            Ok(())
        }
        StmtKind::Break => Ok(()),
        StmtKind::Continue => Ok(()),
        StmtKind::Return(_) => Ok(()),
        StmtKind::Throw(_) => Ok(()),
        StmtKind::Assign(_, _) => Ok(()),
        StmtKind::Modify(_, _) => Ok(()),
        StmtKind::Call(_, _) => Ok(()),
    }
}

/// The variables of a declaration: its parameters, and then the others in the order of the text. A
/// record has none.
pub fn variables_in(alloc: Global, decl: &Decl) -> Result<Vec<Variable>, NoMemory>
    ensures { IfOk result (λ v. variable_list v.items ≡ variables_of (decl_of decl.now)) }
{
    let mut found = Vec::new(alloc);
    match decl {
        Decl::Struct(_) => Ok(found),
        Decl::Function(function) => {
            add_params(alloc, &function.params, &mut found)?;
            add_body(alloc, &function.body, &mut found)?;
            Ok(found)
        }
        Decl::Actor(actor) => {
            add_params(alloc, &actor.params, &mut found)?;
            add_body(alloc, &actor.body, &mut found)?;
            Ok(found)
        }
    }
}
