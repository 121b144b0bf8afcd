// The waits of a body.

ghost use Rattle.std.specs.Prelude.{◌≡◌, ◌++◌, IfOk};
ghost use Rattle.flow_tree.specs.Body.{Body, Branches};
ghost use Rattle.flow_tree.specs.StmtView.{stmt_of, body_of, branch_of, branches_of, simple_of, else_of};
ghost use Rattle.flow_staterule.specs.StateRule.{wait_places, branch_places, else_places};

use flow_ast::stmt::{Stmt, StmtKind, When};
use flow_base::memory::NoMemory;
use flow_base::place::Place;
use std::alloc::Global;

/// The places of the waits of a body, in the order of the text.
pub fn wait_places(alloc: Global, stmts: &[Stmt]) -> Result<Vec<Place>, NoMemory>
    ensures { IfOk result (λ v. v.items ≡ wait_places (body_of stmts.now)) }
{
    let mut places = Vec::new(alloc);
    list_body(&mut places, stmts)?;
    Ok(places)
}

#[cycle(waits)]
fn list_body(places: &mut Vec<Place>, stmts: &[Stmt]) -> Result<(), NoMemory>
    ensures { IfOk result (λ _. places.new.items
        ≡ places.old.items ++ wait_places (body_of stmts.now)) }
{
    for stmt in stmts {
        list_stmt(places, stmt)?;
    }
    Ok(())
}

#[cycle(waits)]
fn list_stmt(places: &mut Vec<Place>, stmt: &Stmt) -> Result<(), NoMemory>
    ensures { IfOk result (λ _. (k : Body) → places.new.items ++ wait_places k
        ≡ places.old.items ++ wait_places (stmt_of stmt.now k)) }
{
    match &stmt.kind {
        StmtKind::Block(body) => {
            list_body(places, body)?;
            Ok(())
        }
        StmtKind::If(_, chosen, otherwise) => {
            list_body(places, chosen)?;
            list_else(places, otherwise)?;
            Ok(())
        }
        StmtKind::While(_, body) => {
            list_body(places, body)?;
            Ok(())
        }
        StmtKind::For(init, _, step, body) => {
            list_part(places, init)?;
            list_part(places, step)?;
            list_body(places, body)?;
            Ok(())
        }
        StmtKind::Loop(body) => {
            list_body(places, body)?;
            Ok(())
        }
        StmtKind::Try(body, _, _, handler) => {
            list_body(places, body)?;
            list_body(places, handler)?;
            Ok(())
        }
        StmtKind::Choose(branches) => {
            places.push(stmt.at)?;
            list_branches(places, branches)?;
            Ok(())
        }
        StmtKind::Wait(_) => {
            places.push(stmt.at)?;
            Ok(())
        }
        StmtKind::Break => Ok(()),
        StmtKind::Continue => Ok(()),
        StmtKind::Return(_) => Ok(()),
        StmtKind::Throw(_) => Ok(()),
        StmtKind::Declare(_, _) => Ok(()),
        StmtKind::Assign(_, _) => Ok(()),
        StmtKind::Modify(_, _) => Ok(()),
        StmtKind::Call(_, _) => Ok(()),
    }
}

#[cycle(waits)]
fn list_else(places: &mut Vec<Place>, body: &Option<Vec<Stmt>>) -> Result<(), NoMemory>
    ensures { IfOk result (λ _. places.new.items
        ≡ places.old.items ++ else_places (else_of body.now)) }
{
    match body {
        Some(body) => list_body(places, body),
        None => Ok(()),
    }
}

#[cycle(waits)]
fn list_part(places: &mut Vec<Place>, part: &Option<Box<Stmt>>) -> Result<(), NoMemory>
    ensures { IfOk result (λ _. places.new.items
        ≡ places.old.items ++ wait_places (simple_of part.now)) }
{
    match part {
        Some(stmt) => {
            list_stmt(places, stmt)?;
            Ok(())
        }
        None => Ok(()),
    }
}

#[cycle(waits)]
fn list_branches(places: &mut Vec<Place>, branches: &[When]) -> Result<(), NoMemory>
    ensures { IfOk result (λ _. places.new.items
        ≡ places.old.items ++ branch_places (branches_of branches.now)) }
{
    for branch in branches {
        list_branch(places, branch)?;
    }
    Ok(())
}

#[cycle(waits)]
fn list_branch(places: &mut Vec<Place>, branch: &When) -> Result<(), NoMemory>
    ensures { IfOk result (λ _. (bs : Branches) → places.new.items ++ branch_places bs
        ≡ places.old.items ++ branch_places (branch_of branch.now bs)) }
{
    list_body(places, &branch.body)?;
    Ok(())
}
