// What is warned of in a program.

ghost use Rattle.std.specs.Prelude.{◌≡◌, ◌++◌, [], map, if◌then◌else◌, IfOk};
ghost use Rattle.std.specs.declared.option.Option.TheVariants.{Some};
ghost use Rattle.std.specs.Option.{option_map, option_copied};
ghost use Rattle.flow_tree.specs.View.{type_of, expr_of};
ghost use Rattle.flow_tree.specs.Body.{Body, Branches, ForStmt, End};
ghost use Rattle.flow_tree.specs.StmtView.{into_of, stmt_of, body_of, branch_of, branches_of, simple_of, else_of};
ghost use Rattle.flow_tree.specs.DeclView.{decl_of};
ghost use Rattle.flow_warning.specs.Walks.{alone};
ghost use Rattle.flow_warning.specs.Warnings.{held, lost, lost_of, lost_of_wait, endless, endless_for, always, endless_while, lost_of_init, warnings, branch_warnings, else_warnings, decl_warnings, program_warnings};

use crate::walks::{Walks, alone, alone_part, alone_rounds};
use crate::warning::{Held, Warning};
use flow_base::memory::NoMemory;
use flow_base::place::Place;
use flow_tree::decl::Decl;
use flow_tree::expr::Expr;
use flow_tree::stmt::{Into, Stmt, StmtKind, When};
use flow_tree::ty::Ty;
use std::alloc::Global;

// What a variable of a type holds that ends with it.
fn held(ty: &Ty) -> Option<Held>
    ensures { result ≡ held (type_of ty.now) }
{
    match ty {
        Ty::Future(_) => Some(Held::Future),
        Ty::FutureStream(_) => Some(Held::Stream),
        Ty::Promise(_) => Some(Held::Promise),
        Ty::PromiseStream(_) => Some(Held::Promise),
        Ty::Int | Ty::Bool | Ty::Str | Ty::Void | Ty::Error | Ty::Named(_) => None,
        Ty::Vector(_) => None,
    }
}

// Adds what is lost of a local that is declared here, where these walks lead on from its declaration.
fn add_lost(found: &mut Vec<Warning>, held: Held, at: Place, walks: Walks) -> Result<(), NoMemory>
    ensures { IfOk result (λ _. found.new.items ≡ found.old.items ++ lost (Some held) at walks) }
{
    match walks.wait {
        Some(wait) => found.push(Warning::Lost { held, at, wait })?,
        None => {
            if walks.ends || walks.breaks || walks.continues || walks.leaves {
                found.push(Warning::Unused { held, at })?;
            }
        }
    }
    Ok(())
}

// What a declared variable holds that is lost with it: nothing, where it is a state variable.
fn losing(into: &Into) -> Option<Held>
    ensures { (at : Place) (w : Walks) → lost result at w
        ≡ (if into.now.state then [] else lost (held (type_of into.now.ty)) at w) }
{
    if into.state {
        return None;
    }
    held(&into.ty)
}

// Adds what is lost of a declared variable whose scope is this body.
fn add_into(found: &mut Vec<Warning>, into: &Into, scope: &[Stmt]) -> Result<(), NoMemory>
    ensures { IfOk result (λ _. found.new.items
        ≡ found.old.items ++ lost_of (into_of into.now) (body_of scope.now)) }
{
    match losing(into) {
        Some(held) => {
            let walks = alone(into.name.name.bytes(), scope);
            add_lost(found, held, into.name.at, walks)
        }
        None => Ok(()),
    }
}

// Adds what is lost of the variable of a wait, where it declares one.
fn add_wait(found: &mut Vec<Warning>, into: &Option<Into>, scope: &[Stmt]) -> Result<(), NoMemory>
    ensures { IfOk result (λ _. found.new.items
        ≡ found.old.items ++ lost_of_wait (option_map into_of into.now) (body_of scope.now)) }
{
    match into {
        Some(into) => add_into(found, into, scope),
        None => Ok(()),
    }
}

// Adds a loop without a condition that nothing ends, by its place and its round.
fn add_endless(found: &mut Vec<Warning>, at: Place, round: Walks) -> Result<(), NoMemory>
    ensures { IfOk result (λ _. found.new.items ≡ found.old.items ++ endless at round) }
{
    if round.breaks || round.leaves || round.wait.is_some() {
        return Ok(());
    }
    found.push(Warning::Endless { at })?;
    Ok(())
}

fn add_endless_for(
    found: &mut Vec<Warning>,
    at: Place,
    test: &Option<Expr>,
    round: Walks,
) -> Result<(), NoMemory>
    ensures { IfOk result (λ _. found.new.items
        ≡ found.old.items ++ endless_for at (option_map expr_of test.now) round) }
{
    match test {
        Some(_) => Ok(()),
        None => add_endless(found, at, round),
    }
}

// Whether a condition is always true.
fn is_always(test: &Expr) -> bool
    ensures { result ≡ always (expr_of test.now) }
{
    match test {
        Expr::Bool(value) => *value,
        _ => false,
    }
}

fn add_endless_while(
    found: &mut Vec<Warning>,
    at: Place,
    test: &Expr,
    round: Walks,
) -> Result<(), NoMemory>
    ensures { IfOk result (λ _. found.new.items
        ≡ found.old.items ++ endless_while at (expr_of test.now) round) }
{
    if is_always(test) {
        return add_endless(found, at, round);
    }
    Ok(())
}

// What the init of a `for` declares, where it declares something.
fn init_into(init: &Option<Box<Stmt>>) -> Option<&Into>
    ensures { (scope : Body) → lost_of_init (simple_of init.now) scope
        ≡ lost_of_wait (option_map into_of (option_copied result)) scope }
{
    match init {
        Some(stmt) => match &stmt.kind {
            StmtKind::Declare(into, _) => Some(into),
            _ => None,
        },
        None => None,
    }
}

// Adds what is lost of the init of a `for`, with the rest of the `for` as its scope.
fn add_init(
    found: &mut Vec<Warning>,
    at: Place,
    init: &Option<Box<Stmt>>,
    test: &Option<Expr>,
    step: &Option<Box<Stmt>>,
    body: &[Stmt],
) -> Result<(), NoMemory>
    ensures { IfOk result (λ _. found.new.items ≡ found.old.items
        ++ lost_of_init (simple_of init.now) (ForStmt at End (option_map expr_of test.now)
        (simple_of step.now) (body_of body.now) End)) }
{
    let Some(into) = init_into(init) else {
        return Ok(());
    };
    match losing(into) {
        Some(held) => {
            let walks = alone_rounds(into.name.name.bytes(), test, step, body);
            add_lost(found, held, into.name.at, walks)
        }
        None => Ok(()),
    }
}

// Adds what is warned of in these statements.
#[tactic(auto, using(crate::proofs::Found::body_next, crate::proofs::Found::body_end))]
#[cycle(warnings)]
fn add_body(found: &mut Vec<Warning>, stmts: &[Stmt]) -> Result<(), NoMemory>
    ensures { IfOk result (λ _. found.new.items
        ≡ found.old.items ++ warnings (body_of stmts.now)) }
{
    for (number, stmt) in stmts.iter().enumerate() {
        add_stmt(found, stmt, &stmts[number + 1..])?;
    }
    Ok(())
}

// Adds what is warned of in a statement with these behind it in its scope.
#[cycle(warnings)]
fn add_stmt(found: &mut Vec<Warning>, stmt: &Stmt, behind: &[Stmt]) -> Result<(), NoMemory>
    ensures { IfOk result (λ _. found.new.items ++ warnings (body_of behind.now)
        ≡ found.old.items ++ warnings (stmt_of stmt.now (body_of behind.now))) }
{
    match &stmt.kind {
        StmtKind::Block(body) => add_body(found, body),
        StmtKind::If(_, chosen, otherwise) => {
            add_body(found, chosen)?;
            add_else(found, otherwise)
        }
        StmtKind::While(test, body) => {
            add_endless_while(found, stmt.at, test, alone(b"", body))?;
            add_body(found, body)
        }
        StmtKind::For(init, test, step, body) => {
            add_init(found, stmt.at, init, test, step, body)?;
            let round = alone(b"", body).round().onward(alone_part(b"", step));
            add_endless_for(found, stmt.at, test, round)?;
            add_body(found, body)
        }
        StmtKind::Loop(body) => {
            add_endless(found, stmt.at, alone(b"", body))?;
            add_body(found, body)
        }
        StmtKind::Try(body, _, _, handler) => {
            add_body(found, body)?;
            add_body(found, handler)
        }
        StmtKind::Choose(branches) => add_branches(found, branches),
        StmtKind::Declare(into, _) => add_into(found, into, behind),
        StmtKind::Wait(waiting) => add_wait(found, &waiting.into, behind),
        StmtKind::Break => Ok(()),
        StmtKind::Continue => Ok(()),
        StmtKind::Return(_) => Ok(()),
        StmtKind::Throw(_) => Ok(()),
        StmtKind::Assign(_, _) => Ok(()),
        StmtKind::Modify(_, _) => Ok(()),
        StmtKind::Call(_, _) => Ok(()),
    }
}

// Adds what is warned of in the body of an `else`.
#[cycle(warnings)]
fn add_else(found: &mut Vec<Warning>, body: &Option<Vec<Stmt>>) -> Result<(), NoMemory>
    ensures { IfOk result (λ _. found.new.items
        ≡ found.old.items ++ else_warnings (else_of body.now)) }
{
    match body {
        Some(body) => add_body(found, body),
        None => Ok(()),
    }
}

// Adds what is warned of in the branches of a `choose`.
#[tactic(auto, using(crate::proofs::Found::branches_next, crate::proofs::Found::branches_end))]
#[cycle(warnings)]
fn add_branches(found: &mut Vec<Warning>, branches: &[When]) -> Result<(), NoMemory>
    ensures { IfOk result (λ _. found.new.items
        ≡ found.old.items ++ branch_warnings (branches_of branches.now)) }
{
    for branch in branches {
        add_branch(found, branch)?;
    }
    Ok(())
}

#[cycle(warnings)]
fn add_branch(found: &mut Vec<Warning>, branch: &When) -> Result<(), NoMemory>
    ensures { IfOk result (λ _. (bs : Branches) → found.new.items ++ branch_warnings bs
        ≡ found.old.items ++ branch_warnings (branch_of branch.now bs)) }
{
    add_wait(found, &branch.waiting.into, &branch.body)?;
    add_body(found, &branch.body)
}

// Adds what is warned of in a declaration.
fn add_decl(found: &mut Vec<Warning>, decl: &Decl) -> Result<(), NoMemory>
    ensures { IfOk result (λ _. found.new.items ≡ found.old.items ++ decl_warnings (decl_of decl.now)) }
{
    match decl {
        Decl::Struct(_) => Ok(()),
        Decl::Function(function) => add_body(found, &function.body),
        Decl::Actor(actor) => add_body(found, &actor.body),
    }
}

/// What is warned of in these declarations, in the order of the text.
#[tactic(auto, using(crate::proofs::Found::decls_next, crate::proofs::Found::decls_end))]
pub fn find_warnings(alloc: Global, decls: &[Decl]) -> Result<Vec<Warning>, NoMemory>
    ensures { IfOk result (λ v. v.items ≡ program_warnings (map decl_of decls.now)) }
{
    let mut found = Vec::new(alloc);
    for decl in decls {
        add_decl(&mut found, decl)?;
    }
    Ok(found)
}
