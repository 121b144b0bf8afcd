// The weight of an actor, which bounds the blocks of its class.

ghost use Rattle.std.specs.Prelude.{◌≡◌, ◌+◌};
ghost use Rattle.flow_tree.specs.Body.{Body, Branches};
ghost use Rattle.flow_tree.specs.StmtView.{stmt_of, body_of, branch_of, branches_of, simple_of, else_of};
ghost use Rattle.flow_tree.specs.DeclView.{actor_of};
ghost use Rattle.flow_split.specs.Weight.{weight, body_weight, branch_weight};
ghost use Rattle.flow_lower.specs.Weighing.{capped, else_weight};

use flow_tree::decl::ActorDecl;
use flow_tree::stmt::{Stmt, StmtKind, When};

/// The weight of an actor: 2 for the actor and for each of its statements, the init and the step of a `for` among them, and
/// besides 3 for an `if`, 4 for a `loop`, 6 for a `while` or a `for`, 3 for a `try`, 2 for a `choose` and 3 for each of its
/// branches. At 2^64 - 1 it stands still.
pub fn weight(actor: &ActorDecl) -> u64
    ensures { result ≡ capped (weight (actor_of actor.now)) }
{
    body_weight(&actor.body).saturating_add(2)
}

#[tactic(auto, using(crate::proofs::Weights::body_more, crate::proofs::Weights::body_over, crate::proofs::Weights::capped_again))]
#[cycle(weight)]
fn body_weight(body: &[Stmt]) -> u64
    ensures { result ≡ capped (body_weight (body_of body.now)) }
{
    let mut weight: u64 = 0;
    for stmt in body {
        weight = weight.saturating_add(stmt_weight(stmt));
    }
    weight
}

// What a statement weighs with its parts.
#[cycle(weight)]
fn stmt_weight(stmt: &Stmt) -> u64
    ensures { (k : Body) → capped (body_weight (stmt_of stmt.now k))
        ≡ capped (result + body_weight k) }
{
    match &stmt.kind {
        StmtKind::Block(body) => body_weight(body).saturating_add(2),
        StmtKind::If(_, chosen, otherwise) => body_weight(chosen)
            .saturating_add(else_weight(otherwise))
            .saturating_add(5),
        StmtKind::While(_, body) => body_weight(body).saturating_add(8),
        StmtKind::For(init, _, step, body) => part_weight(init)
            .saturating_add(part_weight(step))
            .saturating_add(body_weight(body))
            .saturating_add(8),
        StmtKind::Loop(body) => body_weight(body).saturating_add(6),
        StmtKind::Try(body, _, _, handler) => body_weight(body)
            .saturating_add(body_weight(handler))
            .saturating_add(5),
        StmtKind::Choose(branches) => branches_weight(branches).saturating_add(4),
        StmtKind::Break => 2,
        StmtKind::Continue => 2,
        StmtKind::Return(_) => 2,
        StmtKind::Throw(_) => 2,
        StmtKind::Declare(_, _) => 2,
        StmtKind::Assign(_, _) => 2,
        StmtKind::Modify(_, _) => 2,
        StmtKind::Call(_, _) => 2,
        StmtKind::Wait(_) => 2,
    }
}

// The body of an `else`, where it is there.
#[cycle(weight)]
fn else_weight(body: &Option<Vec<Stmt>>) -> u64
    ensures { result ≡ capped (else_weight (else_of body.now)) }
{
    match body {
        None => 0,
        Some(body) => body_weight(body),
    }
}

// The init or the step of a `for`.
#[cycle(weight)]
fn part_weight(part: &Option<Box<Stmt>>) -> u64
    ensures { result ≡ capped (body_weight (simple_of part.now)) }
{
    match part {
        None => 0,
        Some(stmt) => stmt_weight(stmt),
    }
}

#[tactic(auto, using(crate::proofs::Weights::branches_more, crate::proofs::Weights::branches_over, crate::proofs::Weights::capped_again))]
#[cycle(weight)]
fn branches_weight(branches: &[When]) -> u64
    ensures { result ≡ capped (branch_weight (branches_of branches.now)) }
{
    let mut weight: u64 = 0;
    for branch in branches {
        weight = weight.saturating_add(branch_weight(branch));
    }
    weight
}

#[cycle(weight)]
fn branch_weight(branch: &When) -> u64
    ensures { (bs : Branches) → capped (branch_weight (branch_of branch.now bs))
        ≡ capped (result + branch_weight bs) }
{
    body_weight(&branch.body).saturating_add(3)
}
