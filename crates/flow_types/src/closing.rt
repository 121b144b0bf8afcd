// Whether the control graph leads to the closing brace of a body.

ghost use Rattle.std.specs.Prelude.{◌≡◌};
ghost use Rattle.flow_tree.specs.Body.{Body, Branches};
ghost use Rattle.flow_tree.specs.StmtView.{stmt_of, body_of, branch_of, branches_of, else_of};
ghost use Rattle.flow_ast.specs.Leaving.{has_statement};
ghost use Rattle.flow_rules.specs.Closing.{and_then, either, looped, handled, ways, else_ways, branch_ways};
ghost use Rattle.flow_types.specs.ClosingView.{ways_view};

use flow_tree::stmt::{Stmt, StmtKind, When};

/// How a body is left: whether the control graph leads past its end, and to a `break` of the loop
/// around it.
#[derive(Clone, Copy, PartialEq, Eq)]
pub struct Ways {
    pub end: bool,
    pub breaks: bool,
}

const PAST: Ways = Ways {
    end: true,
    breaks: false,
};

const NOWHERE: Ways = Ways {
    end: false,
    breaks: false,
};

// One body and then the other.
fn and_then(first: Ways, then: Ways) -> Ways
    ensures { ways_view result ≡ and_then (ways_view first) (ways_view then) }
{
    Ways {
        end: first.end && then.end,
        breaks: first.breaks || (first.end && then.breaks),
    }
}

// One body or the other.
fn either(one: Ways, other: Ways) -> Ways
    ensures { ways_view result ≡ either (ways_view one) (ways_view other) }
{
    Ways {
        end: one.end || other.end,
        breaks: one.breaks || other.breaks,
    }
}

// A loop is left past its condition, or where it has none by a `break`.
fn looped(tested: bool, body: Ways) -> Ways
    ensures { ways_view result ≡ looped tested (ways_view body) }
{
    Ways {
        end: tested || body.breaks,
        breaks: false,
    }
}

// Each statement of a `try` leads to its handler besides.
fn handled(some: bool, body: Ways, handler: Ways) -> Ways
    ensures { ways_view result ≡ handled some (ways_view body) (ways_view handler) }
{
    Ways {
        end: body.end || handler.end,
        breaks: body.breaks || (some && handler.breaks),
    }
}

// It is one, whatever it does.
fn is_statement(stmt: &Stmt) -> bool
    ensures { (k : Body) → has_statement (stmt_of stmt.now k) ≡ result }
{
    match &stmt.kind {
        StmtKind::Block(_) => true,
        StmtKind::If(_, _, otherwise) => match otherwise {
            Some(_) => true,
            None => true,
        },
        StmtKind::While(_, _) => true,
        StmtKind::For(_, _, _, _) => true,
        StmtKind::Loop(_) => true,
        StmtKind::Break => true,
        StmtKind::Continue => true,
        StmtKind::Return(_) => true,
        StmtKind::Throw(_) => true,
        StmtKind::Try(_, _, _, _) => true,
        StmtKind::Choose(_) => true,
        StmtKind::Declare(_, _) => true,
        StmtKind::Assign(_, _) => true,
        StmtKind::Modify(_, _) => true,
        StmtKind::Call(_, _) => true,
        StmtKind::Wait(_) => true,
    }
}

fn any_statement(body: &[Stmt]) -> bool
    ensures { result ≡ has_statement (body_of body.now) }
{
    match body {
        [] => false,
        [first, ..] => is_statement(first),
    }
}

/// How a body is left.
#[cycle(ways)]
#[tactic(auto, using(crate::proofs::Steps::ways_step))]
pub fn ways_of(body: &[Stmt]) -> Ways
    ensures { ways_view result ≡ ways (body_of body.now) }
{
    let mut so_far = PAST;
    for stmt in body {
        so_far = and_then(so_far, stmt_ways(stmt));
    }
    so_far
}

#[cycle(ways)]
fn stmt_ways(stmt: &Stmt) -> Ways
    ensures { (k : Body) → ways (stmt_of stmt.now k) ≡ and_then (ways_view result) (ways k) }
{
    match &stmt.kind {
        StmtKind::Block(body) => ways_of(body),
        StmtKind::If(_, then, otherwise) => either(ways_of(then), else_ways(otherwise)),
        StmtKind::While(_, body) => looped(true, ways_of(body)),
        StmtKind::For(_, test, _, body) => looped(test.is_some(), ways_of(body)),
        StmtKind::Loop(body) => looped(false, ways_of(body)),
        StmtKind::Break => Ways {
            end: false,
            breaks: true,
        },
        StmtKind::Continue => NOWHERE,
        StmtKind::Return(_) => NOWHERE,
        StmtKind::Throw(_) => NOWHERE,
        StmtKind::Try(body, _, _, handler) => {
            handled(any_statement(body), ways_of(body), ways_of(handler))
        }
        StmtKind::Choose(branches) => branch_ways(branches),
        StmtKind::Declare(_, _) => PAST,
        StmtKind::Assign(_, _) => PAST,
        StmtKind::Modify(_, _) => PAST,
        StmtKind::Call(_, _) => PAST,
        StmtKind::Wait(_) => PAST,
    }
}

// Without an `else` an `if` leads past it.
#[cycle(ways)]
fn else_ways(otherwise: &Option<Vec<Stmt>>) -> Ways
    ensures { ways_view result ≡ else_ways (else_of otherwise.now) }
{
    match otherwise {
        Some(body) => ways_of(body),
        None => PAST,
    }
}

#[cycle(ways)]
fn when_ways(branch: &When) -> Ways
    ensures { (k : Branches) → branch_ways (branch_of branch.now k)
        ≡ either (ways_view result) (branch_ways k) }
{
    ways_of(&branch.body)
}

#[cycle(ways)]
fn branch_ways(branches: &[When]) -> Ways
    ensures { ways_view result ≡ branch_ways (branches_of branches.now) }
{
    let mut so_far = NOWHERE;
    for branch in branches {
        so_far = either(so_far, when_ways(branch));
    }
    so_far
}
