// Whether a name is mentioned.

ghost use Rattle.std.specs.Prelude.{◌≡◌};
ghost use Rattle.std.specs.Option.{option_map};
ghost use Rattle.flow_tree.specs.View.{expr_of, exprs_of};
ghost use Rattle.flow_tree.specs.StmtView.{change_of, branches_of};
ghost use Rattle.flow_warning.specs.Walks.{mentions, mention, maybe_mentions, path_mentions, change_mentions, branches_mention};

use flow_tree::expr::Expr;
use flow_tree::stmt::{Change, Target, When};

/// Whether an expression mentions a name as a variable.
#[cycle(mentions)]
pub fn mentions(name: &[u8], expr: &Expr) -> bool
    ensures { result ≡ mentions name.now (expr_of expr.now) }
{
    match expr {
        Expr::Int(_) => false,
        Expr::Text(_) => false,
        Expr::Bool(_) => false,
        Expr::VoidValue => false,
        Expr::Var(variable) => variable.name.bytes() == name,
        Expr::Call(_, args) => mention(name, args),
        Expr::Field(of, _) => mentions(name, of),
        Expr::Method(of, _, args) => mentions(name, of) || mention(name, args),
        Expr::Index(of, index) => mentions(name, of) || mentions(name, index),
        Expr::Not(of) => mentions(name, of),
        Expr::Neg(of) => mentions(name, of),
        Expr::Binary(_, left, right) => mentions(name, left) || mentions(name, right),
        Expr::Paren(of) => mentions(name, of),
    }
}

/// Whether one of these expressions mentions a name.
#[tactic(auto, using(crate::proofs::Mentioned::mention_next, crate::proofs::Mentioned::mention_found, crate::proofs::Mentioned::mention_end))]
#[cycle(mentions)]
pub fn mention(name: &[u8], exprs: &[Expr]) -> bool
    ensures { result ≡ mention name.now (exprs_of exprs.now) }
{
    for expr in exprs {
        if mentions(name, expr) {
            return true;
        }
    }
    false
}

/// Whether an expression that may be there mentions a name.
pub fn maybe_mentions(name: &[u8], expr: &Option<Expr>) -> bool
    ensures { result ≡ maybe_mentions name.now (option_map expr_of expr.now) }
{
    match expr {
        Some(expr) => mentions(name, expr),
        None => false,
    }
}

/// Whether the variable of a path has a name.
pub fn path_mentions(name: &[u8], target: &Target) -> bool
    ensures { result ≡ path_mentions name.now target.now.path.items }
{
    match target.path.first() {
        Some(variable) => variable.name.bytes() == name,
        None => false,
    }
}

/// Whether a change mentions a name.
pub fn change_mentions(name: &[u8], change: &Change) -> bool
    ensures { result ≡ change_mentions name.now (change_of change.now) }
{
    match change {
        Change::Plus(expr) => mentions(name, expr),
        Change::Minus(expr) => mentions(name, expr),
        Change::Up => false,
        Change::Down => false,
    }
}

/// Whether the operand of a branch mentions a name.
#[tactic(auto, using(crate::proofs::Mentioned::branch_next, crate::proofs::Mentioned::branch_found, crate::proofs::Mentioned::branch_end))]
pub fn branches_mention(name: &[u8], branches: &[When]) -> bool
    ensures { result ≡ branches_mention name.now (branches_of branches.now) }
{
    for branch in branches {
        if mentions(name, &branch.waiting.operand) {
            return true;
        }
    }
    false
}
