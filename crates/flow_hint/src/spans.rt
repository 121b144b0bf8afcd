// How many tokens the parts of a program have.

use flow_tree::expr::Expr;
use flow_tree::stmt::{Into, Target};
use flow_tree::ty::Ty;

/// Those of a type.
pub fn type_tokens(ty: &Ty) -> usize {
    match ty {
        Ty::Int | Ty::Bool | Ty::Str | Ty::Void | Ty::Error | Ty::Named(_) => 1,
        Ty::Future(of) => type_tokens(of).saturating_add(3),
        Ty::FutureStream(of) => type_tokens(of).saturating_add(3),
        Ty::Promise(of) => type_tokens(of).saturating_add(3),
        Ty::PromiseStream(of) => type_tokens(of).saturating_add(3),
        Ty::Vector(of) => type_tokens(of).saturating_add(3),
    }
}

/// Those of a path of names.
pub fn target_tokens(target: &Target) -> usize {
    target.path.len().saturating_mul(2).saturating_sub(1)
}

/// Those of a declared variable, and of the `=` behind it.
pub fn into_tokens(into: &Into) -> usize {
    let state: usize = if into.state { 1 } else { 0 };
    state
        .saturating_add(type_tokens(&into.ty))
        .saturating_add(2)
}

/// Those of an expression.
#[cycle(spans)]
pub fn expr_tokens(expr: &Expr) -> usize {
    match expr {
        Expr::Int(_) | Expr::Text(_) | Expr::Bool(_) | Expr::Var(_) => 1,
        Expr::VoidValue => 3,
        Expr::Call(_, args) => args_tokens(args).saturating_add(3),
        Expr::Field(of, _) => expr_tokens(of).saturating_add(2),
        Expr::Method(of, _, args) => {
            expr_tokens(of)
                .saturating_add(args_tokens(args))
                .saturating_add(4)
        }
        Expr::Index(of, index) => {
            expr_tokens(of)
                .saturating_add(expr_tokens(index))
                .saturating_add(2)
        }
        Expr::Not(of) => expr_tokens(of).saturating_add(1),
        Expr::Neg(of) => expr_tokens(of).saturating_add(1),
        Expr::Binary(_, left, right) => {
            expr_tokens(left)
                .saturating_add(expr_tokens(right))
                .saturating_add(1)
        }
        Expr::Paren(of) => expr_tokens(of).saturating_add(2),
    }
}

/// Those of arguments with the commas between them.
#[cycle(spans)]
pub fn args_tokens(args: &[Expr]) -> usize {
    let mut count: usize = 0;
    for (number, arg) in args.iter().enumerate() {
        let comma: usize = if number > 0 { 1 } else { 0 };
        count = count.saturating_add(comma).saturating_add(expr_tokens(arg));
    }
    count
}
