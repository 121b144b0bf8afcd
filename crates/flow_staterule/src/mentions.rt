// The uses of locals in an expression and in the parts of a statement.

ghost use Rattle.std.specs.Prelude.{◌≡◌, ◌++◌, IfOk};
ghost use Rattle.std.specs.Option.{option_map};
ghost use Rattle.flow_tree.specs.View.{expr_of, exprs_of};
ghost use Rattle.flow_tree.specs.StmtView.{change_of};
ghost use Rattle.flow_staterule.specs.View.{in_force, listed};
ghost use Rattle.flow_staterule.specs.Uses.{named, expr_uses, exprs_uses, maybe_uses, target_uses, base_uses, change_uses};

use crate::scope::{Point, Use, Variables};
use flow_ast::expr::Expr;
use flow_ast::stmt::{Change, Target};
use flow_ast::ty::Ident;
use flow_base::memory::NoMemory;

/// Adds a use, if there is one.
pub fn add(found: &mut Vec<Use>, used: Option<Use>) -> Result<(), NoMemory>
    ensures { IfOk result (λ _. found.new.items ≡ found.old.items ++ listed used) }
{
    match used {
        Some(used) => {
            found.push(used)?;
            Ok(())
        }
        None => Ok(()),
    }
}

// A mention of a name.
fn add_named(
    variables: &Variables<'_>,
    point: Point,
    name: &Ident,
    found: &mut Vec<Use>,
) -> Result<(), NoMemory>
    ensures { IfOk result (λ _. found.new.items
        ≡ found.old.items ++ named (in_force variables.now) point name.now) }
{
    add(found, variables.mention(point, name))
}

/// Adds the uses in an expression, in the order of the text.
#[cycle(mentions)]
pub fn add_expr(
    variables: &Variables<'_>,
    point: Point,
    expr: &Expr,
    found: &mut Vec<Use>,
) -> Result<(), NoMemory>
    ensures { IfOk result (λ _. found.new.items
        ≡ found.old.items ++ expr_uses (in_force variables.now) point (expr_of expr.now)) }
{
    match expr {
        Expr::Int(_) => Ok(()),
        Expr::Text(_) => Ok(()),
        Expr::Bool(_) => Ok(()),
        Expr::VoidValue => Ok(()),
        Expr::Var(name) => add_named(variables, point, name, found),
        Expr::Call(_, args) => add_exprs(variables, point, args, found),
        Expr::Field(base, _) => add_expr(variables, point, base, found),
        Expr::Method(base, _, args) => {
            add_expr(variables, point, base, found)?;
            add_exprs(variables, point, args, found)
        }
        Expr::Index(base, index) => {
            add_expr(variables, point, base, found)?;
            add_expr(variables, point, index, found)
        }
        Expr::Not(operand) => add_expr(variables, point, operand, found),
        Expr::Neg(operand) => add_expr(variables, point, operand, found),
        Expr::Binary(_, left, right) => {
            add_expr(variables, point, left, found)?;
            add_expr(variables, point, right, found)
        }
        Expr::Paren(inner) => add_expr(variables, point, inner, found),
    }
}

/// Adds the uses in expressions one after another.
#[cycle(mentions)]
pub fn add_exprs(
    variables: &Variables<'_>,
    point: Point,
    exprs: &[Expr],
    found: &mut Vec<Use>,
) -> Result<(), NoMemory>
    ensures { IfOk result (λ _. found.new.items
        ≡ found.old.items ++ exprs_uses (in_force variables.now) point (exprs_of exprs.now)) }
{
    for expr in exprs {
        add_expr(variables, point, expr, found)?;
    }
    Ok(())
}

/// Adds the uses in an expression, where it is there.
pub fn add_maybe(
    variables: &Variables<'_>,
    point: Point,
    expr: &Option<Expr>,
    found: &mut Vec<Use>,
) -> Result<(), NoMemory>
    ensures { IfOk result (λ _. found.new.items
        ≡ found.old.items ++ maybe_uses (in_force variables.now) point
        (option_map expr_of expr.now)) }
{
    match expr {
        Some(expr) => add_expr(variables, point, expr, found),
        None => Ok(()),
    }
}

/// Adds the variable of a target.
pub fn add_target(
    variables: &Variables<'_>,
    point: Point,
    target: &Target,
    found: &mut Vec<Use>,
) -> Result<(), NoMemory>
    ensures { IfOk result (λ _. found.new.items
        ≡ found.old.items ++ target_uses (in_force variables.now) point target.now.path.items) }
{
    match target.path.first() {
        Some(name) => add_named(variables, point, name, found),
        None => Ok(()),
    }
}

/// Adds the base of a call; the name of what is called is no variable.
pub fn add_base(
    variables: &Variables<'_>,
    point: Point,
    target: &Target,
    found: &mut Vec<Use>,
) -> Result<(), NoMemory>
    ensures { IfOk result (λ _. found.new.items
        ≡ found.old.items ++ base_uses (in_force variables.now) point target.now.path.items) }
{
    if target.path.len() > 1 {
        return add_target(variables, point, target, found);
    }
    Ok(())
}

/// Adds the uses in a change.
pub fn add_change(
    variables: &Variables<'_>,
    point: Point,
    change: &Change,
    found: &mut Vec<Use>,
) -> Result<(), NoMemory>
    ensures { IfOk result (λ _. found.new.items
        ≡ found.old.items ++ change_uses (in_force variables.now) point (change_of change.now)) }
{
    match change {
        Change::Plus(expr) => add_expr(variables, point, expr, found),
        Change::Minus(expr) => add_expr(variables, point, expr, found),
        Change::Up => Ok(()),
        Change::Down => Ok(()),
    }
}
