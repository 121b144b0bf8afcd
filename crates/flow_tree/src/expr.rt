// Expressions.

ghost use Rattle.std.specs.Prelude.{◌≡◌, IfOk, map};
ghost use Rattle.std.specs.Option.{option_map};
ghost use Rattle.flow_tree.specs.View.{expr_of};

use crate::ty::Ident;
use flow_base::memory::NoMemory;
use flow_base::text::Text;
use std::alloc::Global;

/// The signs between two operands.
#[derive(Clone, Copy, PartialEq, Eq, Debug)]
pub enum Op {
    Or,
    And,
    Eq,
    Ne,
    Lt,
    Le,
    Gt,
    Ge,
    Add,
    Sub,
    Mul,
    Div,
    Rem,
}

/// An expression. Parentheses are kept.
#[derive(Drop)]
pub enum Expr {
    Int(i64),
    Text(Text),
    Bool(bool),
    VoidValue,
    Var(Ident),
    Call(Ident, Vec<Expr>),
    Field(Box<Expr>, Ident),
    Method(Box<Expr>, Ident, Vec<Expr>),
    Index(Box<Expr>, Box<Expr>),
    Not(Box<Expr>),
    Neg(Box<Expr>),
    Binary(Op, Box<Expr>, Box<Expr>),
    Paren(Box<Expr>),
}

impl Expr {
    /// An equal expression, places included.
    #[cycle(copy)]
    pub fn copy(&self, alloc: Global) -> Result<Expr, NoMemory>
        ensures { IfOk result (λ e. expr_of e ≡ expr_of self.now) }
    {
        match self {
            Expr::Int(n) => Ok(Expr::Int(*n)),
            Expr::Text(text) => Ok(Expr::Text(text.copy(alloc)?)),
            Expr::Bool(b) => Ok(Expr::Bool(*b)),
            Expr::VoidValue => Ok(Expr::VoidValue),
            Expr::Var(name) => Ok(Expr::Var(name.copy(alloc)?)),
            Expr::Call(name, args) => {
                Ok(Expr::Call(name.copy(alloc)?, copy_exprs(alloc, args)?))
            }
            Expr::Field(of, name) => Ok(Expr::Field(
                boxed(alloc, of.copy(alloc)?)?,
                name.copy(alloc)?,
            )),
            Expr::Method(of, name, args) => Ok(Expr::Method(
                boxed(alloc, of.copy(alloc)?)?,
                name.copy(alloc)?,
                copy_exprs(alloc, args)?,
            )),
            Expr::Index(of, index) => Ok(Expr::Index(
                boxed(alloc, of.copy(alloc)?)?,
                boxed(alloc, index.copy(alloc)?)?,
            )),
            Expr::Not(of) => Ok(Expr::Not(boxed(alloc, of.copy(alloc)?)?)),
            Expr::Neg(of) => Ok(Expr::Neg(boxed(alloc, of.copy(alloc)?)?)),
            Expr::Binary(op, left, right) => Ok(Expr::Binary(
                *op,
                boxed(alloc, left.copy(alloc)?)?,
                boxed(alloc, right.copy(alloc)?)?,
            )),
            Expr::Paren(of) => Ok(Expr::Paren(boxed(alloc, of.copy(alloc)?)?)),
        }
    }
}

fn boxed(alloc: Global, expr: Expr) -> Result<Box<Expr>, NoMemory>
    ensures { IfOk result (λ b. b.value ≡ expr) }
{
    Ok(Box::new(alloc, expr)?)
}

/// Equal expressions in the same order.
#[cycle(copy)]
pub fn copy_exprs(alloc: Global, exprs: &[Expr]) -> Result<Vec<Expr>, NoMemory>
    ensures { IfOk result (λ v. map expr_of v.items ≡ map expr_of exprs.now) }
{
    let mut copies = Vec::new(alloc);
    for expr in exprs {
        copies.push(expr.copy(alloc)?)?;
    }
    Ok(copies)
}

/// An equal expression where there is one.
pub fn copy_maybe(alloc: Global, expr: &Option<Expr>) -> Result<Option<Expr>, NoMemory>
    ensures { IfOk result (λ o. option_map expr_of o ≡ option_map expr_of expr.now) }
{
    match expr {
        None => Ok(None),
        Some(expr) => Ok(Some(expr.copy(alloc)?)),
    }
}
