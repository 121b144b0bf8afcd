// Statements.

ghost use Rattle.std.specs.Prelude.{◌≡◌, IfOk, map};
ghost use Rattle.std.specs.Option.{option_map};
ghost use Rattle.flow_tree.specs.View.{expr_of, type_of};
ghost use Rattle.flow_tree.specs.StmtView.{into_of, waiting_of, change_of, stmt_of, kind_of, branch_of, simple_of, else_of};

use crate::expr::{Expr, copy_exprs, copy_maybe};
use crate::ty::{Ident, Ty};
use flow_base::memory::NoMemory;
use flow_base::place::Place;
use std::alloc::Global;

/// A variable, or a field of one, and so on: at least one name.
#[derive(Drop)]
pub struct Target {
    pub path: Vec<Ident>,
}

/// A declared variable: a state variable or a local, its type and its name.
#[derive(Drop)]
pub struct Into {
    pub state: bool,
    pub ty: Ty,
    pub name: Ident,
}

/// A `wait`, or with `next` a `waitNext`, and the variable that it declares, if it declares one.
#[derive(Drop)]
pub struct Waiting {
    pub into: Option<Into>,
    pub next: bool,
    pub operand: Expr,
}

/// A change of a variable in place: `+=`, `-=`, `++`, `--`.
#[derive(Drop)]
pub enum Change {
    Plus(Expr),
    Minus(Expr),
    Up,
    Down,
}

/// A branch of a `choose`: the place of its `when`, its wait, and its body.
#[cycle(stmt)]
#[derive(Drop)]
pub struct When {
    pub at: Place,
    pub waiting: Waiting,
    pub body: Vec<Stmt>,
}

/// A statement and the place of its first token.
#[cycle(stmt)]
#[derive(Drop)]
pub struct Stmt {
    pub at: Place,
    pub kind: StmtKind,
}

/// What a statement does. The body of a loop or a branch that is a block is the list of its
/// statements; any other body is a list of one. A `try` has
/// its body, the place of its `catch`, the name of the error and what handles it.
#[cycle(stmt)]
#[derive(Drop)]
pub enum StmtKind {
    Block(Vec<Stmt>),
    If(Expr, Vec<Stmt>, Option<Vec<Stmt>>),
    While(Expr, Vec<Stmt>),
    For(Option<Box<Stmt>>, Option<Expr>, Option<Box<Stmt>>, Vec<Stmt>),
    Loop(Vec<Stmt>),
    Break,
    Continue,
    Return(Option<Expr>),
    Throw(Option<Expr>),
    Try(Vec<Stmt>, Place, Ident, Vec<Stmt>),
    Choose(Vec<When>),
    Declare(Into, Option<Expr>),
    Assign(Target, Expr),
    Modify(Target, Change),
    Call(Target, Vec<Expr>),
    Wait(Waiting),
}

impl Target {
    /// The same path.
    pub fn copy(&self, alloc: Global) -> Result<Target, NoMemory>
        ensures { IfOk result (λ t. t.path.items ≡ self.now.path.items) }
    {
        let mut path = Vec::new(alloc);
        for name in &self.path {
            path.push(name.copy(alloc)?)?;
        }
        Ok(Target { path })
    }
}

impl Into {
    /// An equal declaration.
    pub fn copy(&self, alloc: Global) -> Result<Into, NoMemory>
        ensures { IfOk result (λ i. into_of i ≡ into_of self.now) }
    {
        Ok(Into {
            state: self.state,
            ty: self.ty.copy(alloc)?,
            name: self.name.copy(alloc)?,
        })
    }
}

fn copy_into(alloc: Global, into: &Option<Into>) -> Result<Option<Into>, NoMemory>
    ensures { IfOk result (λ o. option_map into_of o ≡ option_map into_of into.now) }
{
    match into {
        None => Ok(None),
        Some(into) => Ok(Some(into.copy(alloc)?)),
    }
}

impl Waiting {
    /// An equal wait.
    pub fn copy(&self, alloc: Global) -> Result<Waiting, NoMemory>
        ensures { IfOk result (λ w. waiting_of w ≡ waiting_of self.now) }
    {
        Ok(Waiting {
            into: copy_into(alloc, &self.into)?,
            next: self.next,
            operand: self.operand.copy(alloc)?,
        })
    }
}

impl Change {
    /// An equal change.
    pub fn copy(&self, alloc: Global) -> Result<Change, NoMemory>
        ensures { IfOk result (λ c. change_of c ≡ change_of self.now) }
    {
        match self {
            Change::Plus(expr) => Ok(Change::Plus(expr.copy(alloc)?)),
            Change::Minus(expr) => Ok(Change::Minus(expr.copy(alloc)?)),
            Change::Up => Ok(Change::Up),
            Change::Down => Ok(Change::Down),
        }
    }
}

impl When {
    /// An equal branch.
    #[cycle(copy)]
    pub fn copy(&self, alloc: Global) -> Result<When, NoMemory>
        ensures { IfOk result (λ w. branch_of w ≡ branch_of self.now) }
    {
        Ok(When {
            at: self.at,
            waiting: self.waiting.copy(alloc)?,
            body: copy_stmts(alloc, &self.body)?,
        })
    }
}

impl Stmt {
    /// An equal statement.
    #[cycle(copy)]
    pub fn copy(&self, alloc: Global) -> Result<Stmt, NoMemory>
        ensures { IfOk result (λ s. stmt_of s ≡ stmt_of self.now) }
    {
        Ok(Stmt {
            at: self.at,
            kind: self.kind.copy(alloc)?,
        })
    }
}

impl StmtKind {
    /// An equal statement but for its place.
    #[cycle(copy)]
    pub fn copy(&self, alloc: Global) -> Result<StmtKind, NoMemory>
        ensures { IfOk result (λ k. kind_of k ≡ kind_of self.now) }
    {
        match self {
            StmtKind::Block(body) => Ok(StmtKind::Block(copy_stmts(alloc, body)?)),
            StmtKind::If(test, body, otherwise) => {
                let body = copy_stmts(alloc, body)?;
                let otherwise = copy_else(alloc, otherwise)?;
                Ok(StmtKind::If(test.copy(alloc)?, body, otherwise))
            }
            StmtKind::While(test, body) => {
                let body = copy_stmts(alloc, body)?;
                Ok(StmtKind::While(test.copy(alloc)?, body))
            }
            StmtKind::For(init, test, step, body) => {
                let init = copy_simple(alloc, init)?;
                let step = copy_simple(alloc, step)?;
                let body = copy_stmts(alloc, body)?;
                Ok(StmtKind::For(init, copy_maybe(alloc, test)?, step, body))
            }
            StmtKind::Loop(body) => Ok(StmtKind::Loop(copy_stmts(alloc, body)?)),
            StmtKind::Break => Ok(StmtKind::Break),
            StmtKind::Continue => Ok(StmtKind::Continue),
            StmtKind::Return(value) => Ok(StmtKind::Return(copy_maybe(alloc, value)?)),
            StmtKind::Throw(error) => Ok(StmtKind::Throw(copy_maybe(alloc, error)?)),
            StmtKind::Try(body, catch_at, error, handler) => Ok(StmtKind::Try(
                copy_stmts(alloc, body)?,
                *catch_at,
                error.copy(alloc)?,
                copy_stmts(alloc, handler)?,
            )),
            StmtKind::Choose(branches) => Ok(StmtKind::Choose(copy_branches(alloc, branches)?)),
            StmtKind::Declare(into, value) => Ok(StmtKind::Declare(
                into.copy(alloc)?,
                copy_maybe(alloc, value)?,
            )),
            StmtKind::Assign(target, value) => Ok(StmtKind::Assign(
                target.copy(alloc)?,
                value.copy(alloc)?,
            )),
            StmtKind::Modify(target, change) => Ok(StmtKind::Modify(
                target.copy(alloc)?,
                change.copy(alloc)?,
            )),
            StmtKind::Call(target, args) => Ok(StmtKind::Call(
                target.copy(alloc)?,
                copy_exprs(alloc, args)?,
            )),
            StmtKind::Wait(waiting) => Ok(StmtKind::Wait(waiting.copy(alloc)?)),
        }
    }
}

fn boxed(alloc: Global, stmt: Stmt) -> Result<Box<Stmt>, NoMemory>
    ensures { IfOk result (λ b. b.value ≡ stmt) }
{
    Ok(Box::new(alloc, stmt)?)
}

#[cycle(copy)]
fn copy_simple(alloc: Global, stmt: &Option<Box<Stmt>>) -> Result<Option<Box<Stmt>>, NoMemory>
    ensures { IfOk result (λ o. simple_of o ≡ simple_of stmt.now) }
{
    match stmt {
        None => Ok(None),
        Some(stmt) => Ok(Some(boxed(alloc, stmt.copy(alloc)?)?)),
    }
}

#[cycle(copy)]
fn copy_else(alloc: Global, body: &Option<Vec<Stmt>>) -> Result<Option<Vec<Stmt>>, NoMemory>
    ensures { IfOk result (λ o. else_of o ≡ else_of body.now) }
{
    match body {
        None => Ok(None),
        Some(body) => Ok(Some(copy_stmts(alloc, body)?)),
    }
}

/// Equal statements in the same order.
#[cycle(copy)]
pub fn copy_stmts(alloc: Global, stmts: &[Stmt]) -> Result<Vec<Stmt>, NoMemory>
    ensures { IfOk result (λ v. map stmt_of v.items ≡ map stmt_of stmts.now) }
{
    let mut copies = Vec::new(alloc);
    for stmt in stmts {
        copies.push(stmt.copy(alloc)?)?;
    }
    Ok(copies)
}

#[cycle(copy)]
fn copy_branches(alloc: Global, branches: &[When]) -> Result<Vec<When>, NoMemory>
    ensures { IfOk result (λ v. map branch_of v.items ≡ map branch_of branches.now) }
{
    let mut copies = Vec::new(alloc);
    for branch in branches {
        copies.push(branch.copy(alloc)?)?;
    }
    Ok(copies)
}
