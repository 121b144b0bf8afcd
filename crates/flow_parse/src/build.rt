// Statements from their parts.

ghost use Rattle.std.specs.Prelude.{◌≡◌, map};
ghost use Rattle.std.specs.Option.{option_map};
ghost use Rattle.flow_tree.specs.View.{expr_of, exprs_of};
ghost use Rattle.flow_tree.specs.StmtView.{into_of, waiting_of, change_of, stmt_of, body_of, branch_of, branches_of, simple_of};
ghost use Rattle.flow_parse.specs.Views.{Stands};
ghost use Rattle.flow_tree.specs.Body.{Body, End, Branches, BlockStmt, IfStmt, IfElseStmt, WhileStmt, ForStmt, LoopStmt, BreakStmt, ContinueStmt, ReturnStmt, ThrowStmt, TryStmt, ChooseStmt, DeclareStmt, AssignStmt, ModifyStmt, CallStmt, WaitStmt, MoreBranches};

use flow_base::place::Place;
use flow_tree::expr::Expr;
use flow_tree::stmt::{Change, Into, Stmt, StmtKind, Target, Waiting, When};
use flow_tree::ty::Ident;

/// A block as a statement.
pub fn block(at: Place, body: Vec<Stmt>) -> Stmt
    ensures is { (rest : Body) → stmt_of result rest ≡ BlockStmt at (body_of body.items) rest }
    ensures stands { Stands result }
{
    Stmt {
        at,
        kind: StmtKind::Block(body),
    }
}

/// An `if` without an `else`.
pub fn if_stmt(at: Place, test: Expr, body: Vec<Stmt>) -> Stmt
    ensures is { (rest : Body) → stmt_of result rest
        ≡ IfStmt at (expr_of test) (body_of body.items) rest }
    ensures stands { Stands result }
{
    Stmt {
        at,
        kind: StmtKind::If(test, body, None),
    }
}

/// An `if` with an `else`.
pub fn if_else(at: Place, test: Expr, body: Vec<Stmt>, other: Vec<Stmt>) -> Stmt
    ensures is { (rest : Body) → stmt_of result rest
        ≡ IfElseStmt at (expr_of test) (body_of body.items) (body_of other.items) rest }
    ensures stands { Stands result }
{
    Stmt {
        at,
        kind: StmtKind::If(test, body, Some(other)),
    }
}

/// A `while`.
pub fn while_stmt(at: Place, test: Expr, body: Vec<Stmt>) -> Stmt
    ensures is { (rest : Body) → stmt_of result rest
        ≡ WhileStmt at (expr_of test) (body_of body.items) rest }
    ensures stands { Stands result }
{
    Stmt {
        at,
        kind: StmtKind::While(test, body),
    }
}

/// A `for`, with the parts that it has.
pub fn for_stmt(
    at: Place,
    init: Option<Box<Stmt>>,
    test: Option<Expr>,
    step: Option<Box<Stmt>>,
    body: Vec<Stmt>,
) -> Stmt
    ensures is { (rest : Body) → stmt_of result rest
        ≡ ForStmt at (simple_of init) (option_map expr_of test) (simple_of step)
        (body_of body.items) rest }
    ensures stands { Stands result }
{
    Stmt {
        at,
        kind: StmtKind::For(init, test, step, body),
    }
}

/// A `loop`.
pub fn loop_stmt(at: Place, body: Vec<Stmt>) -> Stmt
    ensures is { (rest : Body) → stmt_of result rest ≡ LoopStmt at (body_of body.items) rest }
    ensures stands { Stands result }
{
    Stmt {
        at,
        kind: StmtKind::Loop(body),
    }
}

/// A `break`.
pub fn break_stmt(at: Place) -> Stmt
    ensures is { (rest : Body) → stmt_of result rest ≡ BreakStmt at rest }
    ensures stands { Stands result }
{
    Stmt {
        at,
        kind: StmtKind::Break,
    }
}

/// A `continue`.
pub fn continue_stmt(at: Place) -> Stmt
    ensures is { (rest : Body) → stmt_of result rest ≡ ContinueStmt at rest }
    ensures stands { Stands result }
{
    Stmt {
        at,
        kind: StmtKind::Continue,
    }
}

/// A `return`, with a value or without one.
pub fn return_stmt(at: Place, value: Option<Expr>) -> Stmt
    ensures is { (rest : Body) → stmt_of result rest
        ≡ ReturnStmt at (option_map expr_of value) rest }
    ensures stands { Stands result }
{
    Stmt {
        at,
        kind: StmtKind::Return(value),
    }
}

/// A `throw`, of an error or of the one that was caught.
pub fn throw_stmt(at: Place, error: Option<Expr>) -> Stmt
    ensures is { (rest : Body) → stmt_of result rest
        ≡ ThrowStmt at (option_map expr_of error) rest }
    ensures stands { Stands result }
{
    Stmt {
        at,
        kind: StmtKind::Throw(error),
    }
}

/// A `try` with its `catch`.
pub fn try_stmt(
    at: Place,
    body: Vec<Stmt>,
    catch_at: Place,
    error: Ident,
    handler: Vec<Stmt>,
) -> Stmt
    ensures is { (rest : Body) → stmt_of result rest
        ≡ TryStmt at (body_of body.items) catch_at error (body_of handler.items) rest }
    ensures stands { Stands result }
{
    Stmt {
        at,
        kind: StmtKind::Try(body, catch_at, error, handler),
    }
}

/// A `choose`.
pub fn choose(at: Place, branches: Vec<When>) -> Stmt
    ensures is { (rest : Body) → stmt_of result rest
        ≡ ChooseStmt at (branches_of branches.items) rest }
    ensures stands { Stands result }
{
    Stmt {
        at,
        kind: StmtKind::Choose(branches),
    }
}

/// A branch of a `choose`.
pub fn when_branch(at: Place, waiting: Waiting, body: Vec<Stmt>) -> When
    ensures { (more : Branches) → branch_of result more
        ≡ MoreBranches at (waiting_of waiting) (body_of body.items) more }
{
    When { at, waiting, body }
}

/// A declaration of a variable, with a value or without one.
pub fn declare(at: Place, into: Into, value: Option<Expr>) -> Stmt
    ensures is { (rest : Body) → stmt_of result rest
        ≡ DeclareStmt at (into_of into) (option_map expr_of value) rest }
    ensures stands { Stands result }
{
    Stmt {
        at,
        kind: StmtKind::Declare(into, value),
    }
}

/// An assignment to a path.
pub fn assign(at: Place, path: Vec<Ident>, value: Expr) -> Stmt
    ensures is { (rest : Body) → stmt_of result rest
        ≡ AssignStmt at path.items (expr_of value) rest }
    ensures stands { Stands result }
{
    Stmt {
        at,
        kind: StmtKind::Assign(Target { path }, value),
    }
}

/// A change of a path in place.
pub fn modify(at: Place, path: Vec<Ident>, change: Change) -> Stmt
    ensures is { (rest : Body) → stmt_of result rest
        ≡ ModifyStmt at path.items (change_of change) rest }
    ensures stands { Stands result }
{
    Stmt {
        at,
        kind: StmtKind::Modify(Target { path }, change),
    }
}

/// A call as a statement.
pub fn call(at: Place, path: Vec<Ident>, args: Vec<Expr>) -> Stmt
    ensures is { (rest : Body) → stmt_of result rest
        ≡ CallStmt at path.items (exprs_of args.items) rest }
    ensures stands { Stands result }
{
    Stmt {
        at,
        kind: StmtKind::Call(Target { path }, args),
    }
}

/// A wait as a statement.
pub fn wait(at: Place, into: Option<Into>, next: bool, operand: Expr) -> Stmt
    ensures is { (rest : Body) → stmt_of result rest
        ≡ WaitStmt at (record {
          into = option_map into_of into;
          next = next;
          operand = expr_of
              operand;
        }) rest }
    ensures stands { Stands result }
{
    let waiting = Waiting {
        into,
        next,
        operand,
    };
    Stmt {
        at,
        kind: StmtKind::Wait(waiting),
    }
}
