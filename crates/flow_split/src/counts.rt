// How many blocks and locals a body takes.

ghost use Rattle.std.specs.Prelude.{◌≡◌, ◌+◌, ◌<◌, ◌^◌, true, false, not, IfOk, if◌then◌else◌};
ghost use Rattle.std.specs.Option.{option_map};
ghost use Rattle.flow_tree.specs.View.{expr_of};
ghost use Rattle.flow_tree.specs.Body.{Body, Branches, End};
ghost use Rattle.flow_tree.specs.StmtView.{into_of, stmt_of, body_of, branch_of, branches_of, simple_of};
ghost use Rattle.flow_split.specs.Counts.{blocks_in, locals_in, branch_blocks, branch_local_count, local_count, into_count, exit_blocks, test_blocks, begin_blocks, rest_blocks, ends_with};

use flow_base::memory::NoMemory;
use flow_tree::expr::Expr;
use flow_tree::stmt::{Into, Stmt, StmtKind, When};

/// A number of blocks and a number of locals.
#[derive(Clone, Copy, PartialEq, Eq)]
pub struct Size {
    pub blocks: u32,
    pub locals: u32,
}

/// A sum. No memory holds a class of so many blocks or locals that there is no number for them.
pub fn sum(a: u32, b: u32) -> Result<u32, NoMemory>
    ensures { IfOk result (λ n. n ≡ a + b) }
{
    match a.checked_add(b) {
        Some(n) => Ok(n),
        None => Err(NoMemory),
    }
}

impl Size {
    // Nothing.
    fn none() -> Size
        ensures { result ≡ record { blocks = 0; locals = 0 } }
    {
        Size {
            blocks: 0,
            locals: 0,
        }
    }

    // With so many blocks and locals more.
    fn with(self, blocks: u32, locals: u32) -> Result<Size, NoMemory>
        ensures { IfOk result (λ n. n ≡ record
            { blocks = self.blocks + blocks; locals = self.locals + locals }) }
    {
        Ok(Size {
            blocks: sum(self.blocks, blocks)?,
            locals: sum(self.locals, locals)?,
        })
    }

    // With the block of the next statement, where nothing goes on from the one before.
    fn behind(self, goes_on: bool) -> Result<Size, NoMemory>
        ensures { IfOk result (λ n. n ≡ record
            { blocks = self.blocks + begin_blocks goes_on; locals = self.locals }) }
    {
        if goes_on { Ok(self) } else { self.with(1, 0) }
    }

    // With those of another.
    fn and(self, other: Size) -> Result<Size, NoMemory>
        ensures { IfOk result (λ n. n ≡ record
            { blocks = self.blocks + other.blocks; locals = self.locals + other.locals }) }
    {
        self.with(other.blocks, other.locals)
    }
}

/// Whether nothing goes on from a statement.
pub fn ends(stmt: &Stmt) -> bool
    ensures { result ≡ ends_with (stmt_of stmt.now End) }
{
    match &stmt.kind {
        StmtKind::Break => true,
        StmtKind::Continue => true,
        StmtKind::Return(_) => true,
        StmtKind::Throw(_) => true,
        StmtKind::Block(_) => false,
        StmtKind::If(_, _, _) => false,
        StmtKind::While(_, _) => false,
        StmtKind::For(_, _, _, _) => false,
        StmtKind::Loop(_) => false,
        StmtKind::Try(_, _, _, _) => false,
        StmtKind::Choose(_) => false,
        StmtKind::Declare(_, _) => false,
        StmtKind::Assign(_, _) => false,
        StmtKind::Modify(_, _) => false,
        StmtKind::Call(_, _) => false,
        StmtKind::Wait(_) => false,
    }
}

// A `break` or a `continue` out of a try body has a block outside it.
fn exit_size(tried: bool) -> Size
    ensures { result ≡ record { blocks = exit_blocks tried; locals = 0 } }
{
    Size {
        blocks: if tried { 1 } else { 0 },
        locals: 0,
    }
}

/// How many blocks the test of a `for` takes.
pub fn test_size(test: &Option<Expr>) -> u32
    ensures { result ≡ test_blocks (option_map expr_of test.now) }
{
    match test {
        None => 0,
        Some(_) => 1,
    }
}

/// How many locals a declared variable is.
pub fn into_size(into: &Into) -> u32
    ensures { result ≡ local_count (into_of into.now) }
{
    if into.state { 0 } else { 1 }
}

/// How many locals the variable of a wait is.
pub fn maybe_size(into: &Option<Into>) -> u32
    ensures { result ≡ into_count (option_map into_of into.now) }
{
    match into {
        None => 0,
        Some(into) => into_size(into),
    }
}

/// The blocks that statements take beyond the one in which they begin, and their locals. `tried` says
/// whether a try body is between them and their loop.
#[tactic(auto, using(crate::proofs::Weights::stmt_below))]
#[cycle(size)]
pub fn body_size(tried: bool, body: &[Stmt]) -> Result<Size, NoMemory>
    ensures blocks { IfOk result (λ n. n.blocks ≡ blocks_in tried (body_of body.now)) }
    ensures locals { IfOk result (λ n. n.locals ≡ locals_in (body_of body.now)) }
{
    let mut size = Size::none();
    let mut goes_on = true;
    for stmt in body {
        size = size.behind(goes_on)?.and(stmt_size(tried, stmt)?)?;
        goes_on = !ends(stmt);
    }
    Ok(size)
}

#[cycle(size)]
fn stmt_size(tried: bool, stmt: &Stmt) -> Result<Size, NoMemory>
    ensures blocks { IfOk result (λ n. (k : Body) → blocks_in tried (stmt_of stmt.now k)
        ≡ n.blocks + rest_blocks (not (ends_with (stmt_of stmt.now End))) tried k) }
    ensures locals { IfOk result (λ n. (k : Body) → locals_in (stmt_of stmt.now k)
        ≡ n.locals + locals_in k) }
{
    match &stmt.kind {
        StmtKind::Block(body) => body_with(tried, body, 1, 0),
        StmtKind::If(_, body, otherwise) => match otherwise {
            None => body_with(tried, body, 2, 0),
            Some(other) => if_else_size(tried, body, other),
        },
        StmtKind::While(_, body) => body_with(false, body, 3, 0),
        StmtKind::For(init, test, step, body) => for_size(tried, init, test, step, body),
        StmtKind::Loop(body) => body_with(false, body, 2, 0),
        StmtKind::Break => Ok(exit_size(tried)),
        StmtKind::Continue => Ok(exit_size(tried)),
        StmtKind::Return(_) => Ok(Size::none()),
        StmtKind::Throw(_) => Ok(Size::none()),
        StmtKind::Try(body, _, _, handler) => try_size(tried, body, handler),
        StmtKind::Choose(branches) => choose_size(tried, branches),
        StmtKind::Declare(into, _) => Ok(Size {
            blocks: 0,
            locals: into_size(into),
        }),
        StmtKind::Assign(_, _) => Ok(Size::none()),
        StmtKind::Modify(_, _) => Ok(Size::none()),
        StmtKind::Call(_, _) => Ok(Size::none()),
        StmtKind::Wait(waiting) => Ok(Size {
            blocks: 1,
            locals: maybe_size(&waiting.into),
        }),
    }
}

// An `if` with an `else`, with the blocks of its body, of that of its `else` and behind it.
#[cycle(size)]
fn if_else_size(tried: bool, body: &[Stmt], other: &[Stmt]) -> Result<Size, NoMemory>
    ensures blocks { IfOk result (λ n. n.blocks
        ≡ blocks_in tried (body_of body.now) + 3 + blocks_in tried (body_of other.now)) }
    ensures locals { IfOk result (λ n. n.locals
        ≡ locals_in (body_of body.now) + locals_in (body_of other.now)) }
{
    let size = body_with(tried, body, 3, 0)?;
    let more = body_size(tried, other)?;
    size.and(more)
}

// A `for`, with the blocks of its body, of its step and behind it.
#[cycle(size)]
fn for_size(
    tried: bool,
    init: &Option<Box<Stmt>>,
    test: &Option<Expr>,
    step: &Option<Box<Stmt>>,
    body: &[Stmt],
) -> Result<Size, NoMemory>
    ensures blocks { IfOk result (λ n. n.blocks
        ≡ blocks_in tried (simple_of init.now) + blocks_in tried (simple_of step.now)
        + (blocks_in false (body_of body.now) + 3) + test_blocks (option_map expr_of test.now)) }
    ensures locals { IfOk result (λ n. n.locals ≡ locals_in (simple_of init.now)
        + locals_in (simple_of step.now) + locals_in (body_of body.now)) }
{
    let first = part_size(tried, init)?;
    let last = part_size(tried, step)?;
    let inner = body_with(false, body, 3, 0)?;
    let parts = first.and(last)?;
    let size = parts.and(inner)?;
    size.with(test_size(test), 0)
}

// A `try`, with the blocks of its body, of its handler and behind it, and the local of the error.
#[cycle(size)]
fn try_size(tried: bool, body: &[Stmt], handler: &[Stmt]) -> Result<Size, NoMemory>
    ensures blocks { IfOk result (λ n. n.blocks
        ≡ blocks_in true (body_of body.now) + 3 + blocks_in tried (body_of handler.now)) }
    ensures locals { IfOk result (λ n. n.locals
        ≡ locals_in (body_of body.now) + 1 + locals_in (body_of handler.now)) }
{
    let size = body_with(true, body, 3, 1)?;
    let other = body_size(tried, handler)?;
    size.and(other)
}

// A body, with so many blocks and locals more.
#[cycle(size)]
fn body_with(tried: bool, body: &[Stmt], blocks: u32, locals: u32) -> Result<Size, NoMemory>
    ensures blocks { IfOk result (λ n. n.blocks ≡ blocks_in tried (body_of body.now) + blocks) }
    ensures locals { IfOk result (λ n. n.locals ≡ locals_in (body_of body.now) + locals) }
{
    let size = body_size(tried, body)?;
    size.with(blocks, locals)
}

// The branches of a `choose`, with the block behind it.
#[cycle(size)]
fn choose_size(tried: bool, branches: &[When]) -> Result<Size, NoMemory>
    ensures blocks { IfOk result (λ n. n.blocks
        ≡ branch_blocks tried (branches_of branches.now) + 1) }
    ensures locals { IfOk result (λ n. n.locals ≡ branch_local_count (branches_of branches.now)) }
{
    let size = branches_size(tried, branches)?;
    size.with(1, 0)
}

/// The blocks and locals of the branches of a `choose`.
#[tactic(auto, using(crate::proofs::Weights::branch_below))]
#[cycle(size)]
pub fn branches_size(tried: bool, branches: &[When]) -> Result<Size, NoMemory>
    ensures blocks { IfOk result (λ n. n.blocks ≡ branch_blocks tried (branches_of branches.now)) }
    ensures locals { IfOk result (λ n. n.locals ≡ branch_local_count (branches_of branches.now)) }
{
    let mut size = Size::none();
    for branch in branches {
        size = size.and(branch_size(tried, branch)?)?;
    }
    Ok(size)
}

/// The blocks and locals of a branch, with the block in which it begins.
#[cycle(size)]
pub fn branch_size(tried: bool, branch: &When) -> Result<Size, NoMemory>
    ensures blocks { IfOk result (λ n. (bs : Branches)
        → branch_blocks tried (branch_of branch.now bs) ≡ n.blocks + branch_blocks tried bs) }
    ensures locals { IfOk result (λ n. (bs : Branches)
        → branch_local_count (branch_of branch.now bs) ≡ n.locals + branch_local_count bs) }
{
    let size = body_size(tried, &branch.body)?;
    size.with(1, maybe_size(&branch.waiting.into))
}

/// The blocks and locals of a part of a `for`.
#[cycle(size)]
pub fn part_size(tried: bool, part: &Option<Box<Stmt>>) -> Result<Size, NoMemory>
    ensures blocks { IfOk result (λ n. n.blocks ≡ blocks_in tried (simple_of part.now)) }
    ensures locals { IfOk result (λ n. n.locals ≡ locals_in (simple_of part.now)) }
{
    match part {
        None => Ok(Size::none()),
        Some(stmt) => stmt_size(tried, stmt),
    }
}

/// The number of the block behind so many, which stand behind a first one.
pub fn behind(first: u32, blocks: u32) -> Result<u32, NoMemory>
    ensures { IfOk result (λ n. n ≡ first + 1 + blocks) }
{
    sum(sum(first, 1)?, blocks)
}

/// The number of the block behind a body whose first block has this number.
pub fn past_body(first: u32, tried: bool, body: &[Stmt]) -> Result<u32, NoMemory>
    ensures { IfOk result (λ n. n ≡ first + 1 + blocks_in tried (body_of body.now)) }
{
    let size = body_size(tried, body)?;
    behind(first, size.blocks)
}

/// The number of the block in which a part of a `for` ends that begins in this one.
pub fn past_part(first: u32, tried: bool, part: &Option<Box<Stmt>>) -> Result<u32, NoMemory>
    ensures { IfOk result (λ n. n ≡ first + blocks_in tried (simple_of part.now)) }
{
    let size = part_size(tried, part)?;
    sum(first, size.blocks)
}
