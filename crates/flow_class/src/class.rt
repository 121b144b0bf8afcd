// The types of classes.

use flow_ast::decl::{FunctionDecl, RecordDecl, Slot};
use flow_ast::expr::Expr;
use flow_ast::stmt::Target;
use flow_ast::ty::Ty;
use flow_base::name::Name;

/// A place of a frame: a slot, which outlives waits, or a local, which is emptied at each wait. Both
/// are numbered from 0.
#[derive(Clone, Copy, PartialEq, Eq, Debug)]
pub enum Slotted {
    Slot(u32),
    Local(u32),
}

/// Where an error of a block goes on: the handler's block, the local that takes the error, and the
/// locals that are dropped before, in order.
#[derive(Drop)]
pub struct Catcher {
    pub block: u32,
    pub error: Option<u32>,
    pub drops: Vec<u32>,
}

/// An instruction. A path begins with a slot or a local, but for the path of a call without a base.
#[derive(Drop)]
pub enum Instr {
    /// An assignment.
    Set(Target, Expr),
    /// An assignment of what an effect gives.
    Effect(Target, Expr),
    /// A new cell or an empty vector is put in place.
    New(Slotted),
    /// A call statement.
    Act(Target, Vec<Expr>),
    /// Locals are emptied and dropped in this order.
    Drop(Vec<u32>),
}

/// The last instruction of a block.
#[derive(Drop)]
pub enum Last {
    /// Goes on at a block.
    Goto(u32),
    /// A pass of a loop begins: takes a turn and goes on at a block.
    Pass(u32),
    /// Goes on at the first block where the condition holds, else at the second.
    Test(Expr, u32, u32),
    /// Waits for the callbacks of a group, numbered from 1.
    Choose(u32),
    /// The actor ends with a value, or with none if it is void.
    Return(Option<Expr>),
    /// An error is thrown.
    Throw(Expr),
}

/// Instructions in order, the last one apart, and where their errors go on.
#[derive(Drop)]
pub struct Block {
    pub catcher: Option<Catcher>,
    pub body: Vec<Instr>,
    pub last: Last,
}

/// A branch of a wait: whether it takes the next element of a stream, its operand, the place that
/// takes the value, and the block where the branch goes on.
#[derive(Drop)]
pub struct Callback {
    pub next: bool,
    pub operand: Expr,
    pub into: Option<Slotted>,
    pub block: u32,
}

/// The branches of one wait in order.
#[derive(Drop)]
pub struct Group {
    pub callbacks: Vec<Callback>,
}

/// A class: its name, what its actor gives if it isn't void, how many of its slots are parameters,
/// its slots, the types of its locals, its blocks numbered from 0, and its groups numbered from 1.
#[derive(Drop)]
pub struct Class {
    pub name: Name,
    pub returns: Option<Ty>,
    pub params: u32,
    pub slots: Vec<Slot>,
    pub locals: Vec<Ty>,
    pub blocks: Vec<Block>,
    pub groups: Vec<Group>,
}

/// The records, functions and classes of a program, before they are judged.
#[derive(Drop)]
pub struct RawClasses {
    pub records: Vec<RecordDecl>,
    pub functions: Vec<FunctionDecl>,
    pub classes: Vec<Class>,
}
