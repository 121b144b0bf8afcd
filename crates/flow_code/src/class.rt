// Classes as they are run.

use crate::expr::expr::Resolved;
use flow_ast::predefined::{Method, Predefined};
use flow_base::name::Name;
use flow_value::value::Kind;

/// Where a value goes: a place of a frame, or the part of it to which the fields with names of these numbers lead.
#[derive(Drop)]
pub struct Aim {
    pub place: u32,
    pub path: Vec<usize>,
}

/// What has an effect: a predefined call, or a call of the class at a place in the list of classes.
#[derive(Clone, Copy, PartialEq, Eq)]
pub enum Effect {
    World(Predefined),
    Actor(u32),
}

/// What a call statement without a base calls: a predefined one, or the plain function or the void class at a place.
#[derive(Clone, Copy, PartialEq, Eq)]
pub enum Act {
    World(Predefined),
    Function(usize),
    Actor(u32),
}

/// An instruction.
#[derive(Drop)]
pub enum Instruction {
    /// An assignment.
    Set(Aim, Resolved),
    /// An assignment of what an effect gives.
    Effect(Aim, Effect, Vec<Resolved>),
    /// A new cell for a reference of this kind is put in place.
    New(u32, Kind),
    /// A call statement.
    Act(Act, Vec<Resolved>),
    /// A method of a reference or a vector.
    Method(Aim, Method, Vec<Resolved>),
    /// Places are emptied and dropped in this order.
    Drop(Vec<u32>),
    /// What no valid class has.
    Invalid,
}

/// What the branch of a wait waits for.
#[derive(Drop)]
pub enum Operand {
    Value(Resolved),
    Effect(Effect, Vec<Resolved>),
}

/// The last instruction of a block.
#[derive(Drop)]
pub enum Last {
    Goto(u32),
    Pass(u32),
    Test(Resolved, u32, u32),
    /// The wait of a group, numbered from 1.
    Choose(u32),
    Return(Resolved),
    Throw(Resolved),
}

/// Where an error of a block goes on: the handler's block, the place that takes the error, and the places that are dropped
/// before, in order.
#[derive(Drop)]
pub struct Catcher {
    pub block: u32,
    pub error: Option<u32>,
    pub drops: Vec<u32>,
}

/// Instructions in order, the last one apart, and where their errors go on.
#[derive(Drop)]
pub struct Block {
    pub catcher: Option<Catcher>,
    pub body: Vec<Instruction>,
    pub last: Last,
}

/// A branch of a wait: what it waits for, the place that takes the value, and the block where it goes on.
#[derive(Drop)]
pub struct Branch {
    pub operand: Operand,
    pub into: Option<u32>,
    pub block: u32,
}

/// The branches of a wait in order, the block that ends in it, and the number of its first branch through all waits of the
/// class.
#[derive(Drop)]
pub struct Group {
    pub block: u32,
    pub first: u32,
    pub branches: Vec<Branch>,
}

/// A class: its name, how many of its places are parameters, how many are slots, and how many there are; its blocks, and its
/// groups.
#[derive(Drop)]
pub struct Class {
    pub name: Name,
    pub params: u32,
    pub slots: u32,
    pub places: u32,
    pub blocks: Vec<Block>,
    pub groups: Vec<Group>,
}
