// How classes are coded.

ghost use Rattle.std.specs.Prelude.{◌≡◌, ◌+◌, ℕ, List, ◌∷◌, IfOk, OnOk, length, map, Some, None, if◌then◌else◌};
ghost use Rattle.std.specs.Option.{option_map, option_and_then};
ghost use Rattle.std.specs.Str.{bytes_eq};
ghost use Rattle.flow_tree.specs.View.{expr_of, exprs_of, type_of};
ghost use Rattle.flow_ast.specs.TypingNames.{named, call_names};
ghost use denote.Ref.{Bor};
ghost use Rattle.flow_tree.specs.declared.ty.Ty as tree;
ghost use Rattle.flow_class.specs.Code.{type_at};
ghost use Rattle.flow_class.specs.View as text;
ghost use Rattle.flow_code.specs.Resolved.Named.{at_name, first_from, or_else};
ghost use Rattle.flow_code.specs.Resolved.Resolving.{resolved, resolved_all};
ghost use Rattle.flow_code.specs.Resolved.View.{node_of, nodes_of};
ghost use Rattle.flow_code.specs.Places.{place_of, place_in};
ghost use Rattle.flow_code.specs.Coding.{is_effect, new_of, fields_of, aimed, effect_named, effect_in, act_named, coded_set, coded_effect, coded_new, coded_method, coded_operand, act_code, places, coded_instruction, ended, caught, coded_block, coded_branch, homes_of, home_noted, coded_groups, coded_class};
ghost use Rattle.flow_code.specs.Coder.{coding_of, name_of_class};
ghost use Rattle.flow_code.specs.View.{aim_of, instruction_of, end_of, catcher_of, block_of, operand_of, branch_of, group_of, code_of};

use crate::class::{
    Act, Aim, Block, Branch, Catcher, Class, Effect, Group, Instruction, Last, Operand,
};
use crate::expr::expr::Resolved;
use crate::expr::names::Names;
use crate::expr::resolve::{NamedPlaces, resolve, resolve_all};
use flow_ast::predefined::{Predefined, predefined_call, predefined_method};
use flow_base::memory::NoMemory;
use flow_class::class as text;
use flow_class::class::Slotted;
use flow_class::places::place_named;
use flow_tree::expr::Expr;
use flow_tree::stmt::Target;
use flow_tree::ty::{Ident, Ty};
use flow_value::value::Kind;
use indexmap::IndexMap;
use std::alloc::Global;

/// A number of things below 2^32; want of memory where there are more.
pub(crate) fn small(n: usize) -> Result<u32, NoMemory>
    ensures { IfOk result (λ k. k ≡ n) }
{
    match u32::try_from(n) {
        Ok(n) => Ok(n),
        Err(_) => Err(NoMemory),
    }
}

/// The sum, where it is below 2^32; want of memory where it is not.
fn sum(a: u32, b: u32) -> Result<u32, NoMemory>
    ensures { IfOk result (λ n. n ≡ a + b) }
{
    match a.checked_add(b) {
        Some(n) => Ok(n),
        None => Err(NoMemory),
    }
}

/// The first class of each name.
#[derive(Drop)]
pub(crate) struct ClassNames<'a> {
    named: IndexMap<&'a [u8], u32>,
}

#[tactic(auto, using(crate::proofs::Resolved::Maps::noted_there, crate::proofs::Resolved::Maps::noted_new))]
/// Notes the place of a name, unless one is noted already.
fn note<'a>(
    places: &mut IndexMap<&'a [u8], u32>,
    name: &'a [u8],
    place: u32,
) -> Result<(), NoMemory>
    ensures { OnOk result ((x : List ℕ) → at_name places.new x
        ≡ or_else (at_name places.old x) (if bytes_eq x name.now then Some place else None)) }
{
    if places.get(name).is_some() {
        return Ok(());
    }
    places.insert(name, place)?;
    Ok(())
}

#[tactic(auto, using(crate::proofs::Resolved::Maps::first_step, crate::proofs::Resolved::Maps::first_end))]
/// The place of the first class of each name.
fn first_classes<'a>(
    alloc: Global,
    classes: &'a [text::Class],
) -> Result<IndexMap<&'a [u8], u32>, NoMemory>
    ensures { IfOk result (λ m. (x : List ℕ) → at_name m x
        ≡ first_from 0 (map name_of_class classes.now) x) }
{
    let mut places = IndexMap::new(alloc);
    for (place, class) in classes.iter().enumerate() {
        note(&mut places, class.name.bytes(), small(place)?)?;
    }
    Ok(places)
}

impl<'a> ClassNames<'a> {
    pub(crate) fn new(alloc: Global, classes: &'a [text::Class]) -> Result<ClassNames<'a>, NoMemory>
        ensures { IfOk result (λ c. (x : List ℕ) → at_name c.named x
            ≡ first_from 0 (map name_of_class classes.now) x) }
    {
        Ok(ClassNames {
            named: first_classes(alloc, classes)?,
        })
    }

    pub(crate) fn class(&self, name: &[u8]) -> Option<u32>
        ensures { result ≡ at_name self.now.named name.now }
    {
        self.named.get(name).copied()
    }
}

/// What the coding of a class needs: the names of the program, and how many places of the class are slots.
#[derive(Drop)]
pub(crate) struct Coder<'n, 'a> {
    pub(crate) alloc: Global,
    pub(crate) names: &'n Names<'a>,
    pub(crate) classes: &'n ClassNames<'a>,
    pub(crate) slots: u32,
}

/// Whether a predefined call has an effect and gives a value.
fn is_effect(call: Predefined) -> bool
    ensures { result ≡ is_effect call }
{
    matches!(
        call,
        Predefined::RandomInt
            | Predefined::Delay
            | Predefined::Never
            | Predefined::Listen
            | Predefined::ReadFile
            | Predefined::WriteFile
            | Predefined::SyncFile
            | Predefined::FileSize
    )
}

/// What `new` does in a place of this type: it makes a cell, or puts the empty vector there.
fn new_of(alloc: Global, place: u32, ty: &Ty) -> Instruction
    ensures { instruction_of result ≡ new_of place (type_of ty.now) }
{
    match ty {
        Ty::Promise(_) => Instruction::New(place, Kind::Promise),
        Ty::PromiseStream(_) => Instruction::New(place, Kind::PromiseStream),
        Ty::Vector(_) => {
            let path = Vec::new(alloc);
            Instruction::Set(Aim { place, path }, Resolved::EmptyList)
        }
        Ty::Int
        | Ty::Bool
        | Ty::Str
        | Ty::Void
        | Ty::Error
        | Ty::Named(_)
        | Ty::Future(_)
        | Ty::FutureStream(_) => Instruction::Invalid,
    }
}

/// The type of a place of a class.
fn type_at(class: &text::Class, place: Slotted) -> Option<&Ty>
    ensures { option_map (λ (t : Bor tree.Ty). type_of t.now) result
        ≡ type_at (text.class_of class.now) place }
{
    match place {
        Slotted::Slot(n) => match class.slots.get(n as usize) {
            Some(slot) => Some(&slot.ty),
            None => None,
        },
        Slotted::Local(n) => class.locals.get(n as usize),
    }
}

impl<'n, 'a> NamedPlaces for Coder<'n, 'a> {
    ghost place_of = { λ c x. place_in c.slots x };

    fn place(&self, name: &[u8]) -> Option<u32> {
        match place_named(name) {
            Some(place) => self.number(place),
            None => None,
        }
    }
}

impl<'n, 'a> Coder<'n, 'a> {
    // The number of a place in its frame: the locals come behind the slots.
    fn number(&self, place: Slotted) -> Option<u32>
        ensures { result ≡ place_of self.now.slots place }
    {
        match place {
            Slotted::Slot(n) => { if n < self.slots { Some(n) } else { None } }
            Slotted::Local(n) => self.slots.checked_add(n),
        }
    }

    #[tactic(auto, using(crate::proofs::Fields::fields_step, crate::proofs::Fields::fields_none, crate::proofs::Fields::fields_end))]
    // The numbers of the names of fields, where all are names of fields.
    fn fields(&self, path: &[Ident]) -> Result<Option<Vec<usize>>, NoMemory>
        ensures { IfOk result (λ r. option_map (λ v. v.items) r
            ≡ fields_of (coding_of self.now).names.field path.now) }
    {
        let mut fields = Vec::new(self.alloc);
        for name in path {
            let Some(field) = self.names.field(name.name.bytes()) else {
                return Ok(None);
            };
            fields.push(field)?;
        }
        Ok(Some(fields))
    }

    // A place of a frame and a path of fields.
    fn aim(&self, first: &Ident, path: &[Ident]) -> Result<Option<Aim>, NoMemory>
        ensures { IfOk result (λ r. option_map aim_of r
            ≡ aimed (coding_of self.now) (first.now ∷ path.now)) }
    {
        let Some(place) = self.place(first.name.bytes()) else {
            return Ok(None);
        };
        match self.fields(path)? {
            Some(path) => Ok(Some(Aim { place, path })),
            None => Ok(None),
        }
    }

    fn aim_at(&self, target: &Target) -> Result<Option<Aim>, NoMemory>
        ensures { IfOk result (λ r. option_map aim_of r
            ≡ aimed (coding_of self.now) target.now.path.items) }
    {
        match target.path.split_first() {
            Some((first, path)) => self.aim(first, path),
            None => Ok(None),
        }
    }

    // What has an effect by a name.
    fn effect_named(&self, name: &[u8]) -> Option<Effect>
        ensures { result ≡ effect_named (named call_names name.now)
            ((coding_of self.now).class name.now) }
    {
        match predefined_call(name) {
            Some(call) => {
                if is_effect(call) {
                    Some(Effect::World(call))
                } else {
                    None
                }
            }
            None => self.classes.class(name).map(Effect::Actor),
        }
    }

    // The effect that an expression is, with its arguments.
    fn effect(&self, expr: &Expr) -> Result<Option<(Effect, Vec<Resolved>)>, NoMemory>
        ensures { IfOk result (λ r. option_map (λ p. (p.0, nodes_of p.1.items)) r
            ≡ effect_in (coding_of self.now) (expr_of expr.now)) }
    {
        let Expr::Call(name, args) = expr else {
            return Ok(None);
        };
        match self.effect_named(name.name.bytes()) {
            Some(effect) => Ok(Some((effect, self.args(args)?))),
            None => Ok(None),
        }
    }

    #[tactic(auto, using(crate::proofs::Resolved::Resolves::args_resolved))]
    // Arguments with their names resolved.
    fn args(&self, args: &[Expr]) -> Result<Vec<Resolved>, NoMemory>
        ensures { IfOk result (λ v. nodes_of v.items
            ≡ resolved_all (coding_of self.now).names (exprs_of args.now)) }
    {
        Ok(resolve_all(self.names, self, args)?)
    }

    // An expression with its names resolved.
    fn expr(&self, expr: &Expr) -> Result<Resolved, NoMemory>
        ensures { IfOk result (λ r. node_of r
            ≡ resolved (coding_of self.now).names (expr_of expr.now)) }
    {
        resolve(self.names, self, expr)
    }

    // What a call statement without a base calls.
    fn plain(&self, name: &[u8]) -> Option<Act>
        ensures { result ≡ act_named (named call_names name.now)
            ((coding_of self.now).names.function name.now)
            ((coding_of self.now).class name.now) }
    {
        if let Some(call) = predefined_call(name) {
            return Some(Act::World(call));
        }
        match self.names.function(name) {
            Some(function) => Some(Act::Function(function)),
            None => self.classes.class(name).map(Act::Actor),
        }
    }

    // A method of what is at a path, its arguments resolved.
    fn method(
        &self,
        first: &Ident,
        path: &[Ident],
        name: &[u8],
        args: Vec<Resolved>,
    ) -> Result<Instruction, NoMemory>
        ensures { IfOk result (λ i. instruction_of i
            ≡ coded_method (coding_of self.now) (first.now ∷ path.now) name.now
            (nodes_of args.items)) }
    {
        let Some(aim) = self.aim(first, path)? else {
            return Ok(Instruction::Invalid);
        };
        match predefined_method(name) {
            Some(method) => Ok(Instruction::Method(aim, method, args)),
            None => Ok(Instruction::Invalid),
        }
    }

    #[tactic(auto, using(crate::proofs::Paths::method_coded))]
    // A call statement, its arguments resolved.
    fn act(&self, target: &Target, args: Vec<Resolved>) -> Result<Instruction, NoMemory>
        ensures { IfOk result (λ i. instruction_of i
            ≡ act_code (coding_of self.now) target.now.path.items (nodes_of args.items)) }
    {
        let Some((last, before)) = target.path.split_last() else {
            return Ok(Instruction::Invalid);
        };
        let name = last.name.bytes();
        let Some((first, path)) = before.split_first() else {
            return match self.plain(name) {
                Some(act) => Ok(Instruction::Act(act, args)),
                None => Ok(Instruction::Invalid),
            };
        };
        Ok(self.method(first, path, name, args)?)
    }

    // The numbers of locals in their frame.
    fn locals(&self, locals: &[u32]) -> Result<Vec<u32>, NoMemory>
        ensures { IfOk result (λ v. v.items ≡ places (coding_of self.now) locals.now) }
    {
        let mut places = Vec::new(self.alloc);
        for local in locals {
            places.push(sum(self.slots, *local)?)?;
        }
        Ok(places)
    }

    // An assignment.
    fn set(&self, target: &Target, expr: &Expr) -> Result<Instruction, NoMemory>
        ensures { IfOk result (λ i. instruction_of i
            ≡ coded_set (coding_of self.now) target.now.path.items (expr_of expr.now)) }
    {
        match self.aim_at(target)? {
            Some(aim) => Ok(Instruction::Set(aim, self.expr(expr)?)),
            None => Ok(Instruction::Invalid),
        }
    }

    // An assignment of what an effect gives.
    fn set_effect(&self, target: &Target, expr: &Expr) -> Result<Instruction, NoMemory>
        ensures { IfOk result (λ i. instruction_of i
            ≡ coded_effect (coding_of self.now) target.now.path.items (expr_of expr.now)) }
    {
        let Some(aim) = self.aim_at(target)? else {
            return Ok(Instruction::Invalid);
        };
        match self.effect(expr)? {
            Some((effect, args)) => Ok(Instruction::Effect(aim, effect, args)),
            None => Ok(Instruction::Invalid),
        }
    }

    // A new cell, or an empty vector.
    fn new_thing(&self, class: &text::Class, place: Slotted) -> Instruction
        ensures { instruction_of result ≡ coded_new (coding_of self.now) (text.class_of class.now)
            place }
    {
        match (self.number(place), type_at(class, place)) {
            (Some(place), Some(ty)) => new_of(self.alloc, place, ty),
            _ => Instruction::Invalid,
        }
    }

    fn instruction(&self, class: &text::Class, instr: &text::Instr) -> Result<Instruction, NoMemory>
        ensures { IfOk result (λ i. instruction_of i
            ≡ coded_instruction (coding_of self.now) (text.class_of class.now)
            (text.instr_of instr.now)) }
    {
        match instr {
            text::Instr::Set(target, expr) => self.set(target, expr),
            text::Instr::Effect(target, expr) => self.set_effect(target, expr),
            text::Instr::New(place) => Ok(self.new_thing(class, *place)),
            text::Instr::Act(target, args) => self.act(target, self.args(args)?),
            text::Instr::Drop(locals) => Ok(Instruction::Drop(self.locals(locals)?)),
        }
    }

    fn last(&self, last: &text::Last) -> Result<Last, NoMemory>
        ensures { IfOk result (λ l. end_of l ≡ ended (coding_of self.now) (text.last_of last.now)) }
    {
        match last {
            text::Last::Goto(block) => Ok(Last::Goto(*block)),
            text::Last::Pass(block) => Ok(Last::Pass(*block)),
            text::Last::Test(expr, yes, no) => Ok(Last::Test(self.expr(expr)?, *yes, *no)),
            text::Last::Choose(group) => Ok(Last::Choose(*group)),
            text::Last::Return(Some(expr)) => Ok(Last::Return(self.expr(expr)?)),
            text::Last::Return(None) => Ok(Last::Return(Resolved::VoidValue)),
            text::Last::Throw(expr) => Ok(Last::Throw(self.expr(expr)?)),
        }
    }

    // The place of the error of a catcher.
    fn error(&self, local: Option<u32>) -> Result<Option<u32>, NoMemory>
        ensures { IfOk result (λ r. r ≡ option_map (λ n. self.now.slots + n) local) }
    {
        match local {
            Some(local) => Ok(Some(sum(self.slots, local)?)),
            None => Ok(None),
        }
    }

    fn catcher(&self, catcher: &Option<text::Catcher>) -> Result<Option<Catcher>, NoMemory>
        ensures { IfOk result (λ r. option_map catcher_of r
            ≡ option_map (caught (coding_of self.now)) (option_map text.catcher_of catcher.now)) }
    {
        match catcher {
            Some(catcher) => Ok(Some(Catcher {
                block: catcher.block,
                error: self.error(catcher.error)?,
                drops: self.locals(&catcher.drops)?,
            })),
            None => Ok(None),
        }
    }

    fn body(&self, class: &text::Class, body: &[text::Instr]) -> Result<Vec<Instruction>, NoMemory>
        ensures { IfOk result (λ v. map instruction_of v.items
            ≡ map (coded_instruction (coding_of self.now) (text.class_of class.now))
            (map text.instr_of body.now)) }
    {
        let mut coded = Vec::new(self.alloc);
        for instr in body {
            coded.push(self.instruction(class, instr)?)?;
        }
        Ok(coded)
    }

    fn block(&self, class: &text::Class, block: &text::Block) -> Result<Block, NoMemory>
        ensures { IfOk result (λ b. block_of b
            ≡ coded_block (coding_of self.now) (text.class_of class.now)
            (text.block_of block.now)) }
    {
        Ok(Block {
            catcher: self.catcher(&block.catcher)?,
            body: self.body(class, &block.body)?,
            last: self.last(&block.last)?,
        })
    }

    fn blocks(&self, class: &text::Class) -> Result<Vec<Block>, NoMemory>
        ensures { IfOk result (λ v. map block_of v.items
            ≡ map (coded_block (coding_of self.now) (text.class_of class.now))
            (map text.block_of class.now.blocks.items)) }
    {
        let mut blocks = Vec::new(self.alloc);
        for block in &class.blocks {
            blocks.push(self.block(class, block)?)?;
        }
        Ok(blocks)
    }

    fn operand(&self, expr: &Expr) -> Result<Operand, NoMemory>
        ensures { IfOk result (λ o. operand_of o
            ≡ coded_operand (coding_of self.now) (expr_of expr.now)) }
    {
        match self.effect(expr)? {
            Some((effect, args)) => Ok(Operand::Effect(effect, args)),
            None => Ok(Operand::Value(self.expr(expr)?)),
        }
    }

    // The place that takes the value of a branch.
    fn into(&self, place: Option<Slotted>) -> Option<u32>
        ensures { result ≡ option_and_then (place_of self.now.slots) place }
    {
        match place {
            Some(place) => self.number(place),
            None => None,
        }
    }

    fn branch(&self, callback: &text::Callback) -> Result<Branch, NoMemory>
        ensures { IfOk result (λ b. branch_of b
            ≡ coded_branch (coding_of self.now) (text.callback_of callback.now)) }
    {
        Ok(Branch {
            operand: self.operand(&callback.operand)?,
            into: self.into(callback.into),
            block: callback.block,
        })
    }

    fn branches(&self, group: &text::Group) -> Result<Vec<Branch>, NoMemory>
        ensures { IfOk result (λ v. map branch_of v.items
            ≡ map (coded_branch (coding_of self.now)) (text.group_of group.now)) }
    {
        let mut branches = Vec::new(self.alloc);
        for callback in &group.callbacks {
            branches.push(self.branch(callback)?)?;
        }
        Ok(branches)
    }

    #[tactic(auto, using(crate::proofs::Groups::groups_step, crate::proofs::Groups::groups_end))]
    // Groups with their homes.
    fn groups_at(&self, groups: &[text::Group], homes: &[u32]) -> Result<Vec<Group>, NoMemory>
        requires { length homes.now ≡ length groups.now }
        ensures { IfOk result (λ v. map group_of v.items
            ≡ coded_groups (coding_of self.now) 0 homes.now (map text.group_of groups.now)) }
    {
        let mut coded = Vec::new(self.alloc);
        let mut first: u32 = 0;
        for (place, group) in groups.iter().enumerate() {
            let branches = self.branches(group)?;
            let next = sum(first, small(branches.len())?)?;
            coded.push(Group {
                block: homes[place],
                first,
                branches,
            })?;
            first = next;
        }
        Ok(coded)
    }

    fn groups(&self, class: &text::Class) -> Result<Vec<Group>, NoMemory>
        ensures { IfOk result (λ v. map group_of v.items
            ≡ coded_groups (coding_of self.now) 0 (homes_of (text.class_of class.now))
            (map text.group_of class.now.groups.items)) }
    {
        let homes = homes(self.alloc, class)?;
        self.groups_at(&class.groups, &homes)
    }

    /// A class with its names resolved.
    pub(crate) fn class(&self, class: &text::Class) -> Result<Class, NoMemory>
        ensures { IfOk result (λ c. code_of c
            ≡ coded_class (coding_of self.now) (text.class_of class.now)) }
    {
        Ok(Class {
            name: class.name.copy(self.alloc)?,
            params: class.params,
            slots: self.slots,
            places: sum(self.slots, small(class.locals.len())?)?,
            blocks: self.blocks(class)?,
            groups: self.groups(class)?,
        })
    }
}

// Notes the block that ends in the wait of a group, numbered from 1.
fn note_home(homes: &mut [u32], last: &text::Last, block: u32)
    ensures homes { homes.new ≡ home_noted (text.last_of last.now) block homes.old }
    ensures length { length homes.new ≡ length homes.old }
{
    let text::Last::Choose(group) = last else {
        return;
    };
    let group = *group as usize;
    if 0 < group && group <= homes.len() {
        homes[group - 1] = block;
    }
}

#[tactic(auto, using(crate::proofs::Homes::homes_step, crate::proofs::Homes::homes_end))]
// The homes of the groups of a class.
fn homes(alloc: Global, class: &text::Class) -> Result<Vec<u32>, NoMemory>
    ensures homes { IfOk result (λ v. v.items ≡ homes_of (text.class_of class.now)) }
    ensures length { IfOk result (λ v. length v.items ≡ length class.now.groups.items) }
{
    let mut homes = vec![in alloc; 0u32; class.groups.len()]?;
    for (place, block) in class.blocks.iter().enumerate() {
        note_home(&mut homes, &block.last, small(place)?);
    }
    Ok(homes)
}
