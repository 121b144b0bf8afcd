// What a block does to places, in order.

ghost use Rattle.std.specs.Prelude.{◌≡◌, ◌<◌, ◌≤◌, ◌-◌, ◌++◌, ◌∷◌, [], List, Some, map, take, drop, length, slice_get, IfOk};
ghost use Rattle.flow_tree.specs.View.{expr_of, exprs_of};
ghost use Rattle.std.specs.Option.{option_map};
ghost use denote.Ref.{Bor};
ghost use Rattle.flow_class.specs.declared.class.Group as code;
ghost use Rattle.flow_class.specs.Code.{group_at};
ghost use Rattle.flow_class.specs.View.{class_of, block_of, instr_of, last_of, callback_of, group_of};
ghost use Rattle.flow_class.specs.Places.{place_named, small_place};
ghost use Rattle.flow_validate.specs.declared.touch.Touch.TheVariants as touch;
ghost use Rattle.flow_valid.specs.Named.{listed, expr_places, exprs_places, base_place, last_places};
ghost use Rattle.flow_valid.specs.Filling.{filled_path, operands, group_reads};
ghost use Rattle.flow_validate.specs.declared.touch.Touch.{Touch as Touching};
ghost use Rattle.flow_validate.specs.Joined.{joined, AreJoined};
ghost use Rattle.flow_validate.specs.Small.{small_places, reads_of, small_instr, small_body, small_last, small_block};

use flow_base::memory::NoMemory;
use flow_base::name::Name;
use flow_class::class::{Block, Callback, Class, Group, Instr, Last, Slotted};
use flow_class::places::place_named;
use flow_tree::expr::Expr;
use flow_tree::ty::Ident;
use std::alloc::Global;

/// What happens to a place: an error may be thrown here; a place is read, or filled; a local is emptied; and at a wait all locals are.
#[derive(Clone, Copy, PartialEq, Eq)]
pub enum Touch {
    Throws,
    Reads(Slotted),
    Fills(Slotted),
    Empties(u32),
    Waits,
}

// The place of a name is read, if it is the name of one.
fn add_name(touches: &mut Vec<Touch>, name: &Name) -> Result<(), NoMemory>
    ensures { IfOk result (λ _. touches.new.items
        ≡ touches.old.items ++ reads_of (listed (place_named name.now))) }
{
    if let Some(place) = place_named(name.bytes()) {
        touches.push(Touch::Reads(place))?;
    }
    Ok(())
}

#[cycle(reads)]
fn add_reads(touches: &mut Vec<Touch>, expr: &Expr) -> Result<(), NoMemory>
    ensures { IfOk result (λ _. touches.new.items
        ≡ touches.old.items ++ reads_of (expr_places (expr_of expr.now))) }
{
    match expr {
        Expr::Int(_) | Expr::Text(_) | Expr::Bool(_) | Expr::VoidValue => Ok(()),
        Expr::Var(name) => add_name(touches, &name.name),
        Expr::Call(_, args) => add_args_reads(touches, args),
        Expr::Method(of, _, args) => {
            add_reads(touches, of)?;
            add_args_reads(touches, args)
        }
        Expr::Field(of, _) | Expr::Not(of) | Expr::Neg(of) | Expr::Paren(of) => {
            add_reads(touches, of)
        }
        Expr::Binary(_, left, right) | Expr::Index(left, right) => {
            add_reads(touches, left)?;
            add_reads(touches, right)
        }
    }
}

#[cycle(reads)]
fn add_args_reads(touches: &mut Vec<Touch>, args: &[Expr]) -> Result<(), NoMemory>
    ensures { IfOk result (λ _. touches.new.items
        ≡ touches.old.items ++ reads_of (exprs_places (exprs_of args.now))) }
{
    for arg in args {
        add_reads(touches, arg)?;
    }
    Ok(())
}

// A path to a field of a place reads it, and so does a call on it.
fn add_base_read(touches: &mut Vec<Touch>, path: &[Ident]) -> Result<(), NoMemory>
    ensures { IfOk result (λ _. touches.new.items
        ≡ touches.old.items ++ reads_of (base_place path.now)) }
{
    match path {
        [] | [_] => Ok(()),
        [first, _, ..] => add_name(touches, &first.name),
    }
}

// A path that is one place fills it.
fn add_fill(touches: &mut Vec<Touch>, path: &[Ident]) -> Result<(), NoMemory>
    ensures { IfOk result (λ _. touches.new.items
        ≡ touches.old.items ++ map touch.Fills (small_places (filled_path path.now))) }
{
    let [only] = path else {
        return Ok(());
    };
    if let Some(place) = place_named(only.name.bytes()) {
        touches.push(Touch::Fills(place))?;
    }
    Ok(())
}

fn add_put(touches: &mut Vec<Touch>, path: &[Ident], value: &Expr) -> Result<(), NoMemory>
    ensures { IfOk result (λ _. touches.new.items
        ≡ touches.old.items ++ reads_of (base_place path.now) ++ reads_of
        (expr_places (expr_of value.now)) ++ map touch.Fills
        (small_places (filled_path path.now))) }
{
    add_base_read(touches, path)?;
    add_reads(touches, value)?;
    add_fill(touches, path)
}

fn add_emptied(touches: &mut Vec<Touch>, numbers: &[u32]) -> Result<(), NoMemory>
    ensures { IfOk result (λ _. touches.new.items
        ≡ touches.old.items ++ map touch.Empties numbers.now) }
{
    for number in numbers {
        touches.push(Touch::Empties(*number))?;
    }
    Ok(())
}

fn add_instr(touches: &mut Vec<Touch>, instr: &Instr) -> Result<(), NoMemory>
    ensures { IfOk result (λ _. touches.new.items
        ≡ touches.old.items ++ small_instr (instr_of instr.now)) }
{
    touches.push(Touch::Throws)?;
    match instr {
        Instr::Set(target, value) => add_put(touches, &target.path, value),
        Instr::Effect(target, value) => add_put(touches, &target.path, value),
        Instr::New(place) => Ok(touches.push(Touch::Fills(*place))?),
        Instr::Act(target, args) => {
            add_base_read(touches, &target.path)?;
            add_args_reads(touches, args)
        }
        Instr::Drop(numbers) => add_emptied(touches, numbers),
    }
}

fn add_body(touches: &mut Vec<Touch>, body: &[Instr]) -> Result<(), NoMemory>
    ensures { IfOk result (λ _. touches.new.items
        ≡ touches.old.items ++ small_body (map instr_of body.now)) }
{
    for instr in body {
        add_instr(touches, instr)?;
    }
    Ok(())
}

// The operands of a group are read before it waits.
fn add_operands(touches: &mut Vec<Touch>, callbacks: &[Callback]) -> Result<(), NoMemory>
    ensures { IfOk result (λ _. touches.new.items
        ≡ touches.old.items ++ reads_of (operands (map callback_of callbacks.now))) }
{
    for callback in callbacks {
        add_reads(touches, &callback.operand)?;
    }
    Ok(())
}

/// The callbacks of a group, numbered from 1.
pub fn group_of(class: &Class, number: u32) -> Option<&Group>
    ensures { option_map (λ (g : Bor code.Group). group_of g.now) result
        ≡ group_at (class_of class.now).groups number }
{
    if number == 0 {
        return None;
    }
    match class.groups.get(number as usize - 1) {
        Some(group) => Some(group),
        None => None,
    }
}

fn add_wait(touches: &mut Vec<Touch>, class: &Class, group: u32) -> Result<(), NoMemory>
    ensures { IfOk result (λ _. touches.new.items
        ≡ touches.old.items ++ reads_of (group_reads (group_at (class_of class.now).groups group))
        ++ touch.Waits ∷ touch.Throws ∷ []) }
{
    if let Some(group) = group_of(class, group) {
        add_operands(touches, &group.callbacks)?;
    }
    touches.push(Touch::Waits)?;
    Ok(touches.push(Touch::Throws)?)
}

fn add_last(touches: &mut Vec<Touch>, class: &Class, last: &Last) -> Result<(), NoMemory>
    ensures { IfOk result (λ _. touches.new.items
        ≡ touches.old.items ++ small_last (class_of class.now) (last_of last.now)) }
{
    touches.push(Touch::Throws)?;
    match last {
        Last::Goto(_) | Last::Pass(_) => Ok(()),
        Last::Test(test, _, _) => add_reads(touches, test),
        Last::Choose(group) => add_wait(touches, class, *group),
        Last::Return(Some(value)) | Last::Throw(value) => add_reads(touches, value),
        Last::Return(None) => Ok(()),
    }
}

// Touches from one place to another.
fn touches_between(touches: &[Touch], start: usize, end: usize) -> &[Touch]
    requires order { start ≤ end }
    requires within { end ≤ length touches.now }
    ensures { result.now ≡ take (end - start) (drop start touches.now) }
{
    &touches[start..end]
}

/// What blocks of a class do to places: their touches, one block after another, and where those of each block end.
#[derive(Drop)]
pub struct Touches {
    all: Vec<Touch>,
    ends: Vec<usize>,
}

impl Touches {
    // What one more block does.
    fn add(&mut self, class: &Class, block: &Block) -> Result<(), NoMemory>
        ensures { (before : List (List Touching)) → AreJoined self.old before
            → IfOk result (λ _. AreJoined self.new
            (before ++ small_block (class_of class.now) (block_of block.now) ∷ [])) }
    {
        add_body(&mut self.all, &block.body)?;
        add_last(&mut self.all, class, &block.last)?;
        Ok(self.ends.push(self.all.len())?)
    }

    /// What these blocks of a class do to places.
    pub fn of(alloc: Global, class: &Class, blocks: &[Block]) -> Result<Touches, NoMemory>
        ensures { IfOk result (λ t. AreJoined t
            (map (small_block (class_of class.now)) (map block_of blocks.now))) }
    {
        let mut touches = Touches {
            all: Vec::new(alloc),
            ends: Vec::with_capacity(alloc, blocks.len())?,
        };
        for block in blocks {
            touches.add(class, block)?;
        }
        Ok(touches)
    }

    // Where the touches of a block begin.
    fn start(&self, number: usize) -> usize
        requires { (all : List (List Touching)) × AreJoined self.now all × (number < length all) }
        ensures { (all : List (List Touching)) → AreJoined self.now all
            → result ≡ length (joined (take number all)) }
    {
        if number == 0 {
            return 0;
        }
        self.ends[number - 1]
    }

    /// What the block with a number does.
    pub fn of_block(&self, number: usize) -> &[Touch]
        requires { (all : List (List Touching)) × AreJoined self.now all × (number < length all) }
        ensures { (all : List (List Touching)) → AreJoined self.now all
            → slice_get all number ≡ Some result.now }
    {
        let start = self.start(number);
        let end = self.ends[number];
        touches_between(&self.all, start, end)
    }
}
