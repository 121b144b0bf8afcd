// The rule V3: what a class names is there.

ghost use Rattle.std.specs.Prelude.{◌≡◌, ◌<◌, ◌^◌, length, map, is_some};
ghost use Rattle.std.specs.List.{list_all};
ghost use Rattle.std.specs.Option.{option_map};
ghost use Rattle.flow_tree.specs.View.{expr_of, exprs_of};
ghost use Rattle.flow_class.specs.Places.{place_named, is_number};
ghost use Rattle.flow_class.specs.declared.class.Slotted.TheVariants as place;
ghost use Rattle.flow_class.specs.Code.{group_at};
ghost use Rattle.flow_ast.specs.Typing.{is_there};
ghost use Rattle.flow_base.specs.Names.{digit, are_digits};
ghost use Rattle.flow_class.specs.Classes.{InstrTree};
ghost use Rattle.flow_class.specs.View.{class_of, block_of, catcher_of, instr_of, last_of, callback_of, group_of};
ghost use Rattle.flow_valid.specs.Named.{listed, expr_places, exprs_places, path_place, base_place, instr_places, last_places, targets, has_place, has_block, has_catcher, has_group, has_last, has_named, has_operand, names_exist};
ghost use Rattle.flow_validate.specs.Sizes.{HasFewPlaces};

use flow_base::name::{Name, is_digit};
use flow_class::class::{Block, Callback, Catcher, Class, Group, Instr, Last, Slotted};
use flow_class::places::place_named;
use flow_tree::expr::Expr;
use flow_tree::ty::Ident;

fn are_digits(digits: &[u8]) -> bool
    ensures { result ≡ list_all digit digits.now }
{
    digits.iter().all(|digit| is_digit(*digit))
}

// One or more digits with no zero in front.
fn is_number(digits: &[u8]) -> bool
    ensures { result ≡ is_number digits.now }
{
    match digits {
        [] => false,
        [digit] => is_digit(*digit),
        [first, ..] => *first != b'0' && are_digits(digits),
    }
}

// Whether a name is that of a place, however great its number is.
fn is_place_name(name: &[u8]) -> bool
    ensures { result ≡ is_some (place_named name.now) }
{
    match name.split_first() {
        Some((first, digits)) => (*first == b's' || *first == b'l') && is_number(digits),
        None => false,
    }
}

fn has_place(class: &Class, place: Slotted) -> bool
    ensures { result ≡ has_place (class_of class.now) place }
{
    match place {
        Slotted::Slot(number) => class.slots.get(number as usize).is_some(),
        Slotted::Local(number) => class.locals.get(number as usize).is_some(),
    }
}

fn has_local(class: &Class, number: u32) -> bool
    ensures { result ≡ has_place (class_of class.now) (place.Local number) }
{
    has_place(class, Slotted::Local(number))
}

// The place of a name is there, if it is the name of one.
fn has_named(class: &Class, name: &Name) -> bool
    requires { HasFewPlaces (class_of class.now) }
    ensures { result ≡ list_all (has_place (class_of class.now)) (listed (place_named name.now)) }
{
    match place_named(name.bytes()) {
        Some(place) => has_place(class, place),
        None => !is_place_name(name.bytes()),
    }
}

#[cycle(places)]
fn has_all_in(class: &Class, expr: &Expr) -> bool
    requires { HasFewPlaces (class_of class.now) }
    ensures { result ≡ list_all (has_place (class_of class.now)) (expr_places (expr_of expr.now)) }
{
    match expr {
        Expr::Int(_) | Expr::Text(_) | Expr::Bool(_) | Expr::VoidValue => true,
        Expr::Var(name) => has_named(class, &name.name),
        Expr::Call(_, args) => has_all_in_args(class, args),
        Expr::Method(of, _, args) => has_all_in(class, of) && has_all_in_args(class, args),
        Expr::Field(of, _) | Expr::Not(of) | Expr::Neg(of) | Expr::Paren(of) => {
            has_all_in(class, of)
        }
        Expr::Binary(_, left, right) | Expr::Index(left, right) => {
            has_all_in(class, left) && has_all_in(class, right)
        }
    }
}

#[cycle(places)]
fn has_all_in_args(class: &Class, args: &[Expr]) -> bool
    requires { HasFewPlaces (class_of class.now) }
    ensures { result ≡ list_all (has_place (class_of class.now))
        (exprs_places (exprs_of args.now)) }
{
    for arg in args {
        if !has_all_in(class, arg) {
            return false;
        }
    }
    true
}

fn has_path_place(class: &Class, path: &[Ident]) -> bool
    requires { HasFewPlaces (class_of class.now) }
    ensures { result ≡ list_all (has_place (class_of class.now)) (path_place path.now) }
{
    match path {
        [] => true,
        [first, ..] => has_named(class, &first.name),
    }
}

fn has_base_place(class: &Class, path: &[Ident]) -> bool
    requires { HasFewPlaces (class_of class.now) }
    ensures { result ≡ list_all (has_place (class_of class.now)) (base_place path.now) }
{
    match path {
        [] | [_] => true,
        [first, _, ..] => has_named(class, &first.name),
    }
}

fn has_locals(class: &Class, numbers: &[u32]) -> bool
    ensures { result ≡ list_all (has_place (class_of class.now)) (map place.Local numbers.now) }
{
    for number in numbers {
        if !has_local(class, *number) {
            return false;
        }
    }
    true
}

fn has_instr(class: &Class, instr: &Instr) -> bool
    requires { HasFewPlaces (class_of class.now) }
    ensures { result ≡ list_all (has_place (class_of class.now))
        (instr_places (instr_of instr.now)) }
{
    match instr {
        Instr::Set(target, value) | Instr::Effect(target, value) => {
            has_path_place(class, &target.path) && has_all_in(class, value)
        }
        Instr::New(place) => has_place(class, *place),
        Instr::Act(target, args) => {
            has_base_place(class, &target.path) && has_all_in_args(class, args)
        }
        Instr::Drop(numbers) => has_locals(class, numbers),
    }
}

fn has_block(class: &Class, number: u32) -> bool
    ensures { result ≡ has_block (class_of class.now) number }
{
    (number as usize) < class.blocks.len()
}

fn has_group(class: &Class, number: u32) -> bool
    ensures { result ≡ is_there (group_at (class_of class.now).groups number) }
{
    0 < number && number as usize <= class.groups.len()
}

fn has_error(class: &Class, error: Option<u32>) -> bool
    ensures { result ≡ list_all (has_place (class_of class.now))
        (listed (option_map place.Local error)) }
{
    match error {
        Some(number) => has_local(class, number),
        None => true,
    }
}

fn has_catcher(class: &Class, catcher: &Option<Catcher>) -> bool
    ensures { result ≡ has_catcher (class_of class.now) (option_map catcher_of catcher.now) }
{
    match catcher {
        Some(catcher) => {
            has_block(class, catcher.block)
                && has_error(class, catcher.error)
                && has_locals(class, &catcher.drops)
        }
        None => true,
    }
}

fn has_last(class: &Class, last: &Last) -> bool
    requires { HasFewPlaces (class_of class.now) }
    ensures { result ≡ has_last (class_of class.now) (last_of last.now) }
{
    match last {
        Last::Goto(block) | Last::Pass(block) => has_block(class, *block),
        Last::Test(test, holds, fails) => {
            has_block(class, *holds) && has_block(class, *fails) && has_all_in(class, test)
        }
        Last::Choose(group) => has_group(class, *group),
        Last::Return(Some(value)) | Last::Throw(value) => has_all_in(class, value),
        Last::Return(None) => true,
    }
}

fn has_body(class: &Class, body: &[Instr]) -> bool
    requires { HasFewPlaces (class_of class.now) }
    ensures { result ≡ list_all (λ (i : InstrTree). list_all (has_place (class_of class.now))
        (instr_places i)) (map instr_of body.now) }
{
    for instr in body {
        if !has_instr(class, instr) {
            return false;
        }
    }
    true
}

fn has_named_in(class: &Class, block: &Block) -> bool
    requires { HasFewPlaces (class_of class.now) }
    ensures { result ≡ has_named (class_of class.now) (block_of block.now) }
{
    has_catcher(class, &block.catcher)
        && has_body(class, &block.body)
        && has_last(class, &block.last)
}

fn has_into(class: &Class, into: Option<Slotted>) -> bool
    ensures { result ≡ list_all (has_place (class_of class.now)) (listed into) }
{
    match into {
        Some(place) => has_place(class, place),
        None => true,
    }
}

fn has_operand(class: &Class, callback: &Callback) -> bool
    requires { HasFewPlaces (class_of class.now) }
    ensures { result ≡ has_operand (class_of class.now) (callback_of callback.now) }
{
    has_block(class, callback.block)
        && has_all_in(class, &callback.operand)
        && has_into(class, callback.into)
}

fn has_operands(class: &Class, callbacks: &[Callback]) -> bool
    requires { HasFewPlaces (class_of class.now) }
    ensures { result ≡ list_all (has_operand (class_of class.now)) (map callback_of callbacks.now) }
{
    for callback in callbacks {
        if !has_operand(class, callback) {
            return false;
        }
    }
    true
}

fn has_blocks(class: &Class, blocks: &[Block]) -> bool
    requires { HasFewPlaces (class_of class.now) }
    ensures { result ≡ list_all (has_named (class_of class.now)) (map block_of blocks.now) }
{
    for block in blocks {
        if !has_named_in(class, block) {
            return false;
        }
    }
    true
}

fn has_groups(class: &Class, groups: &[Group]) -> bool
    requires { HasFewPlaces (class_of class.now) }
    ensures { result ≡ list_all (list_all (has_operand (class_of class.now)))
        (map group_of groups.now) }
{
    for group in groups {
        if !has_operands(class, &group.callbacks) {
            return false;
        }
    }
    true
}

/// Whether every slot, local, group and block that a class names exists.
pub fn names_exist(class: &Class) -> bool
    requires { HasFewPlaces (class_of class.now) }
    ensures { result ≡ names_exist (class_of class.now) }
{
    has_blocks(class, &class.blocks) && has_groups(class, &class.groups)
}
