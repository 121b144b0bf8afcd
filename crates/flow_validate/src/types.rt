// The rule V7: types of expressions, targets, arguments, operands and results.

ghost use Rattle.std.specs.Prelude.{◌≡◌, ◌≤◌, ◌<◌, ◌^◌, ◌++◌, ℕ, length, map, IfOk, slice_get, is_none, [], true, false, Some};
ghost use Rattle.std.specs.Option.{option_map};
ghost use Rattle.std.specs.List.{list_all};
ghost use denote.Ref.{Bor};
ghost use Rattle.flow_tree.specs.declared.ty.Ty as code;
ghost use Rattle.flow_tree.specs.Tree.{BoolType, ErrorType};
ghost use Rattle.flow_tree.specs.View.{type_of, expr_of, exprs_of};
ghost use Rattle.flow_tree.specs.DeclView.{slot_of};
ghost use Rattle.flow_rules.specs.Judged.{Setting as Judging};
ghost use Rattle.flow_types.specs.View.{found_of, inner_of, kind_of, callee_of};
ghost use Rattle.flow_types.specs.MapView.{vars_of};
ghost use Rattle.flow_types.specs.SettingView.{setting_view};
ghost use Rattle.flow_class.specs.Code.{type_at};
ghost use Rattle.flow_class.specs.View.{class_of, block_of, instr_of, last_of, callback_of, group_of};
ghost use Rattle.flow_validate.specs.Apart.{types_fit_in};
ghost use Rattle.flow_validate.specs.Sizes.{HasFewPlaces, AreFew};
ghost use Rattle.flow_class.specs.Classes.{ClassTree};
ghost use Rattle.flow_valid.specs.Validity.{slot_rows, local_rows, is_effect_kind, calls_effect, is_effect, put_fault, is_made, operand_type, has_type, instr_fits, last_fits, operand_fits, taken_type, callback_fits, block_fits};
ghost use Rattle.flow_validate.specs.PlaceNames.{place_of, AreNames, AreEnough, AreEnoughFor};
ghost use Rattle.flow_validate.specs.Rows.{AreSlotRows};

use flow_base::memory::NoMemory;
use flow_base::name::Name;
use flow_choose::places::var_over;
use flow_class::class::{Block, Callback, Class, Group, Instr, Last, Slotted};
use flow_rules::rule::{SemanticRule, lesser};
use flow_tree::decl::Slot;
use flow_tree::expr::Expr;
use flow_tree::stmt::Target;
use flow_tree::ty::Ty;
use flow_types::callee::{Callee, Kind};
use flow_types::judge::{Setting, Vars, wants};
use flow_types::type_view::{ElementView, TypeView};
use indexmap::IndexMap;
use std::alloc::Global;

/// The names of so many slots, and of so many locals, from the first.
#[derive(Drop)]
pub struct PlaceNames {
    pub slots: Vec<Name>,
    pub locals: Vec<Name>,
    ghost slots_named: { AreNames false slots.items },
    ghost locals_named: { AreNames true locals.items },
}

fn place_of(is_local: bool, number: u32) -> Slotted
    ensures { result ≡ place_of is_local number }
{
    if is_local {
        Slotted::Local(number)
    } else {
        Slotted::Slot(number)
    }
}

// The names of so many slots or locals, from the first.
fn names_of(alloc: Global, are_locals: bool, count: u32) -> Result<Vec<Name>, NoMemory>
    ensures named { IfOk result (λ v. AreNames are_locals v.items) }
    ensures count { IfOk result (λ v. length v.items ≡ count) }
{
    let mut names = Vec::with_capacity(alloc, count as usize)?;
    for number in 0..count {
        names.push(var_over(alloc, Some(place_of(are_locals, number)))?)?;
    }
    Ok(names)
}

// An assignment, whose value may be an effect or not.
fn put_fault<'a>(
    setting: &Setting<'_, 'a>,
    effect: bool,
    target: &Target,
    value: &'a Expr,
) -> Option<SemanticRule>
    ensures { result ≡ put_fault (setting_view setting.now) effect target.now.path.items
        (expr_of value.now) }
{
    let into = setting.target(&target.path);
    let value = setting.judge(effect, value);
    let fits = match into.form {
        Some(wanted) => wants(value.form, wanted),
        None => None,
    };
    lesser(lesser(into.fault, value.fault), fits)
}

fn is_effect_kind(kind: Kind) -> bool
    ensures { result ≡ is_effect_kind (kind_of kind) }
{
    match kind {
        Kind::Effect => true,
        Kind::Value | Kind::Function | Kind::Clock | Kind::Statement => false,
    }
}

fn calls_effect(callee: Option<Callee<'_>>) -> bool
    ensures { result ≡ calls_effect (option_map callee_of callee.entry) }
{
    match callee {
        Some(callee) => is_effect_kind(callee.kind),
        None => false,
    }
}

// Whether an expression is an effect, as a whole.
fn is_effect<'a>(setting: &Setting<'_, 'a>, value: &'a Expr) -> bool
    ensures { result ≡ is_effect (setting_view setting.now) (expr_of value.now) }
{
    let Expr::Call(name, _) = value else {
        return false;
    };
    calls_effect(setting.called(&name.name))
}

fn has_type<'a>(setting: &Setting<'_, 'a>, effect: bool, value: &'a Expr, ty: TypeView<'a>) -> bool
    ensures { result ≡ has_type (setting_view setting.now) effect (expr_of value.now)
        (found_of ty.entry) }
{
    setting.wanted(effect, value, ty).is_none()
}

// The type of a place.
fn type_at(class: &Class, place: Slotted) -> Option<&Ty>
    ensures { option_map (λ (t : Bor code.Ty). type_of t.now) result
        ≡ type_at (class_of class.now) place }
{
    match place {
        Slotted::Slot(number) => match class.slots.get(number as usize) {
            Some(slot) => Some(&slot.ty),
            None => None,
        },
        Slotted::Local(number) => class.locals.get(number as usize),
    }
}

fn is_made_type(ty: &Ty) -> bool
    ensures { result ≡ is_made (Some (type_of ty.now)) }
{
    match ty {
        Ty::Promise(_) | Ty::PromiseStream(_) | Ty::Vector(_) => true,
        Ty::Int | Ty::Bool | Ty::Str | Ty::Void | Ty::Error | Ty::Named(_) => false,
        Ty::Future(_) | Ty::FutureStream(_) => false,
    }
}

// A place for a promise, for a stream of promises or for a vector.
fn is_made(class: &Class, place: Slotted) -> bool
    ensures { result ≡ is_made (type_at (class_of class.now) place) }
{
    match type_at(class, place) {
        Some(ty) => is_made_type(ty),
        None => false,
    }
}

fn instr_fits<'a>(class: &'a Class, setting: &Setting<'_, 'a>, instr: &'a Instr) -> bool
    ensures { result ≡ instr_fits (class_of class.now) (setting_view setting.now)
        (instr_of instr.now) }
{
    match instr {
        Instr::Set(target, value) => put_fault(setting, false, target, value).is_none(),
        Instr::Effect(target, value) => {
            is_effect(setting, value) && put_fault(setting, true, target, value).is_none()
        }
        Instr::New(place) => is_made(class, *place),
        Instr::Act(target, args) => setting.call(&target.path, args).is_none(),
        Instr::Drop(_) => true,
    }
}

fn last_fits<'a>(class: &'a Class, setting: &Setting<'_, 'a>, last: &'a Last) -> bool
    ensures { result ≡ last_fits (class_of class.now) (setting_view setting.now)
        (last_of last.now) }
{
    match last {
        Last::Test(test, _, _) => has_type(setting, false, test, TypeView::Bool),
        Last::Return(value) => {
            setting
                .returned(value, TypeView::of_result(&class.returns))
                .is_none()
        }
        Last::Throw(value) => has_type(setting, false, value, TypeView::Error),
        Last::Goto(_) | Last::Pass(_) | Last::Choose(_) => true,
    }
}

// What a branch waits for: a future or a stream of this.
fn operand_type<'a>(next: bool, taken: ElementView<'a>) -> TypeView<'a>
    ensures { found_of result ≡ operand_type next (inner_of taken.entry) }
{
    if next {
        TypeView::FutureStream(taken)
    } else {
        TypeView::Future(taken)
    }
}

// What the place of a branch takes, or `Void`.
fn taken_type(class: &Class, into: Option<Slotted>) -> Option<ElementView<'_>>
    ensures { (s : Judging) → option_map inner_of result ≡ taken_type (class_of class.now) s into }
{
    match into {
        None => Some(ElementView::Void),
        Some(place) => match type_at(class, place) {
            Some(ty) => Some(ElementView::Written(ty)),
            None => None,
        },
    }
}

fn callback_fits<'a>(class: &'a Class, setting: &Setting<'_, 'a>, callback: &'a Callback) -> bool
    ensures { result ≡ callback_fits (class_of class.now) (setting_view setting.now)
        (callback_of callback.now) }
{
    match taken_type(class, callback.into) {
        Some(taken) => has_type(
            setting,
            true,
            &callback.operand,
            operand_type(callback.next, taken),
        ),
        None => false,
    }
}

fn body_fits<'a>(class: &'a Class, setting: &Setting<'_, 'a>, body: &'a [Instr]) -> bool
    ensures { result ≡ list_all (instr_fits (class_of class.now) (setting_view setting.now))
        (map instr_of body.now) }
{
    for instr in body {
        if !instr_fits(class, setting, instr) {
            return false;
        }
    }
    true
}

fn blocks_fit<'a>(class: &'a Class, setting: &Setting<'_, 'a>) -> bool
    ensures { result ≡ list_all (block_fits (class_of class.now) (setting_view setting.now))
        (class_of class.now).blocks }
{
    for block in &class.blocks {
        if !(body_fits(class, setting, &block.body) && last_fits(class, setting, &block.last)) {
            return false;
        }
    }
    true
}

fn group_fits<'a>(class: &'a Class, setting: &Setting<'_, 'a>, group: &'a Group) -> bool
    ensures { result ≡ list_all (callback_fits (class_of class.now) (setting_view setting.now))
        (group_of group.now) }
{
    for callback in &group.callbacks {
        if !callback_fits(class, setting, callback) {
            return false;
        }
    }
    true
}

fn groups_fit<'a>(class: &'a Class, setting: &Setting<'_, 'a>) -> bool
    ensures { result ≡ list_all (list_all
        (callback_fits (class_of class.now) (setting_view setting.now)))
        (class_of class.now).groups }
{
    for group in &class.groups {
        if !group_fits(class, setting, group) {
            return false;
        }
    }
    true
}

/// Whether all that a class evaluates, stores and returns fits its types in a setting.
pub fn types_fit<'a>(class: &'a Class, setting: &Setting<'_, 'a>) -> bool
    ensures { result ≡ types_fit_in (class_of class.now) (setting_view setting.now) }
{
    blocks_fit(class, setting) && groups_fit(class, setting)
}

// Slots become variables by their names.
fn add_slots<'a>(vars: &mut Vars<'a>, names: &'a [Name], slots: &'a [Slot]) -> Result<(), NoMemory>
    requires empty { vars_of vars.old ≡ [] }
    requires few { length slots.now < 2 ^ 32 }
    requires names { AreNames false names.now }
    requires enough { length slots.now ≤ length names.now }
    ensures { IfOk result (λ _. vars_of vars.new ≡ slot_rows 0 (map slot_of slots.now)) }
{
    for (slot, name) in slots.iter().zip(names) {
        vars.insert(name.bytes(), TypeView::of(&slot.ty))?;
    }
    Ok(())
}

// Locals become variables by their names.
fn add_locals<'a>(vars: &mut Vars<'a>, names: &'a [Name], locals: &'a [Ty]) -> Result<(), NoMemory>
    requires before { AreSlotRows (vars_of vars.old) }
    requires few { length locals.now < 2 ^ 32 }
    requires names { AreNames true names.now }
    requires enough { length locals.now ≤ length names.now }
    ensures { IfOk result (λ _. vars_of vars.new
        ≡ vars_of vars.old ++ local_rows 0 (map type_of locals.now)) }
{
    for (ty, name) in locals.iter().zip(names) {
        vars.insert(name.bytes(), TypeView::of(ty))?;
    }
    Ok(())
}

// The places of a class become variables by their names.
fn add_places<'a>(
    vars: &mut Vars<'a>,
    names: &'a PlaceNames,
    class: &'a Class,
) -> Result<(), NoMemory>
    requires empty { vars_of vars.old ≡ [] }
    requires few { HasFewPlaces (class_of class.now) }
    requires enough { AreEnough names.now.slots.items names.now.locals.items (class_of class.now) }
    ensures { IfOk result (λ _. vars_of vars.new
        ≡ slot_rows 0 (class_of class.now).slots ++ local_rows 0 (class_of class.now).locals) }
{
    add_slots(vars, &names.slots, &class.slots)?;
    add_locals(vars, &names.locals, &class.locals)
}

/// The places of a class as variables by their names.
pub fn variables<'a>(
    alloc: Global,
    names: &'a PlaceNames,
    class: &'a Class,
) -> Result<Vars<'a>, NoMemory>
    requires few { HasFewPlaces (class_of class.now) }
    requires enough { AreEnough names.now.slots.items names.now.locals.items (class_of class.now) }
    ensures { IfOk result (λ m. vars_of m
        ≡ slot_rows 0 (class_of class.now).slots ++ local_rows 0 (class_of class.now).locals) }
{
    let count = class.slots.len() + class.locals.len();
    let mut vars: Vars<'a> = IndexMap::with_capacity(alloc, count)?;
    add_places(&mut vars, names, class)?;
    Ok(vars)
}

// The greatest number of slots of a class.
fn most_slots(classes: &[Class]) -> u32
    requires { AreFew (map class_of classes.now) }
    ensures { (i : ℕ) (c : ClassTree) → slice_get (map class_of classes.now) i ≡ Some c
        → length c.slots ≤ result }
{
    let mut most: u32 = 0;
    for class in classes {
        most = most.max(class.slots.len() as u32);
    }
    most
}

// The greatest number of locals of a class.
fn most_locals(classes: &[Class]) -> u32
    requires { AreFew (map class_of classes.now) }
    ensures { (i : ℕ) (c : ClassTree) → slice_get (map class_of classes.now) i ≡ Some c
        → length c.locals ≤ result }
{
    let mut most: u32 = 0;
    for class in classes {
        most = most.max(class.locals.len() as u32);
    }
    most
}

/// Names for the places of these classes.
pub fn place_names(alloc: Global, classes: &[Class]) -> Result<PlaceNames, NoMemory>
    requires { AreFew (map class_of classes.now) }
    ensures { IfOk result (λ n. AreEnoughFor n.slots.items n.locals.items
        (map class_of classes.now)) }
{
    Ok(PlaceNames {
        slots: names_of(alloc, false, most_slots(classes))?,
        locals: names_of(alloc, true, most_locals(classes))?,
    })
}
