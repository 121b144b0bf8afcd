// Names become places.

ghost use Rattle.std.specs.Prelude.{◌≡◌, ◌<◌, ◌^◌, ◌∷◌, ◌++◌, decimal, length, map, position, IfOk, OnOk, IsTrue};
ghost use Rattle.std.specs.Str.{bytes_eq};
ghost use Rattle.flow_tree.specs.View.{expr_of, exprs_of};
ghost use Rattle.flow_tree.specs.DeclView.{slot_of};
ghost use Rattle.flow_class.specs.Scopes.{place_of, slot_place, var_over, ident_over, over, over_all, path_over, act_over};
ghost use Rattle.flow_base.specs.Names.{letter as letter_byte};
ghost use Rattle.flow_choose.specs.Places.{slots_seen, ident_at};

use flow_ast::predefined::predefined_constant;
use flow_base::memory::NoMemory;
use flow_base::name::Name;
use flow_catch::scopes::Scopes;
use flow_class::class::Slotted;
use flow_tree::decl::Slot;
use flow_tree::expr::Expr;
use flow_tree::stmt::Target;
use flow_tree::ty::Ident;
use itoa::Buffer;
use std::alloc::Global;

/// The place of a name: that of the newest local, or else that of the slot.
pub fn place_of(slots: &[Slot], scopes: &Scopes, name: &[u8]) -> Option<Slotted>
    requires { length slots.now < 2 ^ 32 }
    ensures { result ≡ place_of (slots_seen slots.now) scopes.now name.now }
{
    match scopes.find(name) {
        Some(number) => Some(Slotted::Local(number)),
        None => slot_place(slots, name),
    }
}

fn slot_index(slots: &[Slot], name: &[u8]) -> Option<usize>
    ensures { result ≡ position (λ s. bytes_eq name.now s.name) slots.now }
{
    slots.iter().position(|slot| name == slot.name.bytes())
}

// The first slot of a name.
fn slot_number(slots: &[Slot], name: &[u8]) -> Option<usize>
    ensures { result ≡ position (λ t. bytes_eq name.now t.name) (slots_seen slots.now) }
{
    slot_index(slots, name)
}

// The place of the first slot of a name.
#[tactic(auto, using(crate::proofs::Slots::slot_within))]
fn slot_place(slots: &[Slot], name: &[u8]) -> Option<Slotted>
    requires { length slots.now < 2 ^ 32 }
    ensures { result ≡ slot_place (position (λ t. bytes_eq name.now t.name)
        (slots_seen slots.now)) }
{
    match slot_number(slots, name) {
        Some(number) => Some(Slotted::Slot(number as u32)),
        None => None,
    }
}

// The name of a place: a letter and a number.
fn numbered(alloc: Global, letter: u8, number: u32) -> Result<Name, NoMemory>
    requires { IsTrue (letter_byte letter) }
    ensures { IfOk result (λ n. n ≡ letter ∷ decimal number) }
{
    let mut buffer = Buffer::new();
    let digits = buffer.format(number).as_bytes();
    let mut bytes = Vec::new(alloc);
    bytes.push(letter)?;
    bytes.extend_from_slice(digits)?;
    Ok(Name::new(alloc, &bytes)?)
}

/// The name of a place: `s` and the number of a slot, or `l` and that of a local; `_` where there is
/// none.
pub fn var_over(alloc: Global, place: Option<Slotted>) -> Result<Name, NoMemory>
    ensures { IfOk result (λ n. n ≡ var_over place) }
{
    match place {
        None => Name::new(alloc, b"_"),
        Some(Slotted::Slot(number)) => numbered(alloc, b's', number),
        Some(Slotted::Local(number)) => numbered(alloc, b'l', number),
    }
}

/// A name in an expression: a constant stays, and a variable becomes its place.
pub fn ident_over(
    alloc: Global,
    slots: &[Slot],
    scopes: &Scopes,
    name: &Ident,
) -> Result<Ident, NoMemory>
    requires { length slots.now < 2 ^ 32 }
    ensures { IfOk result (λ i. i ≡ ident_over (slots_seen slots.now) scopes.now name.now) }
{
    match predefined_constant(name.name.bytes()) {
        Some(_) => name.copy(alloc),
        None => var_ident(alloc, place_of(slots, scopes, name.name.bytes()), name),
    }
}

/// The name of a place, where a name stands.
pub fn var_ident(alloc: Global, place: Option<Slotted>, name: &Ident) -> Result<Ident, NoMemory>
    ensures { IfOk result (λ i. i ≡ ident_at place name.now) }
{
    Ok(Ident {
        name: var_over(alloc, place)?,
        at: name.at,
    })
}

/// An expression over places.
#[cycle(over)]
pub fn over(alloc: Global, slots: &[Slot], scopes: &Scopes, expr: &Expr) -> Result<Expr, NoMemory>
    requires { length slots.now < 2 ^ 32 }
    ensures { IfOk result (λ e. expr_of e
        ≡ over (slots_seen slots.now) scopes.now (expr_of expr.now)) }
{
    match expr {
        Expr::Int(n) => Ok(Expr::Int(*n)),
        Expr::Text(text) => Ok(Expr::Text(text.copy(alloc)?)),
        Expr::Bool(value) => Ok(Expr::Bool(*value)),
        Expr::VoidValue => Ok(Expr::VoidValue),
        Expr::Var(name) => Ok(Expr::Var(ident_over(alloc, slots, scopes, name)?)),
        Expr::Call(name, args) => Ok(Expr::Call(
            name.copy(alloc)?,
            over_all(alloc, slots, scopes, args)?,
        )),
        Expr::Field(of, name) => Ok(Expr::Field(
            Box::new(alloc, over(alloc, slots, scopes, of)?)?,
            name.copy(alloc)?,
        )),
        Expr::Method(of, name, args) => Ok(Expr::Method(
            Box::new(alloc, over(alloc, slots, scopes, of)?)?,
            name.copy(alloc)?,
            over_all(alloc, slots, scopes, args)?,
        )),
        Expr::Index(of, index) => Ok(Expr::Index(
            Box::new(alloc, over(alloc, slots, scopes, of)?)?,
            Box::new(alloc, over(alloc, slots, scopes, index)?)?,
        )),
        Expr::Not(of) => Ok(Expr::Not(Box::new(alloc, over(alloc, slots, scopes, of)?)?)),
        Expr::Neg(of) => Ok(Expr::Neg(Box::new(alloc, over(alloc, slots, scopes, of)?)?)),
        Expr::Binary(op, left, right) => Ok(Expr::Binary(
            *op,
            Box::new(alloc, over(alloc, slots, scopes, left)?)?,
            Box::new(alloc, over(alloc, slots, scopes, right)?)?,
        )),
        Expr::Paren(of) => Ok(Expr::Paren(Box::new(alloc, over(alloc, slots, scopes, of)?)?)),
    }
}

/// Expressions over places, in the same order.
#[cycle(over)]
pub fn over_all(
    alloc: Global,
    slots: &[Slot],
    scopes: &Scopes,
    exprs: &[Expr],
) -> Result<Vec<Expr>, NoMemory>
    requires { length slots.now < 2 ^ 32 }
    ensures { IfOk result (λ v. exprs_of v.items
        ≡ over_all (slots_seen slots.now) scopes.now (exprs_of exprs.now)) }
{
    let mut all = Vec::new(alloc);
    for expr in exprs {
        all.push(over(alloc, slots, scopes, expr)?)?;
    }
    Ok(all)
}

/// A path over places: its first name becomes the place of the variable.
pub fn path_over(
    alloc: Global,
    slots: &[Slot],
    scopes: &Scopes,
    path: &[Ident],
) -> Result<Target, NoMemory>
    requires { length slots.now < 2 ^ 32 }
    ensures { IfOk result (λ t. t.path.items
        ≡ path_over (slots_seen slots.now) scopes.now path.now) }
{
    let mut names = Vec::new(alloc);
    if let [first, rest @ ..] = path {
        let place = place_of(slots, scopes, first.name.bytes());
        names.push(var_ident(alloc, place, first)?)?;
        copy_onto(alloc, &mut names, rest)?;
    }
    Ok(Target { path: names })
}

// Equal names behind others.
fn copy_onto(alloc: Global, names: &mut Vec<Ident>, more: &[Ident]) -> Result<(), NoMemory>
    ensures { OnOk result (names.new.items ≡ names.old.items ++ more.now) }
{
    for name in more {
        names.push(name.copy(alloc)?)?;
    }
    Ok(())
}

/// The path of a call statement over places. A path of a single name is what is called, and stays.
pub fn act_over(
    alloc: Global,
    slots: &[Slot],
    scopes: &Scopes,
    path: &Target,
) -> Result<Target, NoMemory>
    requires { length slots.now < 2 ^ 32 }
    ensures { IfOk result (λ t. t.path.items
        ≡ act_over (slots_seen slots.now) scopes.now path.now.path.items) }
{
    if path.path.len() == 1 {
        path.copy(alloc)
    } else {
        path_over(alloc, slots, scopes, &path.path)
    }
}
