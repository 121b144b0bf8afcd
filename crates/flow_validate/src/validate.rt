// The verdict on class programs.

ghost use Rattle.std.specs.Prelude.{◌≡◌, ◌<◌, ◌^◌, ◌≤◌, map, length, IfOk, IfErr, None, true};
ghost use Rattle.flow_tree.specs.DeclView.{decl_of, params_of};
ghost use Rattle.flow_ast.specs.Typing.{packet_fields};
ghost use Rattle.flow_rules.specs.Known.{field_row};
ghost use Rattle.flow_class.specs.Classes.{RawTree};
ghost use Rattle.flow_class.specs.View.{class_of, raw_of};
ghost use Rattle.flow_valid.specs.Heads.{plain_decls};
ghost use Rattle.flow_validate.specs.Sizes.{HasFewPlaces, AreFew};
ghost use Rattle.flow_validate.specs.PlaceNames.{AreEnough, AreEnoughFor};
ghost use Rattle.flow_valid.specs.Named.{names_exist};
ghost use Rattle.flow_valid.specs.Validity.{IsValid, broken_rule, types_fit};
ghost use Rattle.flow_validate.specs.Gathered.{AreParts, IsReady};
ghost use Rattle.flow_validate.specs.Verdicts.{ClassTold, IsRightRefusal, Sees, AreHeadsKept, AreSoundClasses};

use crate::blocks::{catchers_kept, groups_chosen, leads_forward};
use crate::decls::{Plain, add_functions, add_heads, add_records, apart};
use crate::filling::reads_filled;
use crate::heads::{broken_head, declarations_kept};
use crate::invalid::Invalid;
use crate::named::names_exist;
use crate::types::{PlaceNames, place_names, types_fit, variables};
use flow_base::memory::NoMemory;
use flow_class::class::{Class, RawClasses};
use flow_tree::decl::{Decl, Param};
use flow_types::judge::Setting;
use flow_types::program::is_main;
use flow_types::top_names::{TopNames, packet_fields};
use flow_valid::program::ClassProgram;
use flow_valid::rule::ClassRule;
use std::alloc::Global;

// Whether the types of a class fit, where its places are variables by their names.
fn is_typed<'a>(
    alloc: Global,
    names: &TopNames<'a>,
    places: &'a PlaceNames,
    class: &'a Class,
) -> Result<bool, NoMemory>
    requires few { HasFewPlaces (class_of class.now) }
    requires places { AreEnough places.now.slots.items places.now.locals.items
        (class_of class.now) }
    ensures { (r : RawTree) → Sees r names.now
        → IfOk result (λ b. b ≡ types_fit r (class_of class.now)) }
{
    let setting = Setting {
        names,
        vars: variables(alloc, places, class)?,
        plain: false,
    };
    Ok(types_fit(class, &setting))
}

// The first of the rules V3 to V7 that a class breaks.
fn broken_rule<'a>(
    alloc: Global,
    names: &TopNames<'a>,
    places: &'a PlaceNames,
    class: &'a Class,
) -> Result<Option<ClassRule>, NoMemory>
    requires few { HasFewPlaces (class_of class.now) }
    requires places { AreEnough places.now.slots.items places.now.locals.items
        (class_of class.now) }
    ensures rule { (r : RawTree) → Sees r names.now
        → IfOk result (λ o. o ≡ broken_rule r (class_of class.now)) }
    ensures named { IfOk result (λ o. o ≡ None → names_exist (class_of class.now) ≡ true) }
{
    if !names_exist(class) {
        return Ok(Some(ClassRule::Names));
    }
    if !leads_forward(class) {
        return Ok(Some(ClassRule::Edges));
    }
    if !groups_chosen(alloc, class)? {
        return Ok(Some(ClassRule::Groups));
    }
    if !catchers_kept(alloc, class)? {
        return Ok(Some(ClassRule::Catchers));
    }
    if !is_typed(alloc, names, places, class)? {
        return Ok(Some(ClassRule::Types));
    }
    Ok(None)
}

// The first of the rules V3 to V8 that a class breaks.
fn class_rule<'a>(
    alloc: Global,
    names: &TopNames<'a>,
    places: &'a PlaceNames,
    class: &'a Class,
) -> Result<Option<ClassRule>, NoMemory>
    requires few { HasFewPlaces (class_of class.now) }
    requires places { AreEnough places.now.slots.items places.now.locals.items
        (class_of class.now) }
    ensures { (r : RawTree) → Sees r names.now → IfOk result (ClassTold r (class_of class.now)) }
{
    if let Some(rule) = broken_rule(alloc, names, places, class)? {
        return Ok(Some(rule));
    }
    if !reads_filled(alloc, class)? {
        return Ok(Some(ClassRule::Reads));
    }
    Ok(None)
}

// V3 to V8 on one class after another.
fn judge_classes<'a>(
    alloc: Global,
    names: &TopNames<'a>,
    places: &'a PlaceNames,
    classes: &'a [Class],
) -> Result<(), Invalid>
    requires few { AreFew (map class_of classes.now) }
    requires many { length classes.now < 2 ^ 32 }
    requires places { AreEnoughFor places.now.slots.items places.now.locals.items
        (map class_of classes.now) }
    ensures sound { (r : RawTree) → Sees r names.now → r.classes ≡ map class_of classes.now
        → IfOk result (λ _. AreSoundClasses r) }
    ensures refused { (r : RawTree) → Sees r names.now → r.classes ≡ map class_of classes.now
        → AreHeadsKept r → IfErr result (IsRightRefusal r) }
{
    for (place, class) in classes.iter().enumerate() {
        if let Some(rule) = class_rule(alloc, names, places, class)? {
            return Err(Invalid::Rule {
                rule: rule.number(),
                class: Some(place as u32),
            });
        }
    }
    Ok(())
}

// V1, then V2 on one class after another and on `main`.
fn judge_heads<'a>(
    alloc: Global,
    names: &TopNames<'a>,
    packet: &'a [Param],
    plain: &'a [Decl],
    classes: &'a [Class],
) -> Result<(), Invalid>
    requires packet { map field_row (params_of packet.now) ≡ packet_fields }
    requires many { length classes.now < 2 ^ 32 }
    ensures kept { (r : RawTree) → Sees r names.now → plain_decls r ≡ map decl_of plain.now
        → r.classes ≡ map class_of classes.now → IfOk result (λ _. AreHeadsKept r) }
    ensures refused { (r : RawTree) → Sees r names.now → plain_decls r ≡ map decl_of plain.now
        → r.classes ≡ map class_of classes.now → IfErr result (IsRightRefusal r) }
{
    if !declarations_kept(alloc, names, packet, plain)? {
        return Err(Invalid::Rule {
            rule: ClassRule::Declarations.number(),
            class: None,
        });
    }
    if let Some(class) = broken_head(alloc, names, plain, classes)? {
        return Err(Invalid::Rule {
            rule: ClassRule::Heads.number(),
            class: Some(class),
        });
    }
    if !is_main(names.find(b"main")) {
        return Err(Invalid::Rule {
            rule: ClassRule::Heads.number(),
            class: None,
        });
    }
    Ok(())
}

/// What a class program is judged by: all that has a name at the top, as declarations, which are its records, its functions, and its
/// classes as heads of actors; how many of them are records and functions; the classes themselves; the fields of the predefined
/// record; and names for the places of the classes.
#[derive(Drop)]
pub struct Gathered {
    pub decls: Vec<Decl>,
    pub count: usize,
    pub classes: Vec<Class>,
    pub packet: Vec<Param>,
    pub places: PlaceNames,
}

// What a class program is judged by.
fn gather(alloc: Global, raw: RawClasses) -> Result<Gathered, NoMemory>
    requires few { AreFew (raw_of raw).classes }
    requires many { length raw.classes.items < 2 ^ 32 }
    ensures parts { IfOk result (AreParts (raw_of raw)) }
    ensures ready { IfOk result IsReady }
{
    let RawClasses {
        records,
        functions,
        classes,
    } = raw;
    let packet = packet_fields(alloc)?;
    let places = place_names(alloc, &classes)?;
    let mut decls = Vec::new(alloc);
    add_records(&mut decls, records)?;
    add_functions(&mut decls, functions)?;
    let count = decls.len();
    add_heads(alloc, &mut decls, &classes)?;
    Ok(Gathered {
        decls,
        count,
        classes,
        packet,
        places,
    })
}

// The class program that was gathered.
fn release(alloc: Global, gathered: Gathered) -> Result<RawClasses, NoMemory>
    ensures { IfOk result (λ raw. (r : RawTree) → AreParts r gathered → raw_of raw ≡ r) }
{
    let Gathered {
        decls,
        count: _count,
        classes,
        packet: _packet,
        places: _places,
    } = gathered;
    let Plain { records, functions } = apart(alloc, decls)?;
    Ok(RawClasses {
        records,
        functions,
        classes,
    })
}

// The verdict by the names at the top.
fn judge_named<'a>(
    alloc: Global,
    names: &TopNames<'a>,
    gathered: &'a Gathered,
) -> Result<(), Invalid>
    requires { IsReady gathered.now }
    ensures valid { (r : RawTree) → Sees r names.now → AreParts r gathered.now
        → IfOk result (λ _. IsValid r) }
    ensures refused { (r : RawTree) → Sees r names.now → AreParts r gathered.now
        → IfErr result (IsRightRefusal r) }
{
    judge_heads(
        alloc,
        names,
        &gathered.packet,
        &gathered.decls[..gathered.count],
        &gathered.classes,
    )?;
    judge_classes(alloc, names, &gathered.places, &gathered.classes)
}

// The verdict on what is gathered.
fn judge(alloc: Global, gathered: &Gathered) -> Result<(), Invalid>
    requires { IsReady gathered.now }
    ensures valid { (r : RawTree) → AreParts r gathered.now → IfOk result (λ _. IsValid r) }
    ensures refused { (r : RawTree) → AreParts r gathered.now → IfErr result (IsRightRefusal r) }
{
    let names = TopNames::new(alloc, &gathered.packet, &gathered.decls)?;
    judge_named(alloc, &names, gathered)
}

/// The classes, where the rules V1 to V8 hold. Otherwise they are refused: by V1, where a record or a function breaks a rule of a
/// program's; then by V2 at the first class whose head breaks it, or without a class where `main` does; then by the least of V3 to V8
/// that the first class breaks which breaks one. Want of memory may come at any time.
pub fn validate(alloc: Global, raw: RawClasses) -> Result<ClassProgram, Invalid>
    requires few { AreFew (raw_of raw).classes }
    requires many { length raw.classes.items < 2 ^ 32 }
    ensures valid { IfOk result (λ p. (raw_of p ≡ raw_of raw) × IsValid (raw_of raw)) }
    ensures refused { IfErr result (IsRightRefusal (raw_of raw)) }
{
    let gathered = gather(alloc, raw)?;
    judge(alloc, &gathered)?;
    Ok(ClassProgram::new(release(alloc, gathered)?))
}
