// The rules V1 and V2: records, functions, and heads of classes.

ghost use Rattle.std.specs.Prelude.{◌≡◌, ◌∷◌, ◌<◌, ◌^◌, ◌||◌, not, [], List, codes, length, map, is_none, IfOk};
ghost use Rattle.std.specs.List.{list_all};
ghost use Rattle.flow_tree.specs.Decls.{SlotTree, DeclTree};
ghost use Rattle.flow_tree.specs.View.{type_of};
ghost use Rattle.flow_tree.specs.DeclView.{slot_of, params_of, decl_of};
ghost use Rattle.flow_ast.specs.Typing.{packet_fields, or_else};
ghost use Rattle.flow_rules.specs.Known.{field_row, known, type_known, is_predefined};
ghost use Rattle.flow_rules.specs.Items.{among};
ghost use Rattle.flow_rules.specs.Rules.{decls_refusal, first_large, packet_size};
ghost use Rattle.flow_types.specs.MapView.{known_by};
ghost use Rattle.flow_types.specs.ProgramView.{setting_by};
ghost use Rattle.flow_types.specs.WalkView.{texts_of};
ghost use Rattle.flow_class.specs.View.{class_of};
ghost use Rattle.flow_valid.specs.Heads.{head_kept, first_head};
ghost use Rattle.flow_validate.specs.Apart.{AreTaken};
ghost use Rattle.flow_validate.specs.Answers.{Tells};

use flow_base::memory::NoMemory;
use flow_class::class::Class;
use flow_tree::decl::{Decl, Param, Slot};
use flow_tree::fault::SourceFault;
use flow_tree::ty::Ty;
use flow_types::program::declarations;
use flow_types::size::sizes;
use flow_types::top_names::{TopNames, is_predefined, name_of};
use flow_types::walk::has_text;
use indexmap::IndexSet;
use std::alloc::Global;

// Whether something was refused.
fn is_refused(answer: Result<(), SourceFault>) -> Result<bool, NoMemory>
    ensures { Tells answer result }
{
    match answer {
        Ok(()) => Ok(false),
        Err(SourceFault::OutOfMemory) => Err(NoMemory),
        Err(SourceFault::Refused { .. }) => Ok(true),
        Err(SourceFault::AcrossWait { .. }) => Ok(true),
    }
}

/// Whether records and functions keep the rules K1 to K10, K12 and L8 where these names stand at the top.
pub fn declarations_kept<'a>(
    alloc: Global,
    names: &TopNames<'a>,
    packet: &'a [Param],
    decls: &'a [Decl],
) -> Result<bool, NoMemory>
    requires { map field_row (params_of packet.now) ≡ packet_fields }
    ensures { IfOk result (λ b. b ≡ is_none
        (or_else (decls_refusal (setting_by names.now) [] (map decl_of decls.now))
        (first_large ((codes "Packet", packet_size) ∷ []) (map decl_of decls.now)))) }
{
    if is_refused(declarations(alloc, names, packet, decls))? {
        return Ok(false);
    }
    Ok(!is_refused(sizes(alloc, decls))?)
}

fn types_known(names: &TopNames<'_>, types: &[Ty]) -> bool
    ensures { result ≡ list_all (type_known (known_by names.now)) (map type_of types.now) }
{
    for ty in types {
        if !names.type_known(ty) {
            return false;
        }
    }
    true
}

fn slots_known(names: &TopNames<'_>, slots: &[Slot]) -> bool
    ensures { result ≡ list_all (λ (s : SlotTree). type_known (known_by names.now) s.ty)
        (map slot_of slots.now) }
{
    for slot in slots {
        if !names.type_known(&slot.ty) {
            return false;
        }
    }
    true
}

// Takes the names of these declarations, and the predefined record's.
fn take_names<'a>(taken: &mut IndexSet<&'a [u8]>, decls: &'a [Decl]) -> Result<(), NoMemory>
    requires empty { texts_of taken.old ≡ [] }
    ensures { IfOk result (λ _. AreTaken (texts_of taken.new) (map decl_of decls.now)) }
{
    taken.insert(b"Packet".as_slice())?;
    for decl in decls {
        taken.insert(name_of(decl))?;
    }
    Ok(())
}

// A name is not predefined, and none of those that are taken.
fn is_free(taken: &IndexSet<&[u8]>, name: &[u8]) -> bool
    ensures { result ≡ not (is_predefined name.now || among (texts_of taken.now) name.now) }
{
    !(is_predefined(name) || has_text(taken, name))
}

// Whether the head of a class stands where these names are taken.
fn head_kept(names: &TopNames<'_>, taken: &IndexSet<&[u8]>, class: &Class) -> bool
    ensures { (ds : List DeclTree) → AreTaken (texts_of taken.now) ds → result
        ≡ head_kept (known ds) (known_by names.now) (class_of class.now) }
{
    if !is_free(taken, class.name.bytes()) {
        return false;
    }
    if class.params as usize > class.slots.len() {
        return false;
    }
    slots_known(names, &class.slots) && types_known(names, &class.locals)
}

// The place of the first class whose head doesn't stand, where names are taken one class after another.
fn first_broken<'a>(
    names: &TopNames<'_>,
    taken: &mut IndexSet<&'a [u8]>,
    decls: &'a [Decl],
    classes: &'a [Class],
) -> Result<Option<u32>, NoMemory>
    requires empty { texts_of taken.old ≡ [] }
    requires few { length classes.now < 2 ^ 32 }
    ensures { IfOk result (λ o. o ≡ first_head (known_by names.now) (map decl_of decls.now) 0
        (map class_of classes.now)) }
{
    take_names(taken, decls)?;
    for (place, class) in classes.iter().enumerate() {
        if !head_kept(names, taken, class) {
            return Ok(Some(place as u32));
        }
        taken.insert(class.name.bytes())?;
    }
    Ok(None)
}

/// The place, from 0, of the first class whose head doesn't stand behind these declarations.
pub fn broken_head<'a>(
    alloc: Global,
    names: &TopNames<'_>,
    decls: &'a [Decl],
    classes: &'a [Class],
) -> Result<Option<u32>, NoMemory>
    requires few { length classes.now < 2 ^ 32 }
    ensures { IfOk result (λ o. o ≡ first_head (known_by names.now) (map decl_of decls.now) 0
        (map class_of classes.now)) }
{
    let mut taken: IndexSet<&[u8]> = IndexSet::new(alloc);
    first_broken(names, &mut taken, decls, classes)
}
