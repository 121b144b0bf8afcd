// The declarations that a class program has: its records and functions, and its classes as heads of actors.

ghost use Rattle.std.specs.Prelude.{◌≡◌, ◌++◌, IfOk, map, take};
ghost use Rattle.flow_tree.specs.Decls as tree;
ghost use Rattle.flow_tree.specs.DeclView.{param_of, slot_of, record_of, function_of, decl_of};
ghost use Rattle.flow_class.specs.View.{class_of};
ghost use Rattle.flow_valid.specs.Heads.{ident, slot_param, head_of};
ghost use Rattle.flow_validate.specs.Apart.{records_in, functions_in};

use flow_base::memory::NoMemory;
use flow_base::name::Name;
use flow_base::place::Place;
use flow_class::class::Class;
use flow_tree::decl::{ActorDecl, Decl, FunctionDecl, Param, RecordDecl, Slot};
use flow_tree::ty::{Ident, copy_result};
use std::alloc::Global;

// The place of what stands in no text.
const FIRST_PLACE: Place = Place {
    line: 1,
    column: 1,
    byte: 0,
};

fn ident(alloc: Global, name: &Name) -> Result<Ident, NoMemory>
    ensures { IfOk result (λ i. i ≡ ident name.now) }
{
    Ok(Ident {
        name: name.copy(alloc)?,
        at: FIRST_PLACE,
    })
}

// A slot as a parameter.
fn slot_param(alloc: Global, slot: &Slot) -> Result<Param, NoMemory>
    ensures { IfOk result (λ p. param_of p ≡ slot_param (slot_of slot.now)) }
{
    Ok(Param {
        ty: slot.ty.copy(alloc)?,
        name: ident(alloc, &slot.name)?,
    })
}

// Slots as parameters.
fn slot_params(alloc: Global, slots: &[Slot]) -> Result<Vec<Param>, NoMemory>
    ensures { IfOk result (λ v. map param_of v.items ≡ map slot_param (map slot_of slots.now)) }
{
    let mut params = Vec::new(alloc);
    for slot in slots {
        params.push(slot_param(alloc, slot)?)?;
    }
    Ok(params)
}

// As many of these as there are, up to a number.
fn first_slots(slots: &[Slot], count: u32) -> &[Slot]
    ensures { result.now ≡ take count slots.now }
{
    slots.get(..count as usize).unwrap_or(slots)
}

/// A class as the head of the actor that it is called as.
pub fn head_of(alloc: Global, class: &Class) -> Result<Decl, NoMemory>
    ensures { IfOk result (λ d. decl_of d ≡ head_of (class_of class.now)) }
{
    Ok(Decl::Actor(ActorDecl {
        at: FIRST_PLACE,
        returns: copy_result(alloc, &class.returns)?,
        name: ident(alloc, &class.name)?,
        params: slot_params(alloc, first_slots(&class.slots, class.params))?,
        body: Vec::new(alloc),
        close: FIRST_PLACE,
    }))
}

/// Records behind these declarations.
pub fn add_records(decls: &mut Vec<Decl>, records: Vec<RecordDecl>) -> Result<(), NoMemory>
    ensures { IfOk result (λ _. map decl_of decls.new.items
        ≡ map decl_of decls.old.items ++ map tree.StructDecl (map record_of records.items)) }
{
    for record in records {
        decls.push(Decl::Struct(record))?;
    }
    Ok(())
}

/// Functions behind these declarations.
pub fn add_functions(decls: &mut Vec<Decl>, functions: Vec<FunctionDecl>) -> Result<(), NoMemory>
    ensures { IfOk result (λ _. map decl_of decls.new.items
        ≡ map decl_of decls.old.items ++ map tree.FunctionDecl (map function_of functions.items)) }
{
    for function in functions {
        decls.push(Decl::Function(function))?;
    }
    Ok(())
}

/// Heads of classes behind these declarations.
pub fn add_heads(alloc: Global, decls: &mut Vec<Decl>, classes: &[Class]) -> Result<(), NoMemory>
    ensures { IfOk result (λ _. map decl_of decls.new.items
        ≡ map decl_of decls.old.items ++ map head_of (map class_of classes.now)) }
{
    for class in classes {
        decls.push(head_of(alloc, class)?)?;
    }
    Ok(())
}

/// Records and functions, taken apart again.
#[derive(Drop)]
pub struct Plain {
    pub records: Vec<RecordDecl>,
    pub functions: Vec<FunctionDecl>,
}

/// The records and functions among declarations.
pub fn apart(alloc: Global, decls: Vec<Decl>) -> Result<Plain, NoMemory>
    ensures records { IfOk result (λ p. map record_of p.records.items
        ≡ records_in (map decl_of decls.items)) }
    ensures functions { IfOk result (λ p. map function_of p.functions.items
        ≡ functions_in (map decl_of decls.items)) }
{
    let mut plain = Plain {
        records: Vec::new(alloc),
        functions: Vec::new(alloc),
    };
    for decl in decls {
        match decl {
            Decl::Struct(record) => plain.records.push(record)?,
            Decl::Function(function) => plain.functions.push(function)?,
            Decl::Actor(_actor) => {}
        }
    }
    Ok(plain)
}
