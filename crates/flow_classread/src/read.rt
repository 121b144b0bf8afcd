// Class text, read and judged.

ghost use Rattle.std.specs.Prelude.{◌≡◌, ◌≤◌, ◌<◌, ◌^◌, List, ℕ, length, map, slice_get, IfOk};
ghost use Rattle.std.specs.Option.{option_and_then};
ghost use Rattle.flow_class.specs.View.{class_of, raw_of};
ghost use Rattle.flow_validate.specs.Sizes.{AreFew};
ghost use Rattle.flow_validate.specs.Verdicts.{IsRightRefusal};
ghost use Rattle.flow_classread.specs.ClassAnswer.{ClassAnswer, IsClassText};
ghost use Rattle.flow_classread.specs.Reached.{form_of, TokensAnswer, RawAnswer, class_names, RefusalAnswer};

use crate::fault::ClassFault;
use crate::text::text;
use flow_base::memory::NoMemory;
use flow_base::name::Name;
use flow_class::class::{Class, RawClasses};
use flow_lex::lex::lex;
use flow_tree::fault::SourceFault;
use flow_tree::token::Tokens;
use flow_valid::program::ClassProgram;
use flow_validate::invalid::Invalid;
use flow_validate::validate::validate;
use std::alloc::Global;

/// L11: the most bytes of a class text.
pub const CLASS_BYTES: usize = 16_777_216;

// A refusal of tokens or of their grammar, by its line.
fn form(fault: SourceFault) -> ClassFault
    ensures { result ≡ form_of fault }
{
    match fault {
        SourceFault::Refused { at, .. } => ClassFault::Form(at.line),
        SourceFault::AcrossWait { at, .. } => ClassFault::Form(at.line),
        SourceFault::OutOfMemory => ClassFault::OutOfMemory,
    }
}

// The tokens of a text.
fn tokens_of(alloc: Global, bytes: &[u8]) -> Result<Tokens, ClassFault>
    requires { length bytes.now ≤ CLASS_BYTES }
    ensures { TokensAnswer bytes.now result }
{
    match lex(alloc, bytes) {
        Ok(tokens) => Ok(tokens),
        Err(fault) => Err(form(fault)),
    }
}

// The records, functions and classes that a text is by its grammar.
fn classes_of(alloc: Global, bytes: &[u8]) -> Result<RawClasses, ClassFault>
    requires { length bytes.now ≤ CLASS_BYTES }
    ensures { RawAnswer bytes.now result }
{
    let tokens = tokens_of(alloc, bytes)?;
    match text(alloc, &tokens) {
        Ok(raw) => Ok(raw),
        Err(fault) => Err(form(fault)),
    }
}

// The names of classes in order.
fn names_of(alloc: Global, classes: &[Class]) -> Result<Vec<Name>, NoMemory>
    ensures { IfOk result (λ v. v.items ≡ class_names (map class_of classes.now)) }
{
    let mut names = Vec::new(alloc);
    for class in classes {
        names.push(class.name.copy(alloc)?)?;
    }
    Ok(names)
}

// The name of a class by its number, where there is one.
fn name_at(alloc: Global, names: &[Name], number: Option<u32>) -> Result<Option<Name>, NoMemory>
    ensures { IfOk result (λ o. o ≡ option_and_then (λ k. slice_get names.now k) number) }
{
    match number {
        None => Ok(None),
        Some(number) => match names.get(number as usize) {
            Some(name) => Ok(Some(name.copy(alloc)?)),
            None => Ok(None),
        },
    }
}

// A refusal of classes with these names.
fn invalid(alloc: Global, names: &[Name], fault: Invalid) -> ClassFault
    ensures { RefusalAnswer names.now result fault }
{
    match fault {
        Invalid::OutOfMemory => ClassFault::OutOfMemory,
        Invalid::Rule { rule, class } => match name_at(alloc, names, class) {
            Ok(class) => ClassFault::Invalid { rule, class },
            Err(_) => ClassFault::OutOfMemory,
        },
    }
}

// The verdict on what a text is by its grammar.
fn judge(alloc: Global, raw: RawClasses) -> Result<ClassProgram, ClassFault>
    requires few { AreFew (raw_of raw).classes }
    requires many { length raw.classes.items < 2 ^ 32 }
    ensures { (bytes : List ℕ) → IsClassText bytes (raw_of raw) → ClassAnswer bytes result }
{
    let names = names_of(alloc, &raw.classes)?;
    match validate(alloc, raw) {
        Ok(classes) => Ok(classes),
        Err(fault) => Err(invalid(alloc, &names, fault)),
    }
}

/// The records, functions and classes that the text is by the grammar of class text, which keep the rules V1 to V8. `TooLarge` is
/// answered exactly above 16,777,216 bytes. `Form` tells the line of the lexical refusal, wherever in the text it stands, else of
/// the first token with which no class text begins; the end counts as one. `Invalid` tells the first rule that the classes break,
/// and the name of the class that breaks it, where it is one. Want of memory may come at any time.
pub fn read_classes(alloc: Global, bytes: &[u8]) -> Result<ClassProgram, ClassFault>
    ensures { ClassAnswer bytes.now result }
{
    if bytes.len() > CLASS_BYTES {
        return Err(ClassFault::TooLarge);
    }
    match classes_of(alloc, bytes) {
        Ok(raw) => judge(alloc, raw),
        Err(fault) => Err(fault),
    }
}
