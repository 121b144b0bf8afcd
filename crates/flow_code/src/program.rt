// Programs as they are run.

ghost use Rattle.std.specs.Prelude.{◌≡◌, IfOk, None, map, slice_get};
ghost use Rattle.std.specs.Option.{option_copied};
ghost use Rattle.flow_class.specs.View.{class_of, raw_of};
ghost use Rattle.flow_code.specs.Resolved.Named.{at_name, naming_of};
ghost use Rattle.flow_code.specs.Coded.{IsCoded, coded};
ghost use Rattle.flow_code.specs.View.{code_of, group_numbered};

use crate::class::{Class, Group};
use crate::coding::{ClassNames, Coder, small};
use crate::expr::names::{FieldNames, Names};
use flow_base::memory::NoMemory;
use flow_class::class as text;
use flow_valid::program::ClassProgram;
use std::alloc::Global;

/// The classes of a program as they are run, the numbers of the fields of its records, and the program.
#[derive(Drop)]
pub struct Code {
    program: ClassProgram,
    fields: FieldNames,
    classes: Vec<Class>,
    main: Option<u32>,
}

/// A class with its names resolved.
fn coded_class(
    alloc: Global,
    names: &Names<'_>,
    class_names: &ClassNames<'_>,
    class: &text::Class,
) -> Result<Class, NoMemory>
    ensures { IfOk result (λ c. code_of c
        ≡ coded (naming_of names.now (λ _. None)) (at_name class_names.now.named)
        (class_of class.now)) }
{
    let coder = Coder {
        alloc,
        names,
        classes: class_names,
        slots: small(class.slots.len())?,
    };
    coder.class(class)
}

/// Classes with their names resolved.
fn coded_classes(
    alloc: Global,
    names: &Names<'_>,
    class_names: &ClassNames<'_>,
    classes: &[text::Class],
) -> Result<Vec<Class>, NoMemory>
    ensures { IfOk result (λ v. map code_of v.items
        ≡ map (coded (naming_of names.now (λ _. None)) (at_name class_names.now.named))
        (map class_of classes.now)) }
{
    let mut coded = Vec::new(alloc);
    for class in classes {
        coded.push(coded_class(alloc, names, class_names, class)?)?;
    }
    Ok(coded)
}

#[tactic(auto, using(crate::proofs::Coded::is_coded))]
/// The fields of a program's records, its classes with their names resolved, and which class is `main`.
fn coded(
    alloc: Global,
    raw: &text::RawClasses,
) -> Result<(FieldNames, Vec<Class>, Option<u32>), NoMemory>
    ensures { IfOk result (λ r. IsCoded (raw_of raw.now) r.0 r.1.items r.2) }
{
    let (names, fields) = Names::new(alloc, &raw.records, &raw.functions)?;
    let class_names = ClassNames::new(alloc, &raw.classes)?;
    let classes = coded_classes(alloc, &names, &class_names, &raw.classes)?;
    let main = class_names.class(b"main");
    Ok((fields, classes, main))
}

impl Code {
    /// A program with its names resolved.
    pub fn new(alloc: Global, program: ClassProgram) -> Result<Code, NoMemory>
        ensures program { IfOk result (λ c. c.program ≡ program) }
        ensures coded { IfOk result (λ c. IsCoded (raw_of program) c.fields c.classes.items
            c.main) }
    {
        let (fields, classes, main) = coded(alloc, program.raw())?;
        Ok(Code {
            program,
            fields,
            classes,
            main,
        })
    }

    /// The program.
    pub fn program(&self) -> &ClassProgram
        ensures { result.now ≡ self.now.program }
    {
        &self.program
    }

    /// The fields of its records.
    pub fn fields(&self) -> &FieldNames
        ensures { result.now ≡ self.now.fields }
    {
        &self.fields
    }

    /// The class at a place, from 0.
    pub fn class(&self, place: u32) -> Option<&Class>
        ensures { option_copied result ≡ slice_get self.now.classes.items place }
    {
        self.classes.get(place as usize)
    }

    /// The place of the class `main`, if there is one.
    pub fn main(&self) -> Option<u32>
        ensures { result ≡ self.now.main }
    {
        self.main
    }
}

impl Class {
    /// The group of a number from 1.
    pub fn group(&self, group: u32) -> Option<&Group>
        ensures { option_copied result ≡ group_numbered group self.now.groups.items }
    {
        let Some(place) = (group as usize).checked_sub(1) else {
            return None;
        };
        self.groups.get(place)
    }
}
