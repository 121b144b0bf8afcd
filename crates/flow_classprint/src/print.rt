// The text of the classes of a program, with its records and functions.

ghost use Rattle.std.specs.Prelude.{◌≡◌, ◌++◌, codes, map, IfOk};
ghost use Rattle.flow_tree.specs.DeclView.{record_of, function_of};
ghost use Rattle.flow_tree.specs.Canon.{decl_text, line};
ghost use Rattle.flow_class.specs.View.{class_of, raw_of};
ghost use Rattle.flow_classprint.specs.ClassText.{all_text, record_text, function_text, front_text, class_text, ClassText};

use crate::class::put_class;
use flow_base::memory::NoMemory;
use flow_class::class::{Class, RawClasses};
use flow_show::source::Source;
use flow_tree::decl::{FunctionDecl, RecordDecl};
use flow_valid::program::ClassProgram;
use std::alloc::Global;

// Adds the records.
fn put_records(out: &mut Source, records: &[RecordDecl]) -> Result<(), NoMemory>
    ensures { IfOk result (λ _. out.new
        ≡ out.old ++ all_text record_text (map record_of records.now)) }
{
    for record in records {
        out.put_record(record)?;
    }
    Ok(())
}

// Adds the functions.
fn put_functions(out: &mut Source, functions: &[FunctionDecl]) -> Result<(), NoMemory>
    ensures { IfOk result (λ _. out.new
        ≡ out.old ++ all_text function_text (map function_of functions.now)) }
{
    for function in functions {
        out.put_function(function)?;
    }
    Ok(())
}

// Adds the classes.
fn put_classes(out: &mut Source, classes: &[Class]) -> Result<(), NoMemory>
    ensures { IfOk result (λ _. out.new
        ≡ out.old ++ all_text class_text (map class_of classes.now)) }
{
    for class in classes {
        put_class(out, class)?;
    }
    Ok(())
}

/// Adds the line that tells the format, the records and the functions.
pub fn put_front(out: &mut Source, raw: &RawClasses) -> Result<(), NoMemory>
    ensures { IfOk result (λ _. out.new ≡ out.old ++ front_text (raw_of raw.now)) }
{
    out.put(b"classes 2\n")?;
    put_records(out, &raw.records)?;
    put_functions(out, &raw.functions)?;
    Ok(())
}

/// The canonical text of classes, with the records and functions of their program.
pub fn print_classes(alloc: Global, classes: &ClassProgram) -> Result<Vec<u8>, NoMemory>
    ensures { IfOk result (λ v. v.items ≡ ClassText (raw_of classes.now)) }
{
    let raw = classes.raw();
    let mut out = Source::new(alloc);
    put_front(&mut out, raw)?;
    put_classes(&mut out, &raw.classes)?;
    Ok(out.into_bytes())
}
