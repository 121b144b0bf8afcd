// The classes of a program.

ghost use Rattle.std.specs.Prelude.{◌≡◌, [], ◌∷◌, ◌++◌, map, IfOk};
ghost use Rattle.flow_tree.specs.DeclView.{decl_of, record_of, function_of, actor_of, program_of};
ghost use Rattle.flow_class.specs.View.{class_of, raw_of};
ghost use Rattle.flow_meaning.specs.Source.{records_in, functions_in, actors_in, names_of};
ghost use Rattle.flow_lower.specs.Compiled.{class_in, Has, Compiles};
ghost use Rattle.flow_lower.specs.Weighing.{first_heavy};

use crate::weighing::weight;
use flow_base::memory::NoMemory;
use flow_base::place::Place;
use flow_class::class::{Class, RawClasses};
use flow_layout::layout::layout;
use flow_split::lower::lower;
use flow_staterule::Sound;
use flow_tree::decl::{ActorDecl, Decl, FunctionDecl, Program, RecordDecl};
use flow_tree::limits::WEIGHT;
use std::alloc::Global;

/// Why a program has no classes: the weight of the actor at this place is above 60,000, or there was no memory.
#[derive(Clone, Copy, PartialEq, Eq)]
pub enum CompileFault {
    TooManyBlocks(Place),
    OutOfMemory,
}

impl From<NoMemory> for CompileFault {
    ghost use Rattle.std.specs.Prelude.{◌≡◌};
    ghost use Rattle.flow_lower.specs.declared.compiling.CompileFault.TheVariants.{OutOfMemory};

    ghost from_gives = { λ _ e. e ≡ OutOfMemory };

    fn from(_error: NoMemory) -> CompileFault {
        CompileFault::OutOfMemory
    }
}

// The place of a declaration, if it is an actor whose weight is above 60,000.
fn heavy(decl: &Decl) -> Option<Place>
    ensures { result ≡ first_heavy (decl_of decl.now ∷ []) }
{
    match decl {
        Decl::Struct(_) => None,
        Decl::Function(_) => None,
        Decl::Actor(actor) => {
            if weight(actor) > u64::from(WEIGHT) {
                return Some(actor.at);
            }
            None
        }
    }
}

// The place of the first actor among these declarations whose weight is above 60,000.
#[tactic(auto, using(crate::proofs::Weights::heavy_more, crate::proofs::Weights::heavy_found, crate::proofs::Weights::heavy_over))]
fn heavy_among(decls: &[Decl]) -> Option<Place>
    ensures { result ≡ first_heavy (map decl_of decls.now) }
{
    for decl in decls {
        if let Some(at) = heavy(decl) {
            return Some(at);
        }
    }
    None
}

/// The place of the first actor of a program whose weight is above 60,000.
pub fn first_heavy(sound: &Sound) -> Option<Place>
    ensures { result ≡ first_heavy (program_of sound.now.typed.program).decls }
{
    heavy_among(&sound.program().decls)
}

// Adds a declaration to the records, if it is one.
fn push_record(alloc: Global, records: &mut Vec<RecordDecl>, decl: &Decl) -> Result<(), NoMemory>
    ensures { let olds = map record_of records.old.items in
        IfOk result (λ _. map record_of records.new.items
        ≡ olds ++ records_in (decl_of decl.now ∷ [])) }
{
    match decl {
        Decl::Struct(record) => {
            records.push(record.copy(alloc)?)?;
            Ok(())
        }
        Decl::Function(_) => Ok(()),
        Decl::Actor(_) => Ok(()),
    }
}

// The records, in the order of the text.
#[tactic(auto, using(crate::proofs::Collecting::records_more, crate::proofs::Collecting::records_all))]
fn records_of(alloc: Global, decls: &[Decl]) -> Result<Vec<RecordDecl>, NoMemory>
    ensures { IfOk result (λ v. map record_of v.items ≡ records_in (map decl_of decls.now)) }
{
    let mut records = Vec::new(alloc);
    for decl in decls {
        push_record(alloc, &mut records, decl)?;
    }
    Ok(records)
}

// Adds a declaration to the plain functions, if it is one.
fn push_function(
    alloc: Global,
    functions: &mut Vec<FunctionDecl>,
    decl: &Decl,
) -> Result<(), NoMemory>
    ensures { let olds = map function_of functions.old.items in
        IfOk result (λ _. map function_of functions.new.items
        ≡ olds ++ functions_in (decl_of decl.now ∷ [])) }
{
    match decl {
        Decl::Struct(_) => Ok(()),
        Decl::Function(function) => {
            functions.push(function.copy(alloc)?)?;
            Ok(())
        }
        Decl::Actor(_) => Ok(()),
    }
}

// The plain functions, in the order of the text.
#[tactic(auto, using(crate::proofs::Collecting::functions_more, crate::proofs::Collecting::functions_all))]
fn functions_of(alloc: Global, decls: &[Decl]) -> Result<Vec<FunctionDecl>, NoMemory>
    ensures { IfOk result (λ v. map function_of v.items ≡ functions_in (map decl_of decls.now)) }
{
    let mut functions = Vec::new(alloc);
    for decl in decls {
        push_function(alloc, &mut functions, decl)?;
    }
    Ok(functions)
}

// The class of an actor.
fn class_of_actor(alloc: Global, program: &Program, actor: &ActorDecl) -> Result<Class, NoMemory>
    ensures { IfOk result (λ c. class_of c
        ≡ class_in (names_of (program_of program.now)) (actor_of actor.now)) }
{
    let layout = layout(alloc, actor)?;
    lower(alloc, program, actor, &layout)
}

// Adds the class of a declaration to the classes, if it is an actor.
fn push_class(
    alloc: Global,
    program: &Program,
    classes: &mut Vec<Class>,
    decl: &Decl,
) -> Result<(), NoMemory>
    ensures { let olds = map class_of classes.old.items in
        let added = map (class_in (names_of (program_of program.now))) (actors_in
        (decl_of decl.now ∷ [])) in
        IfOk result (λ _. map class_of classes.new.items ≡ olds ++ added) }
{
    match decl {
        Decl::Struct(_) => Ok(()),
        Decl::Function(_) => Ok(()),
        Decl::Actor(actor) => {
            classes.push(class_of_actor(alloc, program, actor)?)?;
            Ok(())
        }
    }
}

// The class of each actor, in the order of the text.
#[tactic(auto, using(crate::proofs::Collecting::classes_more, crate::proofs::Collecting::classes_all))]
fn classes_of(alloc: Global, program: &Program, decls: &[Decl]) -> Result<Vec<Class>, NoMemory>
    ensures { let ns = names_of (program_of program.now) in
        IfOk result (λ v. map class_of v.items ≡ map (class_in ns) (actors_in
        (map decl_of decls.now))) }
{
    let mut classes = Vec::new(alloc);
    for decl in decls {
        push_class(alloc, program, &mut classes, decl)?;
    }
    Ok(classes)
}

// The classes of a program's actors, in the order of the text, beside its records and functions.
fn all_classes(alloc: Global, program: &Program) -> Result<RawClasses, NoMemory>
    ensures { IfOk result (λ r. Has (program_of program.now) (raw_of r)) }
{
    Ok(RawClasses {
        records: records_of(alloc, &program.decls)?,
        functions: functions_of(alloc, &program.decls)?,
        classes: classes_of(alloc, program, &program.decls)?,
    })
}

/// The classes of a sound program: those of its actors, in the order of the text, beside its records and functions. It is
/// refused exactly where the weight of an actor is above 60,000, at the first such actor.
pub fn lower_program(alloc: Global, sound: &Sound) -> Result<RawClasses, CompileFault>
    ensures { Compiles raw_of (program_of sound.now.typed.program) result }
{
    match first_heavy(sound) {
        Some(at) => Err(CompileFault::TooManyBlocks(at)),
        None => match all_classes(alloc, sound.program()) {
            Ok(classes) => Ok(classes),
            Err(_) => Err(CompileFault::OutOfMemory),
        },
    }
}
