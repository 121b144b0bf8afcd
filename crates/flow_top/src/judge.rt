// What the text comes to that a request begins with, and the text of a world.

ghost use Rattle.std.specs.Prelude.{◌≡◌, ℕ, List, Err, IfOk};
ghost use Rattle.flow_tree.specs.DeclView.{program_of};
ghost use Rattle.flow_compile.specs.Right.{IsAccepted};
ghost use Rattle.flow_worldfile.specs.Reading.{ReadsWorld};
ghost use Rattle.flow_worldfile.specs.Worlds.{IsInRange, seen};
ghost use Rattle.flow_words.specs.Asked.{request_of, RunRequest};
ghost use Rattle.flow_words.specs.Asked as Request;
ghost use Rattle.flow_top.specs.Outcomes.{refusal_outcome_of, heavy_outcome, class_outcome_of};
ghost use Rattle.flow_top.specs.Steps.{JudgesTo, LowersTo, CompilesTo, EndsBy, RunsTo, WorldOf, WaitsAre};
ghost use Rattle.flow_top.specs.Debugged.{WaitsOf, WaitsFor};

use crate::outcome::{Answered, Meant, Runnable};
use flow_base::place::Place;
use flow_classread::fault::ClassFault;
use flow_classread::read::read_classes;
use flow_compile::{CompileFault, compile, first_heavy, front, read_program};
use flow_debug::waits::WaitPlaces;
use flow_staterule::Sound;
use flow_tree::decl::Program;
use flow_tree::fault::{Rule, SourceFault};
use flow_valid::program::ClassProgram;
use flow_words::Asked;
use flow_worldfile::{World0, WorldFault, read_world};
use std::alloc::Global;
use std::snapshot::Snapshot;

// What a refusal of the program comes to.
fn refusal_outcome(fault: SourceFault) -> Answered
    ensures { result ≡ refusal_outcome_of fault }
{
    match fault {
        SourceFault::OutOfMemory => Answered::OutOfMemory,
        SourceFault::Refused { .. } | SourceFault::AcrossWait { .. } => Answered::Refused(fault),
    }
}

// That the actor at this place weighs too much.
fn too_heavy(at: Place) -> Answered
    ensures { result ≡ heavy_outcome at }
{
    Answered::Refused(SourceFault::Refused {
        rule: Rule::L(9),
        at,
    })
}

// What `format` comes to on a text.
fn format(alloc: Global, text: &[u8]) -> Answered
    ensures { (p : List ℕ) → EndsBy text.now (Request.format p) result }
{
    match read_program(alloc, text) {
        Ok(program) => Answered::Formatted(program),
        Err(fault) => refusal_outcome(fault),
    }
}

// The program of a text, which passes the rules up to U1.
fn sound_of(alloc: Global, text: &[u8]) -> Result<Sound, Answered>
    ensures { JudgesTo text.now result }
{
    match front(alloc, text) {
        Ok(sound) => Ok(sound),
        Err(fault) => Err(refusal_outcome(fault)),
    }
}

// What `check` comes to on a text.
fn check(alloc: Global, text: &[u8]) -> Answered
    ensures { (p : List ℕ) → EndsBy text.now (Request.check p) result }
{
    let sound = match sound_of(alloc, text) {
        Ok(sound) => sound,
        Err(told) => return told,
    };
    match first_heavy(&sound) {
        None => Answered::Passed,
        Some(at) => too_heavy(at),
    }
}

// The classes of a program.
fn classes_of(alloc: Global, sound: &Sound) -> Result<ClassProgram, Answered>
    requires { IsAccepted sound.now.typed.program }
    ensures { LowersTo (program_of sound.now.typed.program) result }
{
    match compile(alloc, sound) {
        Ok(classes) => Ok(classes),
        Err(CompileFault::TooManyBlocks(at)) => Err(too_heavy(at)),
        Err(CompileFault::OutOfMemory) => Err(Answered::OutOfMemory),
    }
}

// The classes of the program that a text is, and the program.
fn program(alloc: Global, text: &[u8]) -> Result<Runnable, Answered>
    ensures { CompilesTo text.now result }
{
    let sound = match sound_of(alloc, text) {
        Ok(sound) => sound,
        Err(told) => return Err(told),
    };
    match classes_of(alloc, &sound) {
        Ok(classes) => Ok(Runnable {
            meant: Meant::Text(Snapshot::of(sound.program())),
            classes,
            waits: WaitPlaces::none(alloc),
        }),
        Err(told) => Err(told),
    }
}

// The places of the waits of a program.
fn waits_of(alloc: Global, program: &Program) -> Result<WaitPlaces, Answered>
    ensures { WaitsAre program.now result }
{
    match WaitPlaces::new(alloc, &program.decls) {
        Ok(waits) => Ok(waits),
        Err(_) => Err(Answered::OutOfMemory),
    }
}

// The classes of the program that a text is, the program, and where its waits stand.
fn program_with_waits(alloc: Global, text: &[u8]) -> Result<Runnable, Answered>
    ensures judged { CompilesTo text.now result }
    ensures waits { IfOk result (λ r. WaitsOf r.meant r.waits) }
{
    let sound = match sound_of(alloc, text) {
        Ok(sound) => sound,
        Err(told) => return Err(told),
    };
    let classes = match classes_of(alloc, &sound) {
        Ok(classes) => classes,
        Err(told) => return Err(told),
    };
    let waits = match waits_of(alloc, sound.program()) {
        Ok(waits) => waits,
        Err(told) => return Err(told),
    };
    Ok(Runnable {
        meant: Meant::Text(Snapshot::of(sound.program())),
        classes,
        waits,
    })
}

// What `compile` comes to on a text.
fn compiled(alloc: Global, text: &[u8]) -> Answered
    ensures { (p : List ℕ) → EndsBy text.now (Request.compile p) result }
{
    match program(alloc, text) {
        Ok(
            Runnable {
                meant: _,
                classes,
                waits: _,
            },
        ) => Answered::Printed(classes),
        Err(told) => told,
    }
}

// What a refusal of a class text comes to.
fn class_outcome(fault: ClassFault) -> Answered
    ensures { result ≡ class_outcome_of fault }
{
    match fault {
        ClassFault::OutOfMemory => Answered::OutOfMemory,
        ClassFault::TooLarge | ClassFault::Form(_) | ClassFault::Invalid { .. } => {
            Answered::NoClasses(fault)
        }
    }
}

// The classes of a class text.
fn class_text(alloc: Global, text: &[u8]) -> Result<Runnable, Answered>
    ensures { (r : RunRequest) → RunsTo text.now (Request.exec r) result }
{
    match read_classes(alloc, text) {
        Ok(classes) => Ok(Runnable {
            meant: Meant::Classes,
            classes,
            waits: WaitPlaces::none(alloc),
        }),
        Err(fault) => Err(class_outcome(fault)),
    }
}

// What `upgrade` comes to on a text.
fn upgraded(alloc: Global, text: &[u8]) -> Answered
    ensures { (c : List ℕ) → EndsBy text.now (Request.upgrade c) result }
{
    match read_classes(alloc, text) {
        Ok(classes) => Answered::Printed(classes),
        Err(fault) => class_outcome(fault),
    }
}

/// What a request comes to by the text that it begins with: the classes that are run for it, or the outcome without a run.
pub fn judge(alloc: Global, asked: &Asked<'_>, text: &[u8]) -> Result<Runnable, Answered>
    ensures runs { RunsTo text.now (request_of asked.now) result }
    ensures waits { IfOk result (λ r. WaitsFor (request_of asked.now) r.meant r.waits) }
{
    match asked {
        Asked::Format(_) => Err(format(alloc, text)),
        Asked::Check(_) => Err(check(alloc, text)),
        Asked::Compile(_) => Err(compiled(alloc, text)),
        Asked::Run(_) => program(alloc, text),
        Asked::Bench(..) => program(alloc, text),
        Asked::Shrink(_) => program(alloc, text),
        Asked::Debug(_) => program_with_waits(alloc, text),
        Asked::Exec(_) => class_text(alloc, text),
        Asked::Upgrade(_) => Err(upgraded(alloc, text)),
    }
}

// What a refusal of the world comes to: want of memory is none.
fn world_outcome(fault: WorldFault) -> Answered
    ensures { (text : List ℕ) → ReadsWorld text (Err fault) → WorldOf text (Err result) }
{
    match fault {
        WorldFault::OutOfMemory => Answered::OutOfMemory,
        WorldFault::TooLarge
        | WorldFault::Form(_)
        | WorldFault::Range(_)
        | WorldFault::Twice(_)
        | WorldFault::NoProcess(_) => Answered::NoWorld(fault),
    }
}

/// The world of a text, or what the command comes to without it.
pub fn world_of(alloc: Global, text: &[u8]) -> Result<World0, Answered>
    ensures answered { WorldOf text.now result }
    ensures in_range { IfOk result (λ w. IsInRange (seen w)) }
{
    match read_world(alloc, text) {
        Ok(world) => Ok(world),
        Err(fault) => Err(world_outcome(fault)),
    }
}
