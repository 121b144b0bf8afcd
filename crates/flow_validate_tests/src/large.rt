// Large class programs.

use crate::classes::{add_classes, raw_classes};
use flow_base::name::{Name, is_name};
use flow_base::place::Place;
use flow_class::class::{Block, Class, Instr, Last, RawClasses};
use flow_tree::decl::Slot;
use flow_tree::expr::Expr;
use flow_tree::fault::SourceFault;
use flow_tree::stmt::Target;
use flow_tree::ty::{Ident, Ty};
use itoa::Buffer;
use std::alloc::Global;

const FIRST_PLACE: Place = Place {
    line: 1,
    column: 1,
    byte: 0,
};

// A name; no test has a word that is none.
fn name(alloc: Global, word: &[u8]) -> Result<Name, SourceFault> {
    if !is_name(word) {
        return Err(SourceFault::OutOfMemory);
    }
    Ok(Name::new(alloc, word)?)
}

fn add_local(word: &mut Vec<u8>, number: u32) -> Result<(), SourceFault> {
    let mut buffer = Buffer::new();
    word.push(b'l')?;
    word.extend_from_slice(buffer.format(number).as_bytes())?;
    Ok(())
}

// The name of a local.
fn local_name(alloc: Global, number: u32) -> Result<Name, SourceFault> {
    let mut word = Vec::new(alloc);
    add_local(&mut word, number)?;
    name(alloc, &word)
}

fn local(alloc: Global, number: u32) -> Result<Ident, SourceFault> {
    Ok(Ident {
        name: local_name(alloc, number)?,
        at: FIRST_PLACE,
    })
}

// What a local is filled with: what the one before has.
fn filler(alloc: Global, number: u32) -> Result<Expr, SourceFault> {
    if number == 0 {
        return Ok(Expr::Int(1));
    }
    Ok(Expr::Var(local(alloc, number.saturating_sub(1))?))
}

fn target(alloc: Global, number: u32) -> Result<Target, SourceFault> {
    let mut path = Vec::with_capacity(alloc, 1)?;
    path.push(local(alloc, number)?)?;
    Ok(Target { path })
}

// A local is filled with what another has.
fn filling(alloc: Global, number: u32) -> Result<Instr, SourceFault> {
    let filled = target(alloc, number)?;
    Ok(Instr::Set(filled, filler(alloc, number)?))
}

fn body(alloc: Global, number: u32) -> Result<Vec<Instr>, SourceFault> {
    let mut body = Vec::with_capacity(alloc, 1)?;
    body.push(filling(alloc, number)?)?;
    Ok(body)
}

// A local is filled, and the next block follows.
fn step(alloc: Global, number: u32) -> Result<Block, SourceFault> {
    Ok(Block {
        catcher: None,
        body: body(alloc, number)?,
        last: Last::Goto(number.saturating_add(1)),
    })
}

fn returning(alloc: Global) -> Block {
    Block {
        catcher: None,
        body: Vec::new(alloc),
        last: Last::Return(Some(Expr::VoidValue)),
    }
}

// So many blocks that fill a local each, and one that returns.
fn steps(alloc: Global, count: u32) -> Result<Vec<Block>, SourceFault> {
    let mut blocks = Vec::with_capacity(alloc, count as usize + 1)?;
    for number in 0..count {
        blocks.push(step(alloc, number)?)?;
    }
    blocks.push(returning(alloc))?;
    Ok(blocks)
}

// So many locals.
fn numbers(alloc: Global, count: u32) -> Result<Vec<Ty>, SourceFault> {
    let mut locals = Vec::with_capacity(alloc, count as usize)?;
    for _ in 0..count {
        locals.push(Ty::Int)?;
    }
    Ok(locals)
}

fn parameter(alloc: Global) -> Result<Vec<Slot>, SourceFault> {
    let mut slots = Vec::new(alloc);
    let name = name(alloc, b"p")?;
    slots.push(Slot { ty: Ty::Int, name })?;
    Ok(slots)
}

fn main_class(alloc: Global, count: u32) -> Result<Class, SourceFault> {
    let locals = numbers(alloc, count)?;
    let blocks = steps(alloc, count)?;
    let slots = parameter(alloc)?;
    Ok(Class {
        name: name(alloc, b"main")?,
        returns: Some(Ty::Void),
        params: 1,
        slots,
        locals,
        blocks,
        groups: Vec::new(alloc),
    })
}

/// A class program of which `main` has so many locals, and a block that fills each from the one before. Its vectors have room for no
/// more than they hold, so that what it takes in memory is the program's own.
pub fn many_blocks(alloc: Global, count: u32) -> Result<RawClasses, SourceFault> {
    let mut classes = Vec::new(alloc);
    classes.push(main_class(alloc, count)?)?;
    Ok(RawClasses {
        records: Vec::new(alloc),
        functions: Vec::new(alloc),
        classes,
    })
}

// What stands before and behind the name of an ordinary class: what an actor with a loop, a `try` and waits is compiled to.
const CLASS: &str = "class ask";

const INSIDE: &str =
    " returns int params 2 { slot 0 PromiseStream<R> to; slot 1 int n; slot 2 int sum; slot 3 Promise<int> reply; \
    local 0 int; local 1 Error; local 2 int; \
    block 0 { set s2 = f(s1 * 2) + 1; new s3; act s0.send(R(s2, s3)); goto 1; } \
    block 1 catch 4 error l1 drop (l0) { choose 1; } \
    block 2 catch 4 error l1 drop (l0) { set s2 = s2 + l0; drop l0; goto 3; } \
    block 3 { choose 2; } \
    block 4 { act trace(l1.code()); drop l1; goto 5; } \
    block 5 { set s2 = s2 + 1; goto 7; } \
    block 6 { throw end_of_stream(); } \
    block 7 { set l2 = 0; test (l2 < s1 && s2 % 7 != 3) goto 8 else 10; } \
    block 8 { act trace(to_string(s2) + \" of \" + to_string(s1)); set s2 = f(s2 - 1); goto 9; } \
    block 9 { test (s2 > 1000) goto 10 else 11; } \
    block 10 { return s2; } \
    block 11 { pass 7; } \
    group 1 { callback 0 wait(s3.getFuture()) into l0 goto 2; } \
    group 2 { callback 1 wait(delay(s1)) goto 5; callback 2 wait(Never()) goto 6; } }";

const PLAIN: &str = "struct R { int n; Promise<int> reply; }; int f(int n) { return n; }";

const MAIN: &str = "class main returns Void params 1 { slot 0 int p; block 0 { return Void(); } }";

fn add_ordinary_text(text: &mut String, number: u32) -> Result<(), SourceFault> {
    let mut buffer = Buffer::new();
    text.push_str(CLASS)?;
    text.push_str(buffer.format(number))?;
    text.push_str(INSIDE)?;
    Ok(())
}

// The text of an ordinary class.
fn ordinary_class(alloc: Global, number: u32) -> Result<String, SourceFault> {
    let mut text = String::new(alloc);
    add_ordinary_text(&mut text, number)?;
    Ok(text)
}

// Adds an ordinary class: how many bytes of text it has.
fn add_ordinary(
    alloc: Global,
    number: u32,
    classes: &mut Vec<Class>,
) -> Result<usize, SourceFault> {
    let text = ordinary_class(alloc, number)?;
    add_classes(alloc, &text, classes)?;
    Ok(text.len())
}

// Adds as many ordinary classes as have so many bytes of text.
fn add_many(alloc: Global, bytes: usize, classes: &mut Vec<Class>) -> Result<(), SourceFault> {
    let mut size: usize = 0;
    for number in 0..1_000_000 {
        if size >= bytes {
            break;
        }
        size = size.saturating_add(add_ordinary(alloc, number, classes)?);
    }
    Ok(())
}

/// A class program of as many ordinary classes as have so many bytes of text.
pub fn ordinary(alloc: Global, bytes: usize) -> Result<RawClasses, SourceFault> {
    let mut raw = raw_classes(alloc, PLAIN, MAIN)?;
    add_many(alloc, bytes, &mut raw.classes)?;
    Ok(raw)
}
