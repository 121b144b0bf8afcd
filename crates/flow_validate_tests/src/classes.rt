// Classes from their text. A function that owns what may be large has few ends, since it is dropped at each.

use crate::reader::Reader;
use flow_class::class::{Block, Callback, Catcher, Class, Group, Instr, Last, RawClasses, Slotted};
use flow_lex::lex::lex;
use flow_parse::parse::parse;
use flow_tree::decl::{Decl, FunctionDecl, RecordDecl, Slot};
use flow_tree::expr::Expr;
use flow_tree::fault::SourceFault;
use flow_tree::token::{Sign, Tokens, Word};
use flow_tree::ty::Ty;
use std::alloc::{AllocError, Global};

fn set(alloc: Global, text: &mut Reader) -> Result<Instr, SourceFault> {
    let target = text.target(alloc)?;
    text.sign(Sign::Assign);
    Ok(Instr::Set(target, text.expr(alloc)?))
}

fn effect(alloc: Global, text: &mut Reader) -> Result<Instr, SourceFault> {
    let target = text.target(alloc)?;
    text.sign(Sign::Assign);
    Ok(Instr::Effect(target, text.expr(alloc)?))
}

fn act(alloc: Global, text: &mut Reader) -> Result<Instr, SourceFault> {
    let target = text.target(alloc)?;
    Ok(Instr::Act(target, text.args(alloc)?))
}

fn drops_locals(alloc: Global, text: &mut Reader) -> Result<Instr, SourceFault> {
    Ok(Instr::Drop(text.locals(alloc)?))
}

// What an instruction begins with.
#[derive(Clone, Copy)]
enum Verb {
    Set,
    Do,
    New,
    Act,
    Drop,
}

// Reads what an instruction begins with, where one is next.
fn next_verb(text: &mut Reader) -> Option<Verb> {
    if text.takes_name("set") {
        return Some(Verb::Set);
    }
    if text.takes_name("do") {
        return Some(Verb::Do);
    }
    if text.takes_name("new") {
        return Some(Verb::New);
    }
    if text.takes_name("act") {
        return Some(Verb::Act);
    }
    if text.takes_name("drop") {
        return Some(Verb::Drop);
    }
    None
}

fn instr(alloc: Global, text: &mut Reader, verb: Verb) -> Result<Instr, SourceFault> {
    match verb {
        Verb::Set => set(alloc, text),
        Verb::Do => effect(alloc, text),
        Verb::New => Ok(Instr::New(text.place())),
        Verb::Act => act(alloc, text),
        Verb::Drop => drops_locals(alloc, text),
    }
}

// Adds an instruction, where one is next.
fn add_instr(
    alloc: Global,
    text: &mut Reader,
    instrs: &mut Vec<Instr>,
) -> Result<bool, SourceFault> {
    let Some(verb) = next_verb(text) else {
        return Ok(false);
    };
    instrs.push(instr(alloc, text, verb)?)?;
    text.sign(Sign::Semicolon);
    Ok(true)
}

fn body(alloc: Global, text: &mut Reader) -> Result<Vec<Instr>, SourceFault> {
    let mut instrs = Vec::new(alloc);
    for _ in 0..text.most() {
        if !add_instr(alloc, text, &mut instrs)? {
            break;
        }
    }
    Ok(instrs)
}

// An expression in brackets.
fn bracketed(alloc: Global, text: &mut Reader) -> Result<Expr, SourceFault> {
    text.sign(Sign::OpenRound);
    let expr = text.expr(alloc);
    text.sign(Sign::CloseRound);
    expr
}

// The blocks to which a test leads.
fn ways(text: &mut Reader) -> (u32, u32) {
    text.name("goto");
    let holds = text.number();
    text.word(Word::Else);
    (holds, text.number())
}

fn test(alloc: Global, text: &mut Reader) -> Result<Last, SourceFault> {
    let test = bracketed(alloc, text)?;
    let (holds, fails) = ways(text);
    Ok(Last::Test(test, holds, fails))
}

// What a `return` gives, if it gives anything.
fn returned(alloc: Global, text: &mut Reader) -> Result<Option<Expr>, SourceFault> {
    if text.is_sign(Sign::Semicolon) {
        return Ok(None);
    }
    Ok(Some(text.expr(alloc)?))
}

fn thrown(alloc: Global, text: &mut Reader) -> Result<Last, SourceFault> {
    text.word(Word::Throw);
    Ok(Last::Throw(text.expr(alloc)?))
}

fn last(alloc: Global, text: &mut Reader) -> Result<Last, SourceFault> {
    if text.takes_name("goto") {
        return Ok(Last::Goto(text.number()));
    }
    if text.takes_name("pass") {
        return Ok(Last::Pass(text.number()));
    }
    if text.takes_name("test") {
        return test(alloc, text);
    }
    if text.takes_word(Word::Choose) {
        return Ok(Last::Choose(text.number()));
    }
    if text.takes_word(Word::Return) {
        return Ok(Last::Return(returned(alloc, text)?));
    }
    thrown(alloc, text)
}

fn error(text: &mut Reader) -> Option<u32> {
    if !text.takes_name("error") {
        return None;
    }
    Some(text.local())
}

fn drops(alloc: Global, text: &mut Reader) -> Result<Vec<u32>, SourceFault> {
    text.name("drop");
    text.sign(Sign::OpenRound);
    if text.takes_sign(Sign::CloseRound) {
        return Ok(Vec::new(alloc));
    }
    let numbers = text.locals(alloc);
    text.sign(Sign::CloseRound);
    numbers
}

fn catcher(alloc: Global, text: &mut Reader) -> Result<Option<Catcher>, SourceFault> {
    if !text.takes_word(Word::Catch) {
        return Ok(None);
    }
    let block = text.number();
    let error = error(text);
    let drops = drops(alloc, text)?;
    Ok(Some(Catcher {
        block,
        error,
        drops,
    }))
}

// What stands in front of a block's braces, and the opening one.
fn before(alloc: Global, text: &mut Reader) -> Result<Option<Catcher>, SourceFault> {
    text.number();
    let catcher = catcher(alloc, text);
    text.sign(Sign::OpenCurly);
    catcher
}

// How a block ends, and the closing brace.
fn ends(alloc: Global, text: &mut Reader) -> Result<Last, SourceFault> {
    let last = last(alloc, text);
    text.sign(Sign::Semicolon);
    text.sign(Sign::CloseCurly);
    last
}

fn block(alloc: Global, text: &mut Reader) -> Result<Block, SourceFault> {
    let catcher = before(alloc, text)?;
    let body = body(alloc, text)?;
    let last = ends(alloc, text)?;
    Ok(Block {
        catcher,
        body,
        last,
    })
}

fn add_blocks(
    alloc: Global,
    text: &mut Reader,
    blocks: &mut Vec<Block>,
) -> Result<(), SourceFault> {
    for _ in 0..text.most() {
        if !text.takes_name("block") {
            break;
        }
        blocks.push(block(alloc, text)?)?;
    }
    Ok(())
}

fn is_next(text: &mut Reader) -> bool {
    let found = text.takes_word(Word::WaitNext);
    if !found {
        text.word(Word::Wait);
    }
    found
}

// Where what a callback takes goes, if it goes anywhere.
fn into(text: &mut Reader) -> Option<Slotted> {
    if !text.takes_name("into") {
        return None;
    }
    Some(text.place())
}

// The block to which a callback leads.
fn way(text: &mut Reader) -> u32 {
    text.name("goto");
    let block = text.number();
    text.sign(Sign::Semicolon);
    block
}

fn callback(alloc: Global, text: &mut Reader) -> Result<Callback, SourceFault> {
    text.number();
    let next = is_next(text);
    let operand = bracketed(alloc, text)?;
    let into = into(text);
    let block = way(text);
    Ok(Callback {
        next,
        operand,
        into,
        block,
    })
}

fn callbacks(alloc: Global, text: &mut Reader) -> Result<Vec<Callback>, SourceFault> {
    let mut callbacks = Vec::new(alloc);
    for _ in 0..text.most() {
        if !text.takes_name("callback") {
            break;
        }
        callbacks.push(callback(alloc, text)?)?;
    }
    Ok(callbacks)
}

fn group(alloc: Global, text: &mut Reader) -> Result<Group, SourceFault> {
    text.number();
    text.sign(Sign::OpenCurly);
    let callbacks = callbacks(alloc, text)?;
    text.sign(Sign::CloseCurly);
    Ok(Group { callbacks })
}

fn add_groups(
    alloc: Global,
    text: &mut Reader,
    groups: &mut Vec<Group>,
) -> Result<(), SourceFault> {
    for _ in 0..text.most() {
        if !text.takes_name("group") {
            break;
        }
        groups.push(group(alloc, text)?)?;
    }
    Ok(())
}

fn slot(alloc: Global, text: &mut Reader) -> Result<Slot, SourceFault> {
    text.number();
    let ty = text.ty(alloc)?;
    let name = text.any_name(alloc)?;
    text.sign(Sign::Semicolon);
    Ok(Slot { ty, name })
}

fn add_slots(alloc: Global, text: &mut Reader, slots: &mut Vec<Slot>) -> Result<(), SourceFault> {
    for _ in 0..text.most() {
        if !text.takes_name("slot") {
            break;
        }
        slots.push(slot(alloc, text)?)?;
    }
    Ok(())
}

fn local(alloc: Global, text: &mut Reader) -> Result<Ty, SourceFault> {
    text.number();
    let ty = text.ty(alloc);
    text.sign(Sign::Semicolon);
    ty
}

fn add_locals(alloc: Global, text: &mut Reader, locals: &mut Vec<Ty>) -> Result<(), SourceFault> {
    for _ in 0..text.most() {
        if !text.takes_name("local") {
            break;
        }
        locals.push(local(alloc, text)?)?;
    }
    Ok(())
}

// How many parameters a class has.
fn params(text: &mut Reader) -> u32 {
    text.name("params");
    let count = text.number();
    text.sign(Sign::OpenCurly);
    count
}

// What a class gives, if it gives anything.
fn result(alloc: Global, text: &mut Reader) -> Result<Option<Ty>, SourceFault> {
    if text.takes_word(Word::NoResult) {
        return Ok(None);
    }
    Ok(Some(text.ty(alloc)?))
}

// A class with its name, what it returns and how many parameters it has, and nothing else.
fn head(alloc: Global, text: &mut Reader) -> Result<Class, SourceFault> {
    text.name("class");
    let name = text.any_name(alloc)?;
    text.name("returns");
    let returns = result(alloc, text)?;
    Ok(Class {
        name,
        returns,
        params: params(text),
        slots: Vec::new(alloc),
        locals: Vec::new(alloc),
        blocks: Vec::new(alloc),
        groups: Vec::new(alloc),
    })
}

// Adds what stands in the braces of a class.
fn fill(alloc: Global, text: &mut Reader, class: &mut Class) -> Result<(), SourceFault> {
    add_slots(alloc, text, &mut class.slots)?;
    add_locals(alloc, text, &mut class.locals)?;
    add_blocks(alloc, text, &mut class.blocks)?;
    add_groups(alloc, text, &mut class.groups)?;
    text.sign(Sign::CloseCurly);
    Ok(())
}

fn add_class(
    alloc: Global,
    text: &mut Reader,
    classes: &mut Vec<Class>,
) -> Result<(), SourceFault> {
    classes.push(head(alloc, text)?)?;
    match classes.last_mut() {
        Some(class) => fill(alloc, text, class),
        None => Ok(()),
    }
}

fn add_read(alloc: Global, text: &mut Reader, classes: &mut Vec<Class>) -> Result<(), SourceFault> {
    for _ in 0..text.most() {
        if text.is_done() {
            break;
        }
        add_class(alloc, text, classes)?;
    }
    text.verdict()
}

// The tokens of a text below 2^31 bytes; a longer one is taken for an empty one.
fn tokens_of(alloc: Global, text: &str) -> Result<Tokens, SourceFault> {
    let bytes = text.as_bytes();
    if bytes.len() > 2_000_000_000 {
        return lex(alloc, &[]);
    }
    lex(alloc, bytes)
}

/// Adds these classes, as class text has them.
pub fn add_classes(
    alloc: Global,
    class_text: &str,
    classes: &mut Vec<Class>,
) -> Result<(), SourceFault> {
    let mut text = Reader::new(tokens_of(alloc, class_text)?);
    add_read(alloc, &mut text, classes)
}

// Adds a record or a function; an actor is none.
fn add_decl(
    decl: Decl,
    records: &mut Vec<RecordDecl>,
    functions: &mut Vec<FunctionDecl>,
) -> Result<(), AllocError> {
    match decl {
        Decl::Struct(record) => Ok(records.push(record)?),
        Decl::Function(function) => Ok(functions.push(function)?),
        Decl::Actor(_actor) => Ok(()),
    }
}

fn add_decls(
    decls: Vec<Decl>,
    records: &mut Vec<RecordDecl>,
    functions: &mut Vec<FunctionDecl>,
) -> Result<(), AllocError> {
    for decl in decls {
        add_decl(decl, records, functions)?;
    }
    Ok(())
}

fn decls(alloc: Global, text: &str) -> Result<Vec<Decl>, SourceFault> {
    let tokens = tokens_of(alloc, text)?;
    Ok(parse(alloc, &tokens)?.decls)
}

// Adds the records and functions of a program's text, and these classes, as class text has them.
fn add_raw(
    alloc: Global,
    plain_text: &str,
    class_text: &str,
    raw: &mut RawClasses,
) -> Result<(), SourceFault> {
    add_decls(
        decls(alloc, plain_text)?,
        &mut raw.records,
        &mut raw.functions,
    )?;
    add_classes(alloc, class_text, &mut raw.classes)
}

/// The class program of these records and functions, as a program's text has them, and these classes, as class text has them.
pub fn raw_classes(
    alloc: Global,
    plain_text: &str,
    class_text: &str,
) -> Result<RawClasses, SourceFault> {
    let mut raw = RawClasses {
        records: Vec::new(alloc),
        functions: Vec::new(alloc),
        classes: Vec::new(alloc),
    };
    add_raw(alloc, plain_text, class_text, &mut raw)?;
    Ok(raw)
}
