// Texts and what they are read as, and what a program text declares.

use flow_ast::decl::{Decl, Program};
use flow_ast::expr::Expr;
use flow_ast::fault::SourceFault;
use flow_ast::scope::Scope;
use flow_ast::token::Tokens;
use flow_ast::ty::Ty;
use flow_base::memory::NoMemory;
use flow_exprs::expr::parse_expr;
use flow_exprs::ty::parse_type;
use flow_lex::lex::lex;
use flow_parse::parse::parse;
use std::alloc::Global;

// The tokens of a text of a length that the lexer takes.
fn lexed(alloc: Global, text: &str) -> Result<Tokens, SourceFault> {
    let bytes = text.as_bytes();
    if bytes.len() > 4_294_967_294 {
        return Err(SourceFault::OutOfMemory);
    }
    lex(alloc, bytes)
}

/// What a text is read as.
pub trait Tree: Sized {
    // The tree with which tokens begin, and up to which token it goes.
    fn parsed(alloc: Global, tokens: &Tokens) -> Result<(Self, usize), SourceFault>;
}

impl Tree for Expr {
    fn parsed(alloc: Global, tokens: &Tokens) -> Result<(Expr, usize), SourceFault> {
        parse_expr(alloc, tokens, 0, 1)
    }
}

impl Tree for Ty {
    fn parsed(alloc: Global, tokens: &Tokens) -> Result<(Ty, usize), SourceFault> {
        parse_type(alloc, tokens, 0, 1)
    }
}

impl Tree for Program {
    fn parsed(alloc: Global, tokens: &Tokens) -> Result<(Program, usize), SourceFault> {
        Ok((parse(alloc, tokens)?, tokens.spots.len()))
    }
}

fn whole<T: Tree + Drop>(alloc: Global, tokens: &Tokens) -> Option<T> {
    match T::parsed(alloc, tokens) {
        Ok((tree, to)) if to == tokens.spots.len() => Some(tree),
        _ => None,
    }
}

/// What the whole of a text is read as, if it is read.
pub fn read<T: Tree + Drop>(alloc: Global, text: &str) -> Option<T> {
    let read = lexed(alloc, text);
    match &read {
        Ok(tokens) => whole(alloc, tokens),
        Err(_) => None,
    }
}

/// Where nothing is declared.
pub fn empty(alloc: Global) -> Scope {
    Scope {
        records: Vec::new(alloc),
        functions: Vec::new(alloc),
        actors: Vec::new(alloc),
        vars: Vec::new(alloc),
    }
}

fn add<T: Drop>(list: &mut Vec<T>, one: T) -> Result<(), NoMemory> {
    list.push(one)?;
    Ok(())
}

fn add_decl(decl: Decl, scope: &mut Scope) -> Result<(), NoMemory> {
    match decl {
        Decl::Struct(record) => add(&mut scope.records, record),
        Decl::Function(function) => add(&mut scope.functions, function),
        Decl::Actor(actor) => add(&mut scope.actors, actor),
    }
}

fn add_decls(decls: Vec<Decl>, scope: &mut Scope) -> Result<(), NoMemory> {
    for decl in decls {
        add_decl(decl, scope)?;
    }
    Ok(())
}

/// Adds what a program text declares; nothing where it isn't read.
pub fn add_declared(alloc: Global, text: &str, scope: &mut Scope) -> Result<(), NoMemory> {
    match read::<Program>(alloc, text) {
        Some(program) => add_decls(program.decls, scope),
        None => Ok(()),
    }
}
