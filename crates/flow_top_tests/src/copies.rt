// Copies of trees, seen by the text that they are written as.

use flow_base::memory::NoMemory;
use flow_lex::lex::lex;
use flow_parse::parse::parse;
use flow_show::show::show;
use flow_tree::decl::{ActorDecl, Decl, FunctionDecl, Param, Program, RecordDecl, Slot};
use flow_tree::fault::SourceFault;
use flow_tree::limits::PROGRAM_BYTES;
use flow_tree::stmt::Stmt;
use flow_tree::token::Tokens;
use flow_tree::ty::copy_result;
use std::alloc::Global;

// Each parameter, copied by way of a slot.
fn copied_params(alloc: Global, params: &[Param]) -> Result<Vec<Param>, NoMemory> {
    let mut copies = Vec::new(alloc);
    for param in params {
        let slot = Slot {
            ty: param.ty.copy(alloc)?,
            name: param.name.name.copy(alloc)?,
        };
        let mut copy = param.copy(alloc)?;
        copy.ty = slot.copy(alloc)?.ty;
        copies.push(copy)?;
    }
    Ok(copies)
}

// Each statement, copied.
fn copied_stmts(alloc: Global, body: &[Stmt]) -> Result<Vec<Stmt>, NoMemory> {
    let mut copies = Vec::new(alloc);
    for stmt in body {
        copies.push(stmt.copy(alloc)?)?;
    }
    Ok(copies)
}

// A declaration, copied whole.
fn copied(alloc: Global, decl: &Decl) -> Result<Decl, NoMemory> {
    match decl {
        Decl::Struct(record) => Ok(Decl::Struct(record.copy(alloc)?)),
        Decl::Function(function) => Ok(Decl::Function(function.copy(alloc)?)),
        Decl::Actor(actor) => Ok(Decl::Actor(actor.copy(alloc)?)),
    }
}

// A declaration of copied parts.
fn made_of_copies(alloc: Global, decl: &Decl) -> Result<Decl, NoMemory> {
    match decl {
        Decl::Struct(record) => Ok(Decl::Struct(RecordDecl {
            at: record.at,
            name: record.name.copy(alloc)?,
            fields: copied_params(alloc, &record.fields)?,
        })),
        Decl::Function(function) => Ok(Decl::Function(FunctionDecl {
            at: function.at,
            returns: function.returns.copy(alloc)?,
            name: function.name.copy(alloc)?,
            params: copied_params(alloc, &function.params)?,
            body: copied_stmts(alloc, &function.body)?,
            close: function.close,
        })),
        Decl::Actor(actor) => Ok(Decl::Actor(ActorDecl {
            at: actor.at,
            returns: copy_result(alloc, &actor.returns)?,
            name: actor.name.copy(alloc)?,
            params: copied_params(alloc, &actor.params)?,
            body: copied_stmts(alloc, &actor.body)?,
            close: actor.close,
        })),
    }
}

// A program of copied declarations, or of declarations of copied parts.
fn copy_of(alloc: Global, program: &Program, parts: bool) -> Result<Program, NoMemory> {
    let mut decls = Vec::new(alloc);
    for decl in &program.decls {
        if parts {
            decls.push(made_of_copies(alloc, decl)?)?;
        } else {
            decls.push(copied(alloc, decl)?)?;
        }
    }
    Ok(Program {
        decls,
        end: program.end,
    })
}

// Whether a program and its copies are written as this text.
fn is_written_so(alloc: Global, program: &Program, text: &[u8]) -> Result<bool, NoMemory> {
    let whole = show(alloc, &copy_of(alloc, program, false)?)?;
    let parts = show(alloc, &copy_of(alloc, program, true)?)?;
    Ok(whole.as_slice() == text && parts.as_slice() == text)
}

// The tokens of a text within the limit of its bytes, copied.
fn copied_tokens(alloc: Global, text: &[u8]) -> Result<Tokens, SourceFault> {
    let tokens = lex(alloc, &text[..text.len().min(PROGRAM_BYTES)])?;
    Ok(tokens.copy(alloc)?)
}

// Each form of declaration, statement, expression and type, in canonical text.
const EVERYTHING: &[u8] = b"\
struct R {
    int n;
    Promise<int> q;
    string s;
    vector<vector<int>> v;
};
bool f(int n, bool b) {
    if (!b) {
        throw timed_out();
    } else {
        return (-n - 1) % 2 == 0 || n >= 3 && b;
    }
}
ACTOR Future<Void> g(PromiseStream<R> out, FutureStream<R> in, Future<Error> e) {
    state R r;
    int x = 1;
    for (int i = 0; i < x; i++) {
        x += r.v[i - 1][0];
        continue;
    }
    while (true) {
        r.n--;
        break;
    }
    loop {
        {
            r.s = \"a\\n\";
        }
        try {
            wait(delay(5));
            state R w = waitNext(in);
            w.q.send(2);
            throw;
        } catch (Error& c) {
            x -= c.code();
            return Void();
        }
        choose {
            when (wait(e)) {
            }
            when (R v = waitNext(in)) {
                out.send(v);
            }
        }
    }
}
ACTOR void h(vector<R> v, int i) {
    state vector<Promise<int>> q;
    if (i >= v.size()) {
        return;
    }
    trace(v[i].n);
    return;
}
ACTOR Future<Void> main(int p) {
    return Void();
}
";

#[test]
fn copies_trees(rt: HostRuntime) -> Result<(), SourceFault> {
    let alloc = rt.alloc();
    let program = parse(alloc, &copied_tokens(alloc, EVERYTHING)?)?;
    assert!(rt; is_written_so(alloc, &program, EVERYTHING)?);
    Ok(())
}
