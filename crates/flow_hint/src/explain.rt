// What is said of an item that breaks a rule on its meaning.

use crate::hint::{Hint, is_there, words};
use crate::names::name_advice;
use crate::seek::{Item, Seeker};
use crate::source::Source;
use crate::spelled::{put_found, put_type};
use flow_base::memory::NoMemory;
use flow_base::place::Place;
use flow_rules::rule::SemanticRule;
use flow_tree::decl::{Decl, Param, Program, RecordDecl};
use flow_tree::stmt::{Stmt, StmtKind, When};
use flow_tree::ty::{Ident, Ty};
use flow_types::closing::ways_of;
use flow_types::program::{Returns, Routine};
use flow_types::top_names::is_predefined;
use flow_types::type_view::TypeView;
use std::alloc::Global;

/// Says why the item at a place breaks the rule of a number.
#[derive(Clone, Copy)]
pub struct Explainer<'s, 'n, 'a> {
    pub alloc: Global,
    pub source: Source<'a>,
    pub program: &'a Program,
    pub seeker: &'s Seeker<'n, 'a>,
    pub rule: u8,
    pub at: Place,
}

/// The name that a declaration declares, and its place.
pub fn place_of(decl: &Decl) -> (&[u8], Place) {
    match decl {
        Decl::Struct(record) => (record.name.name.bytes(), record.name.at),
        Decl::Function(function) => (function.name.name.bytes(), function.name.at),
        Decl::Actor(actor) => (actor.name.name.bytes(), actor.name.at),
    }
}

/// The name of the record in a written type.
fn named_in(ty: &Ty) -> Option<&[u8]> {
    match ty {
        Ty::Named(name) => Some(name.bytes()),
        Ty::Future(of) => named_in(of),
        Ty::FutureStream(of) => named_in(of),
        Ty::Promise(of) => named_in(of),
        Ty::PromiseStream(of) => named_in(of),
        Ty::Vector(of) => named_in(of),
        Ty::Int | Ty::Bool | Ty::Str | Ty::Void | Ty::Error => None,
    }
}

/// The written type of what is returned, where there is one.
fn written_type<'a>(returns: Returns<'a>) -> Option<&'a Ty> {
    match returns {
        Returns::Function(ty) | Returns::Actor(Some(ty)) => Some(ty),
        Returns::Actor(None) => None,
    }
}

/// The statement through which the end of these statements is reached: the innermost last one.
fn last_of(body: &[Stmt]) -> Option<&Stmt> {
    let last = body.last()?;
    let inner = match &last.kind {
        StmtKind::Block(inner) => last_of(inner),
        StmtKind::If(_, chosen, Some(otherwise)) => {
            if ways_of(chosen).end {
                last_of(chosen)
            } else {
                last_of(otherwise)
            }
        }
        _ => None,
    };
    if inner.is_some() { inner } else { Some(last) }
}

/// What is said of the last statement of a body whose end can be reached.
fn passed(kind: &StmtKind) -> &'static [u8] {
    match kind {
        StmtKind::If(_, _, None) => b"where this condition is false, nothing is returned",
        StmtKind::While(_, _) | StmtKind::For(_, _, _, _) => {
            b"behind this loop nothing is returned"
        }
        StmtKind::Loop(_) => b"a `break` leaves this loop, and behind it nothing is returned",
        StmtKind::Try(_, _, _, _) =>
            b"a way leads through this `try`, and behind it nothing is returned",
        StmtKind::Choose(_) =>
            b"a branch leads out of this `choose`, and behind it nothing is returned",
        _ => b"behind this statement nothing is returned",
    }
}

impl<'s, 'n, 'a> Explainer<'s, 'n, 'a> {
    /// Whether this rule is the one that is broken.
    pub fn is_rule(self, fault: Option<SemanticRule>) -> bool {
        match fault {
            Some(rule) => rule.number() == self.rule,
            None => false,
        }
    }

    /// Says words of a place.
    pub fn say(self, hint: &mut Hint, at: Place, parts: &[&[u8]]) -> Result<(), NoMemory> {
        hint.say(self.at, at, words(self.alloc, parts)?)
    }

    /// Advises in these words.
    pub fn advise(self, hint: &mut Hint, parts: &[&[u8]]) -> Result<(), NoMemory> {
        hint.advise(words(self.alloc, parts)?)
    }

    /// The text of so many tokens from one on, as it is written.
    pub fn written_text(self, token: usize, count: usize) -> Result<Vec<u8>, NoMemory> {
        words(self.alloc, &[self.source.slice(token, count)])
    }

    /// The text of so many tokens from one on where it is short.
    pub fn short_text(self, token: usize, count: usize) -> Result<Option<Vec<u8>>, NoMemory> {
        match self.source.short(token, count) {
            Some(text) => Ok(Some(words(self.alloc, &[text])?)),
            None => Ok(None),
        }
    }

    /// A type as it is written.
    pub fn spelled(self, ty: TypeView<'_>) -> Result<Vec<u8>, NoMemory> {
        let mut out = Vec::new(self.alloc);
        put_found(&mut out, ty)?;
        Ok(out)
    }

    /// Says why this item breaks the rule.
    pub fn item(self, item: Item<'a>, hint: &mut Hint) -> Result<(), NoMemory> {
        match item {
            Item::Record(record) => self.record(record, hint),
            Item::Header(routine) => self.header(routine, hint),
            Item::Close(routine) => self.close(routine, hint),
            Item::Stmt(stmt) => self.stmt(stmt, hint),
            Item::When(branch) => self.branch(branch, hint),
            Item::Catch(name) => self.taken(name, hint),
        }
    }

    fn branch(self, branch: &'a When, hint: &mut Hint) -> Result<(), NoMemory> {
        let token = self.source.number(branch.at).saturating_add(2);
        self.waiting(&branch.waiting, token, hint)
    }

    /// Says that nothing has this name.
    pub fn unknown<'x>(
        self,
        name: &'x Ident,
        kind: &'x [u8],
        hint: &mut Hint,
    ) -> Result<(), NoMemory> {
        let bytes = name.name.bytes();
        if is_there(self.at, name.at) {
            self.say(hint, name.at, &[b"`", bytes, b"`"])?;
        } else {
            self.say(hint, name.at, &[kind, b" `", bytes, b"`"])?;
        }
        self.advise_name(bytes, hint)
    }

    /// Advises where a name has another one here.
    pub fn advise_name(self, name: &[u8], hint: &mut Hint) -> Result<(), NoMemory> {
        match name_advice(name) {
            Some(advice) => self.advise(hint, &[advice.as_bytes()]),
            None => Ok(()),
        }
    }

    /// Says that a written type is unknown, or that a function can't have it.
    pub fn written(self, ty: &Ty, at: Place, hint: &mut Hint) -> Result<(), NoMemory> {
        let fault = self.seeker.setting.written(ty);
        if !self.is_rule(fault) {
            return Ok(());
        }
        if self.rule == 6 {
            let mut spelled = Vec::new(self.alloc);
            put_type(&mut spelled, ty)?;
            self.say(hint, at, &[b"`", &spelled, b"` holds a reference"])?;
            return self.advise_actor(hint);
        }
        if let Some(name) = named_in(ty) {
            self.say(hint, at, &[b"no record is named `", name, b"`"])?;
            self.advise_name(name, hint)?;
        }
        Ok(())
    }

    /// Advises to make an actor of the function.
    pub fn advise_actor(self, hint: &mut Hint) -> Result<(), NoMemory> {
        let Some(routine) = self.seeker.routine else {
            return Ok(());
        };
        let mut returns = Vec::new(self.alloc);
        match written_type(routine.returns) {
            Some(Ty::Future(of)) => put_type(&mut returns, of)?,
            Some(of) => put_type(&mut returns, of)?,
            None => return Ok(()),
        }
        let name = routine.name.name.bytes();
        let begin = if self.rule == 10 {
            b"make the function an actor: `ACTOR Future<".as_slice()
        } else {
            b"make it an actor: `ACTOR Future<".as_slice()
        };
        self.advise(hint, &[begin, &returns, b"> ", name, b"(..)`"])
    }

    // The name of a record, and its fields.
    fn record(self, record: &'a RecordDecl, hint: &mut Hint) -> Result<(), NoMemory> {
        if self.rule == 2 {
            self.top_taken(&record.name, hint)?;
        }
        for (number, field) in record.fields.iter().enumerate() {
            self.written(&field.ty, field.name.at, hint)?;
            if self.rule == 2 {
                self.twice(&record.fields, number, field, hint)?;
            }
        }
        Ok(())
    }

    // Says where a name stands that one before it has too; whether one has.
    fn twice(
        self,
        params: &'a [Param],
        number: usize,
        param: &'a Param,
        hint: &mut Hint,
    ) -> Result<bool, NoMemory> {
        for (before, other) in params.iter().enumerate() {
            if before < number && other.name.name.bytes() == param.name.name.bytes() {
                self.taken_by(&param.name, Some(other.name.at), hint)?;
                return Ok(true);
            }
        }
        Ok(false)
    }

    // A name at the top, the types and the names of the parameters.
    fn header(self, routine: Routine<'a>, hint: &mut Hint) -> Result<(), NoMemory> {
        if let Some(ty) = written_type(routine.returns) {
            self.written(ty, routine.at, hint)?;
        }
        if self.rule == 2 {
            self.top_taken(routine.name, hint)?;
        }
        for (number, param) in routine.params.iter().enumerate() {
            self.written(&param.ty, param.name.at, hint)?;
            if self.rule == 2 {
                self.param_taken(routine.params, number, param, hint)?;
            }
        }
        Ok(())
    }

    // Says where a parameter's name is taken.
    fn param_taken(
        self,
        params: &'a [Param],
        number: usize,
        param: &'a Param,
        hint: &mut Hint,
    ) -> Result<(), NoMemory> {
        if self.twice(params, number, param, hint)? {
            return Ok(());
        }
        let bytes = param.name.name.bytes();
        if is_predefined(bytes) {
            return self.taken_by(&param.name, None, hint);
        }
        match self.top_place(bytes) {
            Some(at) => self.taken_by(&param.name, Some(at), hint),
            None => Ok(()),
        }
    }

    // The place of the first declaration at the top of this name.
    fn top_place(self, name: &[u8]) -> Option<Place> {
        for decl in &self.program.decls {
            let (declared, at) = place_of(decl);
            if declared == name {
                return Some(at);
            }
        }
        None
    }

    // Says where the name of a routine is taken.
    fn top_taken(self, name: &Ident, hint: &mut Hint) -> Result<(), NoMemory> {
        if is_predefined(name.name.bytes()) {
            return self.taken_by(name, None, hint);
        }
        match self.top_place(name.name.bytes()) {
            Some(at) => {
                if at.byte == name.at.byte {
                    return Ok(());
                }
                self.taken_by(name, Some(at), hint)
            }
            None => Ok(()),
        }
    }

    // Says that a name is taken by what is declared at another place, or predefined.
    fn taken_by(self, name: &Ident, by: Option<Place>, hint: &mut Hint) -> Result<(), NoMemory> {
        let bytes = name.name.bytes();
        match by {
            Some(at) => {
                self.say(hint, self.at, &[b"`", bytes, b"`"])?;
                self.say(hint, at, &[b"`", bytes, b"` is declared here"])
            }
            None => self.say(hint, self.at, &[b"`", bytes, b"` is predefined"]),
        }
    }

    /// Says where the name of a variable is taken.
    pub fn taken(self, name: &Ident, hint: &mut Hint) -> Result<(), NoMemory> {
        let bytes = name.name.bytes();
        if is_predefined(bytes) {
            return self.taken_by(name, None, hint);
        }
        if let Some(at) = self.top_place(bytes) {
            return self.taken_by(name, Some(at), hint);
        }
        for other in &self.seeker.declared {
            if other.name.bytes() == bytes {
                return self.taken_by(name, Some(other.at), hint);
            }
        }
        Ok(())
    }

    // Says by which way the end of a body is reached, and what would end it.
    fn close(self, routine: Routine<'a>, hint: &mut Hint) -> Result<(), NoMemory> {
        if let Some(last) = last_of(routine.body) {
            self.say(hint, last.at, &[passed(&last.kind)])?;
        }
        let Some(ty) = written_type(routine.returns) else {
            return Ok(());
        };
        let mut returns = Vec::new(self.alloc);
        put_type(&mut returns, ty)?;
        match ty {
            Ty::Void => self.advise(hint, &[b"end with `return Void();`"]),
            _ => self.advise(
                hint,
                &[b"end with a `return` of a value of `", &returns, b"`"],
            ),
        }
    }
}
