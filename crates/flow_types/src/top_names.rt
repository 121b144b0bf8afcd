// The names at the top of a program.

ghost use Rattle.flow_tree.specs.Decls.{DeclTree};
ghost use Rattle.std.specs.Prelude.{◌≡◌, ◌∷◌, [], codes, map, IfOk, ℕ, List, length, slice_get, ◌≤◌, ◌<◌, ◌||◌, ◌+◌, suc, ◌++◌, Bool, Some};
ghost use Rattle.std.specs.Option.{option_map};
ghost use Rattle.flow_base.specs.Names.{IsName};
ghost use Rattle.flow_tree.specs.View.{type_of};
ghost use Rattle.flow_tree.specs.DeclView.{param_of, params_of, decl_of};
ghost use Rattle.flow_ast.specs.Typing.{packet_fields, is_there};
ghost use Rattle.flow_ast.specs.TypingNames.{named};
ghost use Rattle.flow_rules.specs.Known.{RecordOf, row_of, field_row, type_known, holds_by, is_predefined, known, fields_hold, meaning_holds, record_holds};
ghost use Rattle.flow_types.specs.View.{meaning_of};
ghost use Rattle.flow_types.specs.Holding.{marked, uses_hold};
ghost use Rattle.flow_types.specs.MapView.{rows_of, known_by, numbered, flag_of, HoldAs};
ghost use Rattle.flow_types.specs.HoldView.{row_holds};

use crate::callee::Meaning;
use crate::holding::{Uses, is_marked, settled};
use flow_ast::predefined::{predefined_call, predefined_constant};
use flow_ast::typing::is_packet;
use flow_base::memory::NoMemory;
use flow_base::name::Name;
use flow_base::place::Place;
use flow_tree::decl::{Decl, Param};
use flow_tree::ty::{Ident, Ty};
use indexmap::IndexMap;
use std::alloc::Global;

/// What names at the top declare, the first of several with one name.
pub type Meanings<'a> = IndexMap<&'a [u8], Meaning<'a>>;

/// What the names at the top of a program declare, and which records hold a reference.
#[derive(Drop)]
pub struct TopNames<'a> {
    meanings: Meanings<'a>,
    holds: Vec<bool>,
}

fn field(alloc: Global, name: &[u8], ty: Ty) -> Result<Param, NoMemory>
    requires { IsName name.now }
    ensures { IfOk result (λ p. field_row (param_of p) ≡ (name.now, type_of ty)) }
{
    let at = Place {
        line: 1,
        column: 1,
        byte: 0,
    };
    let name = Name::new(alloc, name)?;
    Ok(Param {
        ty,
        name: Ident { name, at },
    })
}

/// The fields of the record `Packet { int from; int port; string text; }`.
pub fn packet_fields(alloc: Global) -> Result<Vec<Param>, NoMemory>
    ensures { IfOk result (λ v. map field_row (params_of v.items) ≡ packet_fields) }
{
    let mut fields = Vec::new(alloc);
    fields.push(field(alloc, b"from", Ty::Int)?)?;
    fields.push(field(alloc, b"port", Ty::Int)?)?;
    fields.push(field(alloc, b"text", Ty::Str)?)?;
    Ok(fields)
}

/// The name of a declaration.
pub fn name_of(decl: &Decl) -> &[u8]
    ensures { result.now ≡ (row_of (decl_of decl.now)).0 }
{
    match decl {
        Decl::Struct(record) => record.name.name.bytes(),
        Decl::Function(function) => function.name.name.bytes(),
        Decl::Actor(actor) => actor.name.name.bytes(),
    }
}

/// What a declaration declares.
pub fn meaning_of(decl: &Decl) -> Meaning<'_>
    ensures { meaning_of result ≡ (row_of (decl_of decl.now)).1 }
{
    match decl {
        Decl::Struct(record) => Meaning::Record(&record.fields),
        Decl::Function(function) => Meaning::Function(&function.params, &function.returns),
        Decl::Actor(actor) => Meaning::Actor(&actor.params, &actor.returns),
    }
}

/// The predefined record alone.
pub fn predefined<'a>(alloc: Global, packet: &'a [Param]) -> Result<Meanings<'a>, NoMemory>
    ensures { IfOk result (λ m. rows_of m
        ≡ (codes "Packet", RecordOf (map field_row (params_of packet.now))) ∷ []) }
{
    let mut meanings = IndexMap::new(alloc);
    meanings.insert(b"Packet".as_slice(), Meaning::Record(packet))?;
    Ok(meanings)
}

/// What a name declares, where it is among these.
#[tactic(auto, using(crate::proofs::Lookups::named_lookup))]
pub fn find<'a>(meanings: &Meanings<'a>, name: &[u8]) -> Option<Meaning<'a>>
    ensures { option_map meaning_of result ≡ named (rows_of meanings.now) name.now }
{
    meanings.get(name).copied()
}

/// Whether a name is among these.
pub fn is_known(meanings: &Meanings<'_>, name: &[u8]) -> bool
    ensures { result ≡ is_there (named (rows_of meanings.now) name.now) }
{
    match find(meanings, name) {
        Some(_) => true,
        None => false,
    }
}

/// Whether the records that a written type names are among these.
pub fn type_known(meanings: &Meanings<'_>, ty: &Ty) -> bool
    ensures { result ≡ type_known (named (rows_of meanings.now)) (type_of ty.now) }
{
    match ty {
        Ty::Named(name) => matches!(find(meanings, name.bytes()), Some(Meaning::Record(_))),
        Ty::Future(of) => type_known(meanings, of),
        Ty::FutureStream(of) => type_known(meanings, of),
        Ty::Promise(of) => type_known(meanings, of),
        Ty::PromiseStream(of) => type_known(meanings, of),
        Ty::Vector(of) => type_known(meanings, of),
        Ty::Int | Ty::Bool | Ty::Str | Ty::Void | Ty::Error => true,
    }
}

/// Whether a name without a base is known in every program.
pub fn is_predefined(name: &[u8]) -> bool
    ensures { result ≡ is_predefined name.now }
{
    is_packet(name) || predefined_call(name).is_some() || predefined_constant(name).is_some()
}

// Notes what a field of a record says of it: that it holds a reference, or which record it holds.
#[tactic(auto, using(crate::proofs::Holders::note_found, crate::proofs::Holders::note_missing, crate::proofs::Holders::note_reference, crate::proofs::Holders::note_nothing))]
fn note_field(meanings: &Meanings<'_>, ty: &Ty, uses: &mut Uses) -> Result<(), NoMemory>
    ensures { IfOk result (λ _. (g : ℕ → Bool) → uses_hold g uses.new
        ≡ (uses_hold g uses.old || holds_by (numbered meanings.now g) (type_of ty.now))) }
{
    match ty {
        Ty::Named(name) => match meanings.get_index_of(name.bytes()) {
            Some(number) => uses.records.push(number)?,
            None => {}
        },
        Ty::Future(_) | Ty::FutureStream(_) | Ty::Promise(_) | Ty::PromiseStream(_) => {
            uses.direct = true;
        }
        Ty::Vector(of) => note_field(meanings, of, uses)?,
        Ty::Int | Ty::Bool | Ty::Str | Ty::Void | Ty::Error => {}
    }
    Ok(())
}

fn fields_uses(alloc: Global, meanings: &Meanings<'_>, fields: &[Param]) -> Result<Uses, NoMemory>
    ensures { IfOk result (λ u. (g : ℕ → Bool) → uses_hold g u
        ≡ fields_hold (numbered meanings.now g) (map field_row (params_of fields.now))) }
{
    let mut uses = Uses {
        direct: false,
        records: Vec::new(alloc),
    };
    for field in fields {
        note_field(meanings, &field.ty, &mut uses)?;
    }
    Ok(uses)
}

fn meaning_uses(
    alloc: Global,
    meanings: &Meanings<'_>,
    meaning: Meaning<'_>,
) -> Result<Uses, NoMemory>
    ensures { IfOk result (λ u. (g : ℕ → Bool) → uses_hold g u
        ≡ meaning_holds (numbered meanings.now g) (Some (meaning_of meaning.entry))) }
{
    match meaning {
        Meaning::Record(fields) => fields_uses(alloc, meanings, fields),
        Meaning::Function(_, _) => fields_uses(alloc, meanings, &[]),
        Meaning::Actor(_, _) => fields_uses(alloc, meanings, &[]),
    }
}

// What the record with this number holds; what is no record holds nothing.
fn uses_at(alloc: Global, meanings: &Meanings<'_>, number: usize) -> Result<Uses, NoMemory>
    requires { number < length meanings.now.entries }
    ensures { IfOk result (λ u. (g : ℕ → Bool) → Some (uses_hold g u)
        ≡ option_map (row_holds meanings.now g) (slice_get meanings.now.entries number)) }
{
    match meanings.get_index(number) {
        Some((_name, meaning)) => meaning_uses(alloc, meanings, *meaning),
        None => fields_uses(alloc, meanings, &[]),
    }
}

#[tactic(auto, using(crate::proofs::Holders::uses_more, crate::proofs::Holders::uses_all))]
fn all_uses(alloc: Global, meanings: &Meanings<'_>) -> Result<Vec<Uses>, NoMemory>
    ensures { IfOk result (λ v. HoldAs meanings.now v.items) }
{
    let mut all = Vec::new(alloc);
    for number in 0..meanings.len() {
        all.push(uses_at(alloc, meanings, number)?)?;
    }
    Ok(all)
}

// The records that hold a reference, by their numbers.
#[tactic(auto, using(crate::proofs::Holders::holders_are))]
fn holders(alloc: Global, meanings: &Meanings<'_>) -> Result<Vec<bool>, NoMemory>
    ensures { IfOk result (λ v. (n : ℕ) → length meanings.now.entries ≤ n → (x : List ℕ)
        → numbered meanings.now (marked v.items) x
        ≡ record_holds (named (rows_of meanings.now)) n x) }
{
    let uses = all_uses(alloc, meanings)?;
    settled(alloc, &uses)
}

// Puts in what a declaration declares, where its name is new.
fn put<'a>(meanings: &mut Meanings<'a>, decl: &'a Decl) -> Result<(), NoMemory>
    ensures known { IfOk result (λ _. (ds : List DeclTree)
        → named (rows_of meanings.new ++ map row_of ds)
        ≡ named (rows_of meanings.old ++ (row_of (decl_of decl.now) ∷ map row_of ds))) }
    ensures few { IfOk result (λ _. length meanings.new.entries ≤ length meanings.old.entries + 1) }
{
    let name = name_of(decl);
    if is_known(meanings, name) {
        return Ok(());
    }
    meanings.insert(name, meaning_of(decl))?;
    Ok(())
}

// What the names of these declarations and the predefined record declare.
fn first_meanings<'a>(
    alloc: Global,
    packet: &'a [Param],
    decls: &'a [Decl],
) -> Result<Meanings<'a>, NoMemory>
    requires { map field_row (params_of packet.now) ≡ packet_fields }
    ensures known { IfOk result (λ m. named (rows_of m) ≡ known (map decl_of decls.now)) }
    ensures few { IfOk result (λ m. length m.entries ≤ suc (length decls.now)) }
{
    let mut meanings = predefined(alloc, packet)?;
    for decl in decls {
        put(&mut meanings, decl)?;
    }
    Ok(meanings)
}

impl<'a> TopNames<'a> {
    /// The names of these declarations, of several with one name the first, and the predefined record.
    pub fn new(
        alloc: Global,
        packet: &'a [Param],
        decls: &'a [Decl],
    ) -> Result<TopNames<'a>, NoMemory>
        requires { map field_row (params_of packet.now) ≡ packet_fields }
        ensures known { IfOk result (λ n. known_by n ≡ known (map decl_of decls.now)) }
        ensures holds { IfOk result (λ n. flag_of n
            ≡ record_holds (known (map decl_of decls.now)) (suc (length decls.now))) }
    {
        let meanings = first_meanings(alloc, packet, decls)?;
        let holds = holders(alloc, &meanings)?;
        Ok(TopNames { meanings, holds })
    }

    /// What a name declares.
    pub fn find(&self, name: &[u8]) -> Option<Meaning<'a>>
        ensures { option_map meaning_of result ≡ known_by self.now name.now }
    {
        find(&self.meanings, name)
    }

    /// Whether the records that a written type names are known.
    pub fn type_known(&self, ty: &Ty) -> bool
        ensures { result ≡ type_known (known_by self.now) (type_of ty.now) }
    {
        type_known(&self.meanings, ty)
    }

    // Whether a record of this name is marked as one that holds a reference.
    fn flag(&self, name: &[u8]) -> bool
        ensures { result ≡ flag_of self.now name.now }
    {
        match self.meanings.get_index_of(name) {
            Some(number) => is_marked(&self.holds, number),
            None => false,
        }
    }

    /// Whether a type holds a reference.
    pub fn holds(&self, ty: &Ty) -> bool
        ensures { result ≡ holds_by (flag_of self.now) (type_of ty.now) }
    {
        match ty {
            Ty::Future(_) | Ty::FutureStream(_) | Ty::Promise(_) | Ty::PromiseStream(_) => true,
            Ty::Named(name) => self.flag(name.bytes()),
            Ty::Vector(of) => self.holds(of),
            Ty::Int | Ty::Bool | Ty::Str | Ty::Void | Ty::Error => false,
        }
    }
}
