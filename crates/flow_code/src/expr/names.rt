// The names of a program's records, functions and fields, by number.

ghost use Rattle.std.specs.Prelude.{◌≡◌, ℕ, List, map, position, nat_eq, nat_lt, Some, None, IfOk, OnOk, if◌then◌else◌};
ghost use Rattle.std.specs.Str.{bytes_eq};
ghost use Rattle.flow_tree.specs.DeclView.{record_of, function_of, param_of};
ghost use Rattle.flow_value.specs.Values.{RecordWhole};
ghost use Rattle.flow_code.specs.Resolved.Named.{at_name, key_at, first_from, or_else, Keeps, IsNamed, AreNamed, AllNamed, param_name, record_at, name_of_record, name_of_function, naming_of};
ghost use Rattle.flow_ast.specs.Typing.{packet_fields};
ghost use Rattle.flow_code.specs.Resolved.Resolving.{AreRecords, AreFunctions, IsNumbering};
ghost use Rattle.flow_code.specs.Resolved.View.{place_in, places_in};

use flow_ast::decl::{FunctionDecl, RecordDecl};
use flow_ast::typing::is_packet;
use flow_base::memory::NoMemory;
use flow_value::value::RecordId;
use indexmap::{IndexMap, IndexSet};
use std::alloc::Global;

/// The names of a program's records and functions, each with the place of the first that has it, and those of fields, each
/// with its number.
#[derive(Drop)]
pub struct Names<'a> {
    pub alloc: Global,
    records: IndexMap<&'a [u8], usize>,
    functions: IndexMap<&'a [u8], usize>,
    fields: IndexSet<&'a [u8]>,
}

/// The fields of a program's records, by the numbers of their names. Those of `Packet` are `from`, `port` and `text`, with the
/// numbers 0, 1 and 2.
#[derive(Drop)]
pub struct FieldNames {
    records: Vec<Vec<usize>>,
}

/// The place that is noted of a name.
fn noted(places: &IndexMap<&[u8], usize>, name: &[u8]) -> Option<usize>
    ensures { result ≡ at_name places.now name.now }
{
    places.get(name).copied()
}

#[tactic(auto, using(crate::proofs::Resolved::Maps::noted_there, crate::proofs::Resolved::Maps::noted_new))]
/// Notes the place of a name, unless one is noted already.
fn note<'a>(
    places: &mut IndexMap<&'a [u8], usize>,
    name: &'a [u8],
    place: usize,
) -> Result<(), NoMemory>
    ensures { OnOk result ((x : List ℕ) → at_name places.new x
        ≡ or_else (at_name places.old x) (if bytes_eq x name.now then Some place else None)) }
{
    if noted(places, name).is_some() {
        return Ok(());
    }
    places.insert(name, place)?;
    Ok(())
}

/// The place of the first record of each name.
#[tactic(auto, using(crate::proofs::Resolved::Maps::first_step, crate::proofs::Resolved::Maps::first_end))]
fn first_records<'a>(
    alloc: Global,
    records: &'a [RecordDecl],
) -> Result<IndexMap<&'a [u8], usize>, NoMemory>
    ensures { IfOk result (λ m. (x : List ℕ) → at_name m x
        ≡ first_from 0 (map name_of_record records.now) x) }
{
    let mut places = IndexMap::new(alloc);
    for (place, record) in records.iter().enumerate() {
        note(&mut places, record.name.name.bytes(), place)?;
    }
    Ok(places)
}

/// The place of the first function of each name.
#[tactic(auto, using(crate::proofs::Resolved::Maps::first_step, crate::proofs::Resolved::Maps::first_end))]
fn first_functions<'a>(
    alloc: Global,
    functions: &'a [FunctionDecl],
) -> Result<IndexMap<&'a [u8], usize>, NoMemory>
    ensures { IfOk result (λ m. (x : List ℕ) → at_name m x
        ≡ first_from 0 (map name_of_function functions.now) x) }
{
    let mut places = IndexMap::new(alloc);
    for (place, function) in functions.iter().enumerate() {
        note(&mut places, function.name.name.bytes(), place)?;
    }
    Ok(places)
}

/// The number of the name of a field, the next one where it has none yet.
fn number<'a>(names: &mut IndexSet<&'a [u8]>, name: &'a [u8]) -> Result<usize, NoMemory>
    ensures named { IfOk result (λ n. IsNamed names.new.keys n name.now) }
    ensures kept { OnOk result (Keeps names.old.keys names.new.keys) }
{
    let (number, _is_new) = names.insert_full(name)?;
    Ok(number)
}

/// The numbers of the names of a record's fields.
#[tactic(auto, using(crate::proofs::Resolved::Fields::fields_step, crate::proofs::Resolved::Fields::fields_end, crate::proofs::Resolved::Fields::keeps_self, crate::proofs::Resolved::Fields::keeps_then))]
fn number_fields<'a>(
    alloc: Global,
    names: &mut IndexSet<&'a [u8]>,
    of: &'a RecordDecl,
) -> Result<Vec<usize>, NoMemory>
    ensures named { IfOk result (λ v. AreNamed param_name names.new.keys v.items
        (map param_of of.now.fields.items)) }
    ensures kept { OnOk result (Keeps names.old.keys names.new.keys) }
{
    let mut numbers = Vec::new(alloc);
    for field in &of.fields {
        numbers.push(number(names, field.name.name.bytes())?)?;
    }
    Ok(numbers)
}

/// The numbers of the names of the fields of records.
#[tactic(auto, using(crate::proofs::Resolved::Fields::records_step, crate::proofs::Resolved::Fields::records_end, crate::proofs::Resolved::Fields::keeps_self, crate::proofs::Resolved::Fields::keeps_then))]
fn number_records<'a>(
    alloc: Global,
    names: &mut IndexSet<&'a [u8]>,
    records: &'a [RecordDecl],
) -> Result<Vec<Vec<usize>>, NoMemory>
    ensures named { IfOk result (λ v. AllNamed names.new.keys v.items (map record_of records.now)) }
    ensures kept { OnOk result (Keeps names.old.keys names.new.keys) }
{
    let mut numbers = Vec::new(alloc);
    for record in records {
        numbers.push(number_fields(alloc, names, record)?)?;
    }
    Ok(numbers)
}

/// The names of the fields of a packet.
fn packet_names<'a>(alloc: Global) -> Result<IndexSet<&'a [u8]>, NoMemory>
    ensures { IfOk result (λ s. map (λ k. k.now) s.keys ≡ map (λ f. f.0) packet_fields) }
{
    let mut names = IndexSet::new(alloc);
    names.insert(b"from".as_slice())?;
    names.insert(b"port".as_slice())?;
    names.insert(b"text".as_slice())?;
    Ok(names)
}

impl<'a> Names<'a> {
    /// The names of these records and functions, and the fields of the records by number.
    pub fn new(
        alloc: Global,
        records: &'a [RecordDecl],
        functions: &'a [FunctionDecl],
    ) -> Result<(Names<'a>, FieldNames), NoMemory>
        ensures records { IfOk result (λ r. AreRecords (map record_of records.now)
            (naming_of r.0 (λ _. None)).record_of) }
        ensures functions { IfOk result (λ r. AreFunctions (map function_of functions.now)
            (naming_of r.0 (λ _. None)).function) }
        ensures fields { IfOk result (λ r. IsNumbering (map record_of records.now)
            (naming_of r.0 (λ _. None)).field (places_in r.1)) }
    {
        let mut fields = packet_names(alloc)?;
        let of_records = number_records(alloc, &mut fields, records)?;
        // No effect at run time. The proof reads from this count that the names differ.
        let _count = fields.len();
        let names = Names {
            alloc,
            records: first_records(alloc, records)?,
            functions: first_functions(alloc, functions)?,
            fields,
        };
        Ok((
            names,
            FieldNames {
                records: of_records,
            },
        ))
    }

    /// The record of a name, the predefined one first.
    pub fn record(&self, name: &[u8]) -> Option<RecordId>
        ensures { result ≡ record_at (at_name self.now.records name.now) name.now }
    {
        if is_packet(name) {
            return Some(RecordId::Packet);
        }
        match noted(&self.records, name) {
            Some(place) => Some(RecordId::Declared(place)),
            None => None,
        }
    }

    /// The place of the function of a name.
    pub fn function(&self, name: &[u8]) -> Option<usize>
        ensures { result ≡ at_name self.now.functions name.now }
    {
        noted(&self.functions, name)
    }

    /// The number of a field's name.
    pub fn field(&self, name: &[u8]) -> Option<usize>
        ensures { result ≡ key_at self.now.fields.keys name.now }
    {
        self.fields.get_index_of(name)
    }
}

fn number_place(numbers: &[usize], number: usize) -> Option<usize>
    ensures { result ≡ position (λ n. nat_eq n number) numbers.now }
{
    numbers.iter().position(|other| *other == number)
}

#[tactic(auto, using(crate::proofs::Resolved::Places::place_there, crate::proofs::Resolved::Places::place_past))]
fn declared_place(records: &[Vec<usize>], k: usize, number: usize) -> Option<usize>
    ensures { result ≡ place_in records.now k number }
{
    if k >= records.len() {
        return None;
    }
    number_place(&records[k], number)
}

fn packet_place(number: usize) -> Option<usize>
    ensures { result ≡ (if nat_lt number 3 then Some number else None) }
{
    if number < 3 {
        return Some(number);
    }
    None
}

impl FieldNames {
    /// The place of a field in a record, where it has one with a name of this number.
    pub fn place(&self, id: RecordId, number: usize) -> Option<usize>
        ensures { result ≡ places_in self.now (RecordWhole id) number }
    {
        match id {
            RecordId::Packet => packet_place(number),
            RecordId::Declared(k) => declared_place(&self.records, k, number),
        }
    }
}
