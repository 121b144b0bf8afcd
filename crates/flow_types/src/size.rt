// How large records are.

ghost use Rattle.std.specs.Prelude.{◌≡◌, ◌∷◌, [], codes, map, IfOk};
ghost use Rattle.std.specs.Option.{option_map};
ghost use Rattle.flow_tree.specs.View.{type_of};
ghost use Rattle.flow_tree.specs.DeclView.{params_of, record_of, decl_of};
ghost use Rattle.flow_ast.specs.Typing.{is_there};
ghost use Rattle.flow_ast.specs.TypingNames.{named};
ghost use Rattle.flow_rules.specs.Rules.{or_leaf, type_size, fields_size, record_size, packet_size, first_large};
ghost use Rattle.flow_types.specs.SizeView.{size_of, sizes_of, FieldsSized, RecordSized, SizeAnswer};
ghost use Rattle.flow_types.specs.WalkView.{Says};

use flow_base::memory::NoMemory;
use flow_tree::decl::{Decl, Param, RecordDecl};
use flow_tree::fault::{Rule, SourceFault};
use flow_tree::limits::{LEAF_FIELDS, NESTING};
use flow_tree::ty::Ty;
use indexmap::IndexMap;
use std::alloc::Global;

/// How deep records lie inside one another in a type, and how many fields that are no records it has.
#[derive(Clone, Copy, PartialEq, Eq)]
pub struct Size {
    pub nesting: u32,
    pub leaves: u32,
}

/// The sizes of records by their names.
pub type Sizes<'a> = IndexMap<&'a [u8], Size>;

// The size of the record with this name.
#[tactic(auto, using(crate::proofs::Lookups::named_lookup))]
fn find_size(sizes: &Sizes<'_>, name: &[u8]) -> Option<Size>
    ensures { option_map size_of result ≡ named (sizes_of sizes.now) name.now }
{
    sizes.get(name).copied()
}

fn has_size(sizes: &Sizes<'_>, name: &[u8]) -> bool
    ensures { result ≡ is_there (named (sizes_of sizes.now) name.now) }
{
    match find_size(sizes, name) {
        Some(_) => true,
        None => false,
    }
}

const LEAF: Size = Size {
    nesting: 0,
    leaves: 1,
};

// The size of a record by its name, or of a field that is none.
fn named_size(sizes: &Sizes<'_>, name: &[u8]) -> Size
    ensures { size_of result ≡ or_leaf (named (sizes_of sizes.now) name.now) }
{
    match find_size(sizes, name) {
        Some(size) => size,
        None => LEAF,
    }
}

fn type_size(sizes: &Sizes<'_>, ty: &Ty) -> Size
    ensures { size_of result ≡ type_size (sizes_of sizes.now) (type_of ty.now) }
{
    match ty {
        Ty::Named(name) => named_size(sizes, name.bytes()),
        Ty::Int | Ty::Bool | Ty::Str | Ty::Void | Ty::Error => LEAF,
        Ty::Future(_) | Ty::FutureStream(_) | Ty::Promise(_) | Ty::PromiseStream(_) => LEAF,
        Ty::Vector(_) => LEAF,
    }
}

// The size of fields, or that it is beyond the limits.
#[tactic(auto, using(crate::proofs::Sizes::size_step, crate::proofs::Sizes::size_end, crate::proofs::Sizes::size_over))]
fn fields_size(sizes: &Sizes<'_>, fields: &[Param]) -> Option<Size>
    ensures { FieldsSized (fields_size (sizes_of sizes.now) (params_of fields.now)) result }
{
    let mut size = Size {
        nesting: 0,
        leaves: 0,
    };
    for field in fields {
        let more = type_size(sizes, &field.ty);
        if more.leaves > LEAF_FIELDS - size.leaves {
            return None;
        }
        size = Size {
            nesting: size.nesting.max(more.nesting),
            leaves: size.leaves + more.leaves,
        };
    }
    Some(size)
}

// The size of a record, where it is within the limits.
fn record_size(sizes: &Sizes<'_>, declared: &RecordDecl) -> Option<Size>
    ensures { RecordSized (record_size (sizes_of sizes.now) (record_of declared.now)) result }
{
    let inner = fields_size(sizes, &declared.fields)?;
    if inner.nesting >= NESTING {
        return None;
    }
    Some(Size {
        nesting: inner.nesting + 1,
        leaves: inner.leaves,
    })
}

// A record is within the limits, and of several with one name the first has its size.
#[tactic(auto, using(crate::proofs::Sizes::size_kept, crate::proofs::Sizes::size_put))]
fn add_size<'a>(sizes: &mut Sizes<'a>, declared: &'a RecordDecl) -> Result<(), SourceFault>
    ensures { SizeAnswer (sizes_of sizes.old) (record_of declared.now) (sizes_of sizes.new) result }
{
    let Some(size) = record_size(sizes, declared) else {
        return Err(SourceFault::Refused {
            rule: Rule::L(8),
            at: declared.at,
        });
    };
    let name = declared.name.name.bytes();
    if has_size(sizes, name) {
        return Ok(());
    }
    sizes.insert(name, size)?;
    Ok(())
}

// The size of the predefined record alone.
fn packet_sizes<'a>(alloc: Global) -> Result<Sizes<'a>, NoMemory>
    ensures { IfOk result (λ m. sizes_of m ≡ (codes "Packet", packet_size) ∷ []) }
{
    let mut sizes: Sizes<'a> = IndexMap::new(alloc);
    let packet = Size {
        nesting: 1,
        leaves: 3,
    };
    sizes.insert(b"Packet".as_slice(), packet)?;
    Ok(sizes)
}

/// No record of these declarations is too large; each is made of those before it.
pub fn sizes(alloc: Global, decls: &[Decl]) -> Result<(), SourceFault>
    ensures { Says (first_large ((codes "Packet", packet_size) ∷ []) (map decl_of decls.now))
        result }
{
    let mut sizes = packet_sizes(alloc)?;
    for decl in decls {
        if let Decl::Struct(record) = decl {
            add_size(&mut sizes, record)?;
        }
    }
    Ok(())
}
