// The rule on state.

ghost use Rattle.std.specs.Prelude.{◌≡◌, List, true, map, length, slice_get, IfOk};
ghost use Rattle.flow_base.specs.declared.place.Place.{Place};
ghost use Rattle.flow_tree.specs.StmtView.{body_of};
ghost use Rattle.flow_tree.specs.DeclView.{params_of, decl_of};
ghost use Rattle.flow_staterule.specs.StateRule.{routine_uses, first_stale, is_lost_with, first_with, lost_in, lost_in_decl, first_lost};

use crate::scope::Use;
use crate::uses::uses_in;
use crate::waits::wait_places;
use crate::ways::Looked;
use flow_ast::decl::{Decl, Param};
use flow_ast::stmt::Stmt;
use flow_base::memory::NoMemory;
use flow_base::place::Place;
use std::alloc::Global;

/// A use of a local after a wait: where it is used and declared, and the wait.
#[derive(Clone, Copy, PartialEq, Eq)]
pub struct Lost {
    pub at: Place,
    pub declared: Place,
    pub wait: Place,
}

/// The first use of a local after a wait, in the order of the text.
#[tactic(auto, using(crate::proofs::FirstLost::decls_more, crate::proofs::FirstLost::decls_found, crate::proofs::FirstLost::decls_over))]
pub fn first_lost(alloc: Global, decls: &[Decl]) -> Result<Option<Lost>, NoMemory>
    ensures { IfOk result (λ l. l ≡ first_lost (map decl_of decls.now)) }
{
    for decl in decls {
        if let Some(lost) = lost_in(alloc, decl)? {
            return Ok(Some(lost));
        }
    }
    Ok(None)
}

fn lost_in(alloc: Global, decl: &Decl) -> Result<Option<Lost>, NoMemory>
    ensures { IfOk result (λ l. l ≡ lost_in_decl (decl_of decl.now)) }
{
    match decl {
        Decl::Struct(_) => Ok(None),
        Decl::Function(f) => lost_in_body(alloc, &f.params, &f.body),
        Decl::Actor(f) => lost_in_body(alloc, &f.params, &f.body),
    }
}

#[tactic(auto, using(crate::proofs::FirstLost::first_is_stale))]
fn lost_in_body(alloc: Global, params: &[Param], body: &[Stmt]) -> Result<Option<Lost>, NoMemory>
    ensures { IfOk result (λ l. l ≡ lost_in (params_of params.now) (body_of body.now)) }
{
    let waits = wait_places(alloc, body)?;
    let uses = uses_in(alloc, Looked(waits.len()), params, body)?;
    let Some(number) = first_stale(&uses) else {
        return Ok(None);
    };
    let Some(found) = uses.get(number) else {
        return Ok(None);
    };
    let wait = first_wait(alloc, params, body, number, waits.len())?;
    let Some(wait) = waits.get(wait) else {
        return Ok(None);
    };
    Ok(Some(Lost {
        at: found.at,
        declared: found.declared,
        wait: *wait,
    }))
}

/// The number of the first stale use.
#[tactic(auto, using(crate::proofs::FirstLost::stale_more, crate::proofs::FirstLost::stale_found, crate::proofs::FirstLost::stale_over))]
fn first_stale(uses: &[Use]) -> Option<usize>
    ensures { result ≡ first_stale 0 uses.now }
{
    for number in 0..uses.len() {
        if uses[number].stale {
            return Some(number);
        }
    }
    None
}

/// The number of the first of so many waits that makes the use with this number stale, if it is stale with all of them.
#[tactic(auto, using(crate::proofs::FirstLost::halved))]
fn first_wait(
    alloc: Global,
    params: &[Param],
    body: &[Stmt],
    number: usize,
    waits: usize,
) -> Result<usize, NoMemory>
    requires { is_lost_with (params_of params.now) (body_of body.now) number waits ≡ true }
    ensures { IfOk result (λ w. (places : List Place) → length places ≡ waits
        → slice_get places w
        ≡ first_with (is_lost_with (params_of params.now) (body_of body.now) number) 0 places) }
{
    if waits == 0 {
        return Ok(0);
    }
    let mut low = 0;
    let mut high = waits;
    while high - low > 1 {
        let middle = low + (high - low) / 2;
        if is_lost_with(alloc, params, body, number, middle)? {
            high = middle;
        } else {
            low = middle;
        }
    }
    Ok(low)
}

/// Whether the use with this number is stale where the first so many waits are looked for.
fn is_lost_with(
    alloc: Global,
    params: &[Param],
    body: &[Stmt],
    number: usize,
    waits: usize,
) -> Result<bool, NoMemory>
    ensures { IfOk result (λ b. b ≡ is_lost_with (params_of params.now) (body_of body.now) number
        waits) }
{
    let uses = uses_in(alloc, Looked(waits), params, body)?;
    match uses.get(number) {
        Some(used) => Ok(used.stale),
        None => Ok(false),
    }
}
