// Expressions and types that go to the greatest depth by one form again and again.

use crate::reading::{Tree, accepts, refuses};
use flow_base::memory::NoMemory;
use flow_tree::expr::Expr;
use flow_tree::fault::Rule;
use flow_tree::ty::Ty;
use std::alloc::Global;

// A text again and again, one behind it, and another one as often behind that.
type Nested = (&'static str, usize, &'static str, &'static str);

fn add_often(text: &mut String, part: &str, count: usize) -> Result<(), NoMemory> {
    for _ in 0..count {
        text.push_str(part)?;
    }
    Ok(())
}

fn add_nested(text: &mut String, (open, count, last, close): Nested) -> Result<(), NoMemory> {
    add_often(text, open, count)?;
    text.push_str(last)?;
    add_often(text, close, count)
}

fn nested(alloc: Global, parts: Nested) -> Result<String, NoMemory> {
    let mut text = String::new(alloc);
    add_nested(&mut text, parts)?;
    Ok(text)
}

fn accepts_nested<T: Tree + Drop>(
    alloc: Global,
    parts: Nested,
    depth: u32,
    to: usize,
) -> Result<bool, NoMemory> {
    let text = nested(alloc, parts)?;
    Ok(accepts::<T>(alloc, text.as_str(), depth, to))
}

fn refuses_nested<T: Tree + Drop>(
    alloc: Global,
    parts: Nested,
    depth: u32,
    wanted: (Rule, u32),
) -> Result<bool, NoMemory> {
    let text = nested(alloc, parts)?;
    Ok(refuses::<T>(alloc, text.as_str(), depth, wanted))
}

fn all_accepted(alloc: Global, rows: &[(Nested, usize)]) -> Result<bool, NoMemory> {
    for (parts, to) in rows {
        if !accepts_nested::<Expr>(alloc, *parts, 3, *to)? {
            return Ok(false);
        }
    }
    Ok(true)
}

fn all_refused(alloc: Global, rows: &[(Nested, u32, (Rule, u32))]) -> Result<bool, NoMemory> {
    for (parts, depth, wanted) in rows {
        if !refuses_nested::<Expr>(alloc, *parts, *depth, *wanted)? {
            return Ok(false);
        }
    }
    Ok(true)
}

const CHAINS_ACCEPTED: [(Nested, usize); 7] = [
    (("1 + ", 61, "1", ""), 123),
    (("a . ", 61, "a", ""), 123),
    (("- ", 61, "a", ""), 62),
    (("a ( ", 61, "1", " )"), 184),
    (("a . a ( ", 61, "1", " )"), 306),
    (("a [ ", 61, "1", " ]"), 184),
    (("", 61, "a ", "[ 1 ] "), 184),
];

const CHAINS_REFUSED: [(Nested, u32, (Rule, u32)); 10] = [
    (("1 + ", 62, "1", ""), 3, (Rule::L(5), 123)),
    (("( ", 62, "Void ( )", ""), 3, (Rule::L(5), 62)),
    (("( ", 61, "Void ;", ""), 3, (Rule::S(5), 62)),
    (("a . ", 62, "a", ""), 3, (Rule::L(5), 123)),
    (("- ", 62, "a", ""), 3, (Rule::L(5), 62)),
    (("a ( ", 61, "1", ""), 3, (Rule::S(5), 123)),
    (("a ( ", 62, "1", ""), 3, (Rule::L(5), 124)),
    (("a . a ( ", 61, "1", " )"), 4, (Rule::L(5), 241)),
    (("a [ ", 62, "1", ""), 3, (Rule::L(5), 123)),
    (("", 62, "a ", "[ 1 ] "), 3, (Rule::L(5), 184)),
];

fn are_chains_accepted(alloc: Global) -> Result<bool, NoMemory> {
    all_accepted(alloc, &CHAINS_ACCEPTED)
}

fn are_chains_refused(alloc: Global) -> Result<bool, NoMemory> {
    all_refused(alloc, &CHAINS_REFUSED)
}

#[test]
fn chains_to_the_greatest_depth(rt: HostRuntime) -> Result<(), NoMemory> {
    assert!(rt; are_chains_accepted(rt.alloc())?);
    Ok(())
}

#[test]
fn refuses_deep_chains(rt: HostRuntime) -> Result<(), NoMemory> {
    assert!(rt; are_chains_refused(rt.alloc())?);
    Ok(())
}

const FUTURES: Nested = ("Future < ", 64, "int", "");

const PROMISES: Nested = ("Promise < ", 63, "int ", "> ");

fn are_types_to_depth(alloc: Global) -> Result<bool, NoMemory> {
    Ok(
        refuses_nested::<Ty>(alloc, FUTURES, 1, (Rule::L(5), 128))?
            && accepts_nested::<Ty>(alloc, PROMISES, 1, 190)?
            && refuses_nested::<Ty>(alloc, PROMISES, 2, (Rule::L(5), 126))?,
    )
}

#[test]
fn nested_types_to_the_greatest_depth(rt: HostRuntime) -> Result<(), NoMemory> {
    assert!(rt; are_types_to_depth(rt.alloc())?);
    Ok(())
}
