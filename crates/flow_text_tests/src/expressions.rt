// Expressions of each level, and to the greatest depth.

use crate::reading::{Read, Refused, accepts, first_misread, first_unrefused, refuses};
use flow_base::memory::NoMemory;
use flow_tree::expr::Expr;
use flow_tree::fault::Rule;
use std::alloc::Global;

const LEVELS_READ: [Read; 18] = [
    ("1 - 2 - 2", 1, ("[-[-12]2]", 5)),
    ("1 + 2 * 2", 1, ("[+1[*22]]", 5)),
    ("1 * 2 + 2", 1, ("[+[*12]2]", 5)),
    (
        "a || a && a == a < a + a * a",
        1,
        ("[||a[&&a[==a[<a[+a[*aa]]]]]]", 13),
    ),
    (
        "a * a + a < a == a && a || a",
        1,
        ("[||[&&[==[<[+[*aa]a]a]a]a]a]", 13),
    ),
    ("a != a >= a > a <= a", 1, ("[!=a[<=[>[>=aa]a]a]]", 9)),
    ("a / a % a", 1, ("[%[/aa]a]", 5)),
    ("! - a . a", 1, ("[![-[.a]]]", 5)),
    ("- 1 * ! a", 1, ("[*[-1][!a]]", 5)),
    ("( a ) . a ( 1 , 2 ) . a", 1, ("[.[method(a)12]]", 12)),
    ("a ( ) . a ( Void ( ) , true )", 1, ("[method[call]vb]", 12)),
    ("a a", 1, ("a", 1)),
    ("( a ) ( a )", 1, ("(a)", 3)),
    ("a [ 1 ]", 1, ("[ata1]", 4)),
    (
        "a . a [ 1 ] . a ( ) [ 2 ]",
        1,
        ("[at[method[at[.a]1]]2]", 13),
    ),
    ("- a [ 1 ] * 2", 1, ("[*[-[ata1]]2]", 7)),
    ("1 [ true ]", 1, ("[at1b]", 4)),
    ("( a ) [ a [ a + 1 ] ]", 1, ("[at(a)[ata[+a1]]]", 11)),
];

fn are_levels_read(alloc: Global) -> bool {
    first_misread::<Expr>(alloc, &LEVELS_READ).is_none()
}

#[test]
fn reads_levels(rt: HostRuntime) {
    assert!(rt; are_levels_read(rt.alloc()));
}

const PLACES_REFUSED: [Refused; 20] = [
    ("", 1, (Rule::S(5), 0)),
    (";", 64, (Rule::S(5), 0)),
    ("1 +", 1, (Rule::S(5), 2)),
    ("( 1 ;", 1, (Rule::S(5), 2)),
    ("a ( 1 ;", 1, (Rule::S(5), 3)),
    ("a ( 1 , )", 1, (Rule::S(5), 4)),
    ("a . 1", 1, (Rule::S(5), 2)),
    ("Void ; )", 1, (Rule::S(5), 1)),
    ("Void ( ;", 1, (Rule::S(5), 2)),
    ("a + 1", 64, (Rule::L(5), 1)),
    ("a . a", 64, (Rule::L(5), 1)),
    ("! a", 64, (Rule::L(5), 1)),
    ("- ;", 64, (Rule::S(5), 1)),
    ("( Void", 64, (Rule::L(5), 1)),
    ("a ( 1 )", 64, (Rule::L(5), 2)),
    ("a [ ]", 1, (Rule::S(5), 2)),
    ("a [ 1 )", 1, (Rule::S(5), 3)),
    ("a [ 1", 1, (Rule::S(5), 3)),
    ("[ 1 ]", 1, (Rule::S(5), 0)),
    ("a [ ;", 64, (Rule::L(5), 1)),
];

const PLACES_READ: [Read; 2] = [("a", 64, ("a", 1)), ("a ( )", 64, ("[call]", 3))];

fn are_places_refused(alloc: Global) -> bool {
    first_unrefused::<Expr>(alloc, &PLACES_REFUSED).is_none()
}

fn are_places_read(alloc: Global) -> bool {
    first_misread::<Expr>(alloc, &PLACES_READ).is_none()
}

#[test]
fn refuses_places(rt: HostRuntime) {
    assert!(rt; are_places_refused(rt.alloc()));
    assert!(rt; are_places_read(rt.alloc()));
}

const DEEP_READ: [Read; 15] = [
    ("( 1 )", 63, ("(1)", 3)),
    ("a ( 1 , 2 )", 63, ("[call12]", 6)),
    ("a ( 1 , ! a )", 62, ("[call1[!a]]", 7)),
    ("a . a", 63, ("[.a]", 3)),
    ("a . a ( 1 )", 63, ("[methoda1]", 6)),
    ("a . a ( ( 1 ) )", 62, ("[methoda(1)]", 8)),
    ("a . a ( 1 , - 2 )", 62, ("[methoda1[-2]]", 9)),
    ("! a", 63, ("[!a]", 2)),
    ("- 1", 63, ("[-1]", 2)),
    ("- - 1", 62, ("[-[-1]]", 3)),
    ("a + ( 1 )", 62, ("[+a(1)]", 5)),
    ("Void ( )", 64, ("v", 3)),
    ("false", 64, ("b", 1)),
    ("a [ 1 ]", 63, ("[ata1]", 4)),
    ("a [ ! a ]", 62, ("[ata[!a]]", 5)),
];

const DEEP_REFUSED: [Refused; 13] = [
    ("( 1 )", 64, (Rule::L(5), 1)),
    ("a ( 1 , 2 )", 64, (Rule::L(5), 2)),
    ("a ( 1 , ! a )", 63, (Rule::L(5), 5)),
    ("a . a", 64, (Rule::L(5), 1)),
    ("a . a ( 1 )", 64, (Rule::L(5), 1)),
    ("a . a ( ( 1 ) )", 63, (Rule::L(5), 5)),
    ("a . a ( 1 , - 2 )", 63, (Rule::L(5), 7)),
    ("! a", 64, (Rule::L(5), 1)),
    ("- 1", 64, (Rule::L(5), 1)),
    ("- - 1", 63, (Rule::L(5), 2)),
    ("a + ( 1 )", 63, (Rule::L(5), 3)),
    ("a [ 1 ]", 64, (Rule::L(5), 1)),
    ("a [ ! a ]", 63, (Rule::L(5), 3)),
];

fn are_deep_read(alloc: Global) -> bool {
    first_misread::<Expr>(alloc, &DEEP_READ).is_none()
}

fn are_deep_refused(alloc: Global) -> bool {
    first_unrefused::<Expr>(alloc, &DEEP_REFUSED).is_none()
}

#[test]
fn expressions_to_the_greatest_depth(rt: HostRuntime) {
    assert!(rt; are_deep_read(rt.alloc()));
    assert!(rt; are_deep_refused(rt.alloc()));
}

const SIGNS: &str = "|| && == != < <= > >= + - * / %";

fn add_signed(text: &mut String, sign: &str) -> Result<(), NoMemory> {
    text.push_str("a ")?;
    text.push_str(sign)?;
    text.push_str(" a")?;
    Ok(())
}

fn signed(alloc: Global, sign: &str) -> Result<String, NoMemory> {
    let mut text = String::new(alloc);
    add_signed(&mut text, sign)?;
    Ok(text)
}

// Whether a sign between two operands goes to the greatest depth.
fn is_at_depth(alloc: Global, sign: &str) -> Result<bool, NoMemory> {
    let text = signed(alloc, sign)?;
    Ok(
        accepts::<Expr>(alloc, text.as_str(), 63, 3)
            && refuses::<Expr>(alloc, text.as_str(), 64, (Rule::L(5), 1)),
    )
}

fn first_wrong_sign(alloc: Global) -> Result<Option<&'static str>, NoMemory> {
    for sign in SIGNS.split_whitespace() {
        if !is_at_depth(alloc, sign)? {
            return Ok(Some(sign));
        }
    }
    Ok(None)
}

fn are_signs_at_depth(alloc: Global) -> Result<bool, NoMemory> {
    Ok(first_wrong_sign(alloc)?.is_none())
}

#[test]
fn signs_to_the_greatest_depth(rt: HostRuntime) -> Result<(), NoMemory> {
    assert!(rt; are_signs_at_depth(rt.alloc())?);
    Ok(())
}
