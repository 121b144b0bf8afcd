// Types of each form, and to the greatest depth.

use crate::reading::{Read, Refused, accepts, first_misread, first_unrefused};
use flow_tree::fault::Rule;
use flow_tree::ty::Ty;
use std::alloc::Global;

// A text, its depth, and up to which token it is read.
type Ended = (&'static str, u32, usize);

fn first_other_end(alloc: Global, rows: &[Ended]) -> Option<&'static str> {
    for (text, depth, to) in rows {
        if !accepts::<Ty>(alloc, *text, *depth, *to) {
            return Some(*text);
        }
    }
    None
}

const TYPES_ENDED: [Ended; 2] = [("int", 64, 1), ("Future < PromiseStream < a > > >", 1, 7)];

const TYPES_REFUSED: [Refused; 5] = [
    ("Future int", 1, (Rule::S(5), 1)),
    ("Future < int ;", 1, (Rule::S(5), 3)),
    ("Future < 1", 64, (Rule::S(5), 2)),
    ("Future < int", 64, (Rule::L(5), 2)),
    ("", 64, (Rule::S(5), 0)),
];

fn are_types_ended(alloc: Global) -> bool {
    first_other_end(alloc, &TYPES_ENDED).is_none()
}

fn are_types_refused(alloc: Global) -> bool {
    first_unrefused::<Ty>(alloc, &TYPES_REFUSED).is_none()
}

#[test]
fn reads_types(rt: HostRuntime) {
    assert!(rt; are_types_ended(rt.alloc()));
    assert!(rt; are_types_refused(rt.alloc()));
}

const EVERY_TYPE_READ: [Read; 14] = [
    ("int", 1, ("int", 1)),
    ("bool ;", 64, ("bool", 1)),
    ("string a", 2, ("string", 1)),
    ("Void (", 1, ("Void", 1)),
    ("Error > >", 1, ("Error", 1)),
    ("a a", 64, ("a", 1)),
    ("Future < int > a", 1, ("[F int]", 4)),
    ("FutureStream < bool >", 1, ("[FS bool]", 4)),
    ("Promise < string >", 1, ("[P string]", 4)),
    ("PromiseStream < Error >", 1, ("[PS Error]", 4)),
    ("Promise < a > > >", 1, ("[P a]", 4)),
    (
        "Future < FutureStream < Promise < PromiseStream < Void > > > >",
        1,
        ("[F [FS [P [PS Void]]]]", 13),
    ),
    (
        "PromiseStream < Promise < FutureStream < Future < a > > > > >",
        60,
        ("[PS [P [FS [F a]]]]", 13),
    ),
    ("vector < vector < a > >", 1, ("[V [V a]]", 7)),
];

const EVERY_TYPE_REFUSED: [Refused; 8] = [
    ("wait", 1, (Rule::S(5), 0)),
    ("true", 1, (Rule::S(5), 0)),
    ("Promise", 1, (Rule::S(5), 1)),
    ("Promise < Promise < a >", 1, (Rule::S(5), 6)),
    ("FutureStream < >", 1, (Rule::S(5), 2)),
    ("void", 1, (Rule::S(5), 0)),
    ("vector < void >", 1, (Rule::S(5), 2)),
    ("vector int", 1, (Rule::S(5), 1)),
];

fn are_every_type_read(alloc: Global) -> bool {
    first_misread::<Ty>(alloc, &EVERY_TYPE_READ).is_none()
}

fn are_every_type_refused(alloc: Global) -> bool {
    first_unrefused::<Ty>(alloc, &EVERY_TYPE_REFUSED).is_none()
}

#[test]
fn reads_every_type(rt: HostRuntime) {
    assert!(rt; are_every_type_read(rt.alloc()));
    assert!(rt; are_every_type_refused(rt.alloc()));
}

const DEEP_TYPES_READ: [Read; 5] = [
    ("Future < int >", 63, ("[F int]", 4)),
    ("FutureStream < int >", 63, ("[FS int]", 4)),
    ("Promise < int >", 63, ("[P int]", 4)),
    ("PromiseStream < int >", 63, ("[PS int]", 4)),
    ("vector < int >", 63, ("[V int]", 4)),
];

const DEEP_TYPES_REFUSED: [Refused; 4] = [
    ("FutureStream < int >", 64, (Rule::L(5), 2)),
    ("Promise < int >", 64, (Rule::L(5), 2)),
    ("PromiseStream < int >", 64, (Rule::L(5), 2)),
    ("vector < int >", 64, (Rule::L(5), 2)),
];

fn are_deep_types_read(alloc: Global) -> bool {
    first_misread::<Ty>(alloc, &DEEP_TYPES_READ).is_none()
}

fn are_deep_types_refused(alloc: Global) -> bool {
    first_unrefused::<Ty>(alloc, &DEEP_TYPES_REFUSED).is_none()
}

#[test]
fn types_to_the_greatest_depth(rt: HostRuntime) {
    assert!(rt; are_deep_types_read(rt.alloc()));
    assert!(rt; are_deep_types_refused(rt.alloc()));
}
