// Whether class programs, a line each, have the verdicts with which the lines begin.

use crate::classes::raw_classes;
use flow_class::class::RawClasses;
use flow_validate::invalid::Invalid;
use flow_validate::sizes::are_few;
use flow_validate::validate::validate;
use std::alloc::{AllocError, Global};

// The records and functions that stand where a line says `-` in their place.
const PLAIN: &str = "struct R { int n; }; int f(int n) { return n; }";

// What stands around the inside of a class, where a line has no whole classes.
const BEFORE: &str = "class c returns int params 1 { slot 0 int v; ";

// And before its block 1, where a line says `=` in place of records and functions: a slot of each kind.
const SLOTS: &str =
    "slot 1 Future<int> w; slot 2 FutureStream<int> z; slot 3 Promise<int> q; slot 4 PromiseStream<int> y; slot 5 R r; slot 6 string t; slot 7 bool b; slot 8 Error e; slot 9 Void u; block 0 { return 1; } ";

const BEHIND: &str =
    " } class main returns Void params 1 { slot 0 int p; block 0 { return Void(); } }";

// The rule and the class with which a line begins: `V7 0`, `V2` or `ok`.
fn wanted(text: &str) -> Option<Option<(u8, Option<u32>)>> {
    if text == "ok" {
        return Some(None);
    }
    let numbers = text.strip_prefix('V')?;
    match numbers.split_once(' ') {
        Some((rule, class)) => Some(Some((
            rule.parse::<u8>().ok()?,
            Some(class.parse::<u32>().ok()?),
        ))),
        None => Some(Some((numbers.parse::<u8>().ok()?, None))),
    }
}

// Whether a fault, or none, is as wanted.
fn is_wanted(fault: Option<Invalid>, wanted: Option<(u8, Option<u32>)>) -> bool {
    match fault {
        None => wanted.is_none(),
        Some(Invalid::Rule { rule, class }) => wanted == Some((rule, class)),
        Some(Invalid::OutOfMemory) => false,
    }
}

/// Whether the verdict on a class program is this rule and class, or, where none is wanted, that it is valid.
pub fn is_judged(alloc: Global, raw: RawClasses, wanted: Option<(u8, Option<u32>)>) -> bool {
    if raw.classes.len() > 1_000_000 {
        return false;
    }
    if !are_few(&raw.classes) {
        return false;
    }
    is_wanted(validate(alloc, raw).err(), wanted)
}

// Adds the classes of a line, with what stands before the inside of a class.
fn add_around(text: &mut String, before: &str, classes: &str) -> Result<(), AllocError> {
    if classes.starts_with("class") {
        text.push_str(classes)?;
        return Ok(());
    }
    text.push_str(BEFORE)?;
    text.push_str(before)?;
    text.push_str(classes)?;
    text.push_str(BEHIND)?;
    Ok(())
}

fn around(alloc: Global, before: &str, classes: &str) -> Result<String, AllocError> {
    let mut text = String::new(alloc);
    add_around(&mut text, before, classes)?;
    Ok(text)
}

// Whether the verdict on the class program of these texts is this one.
fn are_judged(
    alloc: Global,
    (plain, classes): (&str, &str),
    wanted: Option<(u8, Option<u32>)>,
) -> bool {
    match raw_classes(alloc, plain, classes) {
        Ok(raw) => is_judged(alloc, raw, wanted),
        Err(_) => false,
    }
}

// The records and functions of a line, and what stands before the inside of its class.
fn usual(plain: &str) -> (&str, &str) {
    match plain {
        "-" => (PLAIN, ""),
        "=" => (PLAIN, SLOTS),
        _ => (plain, ""),
    }
}

// The verdict, the records and functions, and the classes of a line.
fn parts(line: &str) -> Option<(Option<(u8, Option<u32>)>, &str, &str)> {
    let (verdict, texts) = line.split_once(" # ")?;
    let (plain, classes) = texts.split_once(" # ")?;
    Some((wanted(verdict)?, plain, classes))
}

/// Whether a line has the verdict with which it begins: `ok`, or `V` with the number of a rule and the place of a class, if one is
/// named. Behind ` # ` stand the records and functions, or `-` or `=` for the usual ones, and behind another ` # ` the classes, or the
/// inside of a class.
pub fn is_line_judged(alloc: Global, line: &str) -> Result<bool, AllocError> {
    let Some((wanted, plain, classes)) = parts(line) else {
        return Ok(false);
    };
    let (plain, before) = usual(plain);
    let text = around(alloc, before, classes)?;
    Ok(are_judged(alloc, (plain, text.as_str()), wanted))
}

/// The first line of a table that hasn't the verdict with which it begins.
pub fn first_misjudged<'a>(alloc: Global, table: &'a str) -> Result<Option<&'a str>, AllocError> {
    for line in table.lines() {
        if !is_line_judged(alloc, line)? {
            return Ok(Some(line));
        }
    }
    Ok(None)
}
