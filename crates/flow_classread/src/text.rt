// Whole class texts.

ghost use Rattle.std.specs.Prelude.{◌≡◌, ◌<◌, ◌≤◌, length, map, IfOk};
ghost use Rattle.flow_tree.specs.declared.limits.TheConstants.{OF_CLASS_TEXT};
ghost use Rattle.flow_class.specs.View.{class_of, raw_of};
ghost use Rattle.flow_parse.specs.Reading.{Any, Answer};
ghost use Rattle.flow_parse.specs.Follow.{AtEnd};
ghost use Rattle.flow_classprint.specs.ClassGrammar.{functions_of, ClassesRule, TextRule};
ghost use Rattle.flow_classread.specs.Rising.{AreRising};
ghost use Rattle.flow_classread.specs.Parts.{VersionHead, Rest, IsClassHere, IsHeadHere};

use crate::class::class;
use crate::token::{said, says, version};
use flow_class::class::{Class, RawClasses};
use flow_classprint::version::Version;
use flow_parse::decl::{function, record};
use flow_parse::token::{is_name, is_sign, is_word};
use flow_tree::decl::RoutineKind;
use flow_tree::fault::SourceFault;
use flow_tree::limits::OF_CLASS_TEXT;
use flow_tree::token::{Sign, Tokens, Word};
use std::alloc::Global;

// Whether a class begins here, and no function whose result is a record of that name.
fn begins_class(tokens: &Tokens, at: usize) -> bool
    ensures { IsClassHere tokens.now.spots.items at result }
{
    if !says(tokens, at, b"class") {
        return false;
    }
    if !is_name(tokens, at + 1) {
        return true;
    }
    !is_sign(tokens, at + 2, Sign::OpenRound)
}

// Whether a record or a function is to be read here.
fn begins_head(tokens: &Tokens, at: usize) -> bool
    ensures { IsHeadHere tokens.now.spots.items at result }
{
    if at >= tokens.spots.len() {
        return false;
    }
    !begins_class(tokens, at)
}

// Classes up to the end.
fn classes(
    alloc: Global,
    tokens: &Tokens,
    at: usize,
    version: Version,
) -> Result<Vec<Class>, SourceFault>
    requires within { at ≤ length tokens.now.spots.items }
    requires rising { AreRising tokens.now }
    ensures reads { Answer OF_CLASS_TEXT (ClassesRule version) AtEnd (λ r. map class_of r.items)
        (λ r. length tokens.now.spots.items) tokens.now at result }
{
    let mut classes = Vec::new(alloc);
    let mut at = at;
    'items: while at < tokens.spots.len() {
        let (next, to) = class(alloc, tokens, at, version)?;
        classes.push(next)?;
        at = to;
    }
    Ok(classes)
}

// Of which kind the functions of a version are.
fn functions_of(version: Version) -> RoutineKind
    ensures { result ≡ functions_of version }
{
    match version {
        Version::One => RoutineKind::OldFunction,
        Version::Two => RoutineKind::Function,
    }
}

// Records and functions in any order, and then classes up to the end.
fn rest(
    alloc: Global,
    tokens: &Tokens,
    at: usize,
    version: Version,
) -> Result<RawClasses, SourceFault>
    requires within { at ≤ length tokens.now.spots.items }
    requires rising { AreRising tokens.now }
    ensures reads { Answer OF_CLASS_TEXT (Rest version) AtEnd raw_of
        (λ r. length tokens.now.spots.items) tokens.now at result }
{
    let mut records = Vec::new(alloc);
    let mut functions = Vec::new(alloc);
    let mut at = at;
    'items: while begins_head(tokens, at) {
        if is_word(tokens, at, Word::Struct) {
            let (next, to) = record(alloc, tokens, at, OF_CLASS_TEXT)?;
            records.push(next)?;
            at = to;
        } else {
            let (next, to) = function(alloc, tokens, at, functions_of(version), OF_CLASS_TEXT)?;
            functions.push(next)?;
            at = to;
        }
    }
    let classes = classes(alloc, tokens, at, version)?;
    Ok(RawClasses {
        records,
        functions,
        classes,
    })
}

// `"classes"` and the number of a version.
fn head(tokens: &Tokens, at: usize) -> Result<(Version, usize), SourceFault>
    requires within { at ≤ length tokens.now.spots.items }
    ensures reads { Answer OF_CLASS_TEXT VersionHead Any (λ r. r.0) (λ r. r.1) tokens.now at
        result }
    ensures moves { IfOk result (λ r. (at < r.1) × (r.1 ≤ length tokens.now.spots.items)) }
{
    let at = said(tokens, at, b"classes")?;
    let (version, to) = version(tokens, at)?;
    Ok((version, to))
}

/// The records, functions and classes that these tokens are by the grammar of class text. Where they are none, the first token is
/// refused with which no class text goes on; the end counts as one. Want of memory may come at any time.
pub fn text(alloc: Global, tokens: &Tokens) -> Result<RawClasses, SourceFault>
    requires rising { AreRising tokens.now }
    ensures reads { Answer OF_CLASS_TEXT TextRule AtEnd raw_of (λ r. length tokens.now.spots.items)
        tokens.now 0 result }
{
    let (version, at) = head(tokens, 0)?;
    let raw = rest(alloc, tokens, at, version)?;
    Ok(raw)
}
