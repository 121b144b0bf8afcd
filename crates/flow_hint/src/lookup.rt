// What is said beyond the rule that a program breaks.

ghost use Rattle.std.specs.Prelude.{◌≡◌, map};
ghost use Rattle.flow_tree.specs.DeclView.{params_of};
ghost use Rattle.flow_ast.specs.Typing.{packet_fields};
ghost use Rattle.flow_rules.specs.Known.{field_row};

use crate::brackets::still_open;
use crate::expecting::{expected_words, only_semicolon};
use crate::explain::{Explainer, place_of};
use crate::forms::{form_advice, is_border};
use crate::hint::{Hint, is_there, words};
use crate::names::{byte_advice, name_at};
use crate::seek::{Item, Seeker, routine_of};
use crate::shorten::{shortened_around, shortened_before};
use crate::source::Source;
use flow_base::memory::NoMemory;
use flow_base::place::Place;
use flow_lex::lex::lex;
use flow_parse::parse::parse;
use flow_tree::decl::{Decl, Param, Program, RecordDecl};
use flow_tree::fault::{Rule, SourceFault};
use flow_tree::limits::PROGRAM_BYTES;
use flow_tree::token::{Sign, Tokens};
use flow_types::top_names::{TopNames, packet_fields};
use std::alloc::Global;

/// How many tokens may stand before a place where it is told what could stand there: each kind is tried by a reading of them.
const TRIED: usize = 2_500;

/// How many bytes of a text are read as they are; of a longer one what needn't be read is left out.
const READ: usize = 8_192;

// How many bytes stand before a line and a column.
fn bytes_before(text: &[u8], at: Place) -> usize {
    let mut line: u32 = 1;
    let mut begin: usize = 0;
    for (number, byte) in text.iter().enumerate() {
        if line == at.line {
            break;
        }
        if *byte == b'\n' {
            line = line.saturating_add(1);
            begin = number.saturating_add(1);
        }
    }
    begin.saturating_add(at.column.saturating_sub(1) as usize)
}

// The bytes of a text from a line and a column on.
fn behind(text: &[u8], at: Place) -> Option<&[u8]> {
    text.get(bytes_before(text, at)..)
}

// The tokens of a text, where there are some.
fn tokens_of(alloc: Global, text: &[u8]) -> Option<Tokens> {
    if text.len() > PROGRAM_BYTES {
        return None;
    }
    match lex(alloc, text) {
        Ok(tokens) => Some(tokens),
        Err(_) => None,
    }
}

// The text that is read to tell what could stand at a place: all of it where it is short.
fn read_before(alloc: Global, text: &[u8], at: Place) -> Result<Vec<u8>, NoMemory> {
    if text.len() <= READ {
        return Ok(text.to_vec(alloc)?);
    }
    shortened_before(alloc, text, bytes_before(text, at))
}

// The text that is read to tell what is wrong at a place: all of it where it is short.
fn read_around(alloc: Global, text: &[u8], at: Place) -> Result<Vec<u8>, NoMemory> {
    if text.len() <= READ {
        return Ok(text.to_vec(alloc)?);
    }
    shortened_around(alloc, text, bytes_before(text, at))
}

// Advice where no token begins with a byte.
fn on_byte(alloc: Global, text: &[u8], at: Place, hint: &mut Hint) -> Result<(), NoMemory> {
    let Some(rest) = behind(text, at) else {
        return Ok(());
    };
    if let Some(advice) = byte_advice(rest) {
        hint.advise(words(alloc, &[advice.as_bytes()])?)?;
    }
    Ok(())
}

// Advice where the tokens before a place and this one begin no program; and the bracket that is open at the end of the text.
fn on_token(alloc: Global, source: Source<'_>, at: Place, hint: &mut Hint) -> Result<(), NoMemory> {
    let number = source.number(at);
    let open = still_open(source, number);
    if let Some(advice) = form_advice(source, number, open) {
        hint.advise(words(alloc, &[advice.as_bytes()])?)?;
    }
    if let Some(open) = open {
        if is_unclosed(source, number, open) {
            on_bracket(alloc, source, at, open, hint)?;
        }
    }
    Ok(())
}

// Whether a bracket that is open is missed at the token with this number: each at the end of the text, and one of an expression where
// a statement ends or a body begins.
fn is_unclosed(source: Source<'_>, number: usize, open: usize) -> bool {
    number >= source.tokens.spots.len()
        || (!source.is_sign(open, Sign::OpenCurly) && is_border(source, number))
}

// The bracket that closes an opening one, quoted.
fn closing_of(bracket: &[u8]) -> &'static [u8] {
    match bracket {
        [b'('] => b"`)`",
        [b'['] => b"`]`",
        _ => b"`}`",
    }
}

// Says which bracket is open.
fn on_bracket(
    alloc: Global,
    source: Source<'_>,
    at: Place,
    open: usize,
    hint: &mut Hint,
) -> Result<(), NoMemory> {
    let bracket = source.slice(open, 1);
    let quoted = words(alloc, &[b"this `", bracket, b"` is still open"])?;
    hint.say(at, source.place(open), quoted)?;
    let closing = closing_of(bracket);
    hint.advise(words(alloc, &[b"put a ", closing, b" where what it opens ends"])?)
}

// Says behind which token a `;` is missing.
fn on_semicolon(
    alloc: Global,
    source: Source<'_>,
    at: Place,
    last: usize,
    hint: &mut Hint,
) -> Result<(), NoMemory> {
    let told = words(alloc, &[b"behind this"])?;
    hint.say(at, source.place(last), told)?;
    let token = source.slice(last, 1);
    hint.advise(words(alloc, &[b"put a `;` behind `", token, b"`"])?)
}

// What could stand at a place, and advice by the tokens there.
fn on_form(alloc: Global, text: &[u8], at: Place, hint: &mut Hint) -> Result<(), NoMemory> {
    let text = read_before(alloc, text, at)?;
    let (Some(tokens), Some(tried)) = (tokens_of(alloc, &text), tokens_of(alloc, &text)) else {
        return Ok(());
    };
    let source = Source::new(&text, &tokens);
    on_token(alloc, source, at, hint)?;
    let number = source.number(at);
    if number > TRIED {
        return Ok(());
    }
    let Some(expected) = expected_words(alloc, tried)? else {
        return Ok(());
    };
    if hint.help.is_empty() && only_semicolon(&expected) {
        on_semicolon(alloc, source, at, number.saturating_sub(1), hint)?;
    }
    hint.words = expected;
    hint.alone = true;
    Ok(())
}

// A rule on its meaning that a program breaks, and where.
#[derive(Clone, Copy)]
struct Broken<'a> {
    alloc: Global,
    source: Source<'a>,
    program: &'a Program,
    rule: u8,
    at: Place,
}

impl<'a> Broken<'a> {
    fn new(
        alloc: Global,
        source: Source<'a>,
        program: &'a Program,
        rule: u8,
        at: Place,
    ) -> Broken<'a> {
        Broken {
            alloc,
            source,
            program,
            rule,
            at,
        }
    }

    // Says what is said of an item of its program.
    fn explain<'s, 'n>(
        self,
        seeker: &'s Seeker<'n, 'a>,
        item: Item<'a>,
        hint: &mut Hint,
    ) -> Result<(), NoMemory> {
        let explainer = Explainer {
            alloc: self.alloc,
            source: self.source,
            program: self.program,
            seeker,
            rule: self.rule,
            at: self.at,
        };
        explainer.item(item, hint)
    }
}

// A record, where the rule is broken in it.
fn on_record<'a>(broken: Broken<'a>, record: &'a RecordDecl) -> Option<Item<'a>> {
    if is_there(broken.at, record.at) {
        return Some(Item::Record(record));
    }
    None
}

// What is said of a declaration, where the rule is broken in it; whether it is.
fn on_decl<'a>(
    broken: Broken<'a>,
    names: &TopNames<'a>,
    decl: &'a Decl,
    hint: &mut Hint,
) -> Result<bool, NoMemory> {
    let mut seeker = Seeker::new(broken.alloc, names, routine_of(decl), broken.at);
    let item = match decl {
        Decl::Struct(record) => on_record(broken, record),
        _ => seeker.item()?,
    };
    let Some(item) = item else {
        return Ok(false);
    };
    broken.explain(&seeker, item, hint)?;
    Ok(true)
}

// The text of a program, its tokens and its tree.
#[derive(Clone, Copy)]
struct Read<'a> {
    text: &'a [u8],
    tokens: &'a Tokens,
    program: &'a Program,
}

// What is said of the item of a program that breaks a rule on its meaning, where these are the fields of the predefined record.
fn on_item<'a>(
    alloc: Global,
    read: Read<'a>,
    packet: &'a [Param],
    rule: u8,
    at: Place,
    hint: &mut Hint,
) -> Result<(), NoMemory>
    requires { map field_row (params_of packet.now) ≡ packet_fields }
{
    let names = TopNames::new(alloc, packet, &read.program.decls)?;
    let source = Source::new(read.text, read.tokens);
    let broken = Broken::new(alloc, source, read.program, rule, at);
    for decl in &read.program.decls {
        if on_decl(broken, &names, decl, hint)? {
            return Ok(());
        }
    }
    Ok(())
}

// These parts of a program, lent as long as all of them are.
fn read_of<'a>(text: &'a [u8], tokens: &'a Tokens, program: &'a Program) -> Read<'a> {
    Read {
        text,
        tokens,
        program,
    }
}

// What is said of what breaks a rule on the meaning of a program.
fn on_meaning(
    alloc: Global,
    text: &[u8],
    rule: u8,
    at: Place,
    hint: &mut Hint,
) -> Result<(), NoMemory> {
    let text = read_around(alloc, text, at)?;
    let Some(tokens) = tokens_of(alloc, &text) else {
        return Ok(());
    };
    let Ok(program) = parse(alloc, &tokens) else {
        return Ok(());
    };
    if rule == 11 {
        return on_main(alloc, &program, at, hint);
    }
    let packet = packet_fields(alloc)?;
    on_item(
        alloc,
        read_of(&text, &tokens, &program),
        &packet,
        rule,
        at,
        hint,
    )
}

// A text without the blanks at its begin.
fn unindented(line: &[u8]) -> &[u8] {
    match line.iter().position(|byte| *byte > b' ') {
        Some(begin) => line.get(begin..).unwrap_or(line),
        None => line,
    }
}

// What stands in a line behind the last of its brackets and semicolons.
fn behind_signs(line: &[u8]) -> &[u8] {
    let signs = b"({;)}";
    match line.iter().rposition(|byte| signs.contains(byte)) {
        Some(last) => line.get(last.saturating_add(1)..).unwrap_or(line),
        None => line,
    }
}

// How a local is declared so that it is kept.
fn on_lost(alloc: Global, text: &[u8], declared: Place, hint: &mut Hint) -> Result<(), NoMemory> {
    let begin = Place {
        column: 1,
        ..declared
    };
    let (Some(line), Some(rest)) = (behind(text, begin), behind(text, declared)) else {
        return Ok(());
    };
    let before = declared.column.saturating_sub(1) as usize;
    let Some(before) = line.get(..before) else {
        return Ok(());
    };
    let name = name_at(rest);
    let ty = unindented(behind_signs(before));
    if ty.is_empty() || ty.contains(&b'&') {
        return Ok(());
    }
    hint.advise(words(alloc, &[b"write `state ", ty, name, b" ..`"])?)
}

// What is said of a `main` that is none.
fn on_main(alloc: Global, program: &Program, at: Place, hint: &mut Hint) -> Result<(), NoMemory> {
    for decl in &program.decls {
        let (name, place) = place_of(decl);
        if name == b"main".as_slice() {
            let told = b"this `main` is no actor with one `int` and the result `Void`".as_slice();
            return hint.say(at, place, words(alloc, &[told])?);
        }
    }
    Ok(())
}

/// What is said of the fault of a program beyond its rule.
pub fn program_hint(alloc: Global, text: &[u8], fault: &SourceFault) -> Result<Hint, NoMemory> {
    let mut hint = Hint::new(alloc);
    match fault {
        SourceFault::Refused { rule, at } => match rule {
            Rule::S(1) => on_byte(alloc, text, *at, &mut hint)?,
            Rule::S(5) => on_form(alloc, text, *at, &mut hint)?,
            Rule::K(number) => on_meaning(alloc, text, *number, *at, &mut hint)?,
            _ => {}
        },
        SourceFault::AcrossWait { declared, .. } => on_lost(alloc, text, *declared, &mut hint)?,
        SourceFault::OutOfMemory => {}
    }
    Ok(hint)
}
