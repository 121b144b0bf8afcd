// Tests of flow_lex: texts, and what they are read as.

use crate::reading::lexed;
use flow_base::memory::NoMemory;
use flow_tree::token::{Sign, Spot, Token, Tokens, Word};
use std::alloc::Global;

/// Texts, each with its tokens and the end, as line, column and spelling.
const READ: [(&[u8], &str); 41] = [
    (b"", "1:1 end"),
    (b" ", "1:2 end"),
    (b"\n", "2:1 end"),
    (b"a", "1:1 name a  1:2 end"),
    (
        b"ACTOR Future<Void> main(int p) {\n  trace(\"hello\");\n  return Void();\n}\n",
        "1:1 word ACTOR  1:7 word Future  1:13 sign <  1:14 word Void  1:18 sign >  1:20 name main  1:24 sign (  1:25 word int  1:29 name p  1:30 sign )  1:32 sign {  2:3 name trace  2:8 sign (  2:9 text hello  2:16 sign )  2:17 sign ;  3:3 word return  3:10 word Void  3:14 sign (  3:15 sign )  3:16 sign ;  4:1 sign }  5:1 end",
    ),
    (b"007", "1:1 number 0  1:2 number 0  1:3 number 7  1:4 end"),
    (b"1x", "1:1 number 1  1:2 name x  1:3 end"),
    (
        b"x1 _ _9 A__",
        "1:1 name x1  1:4 name _  1:6 name _9  1:9 name A__  1:12 end",
    ),
    (
        b"ACTORS actor Struct structx",
        "1:1 name ACTORS  1:8 name actor  1:14 name Struct  1:21 name structx  1:28 end",
    ),
    (b"a//b\nc", "1:1 name a  2:1 name c  2:2 end"),
    (b"a/**/b", "1:1 name a  1:6 name b  1:7 end"),
    (b"a/*/*/b", "1:1 name a  1:7 name b  1:8 end"),
    (b"a/*\n\n*/b", "1:1 name a  3:3 name b  3:4 end"),
    (b"a /* x */ /* y **/ b", "1:1 name a  1:20 name b  1:21 end"),
    (b"// x", "1:5 end"),
    (b"a//", "1:1 name a  1:4 end"),
    (b"\r\n\ta\r\nb", "2:2 name a  3:1 name b  3:2 end"),
    (
        b"9223372036854775807",
        "1:1 number 9223372036854775807  1:20 end",
    ),
    (
        b"0 10 0x1",
        "1:1 number 0  1:3 number 10  1:6 number 0  1:7 name x1  1:9 end",
    ),
    (
        b"\"\" \"a\" \"\\n\"",
        "1:1 text   1:4 text a  1:8 text \n  1:12 end",
    ),
    (b"\"\\\\\\\"\"", "1:1 text \\\"  1:7 end"),
    (b"\"\\x41\\x4aB\"", "1:1 text AJB  1:12 end"),
    (b"\"\\x411\"", "1:1 text A1  1:8 end"),
    (b"\"a//b/*c\"", "1:1 text a//b/*c  1:10 end"),
    (b"\"'\" ", "1:1 text '  1:5 end"),
    (
        b"<<=>>=====",
        "1:1 sign <  1:2 sign <=  1:4 sign >  1:5 sign >=  1:7 sign ==  1:9 sign ==  1:11 end",
    ),
    (
        b"!=!==!",
        "1:1 sign !=  1:3 sign !=  1:5 sign =  1:6 sign !  1:7 end",
    ),
    (
        b"&&&||&&",
        "1:1 sign &&  1:3 sign &  1:4 sign ||  1:6 sign &&  1:8 end",
    ),
    (
        b"+++-=---+=",
        "1:1 sign ++  1:3 sign +  1:4 sign -=  1:6 sign --  1:8 sign -  1:9 sign +=  1:11 end",
    ),
    (
        b"a.b.c",
        "1:1 name a  1:2 sign .  1:3 name b  1:4 sign .  1:5 name c  1:6 end",
    ),
    (
        b"x<y>z",
        "1:1 name x  1:2 sign <  1:3 name y  1:4 sign >  1:5 name z  1:6 end",
    ),
    (
        b"f(a,b);",
        "1:1 name f  1:2 sign (  1:3 name a  1:4 sign ,  1:5 name b  1:6 sign )  1:7 sign ;  1:8 end",
    ),
    (b"[ ]", "1:1 sign [  1:3 sign ]  1:4 end"),
    (b"%/ *", "1:1 sign %  1:2 sign /  1:4 sign *  1:5 end"),
    (b"- 1", "1:1 sign -  1:3 number 1  1:4 end"),
    (b"\"A\"", "1:1 text A  1:4 end"),
    (b"a\"b\"c", "1:1 name a  1:2 text b  1:5 name c  1:6 end"),
    (
        b"1\"2\"3",
        "1:1 number 1  1:2 text 2  1:5 number 3  1:6 end",
    ),
    (
        b"vector<int> v;",
        "1:1 word vector  1:7 sign <  1:8 word int  1:11 sign >  1:13 name v  1:14 sign ;  1:15 end",
    ),
    (
        b"void Void voids vectors",
        "1:1 word void  1:6 word Void  1:11 name voids  1:17 name vectors  1:24 end",
    ),
    (
        b"v[0]",
        "1:1 name v  1:2 sign [  1:3 number 0  1:4 sign ]  1:5 end",
    ),
];

fn push_bytes(out: &mut String, bytes: &[u8]) -> Result<(), NoMemory> {
    for b in bytes {
        out.push(char::from(*b))?;
    }
    Ok(())
}

fn push_token(out: &mut String, token: &Token) -> Result<(), NoMemory> {
    match token {
        Token::Name(name) => {
            out.push_str("name ")?;
            push_bytes(out, name.bytes())
        }
        Token::Number(n) => {
            write!(out, "number {n}")?;
            Ok(())
        }
        Token::Text(text) => {
            out.push_str("text ")?;
            push_bytes(out, text.bytes())
        }
        Token::Word(word) => {
            out.push_str("word ")?;
            push_bytes(out, word.spelling())
        }
        Token::Sign(sign) => {
            out.push_str("sign ")?;
            push_bytes(out, sign.spelling())
        }
    }
}

fn push_spot(out: &mut String, spot: &Spot) -> Result<(), NoMemory> {
    write!(out, "{}:{} ", spot.at.line, spot.at.column)?;
    push_token(out, &spot.token)?;
    out.push_str("  ")?;
    Ok(())
}

fn push_spots(out: &mut String, spots: &[Spot]) -> Result<(), NoMemory> {
    for spot in spots {
        push_spot(out, spot)?;
    }
    Ok(())
}

// The tokens and the end, each with its line and column.
fn push_tokens(out: &mut String, tokens: &Tokens) -> Result<(), NoMemory> {
    push_spots(out, &tokens.spots)?;
    write!(out, "{}:{} end", tokens.end.line, tokens.end.column)?;
    Ok(())
}

// Whether these are the tokens and the end.
fn are_tokens(alloc: Global, tokens: &Tokens, wanted: &str) -> Result<bool, NoMemory> {
    let mut shown = String::new(alloc);
    push_tokens(&mut shown, tokens)?;
    Ok(shown.as_str() == wanted)
}

fn copy_has(alloc: Global, tokens: &Tokens, wanted: &str) -> Result<bool, NoMemory> {
    let copy = tokens.copy(alloc)?;
    are_tokens(alloc, &copy, wanted)
}

// Whether these are the tokens, and those of a copy.
fn both_have(alloc: Global, tokens: &Tokens, wanted: &str) -> Result<bool, NoMemory> {
    Ok(are_tokens(alloc, tokens, wanted)? && copy_has(alloc, tokens, wanted)?)
}

// Whether a text has these tokens, and a copy of them too.
fn reads(alloc: Global, text: &[u8], wanted: &str) -> Result<bool, NoMemory> {
    let read = lexed(alloc, text);
    match &read {
        Ok(tokens) => both_have(alloc, tokens, wanted),
        Err(_) => Ok(false),
    }
}

fn first_misread(alloc: Global) -> Result<Option<&'static [u8]>, NoMemory> {
    for (text, wanted) in &READ {
        if !reads(alloc, *text, *wanted)? {
            return Ok(Some(*text));
        }
    }
    Ok(None)
}

#[test]
fn texts_are_read(rt: HostRuntime) -> Result<(), NoMemory> {
    assert_eq!(rt; first_misread(rt.alloc())?, None);
    Ok(())
}

// The one token of a text.
fn only(tokens: &Tokens) -> Option<&Token> {
    match tokens.spots.as_slice() {
        [spot] => Some(&spot.token),
        _ => None,
    }
}

fn is_word(token: Option<&Token>, wanted: Word) -> bool {
    match token {
        Some(Token::Word(word)) => *word == wanted,
        _ => false,
    }
}

fn reads_word(alloc: Global, word: Word) -> bool {
    let read = lexed(alloc, word.spelling());
    match &read {
        Ok(tokens) => is_word(only(tokens), word),
        Err(_) => false,
    }
}

fn first_unread_word(alloc: Global) -> Option<&'static [u8]> {
    for word in Word::ALL {
        if !reads_word(alloc, word) {
            return Some(word.spelling());
        }
    }
    None
}

fn is_sign(token: Option<&Token>, wanted: Sign) -> bool {
    match token {
        Some(Token::Sign(sign)) => *sign == wanted,
        _ => false,
    }
}

fn reads_sign(alloc: Global, sign: Sign) -> bool {
    let read = lexed(alloc, sign.spelling());
    match &read {
        Ok(tokens) => is_sign(only(tokens), sign),
        Err(_) => false,
    }
}

fn first_unread_sign(alloc: Global) -> Option<&'static [u8]> {
    for sign in Sign::ALL {
        if !reads_sign(alloc, sign) {
            return Some(sign.spelling());
        }
    }
    None
}

#[test]
fn every_word_and_sign(rt: HostRuntime) {
    assert_eq!(rt; first_unread_word(rt.alloc()), None);
    assert_eq!(rt; first_unread_sign(rt.alloc()), None);
}

// A text this many times.
fn repeated(alloc: Global, part: &[u8], count: usize) -> Result<Vec<u8>, NoMemory> {
    let mut text = Vec::new(alloc);
    add_times(&mut text, part, count)?;
    Ok(text)
}

fn add_times(text: &mut Vec<u8>, part: &[u8], count: usize) -> Result<(), NoMemory> {
    for _ in 0..count {
        text.extend_from_slice(part)?;
    }
    Ok(())
}

/// Sixty-four bytes with two ends of lines and twelve tokens.
const PART: &[u8] = b"int n = 12; /* a\nb */ s.send(\"tx\\n\"); // to the end of the line\n";

fn is_mebibyte(tokens: &Tokens) -> bool {
    tokens.spots.len() == 12 * 16384
        && tokens.end.line == 2 * 16384 + 1
        && tokens.end.column == 1
        && tokens.end.byte == 1_048_576
}

fn reads_mebibyte(alloc: Global, text: &[u8]) -> bool {
    let read = lexed(alloc, text);
    match &read {
        Ok(tokens) => is_mebibyte(tokens),
        Err(_) => false,
    }
}

fn mebibyte_is_read(alloc: Global) -> Result<bool, NoMemory> {
    let text = repeated(alloc, PART, 16384)?;
    Ok(reads_mebibyte(alloc, &text))
}

#[test]
fn a_mebibyte(rt: HostRuntime) -> Result<(), NoMemory> {
    assert_eq!(rt; PART.len(), 64);
    assert!(rt; mebibyte_is_read(rt.alloc())?);
    Ok(())
}
