// A text without what a note needn't read.

use flow_base::memory::NoMemory;
use std::alloc::Global;

/// What a byte of a text stands in: code, what may begin a comment, a comment up to the end of its line, another comment, what may
/// end that, a quoted text, and what stands behind a backslash there.
#[derive(Clone, Copy, PartialEq, Eq)]
enum Within {
    Code,
    Slash,
    Line,
    Comment,
    Star,
    Quoted,
    Escaped,
}

impl Within {
    // What stands behind this byte.
    fn next(self, byte: u8) -> Within {
        match self {
            Within::Code => match byte {
                b'/' => Within::Slash,
                b'"' => Within::Quoted,
                _ => Within::Code,
            },
            Within::Slash => match byte {
                b'/' => Within::Line,
                b'*' => Within::Comment,
                b'"' => Within::Quoted,
                _ => Within::Code,
            },
            Within::Line => if byte == b'\n' {
                Within::Code
            } else {
                Within::Line
            },
            Within::Comment => if byte == b'*' {
                Within::Star
            } else {
                Within::Comment
            },
            Within::Star => match byte {
                b'/' => Within::Code,
                b'*' => Within::Star,
                _ => Within::Comment,
            },
            Within::Quoted => match byte {
                b'"' => Within::Code,
                b'\\' => Within::Escaped,
                _ => Within::Quoted,
            },
            Within::Escaped => Within::Quoted,
        }
    }

    // Whether a byte behind which this stands, where that stood before it, is code.
    fn is_code(self, before: Within) -> bool {
        self == Within::Code && (before == Within::Code || before == Within::Slash)
    }
}

/// A part of a text, from a byte up to another one.
#[derive(Clone, Copy)]
struct Span {
    begin: usize,
    end: usize,
}

/// A declaration with its body: where it begins, where the body is opened, and where it is closed.
#[derive(Clone, Copy)]
struct Body {
    begin: usize,
    open: usize,
    close: usize,
}

/// Looks at the bytes of a text, one after the other, for the declarations and statements that are whole.
#[derive(Drop)]
struct Scanner<'a> {
    text: &'a [u8],
    within: Within,
    curly: usize,
    round: usize,
    /// Where the declaration begins, and the statement in it.
    declaration: Option<usize>,
    statement: Option<usize>,
    open: usize,
    /// The bodies of functions and actors that are closed.
    bodies: Vec<Body>,
    /// The statement right before this one, where it ends with a `;`.
    last: Option<Span>,
    /// Those of this declaration that end with a `;`, and behind which another one does.
    statements: Vec<Span>,
}

impl<'a> Scanner<'a> {
    fn new(alloc: Global, text: &'a [u8]) -> Scanner<'a> {
        Scanner {
            text,
            within: Within::Code,
            curly: 0,
            round: 0,
            declaration: None,
            statement: None,
            open: 0,
            bodies: Vec::new(alloc),
            last: None,
            statements: Vec::new(alloc),
        }
    }

    // Whether the text goes on so from a byte on.
    fn is_there(&self, at: usize, word: &[u8]) -> bool {
        match self.text.get(at..) {
            Some(rest) => rest.starts_with(word),
            None => false,
        }
    }

    // Looks at a byte.
    fn see(&mut self, at: usize, byte: u8) -> Result<(), NoMemory> {
        let before = self.within;
        self.within = before.next(byte);
        if byte <= b' ' || !self.within.is_code(before) {
            return Ok(());
        }
        if self.declaration.is_none() {
            self.declaration = Some(at);
        }
        if self.statement.is_none() {
            self.statement = Some(at);
        }
        match byte {
            b'(' => self.round = self.round.saturating_add(1),
            b')' => self.round = self.round.saturating_sub(1),
            b'{' => self.opened(at),
            b'}' => self.closed(at)?,
            b';' => self.ended(at)?,
            _ => {}
        }
        Ok(())
    }

    fn opened(&mut self, at: usize) {
        if self.curly == 0 {
            self.open = at;
        }
        self.curly = self.curly.saturating_add(1);
        self.statement = None;
        self.last = None;
    }

    fn closed(&mut self, at: usize) -> Result<(), NoMemory> {
        self.curly = self.curly.saturating_sub(1);
        self.statement = None;
        self.last = None;
        let begin = self.declaration.unwrap_or(at);
        if self.curly == 0 && !self.is_there(begin, b"struct") {
            self.bodies.push(Body {
                begin,
                open: self.open,
                close: at,
            })?;
            self.leave();
        }
        Ok(())
    }

    // Behind a declaration.
    fn leave(&mut self) {
        self.declaration = None;
        self.statements.clear();
    }

    fn ended(&mut self, at: usize) -> Result<(), NoMemory> {
        if self.round > 0 {
            return Ok(());
        }
        let begin = self.statement.unwrap_or(at);
        self.statement = None;
        if self.curly == 0 {
            self.leave();
            return Ok(());
        }
        let mut this = Span {
            begin,
            end: at.saturating_add(1),
        };
        if let Some(last) = self.last {
            if self.is_there(begin, b"else") {
                this.begin = last.begin;
            } else {
                self.statements.push(last)?;
            }
        }
        self.last = Some(this);
        Ok(())
    }
}

// Looks at a text.
fn scanned<'a>(alloc: Global, text: &'a [u8]) -> Result<Scanner<'a>, NoMemory> {
    let mut scanner = Scanner::new(alloc, text);
    for (at, byte) in text.iter().enumerate() {
        scanner.see(at, *byte)?;
    }
    Ok(scanner)
}

// Puts blanks in place of a part of a text, but for line feeds.
fn blank(text: &mut Vec<u8>, begin: usize, end: usize) {
    for at in begin..end {
        if at < text.len() && text[at] != b'\n' {
            text[at] = b' ';
        }
    }
}

// Where the line ends in which so many bytes stand before a place; where a comment goes on there, the line in which that ends.
fn line_end(text: &[u8], before: usize) -> usize {
    let mut within = Within::Code;
    let Some(rest) = text.get(before..) else {
        return text.len();
    };
    for (count, byte) in rest.iter().enumerate() {
        within = within.next(*byte);
        if *byte == b'\n' && within == Within::Code {
            return before.saturating_add(count).saturating_add(1);
        }
    }
    text.len()
}

/// A text up to the end of the line in which so many bytes stand before a place, with blanks for the declarations that are whole before it,
/// and for the statements of its own that are, but for the last of a row. What can stand at the place doesn't change so.
pub fn shortened_before(alloc: Global, text: &[u8], before: usize) -> Result<Vec<u8>, NoMemory> {
    let begin = text.get(..before).unwrap_or(text);
    let scanner = scanned(alloc, begin)?;
    let end = line_end(text, before);
    let mut out = text.get(..end).unwrap_or(text).to_vec(alloc)?;
    blank(&mut out, 0, scanner.declaration.unwrap_or(before));
    for span in &scanner.statements {
        blank(&mut out, span.begin, span.end);
    }
    Ok(out)
}

/// A program's text with blanks in the bodies of functions and actors, but for the one in which so many bytes stand before a place.
pub fn shortened_around(alloc: Global, text: &[u8], before: usize) -> Result<Vec<u8>, NoMemory> {
    let scanner = scanned(alloc, text)?;
    let mut out = text.to_vec(alloc)?;
    for body in &scanner.bodies {
        if before < body.begin || body.close < before {
            blank(&mut out, body.open.saturating_add(1), body.close);
        }
    }
    Ok(out)
}
