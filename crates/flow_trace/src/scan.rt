// How a line is cut into its words.

ghost use Rattle.std.specs.Prelude.{◌≡◌, ◌<◌, ◌*◌, ◌+◌, ◌%◌, ℕ, List, [], ◌∷◌, ◌++◌, true, IfOk, OnOk};
ghost use Rattle.flow_trace.specs.Scan.{no_word, add, hex_value, letter_value, step, scan, scan_start, words_in};
ghost use Rattle.flow_trace.specs.declared.scan.Mode.TheVariants.{Bare, Quoted};

use flow_base::memory::NoMemory;
use std::alloc::Global;
use std::marker::Model;
use std::mem;

/// A word of a line, without its quotes and escapes where it has some.
#[derive(Drop)]
pub(crate) struct Word {
    quoted: bool,
    bytes: Vec<u8>,
}

impl Model for Word {
    ghost use Rattle.flow_trace.specs.Scan.{WordState};

    ghost Value = { WordState };

    ghost view = { λ w. record { quoted = w.quoted; bytes = w.bytes.items } };
}

impl Word {
    fn new(alloc: Global) -> Word
        ensures { result ≡ no_word }
    {
        Word {
            quoted: false,
            bytes: Vec::new(alloc),
        }
    }

    /// Whether it stood in quotes.
    pub(crate) fn is_quoted(&self) -> bool
        ensures { result ≡ self.now.quoted }
    {
        self.quoted
    }

    /// Its bytes.
    pub(crate) fn bytes(&self) -> &[u8]
        ensures { result.now ≡ self.now.bytes }
    {
        &self.bytes
    }

    fn push(&mut self, byte: u8) -> Result<(), NoMemory>
        ensures { OnOk result (self.new ≡ record self.old { bytes = self.old.bytes ++ byte ∷ [] }) }
    {
        self.bytes.push(byte)?;
        Ok(())
    }

    fn open_quote(&mut self)
        ensures { self.new ≡ record self.old { quoted = true } }
    {
        self.quoted = true;
    }
}

/// Where in a word the next byte stands.
#[derive(Clone, Copy)]
pub(crate) enum Mode {
    /// Outside quotes.
    Bare,
    /// Between quotes.
    Quoted,
    /// Behind a backslash.
    Escape,
    /// Behind `\x`.
    High,
    /// Behind `\x` and a digit.
    Low(u8),
}

/// The words read so far, the one that is being read, and where in it.
#[derive(Drop)]
struct Scanner {
    alloc: Global,
    words: Vec<Word>,
    word: Word,
    mode: Mode,
}

impl Model for Scanner {
    ghost use Rattle.flow_trace.specs.Scan.{ScanState};

    ghost Value = { ScanState };

    ghost view = { λ s. record { words = s.words.items; word = s.word; mode = s.mode } };
}

impl Scanner {
    fn new(alloc: Global) -> Scanner
        ensures { result ≡ scan_start }
    {
        Scanner {
            alloc,
            words: Vec::new(alloc),
            word: Word::new(alloc),
            mode: Mode::Bare,
        }
    }

    fn add(&mut self, byte: u8) -> Result<(), NoMemory>
        ensures { OnOk result (self.new ≡ add self.old byte) }
    {
        self.word.push(byte)
    }

    fn enter(&mut self, mode: Mode)
        ensures { self.new ≡ record self.old { mode = mode } }
    {
        self.mode = mode;
    }

    fn next_word(&mut self) -> Result<(), NoMemory>
        ensures { OnOk result (self.new ≡ record self.old
            { words = self.old.words ++ self.old.word ∷ []; word = no_word }) }
    {
        let word = mem::replace(&mut self.word, Word::new(self.alloc));
        self.words.push(word)?;
        Ok(())
    }

    fn open_quote(&mut self)
        ensures { self.new ≡ record self.old
            { word = record self.old.word { quoted = true }; mode = Quoted } }
    {
        self.word.open_quote();
        self.mode = Mode::Quoted;
    }

    fn step_bare(&mut self, byte: u8) -> Result<(), NoMemory>
        requires { self.old.mode ≡ Bare }
        ensures { OnOk result (self.new ≡ step self.old byte) }
    {
        match byte {
            b' ' => self.next_word(),
            b'\n' => Ok(()),
            b'"' => {
                self.open_quote();
                Ok(())
            }
            _ => self.add(byte),
        }
    }

    fn step_quoted(&mut self, byte: u8) -> Result<(), NoMemory>
        requires { self.old.mode ≡ Quoted }
        ensures { OnOk result (self.new ≡ step self.old byte) }
    {
        match byte {
            b'"' => {
                self.enter(Mode::Bare);
                Ok(())
            }
            b'\\' => {
                self.enter(Mode::Escape);
                Ok(())
            }
            _ => self.add(byte),
        }
    }

    // A byte between quotes is read whole.
    fn complete(&mut self, byte: u8) -> Result<(), NoMemory>
        ensures { OnOk result (self.new ≡ add (record self.old { mode = Quoted }) byte) }
    {
        self.enter(Mode::Quoted);
        self.add(byte)
    }

    fn step(&mut self, byte: u8) -> Result<(), NoMemory>
        ensures { OnOk result (self.new ≡ step self.old byte) }
    {
        match self.mode {
            Mode::Bare => self.step_bare(byte),
            Mode::Quoted => self.step_quoted(byte),
            Mode::Escape if byte == b'x' => {
                self.enter(Mode::High);
                Ok(())
            }
            Mode::Escape => self.complete(letter_value(byte)),
            Mode::High => {
                self.enter(Mode::Low(hex_value(byte)));
                Ok(())
            }
            Mode::Low(high) => self.complete(byte_of_digits(high, hex_value(byte))),
        }
    }

    // The words, the last one included.
    fn finish(self) -> Result<Vec<Word>, NoMemory>
        ensures { IfOk result (λ words. words.items ≡ self.words ++ self.word ∷ []) }
    {
        let Scanner {
            mut words,
            word,
            ..
        } = self;
        words.push(word)?;
        Ok(words)
    }
}

// The value of a hexadecimal digit in lower case, or 0.
fn hex_value(byte: u8) -> u8
    ensures { result ≡ hex_value byte }
{
    match byte {
        b'0'..=b'9' => byte - b'0',
        b'a'..=b'f' => byte - b'a' + 10,
        _ => 0,
    }
}

// The byte that a letter behind a backslash stands for.
fn letter_value(byte: u8) -> u8
    ensures { result ≡ letter_value byte }
{
    match byte {
        b'n' => b'\n',
        b't' => b'\t',
        _ => byte,
    }
}

// The byte of two hexadecimal digits.
fn byte_of_digits(high: u8, low: u8) -> u8
    ensures { result ≡ (high * 16 + low) % 256 }
{
    high.wrapping_mul(16).wrapping_add(low)
}

/// The words of a line: of any bytes some words, and of a printed line those that were printed.
pub(crate) fn split_words(alloc: Global, bytes: &[u8]) -> Result<Vec<Word>, NoMemory>
    ensures { IfOk result (λ words. words.items ≡ words_in bytes.now) }
{
    let mut scanner = Scanner::new(alloc);
    for byte in bytes {
        scanner.step(*byte)?;
    }
    scanner.finish()
}
