// Lines put together from pieces.

ghost use Rattle.std.specs.Prelude.{◌≡◌, ℕ, List, [], ◌∷◌, ◌++◌, map, decimal, OnOk};
ghost use Rattle.flow_base.specs.Quote.{quoted};
ghost use Rattle.flow_trace.specs.Bytes.{spaced};
ghost use Rattle.flow_explain.specs.Phrases.{spot};
ghost use Rattle.flow_explain.specs.Pieces.{piece_bytes};

use flow_base::memory::NoMemory;
use flow_base::place::Place;
use flow_trace::quote::spell_byte;
use itoa::Buffer;
use std::alloc::Global;
use std::marker::Model;

/// A piece of a line in words, not yet spelled.
#[derive(Clone, Copy)]
pub(crate) enum Piece<'a> {
    /// Words with one space between two.
    Words(&'a [u8]),
    /// A number.
    Number(u64),
    /// A number and the sign behind it.
    Marked(u64, u8),
    /// A number with its sign.
    Integer(i64),
    /// A text in quotes.
    Quoted(&'a [u8]),
    /// A place, or a question mark where there is none.
    Spot(Option<Place>),
}

/// The bytes of a line. Contracts see it as the list of these.
#[derive(Drop)]
pub struct LineBytes {
    bytes: Vec<u8>,
}

impl Model for LineBytes {
    ghost use Rattle.std.specs.Prelude.{ℕ, List};

    ghost Value = { List ℕ };

    ghost view = { λ b. b.bytes.items };
}

impl LineBytes {
    /// No byte. It takes no memory.
    pub(crate) fn new(alloc: Global) -> LineBytes
        ensures { result ≡ [] }
    {
        LineBytes {
            bytes: Vec::new(alloc),
        }
    }

    /// The bytes.
    pub(crate) fn bytes(&self) -> &[u8]
        ensures { result.now ≡ self.now }
    {
        &self.bytes
    }

    /// Begins anew, with these bytes.
    pub(crate) fn begin(&mut self, first: &[u8]) -> Result<(), NoMemory>
        ensures { OnOk result (self.new ≡ first.now) }
    {
        self.bytes.clear();
        self.put(first)
    }

    /// Adds bytes.
    pub(crate) fn put(&mut self, bytes: &[u8]) -> Result<(), NoMemory>
        ensures { OnOk result (self.new ≡ self.old ++ bytes.now) }
    {
        self.bytes.extend_from_slice(bytes)?;
        Ok(())
    }

    // Adds a number.
    fn put_number(&mut self, number: u64) -> Result<(), NoMemory>
        ensures { OnOk result (self.new ≡ self.old ++ decimal number) }
    {
        self.put(Buffer::new().format(number).as_bytes())
    }

    // Adds a text in quotes.
    #[tactic(auto, using(flow_trace::proofs::Printing::spelled_text_more))]
    fn put_quoted(&mut self, text: &[u8]) -> Result<(), NoMemory>
        ensures { OnOk result (self.new ≡ self.old ++ quoted text.now) }
    {
        self.put(b"\"")?;
        for byte in text {
            self.put(spell_byte(*byte).bytes())?;
        }
        self.put(b"\"")
    }

    // Adds a place, or a question mark where there is none.
    fn put_spot(&mut self, at: Option<Place>) -> Result<(), NoMemory>
        ensures { OnOk result (self.new ≡ self.old ++ spot at) }
    {
        match at {
            Some(at) => {
                self.put_number(u64::from(at.line))?;
                self.put(b":")?;
                self.put_number(u64::from(at.column))
            }
            None => self.put(b"?"),
        }
    }

    // Adds a number and the sign behind it.
    fn put_marked(&mut self, number: u64, sign: u8) -> Result<(), NoMemory>
        ensures { OnOk result (self.new ≡ self.old ++ (decimal number ++ sign ∷ [])) }
    {
        self.put_number(number)?;
        self.put(&[sign])
    }

    // Adds a piece.
    fn put_piece(&mut self, piece: Piece<'_>) -> Result<(), NoMemory>
        ensures { OnOk result (self.new ≡ self.old ++ piece_bytes piece.entry) }
    {
        match piece {
            Piece::Words(words) => self.put(words),
            Piece::Number(number) => self.put_number(number),
            Piece::Marked(number, sign) => self.put_marked(number, sign),
            Piece::Integer(number) => self.put(Buffer::new().format(number).as_bytes()),
            Piece::Quoted(text) => self.put_quoted(text),
            Piece::Spot(at) => self.put_spot(at),
        }
    }

    /// Adds pieces, each behind a space.
    pub(crate) fn put_pieces(&mut self, pieces: &[Piece<'_>]) -> Result<(), NoMemory>
        ensures { OnOk result (self.new ≡ self.old ++ spaced (map piece_bytes pieces.now)) }
    {
        for piece in pieces {
            self.put(b" ")?;
            self.put_piece(*piece)?;
        }
        Ok(())
    }
}
