// A buffer with room for every line.

ghost use Rattle.std.specs.Prelude.{◌≡◌, ◌≤◌, ◌<◌, ◌+◌, ◌*◌, ℕ, ℤ, List, [], ◌∷◌, ◌++◌, length, decimal, IfOk};
ghost use Rattle.flow_base.specs.Quote.{quoted};
ghost use Rattle.std.specs.Fmt.{signed_decimal};
ghost use Rattle.flow_trace.specs.Bytes.{Bytes, IsLine, spaced, joined};
ghost use Rattle.flow_trace.specs.Pieces.{words_of, piece_words, room_of, piece_room};

use crate::line::Line;
use crate::pieces::{Piece, Pieces, line_pieces};
use crate::quote::{first_escaped, spell_byte};
use flow_base::memory::NoMemory;
use itoa::Buffer;
use std::alloc::Global;
use std::marker::Model;

/// The bytes of one line, with room for every line. Contracts see it as the list of its bytes.
#[derive(Drop)]
pub struct LineBuf {
    bytes: Vec<u8>,
}

impl Model for LineBuf {
    ghost use Rattle.std.specs.Prelude.{ℕ, List, ◌≤◌, vec_capacity};

    ghost Value = { List ℕ };

    ghost view = { λ b. b.bytes.items };

    ghost invariant = { λ b. 262238 ≤ vec_capacity b.bytes };
}

impl LineBuf {
    /// Bytes enough for every line. The longest is that of a read with a text of 65,535 bytes, of which
    /// each takes four, and its four numbers are counted with 20 digits each.
    pub const ROOM: usize = 262238;

    /// An empty buffer with room for every line.
    pub fn new(alloc: Global) -> Result<LineBuf, NoMemory>
        ensures { IfOk result (λ b. b ≡ []) }
    {
        Ok(LineBuf {
            bytes: Vec::with_capacity(alloc, LineBuf::ROOM)?,
        })
    }

    /// The bytes of the line that was printed last.
    pub fn bytes(&self) -> &[u8]
        ensures { result.now ≡ self.now }
    {
        &self.bytes
    }

    fn clear(&mut self)
        ensures { self.new ≡ [] }
    {
        self.bytes.clear();
    }

    fn push(&mut self, byte: u8)
        requires { length self.old < 262238 }
        ensures { self.new ≡ self.old ++ byte ∷ [] }
    {
        self.bytes.push_reserved(byte);
    }

    fn put(&mut self, word: &[u8])
        requires { length self.old + length word.now ≤ 262238 }
        ensures { self.new ≡ self.old ++ word.now }
    {
        match self.bytes.extend_from_slice(word) {
            Ok(()) => {}
            Err(_) => unreachable!(),
        }
    }

    // The text in quotes, by runs of bytes that are spelled as themselves.
    fn put_quoted(&mut self, text: &[u8])
        requires { length self.old + (2 + 4 * length text.now) ≤ 262238 }
        ensures bytes { self.new ≡ self.old ++ quoted text.now }
        ensures room { length self.new ≤ length self.old + (2 + 4 * length text.now) }
    {
        self.push(b'"');
        let mut rest = text;
        while let Some(run) = first_escaped(rest) {
            let (plain, others) = rest.split_at(run);
            self.put(plain);
            self.put(spell_byte(others[0]).bytes());
            rest = others.split_at(1).1;
        }
        self.put(rest);
        self.push(b'"');
    }

    // A piece behind a space.
    fn put_piece(&mut self, piece: Piece)
        requires { length self.old + piece_room piece ≤ 262238 }
        ensures bytes { self.new ≡ self.old ++ spaced (piece_words piece.entry) }
        ensures room { length self.new ≤ length self.old + piece_room piece.entry }
    {
        match piece {
            Piece::Absent => {}
            Piece::Word(word) => {
                self.push(b' ');
                self.put(word);
            }
            Piece::Number(number) => {
                self.push(b' ');
                self.put(Buffer::new().format(number).as_bytes());
            }
            Piece::Integer(number) => {
                self.push(b' ');
                self.put(Buffer::new().format(number).as_bytes());
            }
            Piece::Quoted(text) => {
                self.push(b' ');
                self.put_quoted(text);
            }
        }
    }

    // The words of a line, with one space between two.
    #[tactic(auto, using(crate::proofs::Printing::joined_by_pieces))]
    fn put_pieces(&mut self, pieces: Pieces)
        requires empty { self.old ≡ [] }
        requires room { room_of pieces ≤ 262238 }
        ensures bytes { self.new ≡ joined (words_of pieces.entry) }
        ensures room { length self.new + 1 ≤ room_of pieces.entry }
    {
        self.put(pieces.first);
        self.put_piece(pieces.second);
        self.put_piece(pieces.third);
        self.put_piece(pieces.fourth);
        self.put_piece(pieces.fifth);
        self.put_piece(pieces.sixth);
        self.put_piece(pieces.seventh);
    }
}

/// Replaces the buffer's bytes by those of the line. It takes no memory.
pub fn print_line(line: &Line, into: &mut LineBuf)
    ensures bytes { into.new ≡ Bytes line.now }
    ensures range { IsLine line.now }
{
    let pieces = line_pieces(line);
    into.clear();
    into.put_pieces(pieces);
    into.push(b'\n');
}
