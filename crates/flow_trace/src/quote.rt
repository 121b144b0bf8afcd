// Texts in quotes.

ghost use Rattle.std.specs.Prelude.{◌≡◌, ◌≤◌, ◌<◌, ◌+◌, ℕ, List, [], ◌∷◌, ◌++◌, length, take, position, IfOk, IfSome};
ghost use Rattle.flow_base.specs.Quote.{hex_digit, spelled_byte, quoted};
ghost use Rattle.flow_trace.specs.Quote.{is_escaped};

use flow_base::memory::NoMemory;
use std::alloc::Global;
use std::marker::Model;

/// How a byte is spelled between quotes, by one byte to four. Contracts see it as the list of these.
#[derive(Drop)]
pub struct Spelling {
    bytes: [u8; 4],
    count: usize,
}

impl Model for Spelling {
    ghost use Rattle.std.specs.Prelude.{ℕ, List, take, ◌≤◌};

    ghost Value = { List ℕ };

    ghost view = { λ s. take s.count s.bytes };

    ghost invariant = { λ s. s.count ≤ 4 };
}

impl Spelling {
    /// Its bytes, of which there are four at most.
    pub fn bytes(&self) -> &[u8]
        ensures bytes { result.now ≡ self.now }
        ensures short { length self.now ≤ 4 }
    {
        &self.bytes[..self.count]
    }

    fn one(byte: u8) -> Spelling
        ensures { result ≡ byte ∷ [] }
    {
        Spelling {
            bytes: [byte, 0, 0, 0],
            count: 1,
        }
    }

    fn two(byte: u8) -> Spelling
        ensures { result ≡ 92 ∷ byte ∷ [] }
    {
        Spelling {
            bytes: [b'\\', byte, 0, 0],
            count: 2,
        }
    }

    fn hex(high: u8, low: u8) -> Spelling
        requires high { high < 16 }
        requires low { low < 16 }
        ensures { result ≡ 92 ∷ 120 ∷ hex_digit high ∷ hex_digit low ∷ [] }
    {
        Spelling {
            bytes: [b'\\', b'x', hex_digit(high), hex_digit(low)],
            count: 4,
        }
    }
}

// A hexadecimal digit, in lower case.
fn hex_digit(digit: u8) -> u8
    requires { digit < 16 }
    ensures { result ≡ hex_digit digit }
{
    if digit < 10 {
        b'0' + digit
    } else {
        b'a' - 10 + digit
    }
}

/// How a byte is spelled between quotes: a line feed, a tab, a quote and a backslash by their letters
/// behind a backslash, any other byte outside 32 to 126 as `\x` with two lower-case digits, and the
/// rest as they are.
pub fn spell_byte(byte: u8) -> Spelling
    ensures { result ≡ spelled_byte byte }
{
    if byte == b'\n' {
        return Spelling::two(b'n');
    }
    if byte == b'\t' {
        return Spelling::two(b't');
    }
    if byte == b'"' {
        return Spelling::two(b'"');
    }
    if byte == b'\\' {
        return Spelling::two(b'\\');
    }
    if 32 <= byte && byte <= 126 {
        return Spelling::one(byte);
    }
    Spelling::hex(byte / 16, byte % 16)
}

/// The place of the first byte that isn't spelled as itself between quotes, if there is one.
pub(crate) fn first_escaped(text: &[u8]) -> Option<usize>
    ensures place { result ≡ position is_escaped text.now }
    ensures within { IfSome result (λ place. place < length text.now) }
{
    text.iter().position(|byte| *byte < b' ' || b'~' < *byte || *byte == b'"' || *byte == b'\\')
}

/// The text in quotes, by runs of bytes that are spelled as themselves.
pub fn quote(alloc: Global, text: &[u8]) -> Result<Vec<u8>, NoMemory>
    ensures { IfOk result (λ v. v.items ≡ quoted text.now) }
{
    let mut out = Vec::new(alloc);
    out.push(b'"')?;
    let mut rest = text;
    while let Some(run) = first_escaped(rest) {
        let (plain, others) = rest.split_at(run);
        out.extend_from_slice(plain)?;
        out.extend_from_slice(spell_byte(others[0]).bytes())?;
        rest = others.split_at(1).1;
    }
    out.extend_from_slice(rest)?;
    out.push(b'"')?;
    Ok(out)
}
