// The lines of a text, and the fields of a line.

ghost use Rattle.std.specs.Prelude.{◌≡◌, ◌==◌, ℕ, ◌<◌, ◌≤◌, ◌^◌, [], ◌∷◌, length, MatchOption, IsTrue, IfSome};
ghost use Rattle.std.specs.List.{slice_split, position, list_all};
ghost use Rattle.std.specs.Char.{is_ascii_digit};
ghost use Rattle.std.specs.Str.Lines.{strip_carriage_return};
ghost use Rattle.std.specs.Str.Parse.{digits_value};
ghost use Rattle.flow_worldfile.specs.Lines.{lines, pieces, text, number, field_of, is_number, begins_comment};

/// The first place of a byte in a text, where it stands there.
fn first_place(text: &[u8], byte: u8) -> Option<usize>
    ensures place { result ≡ position (λ b. b == byte) text.now }
    ensures within { IfSome result (λ place. place < length text.now) }
{
    text.iter().position(|b| *b == byte)
}

/// The part of a text before a byte's first place, and the part after it. None where the byte
/// doesn't stand there.
#[tactic(auto, using(crate::proofs::LineLemmas::one_part, crate::proofs::LineLemmas::two_parts))]
fn split_once(text: &[u8], byte: u8) -> Option<(&[u8], &[u8])>
    ensures parts { MatchOption result (slice_split (λ b. b == byte) text.now ≡ text.now ∷ [])
        (λ parts. slice_split (λ b. b == byte) text.now
        ≡ parts.0.now ∷ slice_split (λ b. b == byte) parts.1.now) }
    ensures shorter { IfSome result (λ parts. length parts.1.now < length text.now) }
{
    let Some(place) = first_place(text, byte) else {
        return None;
    };
    Some((&text[..place], &text[place + 1..]))
}

/// A line without the one carriage return that may stand at its end.
fn without_return(line: &[u8]) -> &[u8]
    ensures { result.now ≡ strip_carriage_return line.now }
{
    match line {
        [front @ .., b'\r'] => front,
        _ => line,
    }
}

/// The first line of a text, and what stands after it.
#[tactic(auto, using(crate::proofs::LineLemmas::last_line, crate::proofs::LineLemmas::next_line))]
pub fn first_line(text: &[u8]) -> (&[u8], &[u8])
    requires { 0 < length text.now }
    ensures line { lines text.now ≡ result.0.now ∷ lines result.1.now }
    ensures shorter { length result.1.now < length text.now }
{
    let Some((line, more)) = split_once(text, b'\n') else {
        return (text, &text[text.len()..]);
    };
    (without_return(line), more)
}

/// The first field of a line, as bytes, and what stands after it. None where the line has no field.
pub fn first_piece(line: &[u8]) -> Option<(&[u8], &[u8])>
    ensures parts { MatchOption result (pieces line.now ≡ [])
        (λ parts. pieces line.now ≡ parts.0.now ∷ pieces parts.1.now) }
    ensures some { IfSome result (λ parts. 0 < length parts.0.now) }
{
    let mut rest = line;
    while let Some((piece, more)) = split_once(rest, b' ') {
        if !piece.is_empty() {
            return Some((piece, more));
        }
        rest = more;
    }
    if rest.is_empty() {
        return None;
    }
    Some((rest, &rest[rest.len()..]))
}

/// Whether a line has no field, or begins with `#` as its first byte that is no space.
pub fn is_passed_over(line: &[u8]) -> bool
    ensures { result ≡ begins_comment (pieces line.now) }
{
    match first_piece(line) {
        None => true,
        Some((piece, _)) => piece[0] == b'#',
    }
}

/// Whether all bytes are decimal digits.
fn are_digits(bytes: &[u8]) -> bool
    ensures { result ≡ list_all is_ascii_digit bytes.now }
{
    bytes.iter().all(|byte| byte.is_ascii_digit())
}

/// Whether a field is a number: 1 to 20 digits.
fn is_numeral(piece: &[u8]) -> bool
    ensures { result ≡ is_number piece.now }
{
    if piece.is_empty() || piece.len() > 20 {
        return false;
    }
    are_digits(piece)
}

/// The number that 1 to 20 digits write.
#[tactic(auto, using(crate::proofs::Numbers::next_digit))]
fn value_of(piece: &[u8]) -> u128
    requires { IsTrue (is_number piece.now) }
    ensures { result ≡ digits_value 10 piece.now }
{
    let mut value: u128 = 0;
    for byte in piece {
        value = value * 10 + u128::from(*byte - b'0');
    }
    value
}

/// The number that a field is.
pub fn number_of(piece: &[u8]) -> Option<u128>
    ensures { MatchOption result (field_of piece.now ≡ text piece.now)
        (λ n. field_of piece.now ≡ number n) }
{
    if is_numeral(piece) {
        Some(value_of(piece))
    } else {
        None
    }
}
