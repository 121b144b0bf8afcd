// Numbers among the words.

ghost use Rattle.std.specs.Prelude.{◌≡◌, IsTrue};
ghost use Rattle.std.specs.List.{list_all};
ghost use Rattle.std.specs.Char.{is_ascii_digit};
ghost use Rattle.std.specs.Str.Parse.{digits_value};
ghost use Rattle.flow_worldfile.specs.Lines.{is_number};
ghost use Rattle.flow_words.specs.Wants.{number_within, number_of, events_of};

// Whether all bytes are decimal digits.
fn are_digits(word: &[u8]) -> bool
    ensures { result ≡ list_all is_ascii_digit word.now }
{
    word.iter().all(|byte| byte.is_ascii_digit())
}

// Whether a word is a number: 1 to 20 digits.
fn is_number(word: &[u8]) -> bool
    ensures { result ≡ is_number word.now }
{
    if word.is_empty() || word.len() > 20 {
        return false;
    }
    are_digits(word)
}

// The number that 1 to 20 digits write.
#[tactic(auto, using(flow_worldfile::proofs::Numbers::next_digit))]
fn value_of(word: &[u8]) -> u128
    requires { IsTrue (is_number word.now) }
    ensures { result ≡ digits_value 10 word.now }
{
    let mut value: u128 = 0;
    for byte in word {
        value = value * 10 + u128::from(*byte - b'0');
    }
    value
}

/// The number from the least to the most that a word is; none where it is none, or has more than 20 digits.
pub fn number_within(word: &[u8], least: u64, most: u64) -> Option<u64>
    ensures { result ≡ number_within least most word.now }
{
    if !is_number(word) {
        return None;
    }
    let value = value_of(word);
    if value < u128::from(least) || value > u128::from(most) {
        return None;
    }
    Some(value as u64)
}

/// How many events a word of 1 to 7 digits says, 1,000,000 at most; none where it is no such word.
pub fn events_of(word: &[u8]) -> Option<u64>
    ensures { result ≡ events_of word.now }
{
    if word.len() > 7 {
        return None;
    }
    number_within(word, 0, 1_000_000)
}
