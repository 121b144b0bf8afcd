// The names of places in class text.

ghost use Rattle.std.specs.Prelude.{◌≡◌, ◌^◌, ◌-◌, min};
ghost use Rattle.std.specs.List.{list_all};
ghost use Rattle.flow_base.specs.Names.{digit, are_digits, digits_from};
ghost use Rattle.flow_class.specs.Places.{place_named, number_of, is_number, small, small_place};

use crate::class::Slotted;
use flow_base::name::is_digit;

fn are_all_digits(bytes: &[u8]) -> bool
    ensures { result ≡ list_all digit bytes.now }
{
    bytes.iter().all(|byte| is_digit(*byte))
}

// One or more digits with no zero in front.
fn is_number(bytes: &[u8]) -> bool
    ensures { result ≡ is_number bytes.now }
{
    match bytes {
        [] => false,
        [digit] => is_digit(*digit),
        [first, ..] => *first != b'0' && are_all_digits(bytes),
    }
}

// The number that the digits spell, or the greatest 64-bit number where it is no less than that.
fn capped_number(digits: &[u8]) -> u64
    ensures { result ≡ min (digits_from 0 digits.now) (2 ^ 64 - 1) }
{
    let mut n: u64 = 0;
    for digit in digits {
        n = n
            .saturating_mul(10)
            .saturating_add(u64::from(digit.saturating_sub(48)));
    }
    n
}

// The number below 2^32 that the bytes are, if they are one.
fn number(bytes: &[u8]) -> Option<u32>
    ensures { result ≡ small (number_of bytes.now) }
{
    if !is_number(bytes) {
        return None;
    }
    let n = capped_number(bytes);
    if n > u64::from(u32::MAX) {
        return None;
    }
    Some(n as u32)
}

/// The place of a name, if it is the name of one with a number below 2^32: `s` and the number of a slot, or `l` and the
/// number of a local.
pub fn place_named(name: &[u8]) -> Option<Slotted>
    ensures { result ≡ small_place (place_named name.now) }
{
    let Some((first, rest)) = name.split_first() else {
        return None;
    };
    match *first {
        b's' => number(rest).map(Slotted::Slot),
        b'l' => number(rest).map(Slotted::Local),
        _ => None,
    }
}
