// The common word of a world.

ghost use Rattle.std.specs.Prelude.{◌≡◌, ◌*◌, ◌^◌, ◌<◌, ◌≤◌};
ghost use Rattle.std.specs.Int.{IsGcd};
ghost use Rattle.flow_worldfile.specs.Worlds.{IsInRange, seen};
ghost use Rattle.flow_simplify.specs.Common.{IsCommon, IsMultiple, IsStep, is_common};

use flow_worldfile::World0;

// How many multiples are tried.
const MOST_TRIED: u64 = 1_000;

// The greatest common divisor of two numbers.
fn greatest_divisor(a: u64, b: u64) -> u64
    ensures { IsGcd a b result }
{
    let mut x = a;
    let mut y = b;
    while y > 0 {
        let rest = x % y;
        x = y;
        y = rest;
    }
    x
}

// The least common multiple of two numbers: one of them times the other without their greatest common divisor.
fn multiple(a: u64, b: u64) -> u64
    requires some { 0 < a }
    requires fits { a * b < 2 ^ 64 }
    ensures multiple { IsMultiple a b result }
    ensures most { result ≤ a * b }
{
    a / greatest_divisor(a, b) * b
}

// The least number of which 3 and the widths of both delays are divisors.
fn step(world: &World0) -> u64
    requires { IsInRange (seen world.now) }
    ensures { IsStep (seen world.now) result }
{
    let (lo, hi) = world.latency;
    let (least, most) = world.diskdelay;
    let first = multiple(3, hi - lo);
    multiple(most - least, first)
}

// Whether a multiple is a word, and loses no packet.
fn is_common(word: u128, loss: u16) -> bool
    ensures { result ≡ is_common word loss }
{
    word < 1 << 32 && u128::from(loss) <= word % 1000
}

/// The common word of a world: the least of the first thousand multiples of 3 and of the widths of both delays that is a word and
/// loses no packet. It gives the least delays and keeps a write. Where there is none, the permille of packets that are lost, and 0 for
/// 1,000.
pub fn common_word(world: &World0) -> u32
    requires { IsInRange (seen world.now) }
    ensures { IsCommon (seen world.now) result }
{
    let step = step(world);
    for k in 0..MOST_TRIED {
        let word = u128::from(k) * u128::from(step);
        if is_common(word, world.loss) {
            return word as u32;
        }
    }
    u32::from(world.loss % 1000)
}
