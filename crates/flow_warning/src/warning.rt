// What is warned of.

use flow_base::place::Place;

/// What a variable holds that ends with it.
#[derive(Clone, Copy, PartialEq, Eq)]
pub enum Held {
    Future,
    Stream,
    Promise,
}

/// A local that holds something, declared at a place, that some walk leads to a wait unmentioned; one that some walk leads out of
/// its scope unmentioned; or a loop that comes round for ever.
#[derive(Clone, Copy, PartialEq, Eq)]
pub enum Warning {
    Lost { held: Held, at: Place, wait: Place },
    Unused { held: Held, at: Place },
    Endless { at: Place },
}
