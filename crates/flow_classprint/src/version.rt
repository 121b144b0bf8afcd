// The versions of class text.

/// A version of class text. In the first a class has a result, and each `return` gives one.
#[derive(Clone, Copy, PartialEq, Eq)]
pub enum Version {
    One,
    Two,
}
