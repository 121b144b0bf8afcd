// Places in a text.

/// A place in a program text: the line and the column from 1, and the number of bytes before it.
/// Lines are counted by line feeds, columns by bytes.
#[derive(Clone, Copy, PartialEq, Eq, Debug)]
pub struct Place {
    pub line: u32,
    pub column: u32,
    pub byte: u32,
}
