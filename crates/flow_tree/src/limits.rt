// The limits of a program text. L1 to L9 are the rules that a refusal names.

/// L1: the most bytes of a program text.
pub const PROGRAM_BYTES: usize = 1_048_576;

/// L2: the most tokens of a program.
pub const TOKENS: usize = 200_000;

/// L3: the most declarations of a program.
pub const DECLARATIONS: u32 = 4096;

/// L4: the most statements of one function or actor.
pub const STATEMENTS: u32 = 10_000;

/// L5: the greatest depth of a node.
pub const DEPTH: u32 = 64;

/// L6: the most parameters and state variables of one actor, parameters of one function, and fields of
/// one record.
pub const VARIABLES: u32 = 1000;

/// L7: the most branches of one `choose`.
pub const BRANCHES: u32 = 64;

/// L8: how deep records may be nested in one another.
pub const NESTING: u32 = 16;

/// L8: the most fields of one record that hold no record, those of nested ones included.
pub const LEAF_FIELDS: u32 = 1024;

/// L9: the greatest weight of one actor.
pub const WEIGHT: u32 = 60_000;

/// How deep calls of plain functions may be nested.
pub const CALL_DEPTH: u32 = 64;

/// The most elements of a vector.
pub const ELEMENTS: usize = 65_535;

/// How much of each thing a text may hold, where these limits differ by the kind of text: L3, L4, L6
/// and L7. The greatest depth is the same in all texts.
#[derive(Clone, Copy)]
pub struct Limits {
    /// The most declarations.
    pub declarations: u32,
    /// The most statements of one function or actor.
    pub statements: u32,
    /// The most parameters and state variables of one actor, parameters of one function, and fields
    /// of one record.
    pub variables: u32,
    /// The most branches of one `choose`.
    pub branches: u32,
}

/// The limits of program texts.
pub const OF_PROGRAMS: Limits = Limits {
    declarations: DECLARATIONS,
    statements: STATEMENTS,
    variables: VARIABLES,
    branches: BRANCHES,
};

/// The limits of class texts: only depth binds there, since a class text has fewer tokens than these
/// numbers.
pub const OF_CLASS_TEXT: Limits = Limits {
    declarations: u32::MAX,
    statements: u32::MAX,
    variables: u32::MAX,
    branches: u32::MAX,
};
