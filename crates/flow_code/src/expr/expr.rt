// Resolved expressions.

use flow_ast::predefined::{Method, Predefined};
use flow_base::text::Text;
use flow_tree::expr::Op;
use flow_value::value::RecordId;

/// An expression whose names are resolved. A predefined constant is the whole number that it stands for, and parentheses are
/// left out.
#[derive(Drop)]
pub enum Resolved {
    Int(i64),
    Text(Text),
    Bool(bool),
    VoidValue,
    /// The empty list, which no expression of a text is.
    EmptyList,
    /// What the place with this number holds.
    Place(u32),
    /// A call of what is predefined.
    Call(Predefined, Vec<Resolved>),
    /// A record made of its fields.
    Record(RecordId, Vec<Resolved>),
    /// A call of the plain function at a place in the list of the program's functions, from 0.
    Function(usize, Vec<Resolved>),
    /// A call by a name that nothing has: its arguments are evaluated, and mean nothing.
    Unknown(Vec<Resolved>),
    /// A field by the number of its name; none where no record has such a field.
    Field(Box<Resolved>, Option<usize>),
    /// A method of a value; none where the name is no method's.
    Method(Box<Resolved>, Option<Method>, Vec<Resolved>),
    /// An element of a list.
    Index(Box<Resolved>, Box<Resolved>),
    Not(Box<Resolved>),
    Neg(Box<Resolved>),
    Binary(Op, Box<Resolved>, Box<Resolved>),
    /// A variable that there isn't.
    Nothing,
}
