// Types as they are found by the form of an expression.

ghost use Rattle.std.specs.Prelude.{◌≡◌};
ghost use Rattle.flow_tree.specs.View.{type_of, result_of};
ghost use Rattle.flow_ast.specs.Typing.{is_there, same_type, sign_type, equality_type, binary_type};
ghost use Rattle.std.specs.Prelude.{codes};
ghost use Rattle.flow_tree.specs.Tree.{NamedType};
ghost use Rattle.flow_types.specs.View.{found_of, inner_of};

use flow_ast::typing::same_type;
use flow_tree::expr::Op;
use flow_tree::ty::Ty;

/// What a future or a stream gives: a written type, or one of those that predefined calls give.
#[derive(Clone, Copy)]
pub enum ElementView<'a> {
    Written(&'a Ty),
    Void,
    Int,
    Text,
    Packet,
}

/// A type that lends its parts: from a written type, or made of one.
#[derive(Clone, Copy)]
pub enum TypeView<'a> {
    Int,
    Bool,
    Str,
    Void,
    Error,
    Named(&'a [u8]),
    Future(ElementView<'a>),
    FutureStream(ElementView<'a>),
    Promise(&'a Ty),
    PromiseStream(&'a Ty),
    Vector(&'a Ty),
    /// What a void actor gives.
    Nothing,
}

impl<'a> TypeView<'a> {
    /// This written type.
    pub fn of(ty: &'a Ty) -> TypeView<'a>
        ensures { found_of result ≡ type_of ty.now }
    {
        match ty {
            Ty::Int => TypeView::Int,
            Ty::Bool => TypeView::Bool,
            Ty::Str => TypeView::Str,
            Ty::Void => TypeView::Void,
            Ty::Error => TypeView::Error,
            Ty::Named(name) => TypeView::Named(name.bytes()),
            Ty::Future(of) => TypeView::Future(ElementView::Written(of)),
            Ty::FutureStream(of) => TypeView::FutureStream(ElementView::Written(of)),
            Ty::Promise(of) => TypeView::Promise(of),
            Ty::PromiseStream(of) => TypeView::PromiseStream(of),
            Ty::Vector(of) => TypeView::Vector(of),
        }
    }

    /// The result of an actor, or nothing where it is void.
    pub fn of_result(gives: &'a Option<Ty>) -> TypeView<'a>
        ensures { found_of result ≡ result_of gives.now }
    {
        match gives {
            Some(ty) => TypeView::of(ty),
            None => TypeView::Nothing,
        }
    }
}

impl<'a> ElementView<'a> {
    /// What is inside, as a type of its own.
    pub fn opened(self) -> TypeView<'a>
        ensures { found_of result ≡ inner_of self.entry }
    {
        match self {
            ElementView::Written(ty) => TypeView::of(ty),
            ElementView::Void => TypeView::Void,
            ElementView::Int => TypeView::Int,
            ElementView::Text => TypeView::Str,
            ElementView::Packet => TypeView::Named(b"Packet".as_slice()),
        }
    }
}

// Whether it is this written type.
fn inner_is(inner: ElementView<'_>, ty: &Ty) -> bool
    ensures { result ≡ same_type (inner_of inner.entry) (type_of ty.now) }
{
    match inner {
        ElementView::Written(of) => same_type(of, ty),
        ElementView::Void => matches!(ty, Ty::Void),
        ElementView::Int => matches!(ty, Ty::Int),
        ElementView::Text => matches!(ty, Ty::Str),
        ElementView::Packet => match ty {
            Ty::Named(name) => b"Packet".as_slice() == name.bytes(),
            Ty::Int | Ty::Bool | Ty::Str | Ty::Void | Ty::Error => false,
            Ty::Future(_) | Ty::FutureStream(_) | Ty::Promise(_) | Ty::PromiseStream(_) => false,
            Ty::Vector(_) => false,
        },
    }
}

// Whether a written type is the predefined record.
fn is_packet_type(ty: &Ty) -> bool
    ensures { result ≡ same_type (type_of ty.now) (NamedType (codes "Packet")) }
{
    match ty {
        Ty::Named(name) => name.bytes() == b"Packet".as_slice(),
        Ty::Int | Ty::Bool | Ty::Str | Ty::Void | Ty::Error => false,
        Ty::Future(_) | Ty::FutureStream(_) | Ty::Promise(_) | Ty::PromiseStream(_) => false,
        Ty::Vector(_) => false,
    }
}

// Whether it is the predefined record.
fn inner_is_packet(inner: ElementView<'_>) -> bool
    ensures { result ≡ same_type (inner_of inner.entry) (NamedType (codes "Packet")) }
{
    match inner {
        ElementView::Written(ty) => is_packet_type(ty),
        ElementView::Packet => true,
        ElementView::Void | ElementView::Int | ElementView::Text => false,
    }
}

fn same_inner(left: ElementView<'_>, right: ElementView<'_>) -> bool
    ensures { result ≡ same_type (inner_of left.entry) (inner_of right.entry) }
{
    match right {
        ElementView::Written(ty) => inner_is(left, ty),
        ElementView::Void => inner_is(left, &Ty::Void),
        ElementView::Int => inner_is(left, &Ty::Int),
        ElementView::Text => inner_is(left, &Ty::Str),
        ElementView::Packet => inner_is_packet(left),
    }
}

/// Whether two types are the same.
pub fn same_found(left: TypeView<'_>, right: TypeView<'_>) -> bool
    ensures { result ≡ same_type (found_of left.entry) (found_of right.entry) }
{
    match left {
        TypeView::Int => matches!(right, TypeView::Int),
        TypeView::Bool => matches!(right, TypeView::Bool),
        TypeView::Str => matches!(right, TypeView::Str),
        TypeView::Void => matches!(right, TypeView::Void),
        TypeView::Error => matches!(right, TypeView::Error),
        TypeView::Named(name) => match right {
            TypeView::Named(other) => name == other,
            _ => false,
        },
        TypeView::Future(of) => match right {
            TypeView::Future(other) => same_inner(of, other),
            _ => false,
        },
        TypeView::FutureStream(of) => match right {
            TypeView::FutureStream(other) => same_inner(of, other),
            _ => false,
        },
        TypeView::Promise(of) => match right {
            TypeView::Promise(other) => same_type(of, other),
            _ => false,
        },
        TypeView::PromiseStream(of) => match right {
            TypeView::PromiseStream(other) => same_type(of, other),
            _ => false,
        },
        TypeView::Vector(of) => match right {
            TypeView::Vector(other) => same_type(of, other),
            _ => false,
        },
        TypeView::Nothing => matches!(right, TypeView::Nothing),
    }
}

/// Whether `==` takes a type: an int, a bool or a text.
pub fn takes_equality(found: TypeView<'_>) -> bool
    ensures { result ≡ is_there (equality_type (found_of found.entry)) }
{
    matches!(found, TypeView::Int | TypeView::Bool | TypeView::Str)
}

/// Whether a sign takes an operand of this type.
pub fn takes_sign(op: Op, found: TypeView<'_>) -> bool
    ensures { result ≡ is_there (sign_type op (found_of found.entry)) }
{
    match op {
        Op::Or | Op::And => matches!(found, TypeView::Bool),
        Op::Eq | Op::Ne => takes_equality(found),
        Op::Lt | Op::Le | Op::Gt | Op::Ge | Op::Add => matches!(
            found,
            TypeView::Int | TypeView::Str
        ),
        Op::Sub | Op::Mul | Op::Div | Op::Rem => matches!(found, TypeView::Int),
    }
}

/// Whether a sign takes operands of these types: of one type, which it takes.
pub fn takes_both(op: Op, left: TypeView<'_>, right: TypeView<'_>) -> bool
    ensures { result ≡ is_there (binary_type op (found_of left.entry) (found_of right.entry)) }
{
    same_found(left, right) && takes_sign(op, left)
}
