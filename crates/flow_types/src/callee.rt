// What is called: its arguments, what it gives, and where it may stand.

ghost use Rattle.flow_tree.specs.DeclView.{params_of};
ghost use Rattle.std.specs.Prelude.{◌≡◌, ◌∷◌, [], length, map, slice_get};
ghost use Rattle.std.specs.Option.{option_map};
ghost use Rattle.flow_tree.specs.View.{type_of, exprs_of};
ghost use Rattle.flow_tree.specs.Tree.{ErrorType, StringType, FutureType, PromiseType, PromiseStreamType, VectorType};
ghost use Rattle.flow_ast.specs.Typing.{signature, param_types};
ghost use Rattle.flow_rules.specs.Judged.{Value, Effect, Statement, predefined_callee, declared_callee, called_by, called_on, index_callee, indexed_on, sends, as_many, Exactly};
ghost use Rattle.flow_types.specs.View.{found_of, inner_of, meaning_of, need_of, basic_need, needs_view, callee_of};

use crate::type_view::{ElementView, TypeView};
use flow_ast::predefined::{Method, Predefined, predefined_method};
use flow_base::name::Name;
use flow_tree::decl::Param;
use flow_tree::expr::Expr;
use flow_tree::ty::Ty;

/// What a name at the top of a program declares: a record by its fields, a function or an actor by its
/// parameters and its result.
#[derive(Clone, Copy)]
pub enum Meaning<'a> {
    Record(&'a [Param]),
    Function(&'a [Param], &'a Ty),
    Actor(&'a [Param], &'a Option<Ty>),
}

/// What an argument of a predefined call is. `Traced` is what `trace` takes.
#[derive(Clone, Copy)]
pub enum Basic {
    Int,
    Text,
    Error,
    Traced,
}

/// What an argument has to be.
#[derive(Clone, Copy)]
pub enum Need<'a> {
    Exactly(TypeView<'a>),
    Traced,
}

/// The arguments that a call needs, in order.
#[derive(Clone, Copy)]
pub enum Needs<'a> {
    Params(&'a [Param]),
    Fixed(&'a [Basic]),
    One(&'a Ty),
}

/// What is called, by where it may stand: a value anywhere, a function of the program also as a
/// statement, `now` in actors, an effect in actors as a whole, and a statement call as a statement.
#[derive(Clone, Copy)]
pub enum Kind {
    Value,
    Function,
    Clock,
    Effect,
    Statement,
}

/// What can be called. A statement call gives nothing.
#[derive(Clone, Copy)]
pub struct Callee<'a> {
    pub needs: Needs<'a>,
    pub gives: Option<TypeView<'a>>,
    pub kind: Kind,
}

fn basic_need(basic: Basic) -> Need<'static>
    ensures { need_of result ≡ basic_need basic }
{
    match basic {
        Basic::Int => Need::Exactly(TypeView::Int),
        Basic::Text => Need::Exactly(TypeView::Str),
        Basic::Error => Need::Exactly(TypeView::Error),
        Basic::Traced => Need::Traced,
    }
}

// What the parameter with this number has to be.
#[tactic(auto, using(crate::proofs::Needed::param_there, crate::proofs::Needed::param_none))]
fn param_need<'a>(params: &'a [Param], number: usize) -> Option<Need<'a>>
    ensures { option_map need_of result
        ≡ slice_get (map Exactly (param_types (params_of params.now))) number }
{
    match params.get(number) {
        Some(param) => Some(Need::Exactly(TypeView::of(&param.ty))),
        None => None,
    }
}

// What the argument with this number of a predefined call has to be.
#[tactic(auto, using(crate::proofs::Needed::needs_fixed))]
fn fixed_need<'a>(basics: &'a [Basic], number: usize) -> Option<Need<'a>>
    ensures { option_map need_of result ≡ slice_get (map basic_need basics.now) number }
{
    match basics.get(number) {
        Some(basic) => Some(basic_need(*basic)),
        None => None,
    }
}

impl<'a> Needs<'a> {
    /// How many arguments are needed.
    pub fn count(&self) -> usize
        ensures { result ≡ length (needs_view self.now) }
    {
        match self {
            Needs::Params(params) => params.len(),
            Needs::Fixed(basics) => basics.len(),
            Needs::One(_) => 1,
        }
    }

    /// What the argument with this number, from 0, has to be, where one is needed.
    pub fn at(&self, number: usize) -> Option<Need<'a>>
        ensures { option_map need_of result ≡ slice_get (needs_view self.now) number }
    {
        match self {
            Needs::Params(params) => param_need(params, number),
            Needs::Fixed(basics) => fixed_need(basics, number),
            Needs::One(ty) => {
                if number == 0 {
                    Some(Need::Exactly(TypeView::of(ty)))
                } else {
                    None
                }
            }
        }
    }

    /// Whether there are as many arguments as are needed.
    #[tactic(auto, using(crate::proofs::Needed::as_many_same, crate::proofs::Needed::as_many_other))]
    pub fn are_as_many(&self, args: &[Expr]) -> bool
        ensures { result ≡ as_many (exprs_of args.now) (needs_view self.now) }
    {
        if args.len() != self.count() {
            return false;
        }
        true
    }
}

fn value<'a>(needs: &'a [Basic], gives: TypeView<'a>) -> Callee<'a>
    ensures { callee_of result ≡ record
        { needs = map basic_need needs.now; gives = Some (found_of gives.entry); kind = Value } }
{
    Callee {
        needs: Needs::Fixed(needs),
        gives: Some(gives),
        kind: Kind::Value,
    }
}

fn effect<'a>(needs: &'a [Basic], gives: TypeView<'a>) -> Callee<'a>
    ensures { callee_of result ≡ record
        { needs = map basic_need needs.now; gives = Some (found_of gives.entry); kind = Effect } }
{
    Callee {
        needs: Needs::Fixed(needs),
        gives: Some(gives),
        kind: Kind::Effect,
    }
}

fn statement<'a>(needs: Needs<'a>) -> Callee<'a>
    ensures { callee_of result ≡ record
        { needs = needs_view needs.entry; gives = None; kind = Statement } }
{
    Callee {
        needs,
        gives: None,
        kind: Kind::Statement,
    }
}

/// What a predefined name calls.
pub fn predefined_callee<'a>(call: Predefined) -> Callee<'a>
    ensures { callee_of result ≡ predefined_callee call (signature call) }
{
    match call {
        Predefined::ToString => value(&[Basic::Int], TypeView::Str),
        Predefined::ToInt => value(&[Basic::Text], TypeView::Int),
        Predefined::Now => Callee {
            needs: Needs::Fixed(&[]),
            gives: Some(TypeView::Int),
            kind: Kind::Clock,
        },
        Predefined::EndOfStream => value(&[], TypeView::Error),
        Predefined::TimedOut => value(&[], TypeView::Error),
        Predefined::BrokenPromise => value(&[], TypeView::Error),
        Predefined::OperationCancelled => value(&[], TypeView::Error),
        Predefined::ActorCancelled => value(&[], TypeView::Error),
        Predefined::Error => value(&[Basic::Int], TypeView::Error),
        Predefined::RandomInt => effect(&[Basic::Int, Basic::Int], TypeView::Int),
        Predefined::Delay => effect(&[Basic::Int], TypeView::Future(ElementView::Void)),
        Predefined::Never => effect(&[], TypeView::Future(ElementView::Void)),
        Predefined::Listen => effect(&[Basic::Int], TypeView::FutureStream(ElementView::Packet)),
        Predefined::ReadFile => {
            effect(
                &[Basic::Text, Basic::Int, Basic::Int],
                TypeView::Future(ElementView::Text),
            )
        }
        Predefined::WriteFile => {
            effect(
                &[Basic::Text, Basic::Int, Basic::Text],
                TypeView::Future(ElementView::Void),
            )
        }
        Predefined::SyncFile => effect(&[Basic::Text], TypeView::Future(ElementView::Void)),
        Predefined::FileSize => effect(&[Basic::Text], TypeView::Future(ElementView::Int)),
        Predefined::Trace => statement(Needs::Fixed(&[Basic::Traced])),
        Predefined::SendTo => { statement(Needs::Fixed(&[Basic::Int, Basic::Int, Basic::Text])) }
    }
}

/// What a name of the program calls.
#[tactic(auto, using(crate::proofs::Needed::row_types, crate::proofs::Needed::actor_effect))]
pub fn declared_callee<'a>(name: &'a Name, meaning: Meaning<'a>) -> Callee<'a>
    ensures { callee_of result ≡ declared_callee name.now (meaning_of meaning.entry) }
{
    match meaning {
        Meaning::Record(fields) => Callee {
            needs: Needs::Params(fields),
            gives: Some(TypeView::Named(name.bytes())),
            kind: Kind::Value,
        },
        Meaning::Function(params, returns) => Callee {
            needs: Needs::Params(params),
            gives: Some(TypeView::of(returns)),
            kind: Kind::Function,
        },
        Meaning::Actor(params, Some(returns)) => Callee {
            needs: Needs::Params(params),
            gives: Some(TypeView::Future(ElementView::Written(returns))),
            kind: Kind::Effect,
        },
        Meaning::Actor(params, None) => statement(Needs::Params(params)),
    }
}

fn error_callee<'a>(method: Method) -> Option<Callee<'a>>
    ensures { option_map callee_of result ≡ called_by ErrorType (Some method) }
{
    match method {
        Method::Code => Some(value(&[], TypeView::Int)),
        _ => None,
    }
}

fn text_callee<'a>(method: Method) -> Option<Callee<'a>>
    ensures { option_map callee_of result ≡ called_by StringType (Some method) }
{
    match method {
        Method::Size => Some(value(&[], TypeView::Int)),
        Method::Substr => Some(value(&[Basic::Int, Basic::Int], TypeView::Str)),
        _ => None,
    }
}

fn future_callee<'a>(of: ElementView<'a>, method: Method) -> Option<Callee<'a>>
    ensures { option_map callee_of result
        ≡ called_by (FutureType (inner_of of.entry)) (Some method) }
{
    match method {
        Method::IsReady => Some(value(&[], TypeView::Bool)),
        Method::IsError => Some(value(&[], TypeView::Bool)),
        Method::Get => Some(value(&[], of.opened())),
        Method::Cancel => Some(statement(Needs::Fixed(&[]))),
        _ => None,
    }
}

// A statement call on what sends this type.
fn sending_callee<'a>(of: &'a Ty, method: Method) -> Option<Callee<'a>>
    ensures { option_map callee_of result ≡ sends (type_of of.now) method }
{
    match method {
        Method::Send => Some(statement(Needs::One(of))),
        Method::SendError => Some(statement(Needs::Fixed(&[Basic::Error]))),
        _ => None,
    }
}

fn promise_callee<'a>(of: &'a Ty, method: Method) -> Option<Callee<'a>>
    ensures { option_map callee_of result ≡ called_by (PromiseType (type_of of.now)) (Some method) }
{
    match method {
        Method::GetFuture => Some(value(&[], TypeView::Future(ElementView::Written(of)))),
        Method::IsSet => Some(value(&[], TypeView::Bool)),
        _ => sending_callee(of, method),
    }
}

fn stream_callee<'a>(of: &'a Ty, method: Method) -> Option<Callee<'a>>
    ensures { option_map callee_of result
        ≡ called_by (PromiseStreamType (type_of of.now)) (Some method) }
{
    match method {
        Method::GetFuture => Some(value(&[], TypeView::FutureStream(ElementView::Written(of)))),
        _ => sending_callee(of, method),
    }
}

fn vector_callee<'a>(of: &'a Ty, method: Method) -> Option<Callee<'a>>
    ensures { option_map callee_of result ≡ called_by (VectorType (type_of of.now)) (Some method) }
{
    match method {
        Method::Size => Some(value(&[], TypeView::Int)),
        Method::At => Some(value(&[Basic::Int], TypeView::of(of))),
        Method::PushBack => Some(statement(Needs::One(of))),
        Method::Clear => Some(statement(Needs::Fixed(&[]))),
        _ => None,
    }
}

fn method_callee<'a>(base: TypeView<'a>, method: Method) -> Option<Callee<'a>>
    ensures { option_map callee_of result ≡ called_by (found_of base.entry) (Some method) }
{
    match base {
        TypeView::Error => error_callee(method),
        TypeView::Str => text_callee(method),
        TypeView::Future(of) => future_callee(of, method),
        TypeView::Promise(of) => promise_callee(of, method),
        TypeView::PromiseStream(of) => stream_callee(of, method),
        TypeView::Vector(of) => vector_callee(of, method),
        TypeView::Int
        | TypeView::Bool
        | TypeView::Void
        | TypeView::Nothing
        | TypeView::Named(_)
        | TypeView::FutureStream(_) => None,
    }
}

/// What a name behind a base of this type calls, where it calls something.
pub fn called_on<'a>(base: Option<TypeView<'a>>, name: &[u8]) -> Option<Callee<'a>>
    ensures { option_map callee_of result ≡ called_on (option_map found_of base.entry) name.now }
{
    let base = base?;
    let method = predefined_method(name)?;
    method_callee(base, method)
}

// What an index calls on what is no vector.
fn index_statement<'a>() -> Callee<'a>
    ensures { callee_of result ≡ index_callee None }
{
    statement(Needs::Fixed(&[Basic::Int]))
}

/// What an index behind a base of this type calls, where there is one.
pub fn indexed_on<'a>(base: Option<TypeView<'a>>) -> Option<Callee<'a>>
    ensures { option_map callee_of result ≡ indexed_on (option_map found_of base.entry) }
{
    match base? {
        TypeView::Vector(of) => Some(value(&[Basic::Int], TypeView::of(of))),
        TypeView::Int | TypeView::Bool | TypeView::Str | TypeView::Void => Some(index_statement()),
        TypeView::Error | TypeView::Named(_) | TypeView::Nothing => Some(index_statement()),
        TypeView::Future(_) | TypeView::FutureStream(_) => Some(index_statement()),
        TypeView::Promise(_) | TypeView::PromiseStream(_) => Some(index_statement()),
    }
}
