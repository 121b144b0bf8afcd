// Types of expressions.

ghost use Rattle.std.specs.Prelude.{◌≡◌, ℕ, List, [], ◌∷◌, Option, IfOk, map, find, if◌then◌else◌};
ghost use Rattle.std.specs.Option.{option_map, option_copied};
ghost use Rattle.std.specs.Str.{bytes_eq};
ghost use Rattle.flow_tree.specs.Tree.{TypeTree, IntType, FutureType};
ghost use Rattle.flow_tree.specs.View.{type_of, expr_of, exprs_of};
ghost use Rattle.flow_tree.specs.DeclView.{param_of, record_of, function_of, actor_of};
ghost use Rattle.flow_ast.specs.TypingNames.{named, constant_names, method_names};
ghost use Rattle.flow_ast.specs.Typing.{method_in, is_packet, packet_fields, record_field, variable_in, sum_type, order_type, equality_type, same_type, same_types, sign_type, binary_type, bool_only, int_only, applied, signature, method_signature, error_method, text_method, future_method, promise_method, stream_method, vector_method, record_named, routine_named, param_named, field_type, call_signature, declared_call, variable_type, param_types, with_type, type_in, types_in};
ghost use Rattle.flow_ast.specs.TypingView.{scope_of, found_type, found_types};

use crate::predefined::{
    Method, Predefined, predefined_call, predefined_constant, predefined_method,
};
use crate::scope::{ExprType, Scope};
use flow_base::memory::NoMemory;
use flow_base::name::Name;
use flow_tree::decl::{ActorDecl, FunctionDecl, Param, RecordDecl};
use flow_tree::expr::{Expr, Op};
use flow_tree::ty::Ty;
use std::alloc::Global;

/// Whether two types are the same.
pub fn same_type(left: &Ty, right: &Ty) -> bool
    ensures { result ≡ same_type (type_of left.now) (type_of right.now) }
{
    match left {
        Ty::Int => matches!(right, Ty::Int),
        Ty::Bool => matches!(right, Ty::Bool),
        Ty::Str => matches!(right, Ty::Str),
        Ty::Void => matches!(right, Ty::Void),
        Ty::Error => matches!(right, Ty::Error),
        Ty::Named(name) => match right {
            Ty::Named(other) => name.bytes() == other.bytes(),
            Ty::Int
            | Ty::Bool
            | Ty::Str
            | Ty::Void
            | Ty::Error
            | Ty::Future(_)
            | Ty::FutureStream(_)
            | Ty::Promise(_)
            | Ty::PromiseStream(_)
            | Ty::Vector(_) => false,
        },
        Ty::Future(of) => match right {
            Ty::Future(other) => same_type(of, other),
            Ty::Int
            | Ty::Bool
            | Ty::Str
            | Ty::Void
            | Ty::Error
            | Ty::Named(_)
            | Ty::FutureStream(_)
            | Ty::Promise(_)
            | Ty::PromiseStream(_)
            | Ty::Vector(_) => false,
        },
        Ty::FutureStream(of) => match right {
            Ty::FutureStream(other) => same_type(of, other),
            Ty::Int
            | Ty::Bool
            | Ty::Str
            | Ty::Void
            | Ty::Error
            | Ty::Named(_)
            | Ty::Future(_)
            | Ty::Promise(_)
            | Ty::PromiseStream(_)
            | Ty::Vector(_) => false,
        },
        Ty::Promise(of) => match right {
            Ty::Promise(other) => same_type(of, other),
            Ty::Int
            | Ty::Bool
            | Ty::Str
            | Ty::Void
            | Ty::Error
            | Ty::Named(_)
            | Ty::Future(_)
            | Ty::FutureStream(_)
            | Ty::PromiseStream(_)
            | Ty::Vector(_) => false,
        },
        Ty::PromiseStream(of) => match right {
            Ty::PromiseStream(other) => same_type(of, other),
            Ty::Int
            | Ty::Bool
            | Ty::Str
            | Ty::Void
            | Ty::Error
            | Ty::Named(_)
            | Ty::Future(_)
            | Ty::FutureStream(_)
            | Ty::Promise(_)
            | Ty::Vector(_) => false,
        },
        Ty::Vector(of) => match right {
            Ty::Vector(other) => same_type(of, other),
            Ty::Int
            | Ty::Bool
            | Ty::Str
            | Ty::Void
            | Ty::Error
            | Ty::Named(_)
            | Ty::Future(_)
            | Ty::FutureStream(_)
            | Ty::Promise(_)
            | Ty::PromiseStream(_) => false,
        },
    }
}

/// What has a name, by which it is looked up.
pub trait Declared {
    ghost name_of: { Self → List ℕ };

    /// Its name.
    fn name(&self) -> &Name
        ensures { result.now ≡ name_of self.now };
}

impl Declared for RecordDecl {
    ghost name_of = { λ r. r.name.name };

    fn name(&self) -> &Name {
        &self.name.name
    }
}

impl Declared for FunctionDecl {
    ghost name_of = { λ f. f.name.name };

    fn name(&self) -> &Name {
        &self.name.name
    }
}

impl Declared for ActorDecl {
    ghost name_of = { λ a. a.name.name };

    fn name(&self) -> &Name {
        &self.name.name
    }
}

impl Declared for Param {
    ghost name_of = { λ p. p.name.name };

    fn name(&self) -> &Name {
        &self.name.name
    }
}

/// The first of these with this name, where there is one.
pub fn find_named<'a, T: Declared>(items: &'a [T], name: &[u8]) -> Option<&'a T>
    ensures { option_copied result ≡ find (λ x. bytes_eq (T.name_of x) name.now) items.now }
{
    for item in items {
        if item.name().bytes() == name {
            return Some(item);
        }
    }
    None
}

/// What has a type.
trait HasType {
    ghost type_at: { Self → TypeTree };

    fn ty(&self) -> &Ty
        ensures { type_of result.now ≡ type_at self.now };
}

impl HasType for Ty {
    ghost type_at = { type_of };

    fn ty(&self) -> &Ty {
        self
    }
}

impl HasType for Param {
    ghost type_at = { λ p. type_of p.ty };

    fn ty(&self) -> &Ty {
        &self.ty
    }
}

// Whether the arguments are as many as the parameters, each of its parameter's type.
fn fit<P: HasType>(params: &[P], types: &[Ty]) -> bool
    ensures { result ≡ same_types (map P.type_at params.now) (map type_of types.now) }
{
    if params.len() != types.len() {
        return false;
    }
    for (i, param) in params.iter().enumerate() {
        if !same_type(param.ty(), &types[i]) {
            return false;
        }
    }
    true
}

fn given_if(fits: bool, gives: Ty) -> ExprType
    ensures { found_type result ≡ (if fits then Some (type_of gives) else None) }
{
    if fits {
        return ExprType::Is(gives);
    }
    ExprType::None
}

fn boxed(alloc: Global, ty: Ty) -> Result<Box<Ty>, NoMemory>
    ensures { IfOk result (λ b. b.value ≡ ty) }
{
    Ok(Box::new(alloc, ty)?)
}

fn fit_none(types: &[Ty]) -> bool
    ensures { result ≡ same_types [] (map type_of types.now) }
{
    types.is_empty()
}

fn fit_int(types: &[Ty]) -> bool
    ensures { result ≡ same_types (IntType ∷ []) (map type_of types.now) }
{
    fit(&[Ty::Int], types)
}

fn predefined_type(alloc: Global, call: Predefined, types: &[Ty]) -> Result<ExprType, NoMemory>
    ensures { IfOk result (λ t. found_type t ≡ applied (signature call) (map type_of types.now)) }
{
    match call {
        Predefined::ToString => Ok(given_if(fit_int(types), Ty::Str)),
        Predefined::ToInt => Ok(given_if(fit(&[Ty::Str], types), Ty::Int)),
        Predefined::Now => Ok(given_if(fit_none(types), Ty::Int)),
        Predefined::EndOfStream => Ok(given_if(fit_none(types), Ty::Error)),
        Predefined::TimedOut => Ok(given_if(fit_none(types), Ty::Error)),
        Predefined::BrokenPromise => Ok(given_if(fit_none(types), Ty::Error)),
        Predefined::OperationCancelled => Ok(given_if(fit_none(types), Ty::Error)),
        Predefined::ActorCancelled => Ok(given_if(fit_none(types), Ty::Error)),
        Predefined::Error => Ok(given_if(fit_int(types), Ty::Error)),
        Predefined::RandomInt => Ok(given_if(fit(&[Ty::Int, Ty::Int], types), Ty::Int)),
        Predefined::Delay => future_if(alloc, fit_int(types), Ty::Void),
        Predefined::Never => future_if(alloc, fit_none(types), Ty::Void),
        Predefined::Listen => listen_type(alloc, types),
        Predefined::ReadFile => {
            future_if(alloc, fit(&[Ty::Str, Ty::Int, Ty::Int], types), Ty::Str)
        }
        Predefined::WriteFile => {
            future_if(alloc, fit(&[Ty::Str, Ty::Int, Ty::Str], types), Ty::Void)
        }
        Predefined::SyncFile => future_if(alloc, fit(&[Ty::Str], types), Ty::Void),
        Predefined::FileSize => future_if(alloc, fit(&[Ty::Str], types), Ty::Int),
        Predefined::Trace => Ok(ExprType::None),
        Predefined::SendTo => Ok(ExprType::None),
    }
}

fn future_if(alloc: Global, fits: bool, gives: Ty) -> Result<ExprType, NoMemory>
    ensures { IfOk result (λ t. found_type t
        ≡ (if fits then Some (FutureType (type_of gives)) else None)) }
{
    let future = Ty::Future(boxed(alloc, gives)?);
    Ok(given_if(fits, future))
}

fn listen_type(alloc: Global, types: &[Ty]) -> Result<ExprType, NoMemory>
    ensures { IfOk result (λ t. found_type t
        ≡ applied (signature Predefined.Listen) (map type_of types.now)) }
{
    let packet = Ty::Named(Name::new(alloc, b"Packet")?);
    let packets = Ty::FutureStream(boxed(alloc, packet)?);
    Ok(given_if(fit_int(types), packets))
}

fn error_method(method: Method, types: &[Ty]) -> ExprType
    ensures { found_type result ≡ applied (error_method method) (map type_of types.now) }
{
    match method {
        Method::Code => given_if(fit_none(types), Ty::Int),
        _ => ExprType::None,
    }
}

fn text_method(method: Method, types: &[Ty]) -> ExprType
    ensures { found_type result ≡ applied (text_method method) (map type_of types.now) }
{
    match method {
        Method::Size => given_if(fit_none(types), Ty::Int),
        Method::Substr => given_if(fit(&[Ty::Int, Ty::Int], types), Ty::Str),
        _ => ExprType::None,
    }
}

fn future_method(of: Box<Ty>, method: Method, types: &[Ty]) -> ExprType
    ensures { found_type result ≡ applied (future_method (type_of of.value) method)
        (map type_of types.now) }
{
    match method {
        Method::IsReady => given_if(fit_none(types), Ty::Bool),
        Method::IsError => given_if(fit_none(types), Ty::Bool),
        Method::Get => given_if(fit_none(types), Box::into_inner(of)),
        _ => ExprType::None,
    }
}

fn promise_method(of: Box<Ty>, method: Method, types: &[Ty]) -> ExprType
    ensures { found_type result ≡ applied (promise_method (type_of of.value) method)
        (map type_of types.now) }
{
    match method {
        Method::GetFuture => given_if(fit_none(types), Ty::Future(of)),
        Method::IsSet => given_if(fit_none(types), Ty::Bool),
        _ => ExprType::None,
    }
}

fn stream_method(of: Box<Ty>, method: Method, types: &[Ty]) -> ExprType
    ensures { found_type result ≡ applied (stream_method (type_of of.value) method)
        (map type_of types.now) }
{
    match method {
        Method::GetFuture => given_if(fit_none(types), Ty::FutureStream(of)),
        _ => ExprType::None,
    }
}

fn vector_method(of: Box<Ty>, method: Method, types: &[Ty]) -> ExprType
    ensures { found_type result ≡ applied (vector_method (type_of of.value) method)
        (map type_of types.now) }
{
    match method {
        Method::Size => given_if(fit_none(types), Ty::Int),
        Method::At => given_if(fit_int(types), Box::into_inner(of)),
        _ => ExprType::None,
    }
}

fn method_type(base: Ty, method: Method, types: &[Ty]) -> ExprType
    ensures { found_type result ≡ applied (method_signature (type_of base) method)
        (map type_of types.now) }
{
    match base {
        Ty::Error => error_method(method, types),
        Ty::Str => text_method(method, types),
        Ty::Future(of) => future_method(of, method, types),
        Ty::Promise(of) => promise_method(of, method, types),
        Ty::PromiseStream(of) => stream_method(of, method, types),
        Ty::Vector(of) => vector_method(of, method, types),
        Ty::Int | Ty::Bool | Ty::Void | Ty::Named(_) | Ty::FutureStream(_) => ExprType::None,
    }
}

fn record_at<'a>(records: &'a [RecordDecl], name: &[u8]) -> Option<&'a RecordDecl>
    ensures { option_map record_of (option_copied result)
        ≡ record_named (map record_of records.now) name.now }
{
    find_named(records, name)
}

fn function_at<'a>(functions: &'a [FunctionDecl], name: &[u8]) -> Option<&'a FunctionDecl>
    ensures { option_map function_of (option_copied result)
        ≡ routine_named (map function_of functions.now) name.now }
{
    find_named(functions, name)
}

fn actor_at<'a>(actors: &'a [ActorDecl], name: &[u8]) -> Option<&'a ActorDecl>
    ensures { option_map actor_of (option_copied result)
        ≡ routine_named (map actor_of actors.now) name.now }
{
    find_named(actors, name)
}

fn param_at<'a>(params: &'a [Param], name: &[u8]) -> Option<&'a Param>
    ensures { option_map param_of (option_copied result)
        ≡ param_named (map param_of params.now) name.now }
{
    find_named(params, name)
}

fn fit_params(params: &[Param], types: &[Ty]) -> bool
    ensures { result ≡ same_types (param_types (map param_of params.now)) (map type_of types.now) }
{
    fit(params, types)
}

/// Whether a name is that of the predefined record.
pub fn is_packet(name: &[u8]) -> bool
    ensures { result ≡ is_packet name.now }
{
    name == b"Packet".as_slice()
}

#[tactic(auto, using(crate::proofs::Written::actor_gives_future))]
fn declared_type(
    alloc: Global,
    scope: &Scope,
    name: &Name,
    types: &[Ty],
) -> Result<ExprType, NoMemory>
    ensures { IfOk result (λ t. found_type t
        ≡ applied (declared_call (scope_of scope.now) name.now) (map type_of types.now)) }
{
    if is_packet(name.bytes()) {
        let fits = fit(&[Ty::Int, Ty::Int, Ty::Str], types);
        return Ok(given_if(fits, Ty::Named(name.copy(alloc)?)));
    }
    if let Some(record) = record_at(&scope.records, name.bytes()) {
        let fits = fit_params(&record.fields, types);
        return Ok(given_if(fits, Ty::Named(name.copy(alloc)?)));
    }
    if let Some(function) = function_at(&scope.functions, name.bytes()) {
        let fits = fit_params(&function.params, types);
        return Ok(given_if(fits, function.returns.copy(alloc)?));
    }
    if let Some(actor) = actor_at(&scope.actors, name.bytes()) {
        let fits = fit_params(&actor.params, types);
        return match &actor.returns {
            Some(of) => future_if(alloc, fits, of.copy(alloc)?),
            None => Ok(ExprType::None),
        };
    }
    Ok(ExprType::None)
}

fn call_type(alloc: Global, scope: &Scope, name: &Name, types: &[Ty]) -> Result<ExprType, NoMemory>
    ensures { IfOk result (λ t. found_type t
        ≡ applied (call_signature (scope_of scope.now) name.now) (map type_of types.now)) }
{
    match predefined_call(name.bytes()) {
        Some(call) => predefined_type(alloc, call, types),
        None => declared_type(alloc, scope, name, types),
    }
}

fn variable_type(alloc: Global, vars: &[Param], name: &[u8]) -> Result<ExprType, NoMemory>
    ensures { IfOk result (λ t. found_type t
        ≡ variable_in (map param_of vars.now) name.now (named constant_names name.now)) }
{
    if predefined_constant(name).is_some() {
        return Ok(ExprType::Is(Ty::Int));
    }
    match param_at(vars, name) {
        Some(var) => Ok(ExprType::Is(var.ty.copy(alloc)?)),
        None => Ok(ExprType::None),
    }
}

fn packet_field(name: &[u8]) -> ExprType
    ensures { found_type result ≡ named packet_fields name.now }
{
    if name == b"from".as_slice() {
        return ExprType::Is(Ty::Int);
    }
    if name == b"port".as_slice() {
        return ExprType::Is(Ty::Int);
    }
    given_if(name == b"text".as_slice(), Ty::Str)
}

fn record_field(
    alloc: Global,
    records: &[RecordDecl],
    base: &[u8],
    name: &[u8],
) -> Result<ExprType, NoMemory>
    ensures { IfOk result (λ t. found_type t
        ≡ record_field (map record_of records.now) base.now name.now) }
{
    if is_packet(base) {
        return Ok(packet_field(name));
    }
    let Some(record) = record_at(records, base) else {
        return Ok(ExprType::None);
    };
    match param_at(&record.fields, name) {
        Some(field) => Ok(ExprType::Is(field.ty.copy(alloc)?)),
        None => Ok(ExprType::None),
    }
}

fn field_type(
    alloc: Global,
    records: &[RecordDecl],
    base: &Ty,
    name: &[u8],
) -> Result<ExprType, NoMemory>
    ensures { IfOk result (λ t. found_type t
        ≡ field_type (map record_of records.now) (type_of base.now) name.now) }
{
    match base {
        Ty::Named(record) => record_field(alloc, records, record.bytes(), name),
        Ty::Int | Ty::Bool | Ty::Str | Ty::Void | Ty::Error => Ok(ExprType::None),
        Ty::Future(_) | Ty::FutureStream(_) | Ty::Promise(_) | Ty::PromiseStream(_) => {
            Ok(ExprType::None)
        }
        Ty::Vector(_) => Ok(ExprType::None),
    }
}

fn not_type(of: &Ty) -> ExprType
    ensures { found_type result ≡ bool_only (type_of of.now) }
{
    given_if(matches!(of, Ty::Bool), Ty::Bool)
}

fn neg_type(of: &Ty) -> ExprType
    ensures { found_type result ≡ int_only (type_of of.now) }
{
    given_if(matches!(of, Ty::Int), Ty::Int)
}

fn sum_type(of: &Ty) -> ExprType
    ensures { found_type result ≡ sum_type (type_of of.now) }
{
    match of {
        Ty::Int => ExprType::Is(Ty::Int),
        Ty::Str => ExprType::Is(Ty::Str),
        _ => ExprType::None,
    }
}

fn order_type(of: &Ty) -> ExprType
    ensures { found_type result ≡ order_type (type_of of.now) }
{
    given_if(matches!(of, Ty::Int | Ty::Str), Ty::Bool)
}

fn equality_type(of: &Ty) -> ExprType
    ensures { found_type result ≡ equality_type (type_of of.now) }
{
    given_if(matches!(of, Ty::Int | Ty::Bool | Ty::Str), Ty::Bool)
}

fn sign_type(op: Op, of: &Ty) -> ExprType
    ensures { found_type result ≡ sign_type op (type_of of.now) }
{
    match op {
        Op::Or | Op::And => not_type(of),
        Op::Eq | Op::Ne => equality_type(of),
        Op::Lt | Op::Le | Op::Gt | Op::Ge => order_type(of),
        Op::Add => sum_type(of),
        Op::Sub | Op::Mul | Op::Div | Op::Rem => neg_type(of),
    }
}

fn binary_type(op: Op, left: &Ty, right: &Ty) -> ExprType
    ensures { found_type result ≡ binary_type op (type_of left.now) (type_of right.now) }
{
    if same_type(left, right) {
        return sign_type(op, left);
    }
    ExprType::None
}

fn called_method(base: Ty, name: &[u8], types: &[Ty]) -> ExprType
    ensures { found_type result ≡ applied (method_in (type_of base) (named method_names name.now))
        (map type_of types.now) }
{
    match predefined_method(name) {
        Some(method) => method_type(base, method, types),
        None => ExprType::None,
    }
}

/// The type of an expression by the tables of the language page, or that it has none: a name, a field
/// or a method that is not in force, an operand or argument of a wrong type, a wrong number of
/// arguments, or a statement call, which gives nothing. An effect has its type wherever it stands.
#[cycle(types)]
pub fn type_expr(alloc: Global, expr: &Expr, scope: &Scope) -> Result<ExprType, NoMemory>
    ensures { IfOk result (λ t. found_type t ≡ type_in (scope_of scope.now) (expr_of expr.now)) }
{
    match expr {
        Expr::Int(_) => Ok(ExprType::Is(Ty::Int)),
        Expr::Text(_) => Ok(ExprType::Is(Ty::Str)),
        Expr::Bool(_) => Ok(ExprType::Is(Ty::Bool)),
        Expr::VoidValue => Ok(ExprType::Is(Ty::Void)),
        Expr::Var(name) => variable_type(alloc, &scope.vars, name.name.bytes()),
        Expr::Call(name, args) => {
            let Some(types) = arg_types(alloc, args, scope)? else {
                return Ok(ExprType::None);
            };
            call_type(alloc, scope, &name.name, &types)
        }
        Expr::Field(of, name) => {
            let ExprType::Is(base) = type_expr(alloc, of, scope)? else {
                return Ok(ExprType::None);
            };
            field_type(alloc, &scope.records, &base, name.name.bytes())
        }
        Expr::Method(of, name, args) => {
            let ExprType::Is(base) = type_expr(alloc, of, scope)? else {
                return Ok(ExprType::None);
            };
            let Some(types) = arg_types(alloc, args, scope)? else {
                return Ok(ExprType::None);
            };
            Ok(called_method(base, name.name.bytes(), &types))
        }
        Expr::Index(of, index) => {
            let ExprType::Is(base) = type_expr(alloc, of, scope)? else {
                return Ok(ExprType::None);
            };
            let ExprType::Is(index) = type_expr(alloc, index, scope)? else {
                return Ok(ExprType::None);
            };
            Ok(method_type(base, Method::At, &[index]))
        }
        Expr::Not(of) => {
            let ExprType::Is(of) = type_expr(alloc, of, scope)? else {
                return Ok(ExprType::None);
            };
            Ok(not_type(&of))
        }
        Expr::Neg(of) => {
            let ExprType::Is(of) = type_expr(alloc, of, scope)? else {
                return Ok(ExprType::None);
            };
            Ok(neg_type(&of))
        }
        Expr::Binary(op, left, right) => {
            let ExprType::Is(left) = type_expr(alloc, left, scope)? else {
                return Ok(ExprType::None);
            };
            let ExprType::Is(right) = type_expr(alloc, right, scope)? else {
                return Ok(ExprType::None);
            };
            Ok(binary_type(*op, &left, &right))
        }
        Expr::Paren(of) => type_expr(alloc, of, scope),
    }
}

#[cycle(types)]
fn arg_types(alloc: Global, args: &[Expr], scope: &Scope) -> Result<Option<Vec<Ty>>, NoMemory>
    ensures { IfOk result (λ o. found_types o ≡ types_in (scope_of scope.now) (exprs_of args.now)) }
{
    let mut types = Vec::new(alloc);
    for arg in args {
        let ExprType::Is(ty) = type_expr(alloc, arg, scope)? else {
            return Ok(None);
        };
        types.push(ty)?;
    }
    Ok(Some(types))
}
