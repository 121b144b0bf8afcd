// Resolving expressions.

ghost use Rattle.std.specs.Prelude.{◌≡◌, ℕ, List, Option, None, IfOk, map};
ghost use Rattle.flow_tree.specs.View.{expr_of, exprs_of};
ghost use Rattle.flow_ast.specs.TypingNames.{named, call_names, constant_names};
ghost use Rattle.flow_code.specs.Resolved.Named.{naming_of};
ghost use Rattle.flow_code.specs.Resolved.Resolving.{variable_node, call_node, resolved, resolved_all};
ghost use Rattle.flow_code.specs.Resolved.View.{node_of, nodes_of};

use crate::expr::expr::Resolved;
use crate::expr::names::Names;
use flow_ast::predefined::{predefined_call, predefined_constant, predefined_method};
use flow_base::memory::NoMemory;
use flow_tree::expr::Expr;

/// Places by their names.
pub trait NamedPlaces {
    /// The number of the place of a name.
    ghost place_of: { Self → List ℕ → Option ℕ };

    /// The number of the place of a name, where it is one.
    fn place(&self, name: &[u8]) -> Option<u32>
        ensures { result ≡ place_of self.now name.now };
}

fn variable<P: NamedPlaces>(places: &P, name: &[u8]) -> Resolved
    ensures { node_of result ≡ variable_node (named constant_names name.now)
        (P.place_of places.now name.now) }
{
    if let Some(n) = predefined_constant(name) {
        return Resolved::Int(i64::from(n));
    }
    match places.place(name) {
        Some(place) => Resolved::Place(place),
        None => Resolved::Nothing,
    }
}

fn called(names: &Names<'_>, name: &[u8], args: Vec<Resolved>) -> Resolved
    ensures { node_of result ≡ call_node (named call_names name.now)
        ((naming_of names.now (λ _. None)).record_of name.now)
        ((naming_of names.now (λ _. None)).function name.now) (nodes_of args.items) }
{
    if let Some(call) = predefined_call(name) {
        return Resolved::Call(call, args);
    }
    if let Some(record) = names.record(name) {
        return Resolved::Record(record, args);
    }
    match names.function(name) {
        Some(function) => Resolved::Function(function, args),
        None => Resolved::Unknown(args),
    }
}

fn boxed(names: &Names<'_>, expr: Resolved) -> Result<Box<Resolved>, NoMemory>
    ensures { IfOk result (λ b. b.value ≡ expr) }
{
    Ok(Box::new(names.alloc, expr)?)
}

/// An expression with its names resolved.
#[cycle(resolve)]
pub fn resolve<P: NamedPlaces>(
    names: &Names<'_>,
    places: &P,
    expr: &Expr,
) -> Result<Resolved, NoMemory>
    ensures { IfOk result (λ r. node_of r
        ≡ resolved (naming_of names.now (P.place_of places.now)) (expr_of expr.now)) }
{
    match expr {
        Expr::Int(n) => Ok(Resolved::Int(*n)),
        Expr::Text(text) => Ok(Resolved::Text(text.copy(names.alloc)?)),
        Expr::Bool(b) => Ok(Resolved::Bool(*b)),
        Expr::VoidValue => Ok(Resolved::VoidValue),
        Expr::Var(name) => Ok(variable(places, name.name.bytes())),
        Expr::Call(name, args) => {
            let args = resolve_all(names, places, args)?;
            Ok(called(names, name.name.bytes(), args))
        }
        Expr::Field(of, name) => {
            let of = boxed(names, resolve(names, places, of)?)?;
            Ok(Resolved::Field(of, names.field(name.name.bytes())))
        }
        Expr::Method(of, name, args) => {
            let of = boxed(names, resolve(names, places, of)?)?;
            let args = resolve_all(names, places, args)?;
            Ok(Resolved::Method(of, predefined_method(name.name.bytes()), args))
        }
        Expr::Index(of, index) => {
            let of = boxed(names, resolve(names, places, of)?)?;
            let index = boxed(names, resolve(names, places, index)?)?;
            Ok(Resolved::Index(of, index))
        }
        Expr::Not(of) => Ok(Resolved::Not(boxed(names, resolve(names, places, of)?)?)),
        Expr::Neg(of) => Ok(Resolved::Neg(boxed(names, resolve(names, places, of)?)?)),
        Expr::Binary(op, left, right) => {
            let left = boxed(names, resolve(names, places, left)?)?;
            let right = boxed(names, resolve(names, places, right)?)?;
            Ok(Resolved::Binary(*op, left, right))
        }
        Expr::Paren(of) => resolve(names, places, of),
    }
}

/// Expressions with their names resolved, in the same order.
#[cycle(resolve)]
pub fn resolve_all<P: NamedPlaces>(
    names: &Names<'_>,
    places: &P,
    exprs: &[Expr],
) -> Result<Vec<Resolved>, NoMemory>
    ensures { IfOk result (λ v. map node_of v.items
        ≡ map (λ e. resolved (naming_of names.now (P.place_of places.now)) (expr_of e)) exprs.now) }
{
    let mut resolved = Vec::new(names.alloc);
    for expr in exprs {
        resolved.push(resolve(names, places, expr)?)?;
    }
    Ok(resolved)
}
