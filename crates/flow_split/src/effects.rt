// Which calls have an effect.

ghost use Rattle.std.specs.Prelude.{◌≡◌, position};
ghost use Rattle.std.specs.Str.{bytes_eq};
ghost use Rattle.flow_tree.specs.View.{expr_of};
ghost use Rattle.flow_tree.specs.DeclView.{decl_of, program_of};
ghost use Rattle.flow_ast.specs.Typing.{is_effect, is_there};
ghost use Rattle.flow_meaning.specs.Evaluating.{effect_in};
ghost use Rattle.flow_meaning.specs.Source.{names_of};

use flow_ast::predefined::{Predefined, predefined_call};
use flow_tree::decl::{Decl, Program};
use flow_tree::expr::Expr;

// Whether a predefined call has an effect.
fn is_predefined_effect(call: Predefined) -> bool
    ensures { result ≡ is_effect call }
{
    match call {
        Predefined::RandomInt
        | Predefined::Delay
        | Predefined::Never
        | Predefined::Listen
        | Predefined::ReadFile
        | Predefined::WriteFile
        | Predefined::SyncFile
        | Predefined::FileSize => true,
        Predefined::ToString
        | Predefined::ToInt
        | Predefined::Now
        | Predefined::EndOfStream
        | Predefined::TimedOut
        | Predefined::BrokenPromise
        | Predefined::OperationCancelled
        | Predefined::ActorCancelled
        | Predefined::Error
        | Predefined::Trace
        | Predefined::SendTo => false,
    }
}

// Whether a program has an actor of this name.
fn has_actor(program: &Program, name: &[u8]) -> bool
    ensures { result ≡ is_there (position (bytes_eq name.now)
        (names_of (program_of program.now)).actors) }
{
    for decl in &program.decls {
        if let Decl::Actor(actor) = decl {
            if name == actor.name.name.bytes() {
                return true;
            }
        }
    }
    false
}

/// Whether an expression is an effect: a call of an actor of the program, or of a predefined effect.
pub fn is_effect(program: &Program, expr: &Expr) -> bool
    ensures { result ≡ is_there (effect_in (names_of (program_of program.now)) (expr_of expr.now)) }
{
    match expr {
        Expr::Call(name, _) => match predefined_call(name.name.bytes()) {
            Some(call) => is_predefined_effect(call),
            None => has_actor(program, name.name.bytes()),
        },
        Expr::Int(_) => false,
        Expr::Text(_) => false,
        Expr::Bool(_) => false,
        Expr::VoidValue => false,
        Expr::Var(_) => false,
        Expr::Field(_, _) => false,
        Expr::Method(_, _, _) => false,
        Expr::Index(_, _) => false,
        Expr::Not(_) => false,
        Expr::Neg(_) => false,
        Expr::Binary(_, _, _) => false,
        Expr::Paren(_) => false,
    }
}
