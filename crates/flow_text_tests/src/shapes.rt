// Trees as texts.

use flow_base::memory::NoMemory;
use flow_tree::expr::{Expr, Op};
use flow_tree::ty::Ty;

fn op_text(op: Op) -> &'static str {
    match op {
        Op::Or => "||",
        Op::And => "&&",
        Op::Eq => "==",
        Op::Ne => "!=",
        Op::Lt => "<",
        Op::Le => "<=",
        Op::Gt => ">",
        Op::Ge => ">=",
        Op::Add => "+",
        Op::Sub => "-",
        Op::Mul => "*",
        Op::Div => "/",
        Op::Rem => "%",
    }
}

fn put(text: &str, out: &mut String) -> Result<(), NoMemory> {
    out.push_str(text)?;
    Ok(())
}

/// The tree of an expression: an operand by its first letter, a node by its sign and its parts.
#[cycle(shape)]
pub fn shape(expr: &Expr, out: &mut String) -> Result<(), NoMemory> {
    match expr {
        Expr::Int(n) => put(if *n == 1 { "1" } else { "2" }, out),
        Expr::Text(_) => put("t", out),
        Expr::Bool(_) => put("b", out),
        Expr::VoidValue => put("v", out),
        Expr::Var(_) => put("a", out),
        Expr::Call(_, args) => call(args, out),
        Expr::Field(of, _) => node("[.", of, "]", out),
        Expr::Method(of, _, args) => {
            node("[method", of, "", out)?;
            shapes(args, out)?;
            put("]", out)
        }
        Expr::Index(of, index) => {
            node("[at", of, "", out)?;
            node("", index, "]", out)
        }
        Expr::Not(of) => node("[!", of, "]", out),
        Expr::Neg(of) => node("[-", of, "]", out),
        Expr::Binary(op, left, right) => {
            put("[", out)?;
            node(op_text(*op), left, "", out)?;
            node("", right, "]", out)
        }
        Expr::Paren(of) => node("(", of, ")", out),
    }
}

#[cycle(shape)]
fn node(open: &str, of: &Expr, close: &str, out: &mut String) -> Result<(), NoMemory> {
    put(open, out)?;
    shape(of, out)?;
    put(close, out)
}

#[cycle(shape)]
fn call(args: &[Expr], out: &mut String) -> Result<(), NoMemory> {
    put("[call", out)?;
    shapes(args, out)?;
    put("]", out)
}

#[cycle(shape)]
fn shapes(exprs: &[Expr], out: &mut String) -> Result<(), NoMemory> {
    for expr in exprs {
        shape(expr, out)?;
    }
    Ok(())
}

/// The tree of a type: its name, and what stands in its brackets.
#[cycle(type_shape)]
pub fn type_shape(ty: &Ty, out: &mut String) -> Result<(), NoMemory> {
    match ty {
        Ty::Int => put("int", out),
        Ty::Bool => put("bool", out),
        Ty::Str => put("string", out),
        Ty::Void => put("Void", out),
        Ty::Error => put("Error", out),
        Ty::Named(_) => put("a", out),
        Ty::Future(of) => type_node("[F ", of, out),
        Ty::FutureStream(of) => type_node("[FS ", of, out),
        Ty::Promise(of) => type_node("[P ", of, out),
        Ty::PromiseStream(of) => type_node("[PS ", of, out),
        Ty::Vector(of) => type_node("[V ", of, out),
    }
}

#[cycle(type_shape)]
fn type_node(open: &str, of: &Ty, out: &mut String) -> Result<(), NoMemory> {
    put(open, out)?;
    type_shape(of, out)?;
    put("]", out)
}
