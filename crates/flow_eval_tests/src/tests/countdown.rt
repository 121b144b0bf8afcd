// A function that counts down, built as a tree, and calls of it.

ghost use Rattle.std.specs.Prelude.{◌≡◌, ◌∷◌, [], IfOk, Some, map, pos, codes};
ghost use Rattle.flow_base.specs.Names.{IsName};
ghost use Rattle.flow_tree.specs.Tree.{BinaryExpr, IntExpr, IntType};
ghost use Rattle.flow_tree.specs.Body.{Body, End, IfStmt, ReturnStmt};
ghost use Rattle.flow_tree.specs.declared.expr.Op.TheVariants.{Eq, Add, Sub};
ghost use Rattle.flow_tree.specs.View.{expr_of};
ghost use Rattle.flow_tree.specs.StmtView.{stmt_of, body_of};
ghost use Rattle.flow_tree.specs.DeclView.{function_of, param_of};
ghost use Rattle.flow_value.specs.View.{value_of};
ghost use Rattle.flow_value.specs.Values.{IntValue};
ghost use Rattle.flow_eval.specs.Variables.{var_of};
ghost use Rattle.flow_eval.specs.Example.{start, word, n, call_f, countdown, countdown_body};

use flow_ast::decl::{FunctionDecl, Param};
use flow_ast::expr::{Expr, Op};
use flow_ast::stmt::{Stmt, StmtKind};
use flow_ast::ty::{Ident, Ty};
use flow_base::errors::OUT_OF_RANGE;
use flow_base::memory::NoMemory;
use flow_base::name::Name;
use flow_base::place::Place;
use flow_eval::cells::NoCells;
use flow_eval::eval::{Plain, call, eval};
use flow_eval::evaluate::Turns;
use flow_eval::stop::Stop;
use flow_eval::variables::Var;
use flow_value::value::Value;
use std::alloc::Global;

const START: Place = Place {
    line: 1,
    column: 1,
    byte: 0,
};

fn word(alloc: Global, name: &[u8]) -> Result<Ident, NoMemory>
    requires { IsName name.now }
    ensures { IfOk result (λ i. i ≡ word name.now) }
{
    Ok(Ident {
        name: Name::new(alloc, name)?,
        at: START,
    })
}

fn variable(alloc: Global) -> Result<Expr, NoMemory>
    ensures { IfOk result (λ e. expr_of e ≡ n) }
{
    Ok(Expr::Var(word(alloc, b"n")?))
}

fn with_int(alloc: Global, op: Op, left: Expr, right: i64) -> Result<Expr, NoMemory>
    ensures { IfOk result (λ e. expr_of e ≡ BinaryExpr op (expr_of left) (IntExpr right)) }
{
    Ok(Expr::Binary(
        op,
        Box::new(alloc, left)?,
        Box::new(alloc, Expr::Int(right))?,
    ))
}

fn call_f(alloc: Global, arg: Expr) -> Result<Expr, NoMemory>
    ensures { IfOk result (λ e. expr_of e ≡ call_f (expr_of arg)) }
{
    let mut args = Vec::new(alloc);
    args.push(arg)?;
    Ok(Expr::Call(word(alloc, b"f")?, args))
}

fn returned(value: Expr) -> Stmt
    ensures { (k : Body) → stmt_of result k ≡ ReturnStmt start (Some (expr_of value)) k }
{
    Stmt {
        at: START,
        kind: StmtKind::Return(Some(value)),
    }
}

fn if_stmt(test: Expr, then: Vec<Stmt>) -> Stmt
    ensures { (k : Body) → stmt_of result k
        ≡ IfStmt start (expr_of test) (body_of then.items) k }
{
    Stmt {
        at: START,
        kind: StmtKind::If(test, then, None),
    }
}

fn zero(alloc: Global) -> Result<Vec<Stmt>, NoMemory>
    ensures { IfOk result (λ v. body_of v.items ≡ ReturnStmt start (Some (IntExpr (pos 0))) End) }
{
    Ok(vec![in alloc; returned(Expr::Int(0))]?)
}

fn zero_first(alloc: Global) -> Result<Stmt, NoMemory>
    ensures { let zero = IntExpr (pos 0) in IfOk result (λ s. (k : Body) → stmt_of s k
        ≡ IfStmt start (BinaryExpr Eq n zero) (ReturnStmt start (Some zero) End) k) }
{
    let test = with_int(alloc, Op::Eq, variable(alloc)?, 0)?;
    Ok(if_stmt(test, zero(alloc)?))
}

fn one_more(alloc: Global) -> Result<Expr, NoMemory>
    ensures { let one = IntExpr (pos 1) in IfOk result (λ e. expr_of e
        ≡ BinaryExpr Add (call_f (BinaryExpr Sub n one)) one) }
{
    let less = with_int(alloc, Op::Sub, variable(alloc)?, 1)?;
    with_int(alloc, Op::Add, call_f(alloc, less)?, 1)
}

fn body(alloc: Global) -> Result<Vec<Stmt>, NoMemory>
    ensures { IfOk result (λ v. body_of v.items ≡ countdown_body) }
{
    let mut stmts = Vec::new(alloc);
    stmts.push(zero_first(alloc)?)?;
    stmts.push(returned(one_more(alloc)?))?;
    Ok(stmts)
}

fn params(alloc: Global) -> Result<Vec<Param>, NoMemory>
    ensures { IfOk result (λ v. map param_of v.items
        ≡ record { ty = IntType; name = word (codes "n") } ∷ []) }
{
    let name = word(alloc, b"n")?;
    Ok(vec![in alloc; Param { ty: Ty::Int, name }]?)
}

fn countdown(alloc: Global) -> Result<FunctionDecl, NoMemory>
    ensures { IfOk result (λ f. function_of f ≡ countdown) }
{
    Ok(FunctionDecl {
        at: START,
        returns: Ty::Int,
        name: word(alloc, b"f")?,
        params: params(alloc)?,
        body: body(alloc)?,
        close: START,
    })
}

fn program(alloc: Global) -> Result<Plain, NoMemory>
    ensures { IfOk result (λ p. (p.records.items ≡ [])
        × (map function_of p.functions.items ≡ countdown ∷ [])) }
{
    let function = countdown(alloc)?;
    Ok(Plain {
        records: Vec::new(alloc),
        functions: vec![in alloc; function]?,
    })
}

fn int_arg(alloc: Global, m: i64) -> Result<Vec<Value>, NoMemory>
    ensures { IfOk result (λ v. map value_of v.items ≡ IntValue m ∷ []) }
{
    Ok(vec![in alloc; Value::Int(m)]?)
}

fn int_var(alloc: Global, m: i64) -> Result<Vec<Var>, NoMemory>
    ensures { IfOk result (λ v. map var_of v.items ≡ (codes "n", IntValue m) ∷ []) }
{
    let name = Name::new(alloc, b"n")?;
    let value = Value::Int(m);
    Ok(vec![in alloc; Var { name, value }]?)
}

#[tactic(auto, using(flow_eval::proofs::Examples::countdown_called))]
fn called(
    alloc: Global,
    plain: &Plain,
    m: i64,
    turns: &mut Turns,
) -> Result<Result<Value, Stop>, NoMemory>
    requires records { plain.now.records.items ≡ [] }
    requires functions { map function_of plain.now.functions.items ≡ countdown ∷ [] }
{
    let args = int_arg(alloc, m)?;
    Ok(call(alloc, plain, 0, args, turns))
}

fn is_int(came: &Result<Value, Stop>, n: i64) -> bool {
    match came {
        Ok(Value::Int(m)) => *m == n,
        _ => false,
    }
}

fn is_stop(came: &Result<Value, Stop>, wanted: Stop) -> bool {
    match came {
        Ok(_) => false,
        Err(stop) => *stop == wanted,
    }
}

// With as many turns as it needs.
fn needs_its_turns(alloc: Global, plain: &Plain) -> Result<bool, NoMemory>
    requires records { plain.now.records.items ≡ [] }
    requires functions { map function_of plain.now.functions.items ≡ countdown ∷ [] }
{
    let mut turns = Turns { left: 64 };
    let came = called(alloc, plain, 63, &mut turns)?;
    Ok(is_int(&came, 63) && turns.left == 0)
}

// With one turn less.
fn is_spent(alloc: Global, plain: &Plain) -> Result<bool, NoMemory>
    requires records { plain.now.records.items ≡ [] }
    requires functions { map function_of plain.now.functions.items ≡ countdown ∷ [] }
{
    let mut turns = Turns { left: 63 };
    let came = called(alloc, plain, 63, &mut turns)?;
    Ok(is_stop(&came, Stop::Spent))
}

// A call too deep.
fn is_out_of_range(alloc: Global, plain: &Plain) -> Result<bool, NoMemory>
    requires records { plain.now.records.items ≡ [] }
    requires functions { map function_of plain.now.functions.items ≡ countdown ∷ [] }
{
    let mut turns = Turns { left: 100 };
    let came = called(alloc, plain, 64, &mut turns)?;
    Ok(is_stop(&came, Stop::Thrown(OUT_OF_RANGE)) && turns.left == 35)
}

fn counts_down(alloc: Global, plain: &Plain) -> Result<bool, NoMemory>
    requires records { plain.now.records.items ≡ [] }
    requires functions { map function_of plain.now.functions.items ≡ countdown ∷ [] }
{
    Ok(needs_its_turns(alloc, plain)? && is_spent(alloc, plain)? && is_out_of_range(alloc, plain)?)
}

fn counts_down_alone(alloc: Global) -> Result<bool, NoMemory> {
    let plain = program(alloc)?;
    counts_down(alloc, &plain)
}

#[test]
fn calls_a_function(rt: HostRuntime) -> Result<(), NoMemory> {
    assert!(rt; counts_down_alone(rt.alloc())?);
    Ok(())
}

#[tactic(auto, using(flow_eval::proofs::Examples::countdown_typed))]
fn evaluates(alloc: Global, plain: &Plain) -> Result<bool, NoMemory>
    requires records { plain.now.records.items ≡ [] }
    requires functions { map function_of plain.now.functions.items ≡ countdown ∷ [] }
{
    let expr = call_f(alloc, variable(alloc)?)?;
    let vars = int_var(alloc, 5)?;
    let mut turns = Turns { left: 10 };
    let came = eval(alloc, plain, &expr, &vars, &NoCells, 3, &mut turns);
    Ok(is_int(&came, 5) && turns.left == 4)
}

fn evaluates_alone(alloc: Global) -> Result<bool, NoMemory> {
    let plain = program(alloc)?;
    evaluates(alloc, &plain)
}

#[test]
fn evaluates_over_variables(rt: HostRuntime) -> Result<(), NoMemory> {
    assert!(rt; evaluates_alone(rt.alloc())?);
    Ok(())
}
