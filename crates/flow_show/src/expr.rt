// The texts of types and expressions.

ghost use Rattle.std.specs.Prelude.{◌≡◌, ◌++◌, codes, IfOk};
ghost use Rattle.flow_tree.specs.Tree.{indexed};
ghost use Rattle.flow_tree.specs.View.{type_of, result_of, expr_of, exprs_of};
ghost use Rattle.flow_tree.specs.Grammar.{op_sign};
ghost use Rattle.flow_tree.specs.Spelling.{sign_bytes};
ghost use Rattle.flow_tree.specs.Canon.{type_text, bool_text, minus_gap, expr_text, args_text, more_args_text};

use crate::source::Source;
use flow_base::memory::NoMemory;
use flow_tree::expr::{Expr, Op};
use flow_tree::token::Sign;
use flow_tree::ty::{Ident, Ty};
use itoa::Buffer;

// The sign between two operands.
fn sign(op: Op) -> Sign
    ensures { result ≡ op_sign op }
{
    match op {
        Op::Or => Sign::OrOr,
        Op::And => Sign::AndAnd,
        Op::Eq => Sign::Equal,
        Op::Ne => Sign::NotEqual,
        Op::Lt => Sign::Less,
        Op::Le => Sign::LessEqual,
        Op::Gt => Sign::Greater,
        Op::Ge => Sign::GreaterEqual,
        Op::Add => Sign::Plus,
        Op::Sub => Sign::Minus,
        Op::Mul => Sign::Star,
        Op::Div => Sign::Slash,
        Op::Rem => Sign::Percent,
    }
}

impl Source {
    /// A type.
    #[cycle(type_of)]
    pub fn put_type(&mut self, ty: &Ty) -> Result<(), NoMemory>
        ensures { IfOk result (λ _. self.new ≡ self.old ++ type_text (type_of ty.now)) }
    {
        match ty {
            Ty::Int => self.put(b"int"),
            Ty::Bool => self.put(b"bool"),
            Ty::Str => self.put(b"string"),
            Ty::Void => self.put(b"Void"),
            Ty::Error => self.put(b"Error"),
            Ty::Named(name) => self.put(name.bytes()),
            Ty::Future(of) => self.put_wrapped(b"Future<", of),
            Ty::FutureStream(of) => self.put_wrapped(b"FutureStream<", of),
            Ty::Promise(of) => self.put_wrapped(b"Promise<", of),
            Ty::PromiseStream(of) => self.put_wrapped(b"PromiseStream<", of),
            Ty::Vector(of) => self.put_wrapped(b"vector<", of),
        }
    }

    /// The result of a class, which a void one has none of.
    pub fn put_result(&mut self, gives: &Option<Ty>) -> Result<(), NoMemory>
        ensures { IfOk result (λ _. self.new ≡ self.old ++ type_text (result_of gives.now)) }
    {
        match gives {
            Some(ty) => self.put_type(ty),
            None => self.put(b"void"),
        }
    }

    // A type of one argument behind its word and `<`.
    #[cycle(type_of)]
    fn put_wrapped(&mut self, front: &[u8], of: &Ty) -> Result<(), NoMemory>
        ensures { IfOk result (λ _. self.new
            ≡ self.old ++ (front.now ++ type_text (type_of of.now) ++ codes ">")) }
    {
        self.put(front)?;
        self.put_type(of)?;
        self.put(b">")
    }

    fn put_bool(&mut self, value: bool) -> Result<(), NoMemory>
        ensures { IfOk result (λ _. self.new ≡ self.old ++ bool_text value) }
    {
        if value {
            self.put(b"true")
        } else {
            self.put(b"false")
        }
    }

    // A space before another unary `-`, which would be the sign `--` without it.
    fn put_gap(&mut self, operand: &Expr) -> Result<(), NoMemory>
        ensures { IfOk result (λ _. self.new ≡ self.old ++ minus_gap (expr_of operand.now)) }
    {
        if matches!(operand, Expr::Neg(_)) {
            self.put(b" ")
        } else {
            Ok(())
        }
    }

    /// An expression.
    #[cycle(expr)]
    pub fn put_expr(&mut self, expr: &Expr) -> Result<(), NoMemory>
        ensures { IfOk result (λ _. self.new ≡ self.old ++ expr_text (expr_of expr.now)) }
    {
        match expr {
            Expr::Int(n) => self.put(Buffer::new().format(*n).as_bytes()),
            Expr::Text(text) => self.put_quoted(text.bytes()),
            Expr::Bool(value) => self.put_bool(*value),
            Expr::VoidValue => self.put(b"Void()"),
            Expr::Var(name) => self.put(name.name.bytes()),
            Expr::Call(name, args) => self.put_function_call(name, args),
            Expr::Field(of, name) => self.put_field(of, name),
            Expr::Method(of, name, args) => {
                self.put_field(of, name)?;
                self.put_args(args)
            }
            Expr::Index(of, index) => self.put_index(of, index),
            Expr::Not(of) => self.put_not(of),
            Expr::Neg(of) => self.put_negated(of),
            Expr::Binary(op, left, right) => {
                self.put_expr(left)?;
                self.put_right(*op, right)
            }
            Expr::Paren(of) => {
                self.put(b"(")?;
                self.put_expr(of)?;
                self.put(b")")
            }
        }
    }

    // An element of an operand.
    #[cycle(expr)]
    fn put_index(&mut self, of: &Expr, index: &Expr) -> Result<(), NoMemory>
        ensures { IfOk result (λ _. self.new
            ≡ self.old ++ expr_text (indexed (expr_of of.now) (expr_of index.now))) }
    {
        self.put_expr(of)?;
        self.put(b"[")?;
        self.put_expr(index)?;
        self.put(b"]")
    }

    // A name and arguments.
    #[cycle(expr)]
    fn put_function_call(&mut self, name: &Ident, args: &[Expr]) -> Result<(), NoMemory>
        ensures { IfOk result (λ _. self.new ≡ self.old
            ++ (name.now.name ++ codes "(" ++ args_text (exprs_of args.now) ++ codes ")")) }
    {
        self.put(name.name.bytes())?;
        self.put_args(args)
    }

    // A field of an operand.
    #[cycle(expr)]
    fn put_field(&mut self, of: &Expr, name: &Ident) -> Result<(), NoMemory>
        ensures { IfOk result (λ _. self.new
            ≡ self.old ++ (expr_text (expr_of of.now) ++ codes "." ++ name.now.name)) }
    {
        self.put_expr(of)?;
        self.put(b".")?;
        self.put(name.name.bytes())
    }

    // A sign `!` and its operand.
    #[cycle(expr)]
    fn put_not(&mut self, of: &Expr) -> Result<(), NoMemory>
        ensures { IfOk result (λ _. self.new
            ≡ self.old ++ (codes "!" ++ expr_text (expr_of of.now))) }
    {
        self.put(b"!")?;
        self.put_expr(of)
    }

    // A unary sign `-` and its operand.
    #[cycle(expr)]
    fn put_negated(&mut self, of: &Expr) -> Result<(), NoMemory>
        ensures { IfOk result (λ _. self.new ≡ self.old
            ++ (codes "-" ++ minus_gap (expr_of of.now) ++ expr_text (expr_of of.now))) }
    {
        self.put(b"-")?;
        self.put_gap(of)?;
        self.put_expr(of)
    }

    // A sign behind an operand, and the other operand.
    #[cycle(expr)]
    fn put_right(&mut self, op: Op, right: &Expr) -> Result<(), NoMemory>
        ensures { IfOk result (λ _. self.new ≡ self.old ++ (codes " "
            ++ sign_bytes (op_sign op) ++ codes " " ++ expr_text (expr_of right.now))) }
    {
        self.put(b" ")?;
        self.put(sign(op).spelling())?;
        self.put(b" ")?;
        self.put_expr(right)
    }

    /// The arguments of a call, in parentheses.
    #[cycle(expr)]
    pub fn put_args(&mut self, args: &[Expr]) -> Result<(), NoMemory>
        ensures { IfOk result (λ _. self.new
            ≡ self.old ++ codes "(" ++ args_text (exprs_of args.now) ++ codes ")") }
    {
        self.put(b"(")?;
        if let [first, rest @ ..] = args {
            self.put_expr(first)?;
            self.put_more_args(rest)?;
        }
        self.put(b")")
    }

    // Arguments behind another.
    #[cycle(expr)]
    fn put_more_args(&mut self, args: &[Expr]) -> Result<(), NoMemory>
        ensures { IfOk result (λ _. self.new ≡ self.old ++ more_args_text (exprs_of args.now)) }
    {
        for arg in args {
            self.put(b", ")?;
            self.put_expr(arg)?;
        }
        Ok(())
    }
}
