// The texts of statements.

ghost use Rattle.std.specs.Prelude.{◌≡◌, suc, ◌++◌, ◌∷◌, [], codes, map, true, false, IfOk, if◌then◌else◌};
ghost use Rattle.std.specs.Option.{option_map};
ghost use Rattle.flow_tree.specs.View.{type_of, expr_of, exprs_of};
ghost use Rattle.flow_tree.specs.StmtView.{into_of, waiting_of, change_of, kind_of, stmt_of, body_of, branch_of, branches_of, simple_of, else_of};
ghost use Rattle.flow_tree.specs.Canon.{line, expr_text, named_text, into_text, into_part, waiting_text, maybe_text, path_text, declare_text, assign_text, change_text, modify_text, call_text, part_text, body_text, branches_text};
ghost use Rattle.flow_tree.specs.Body.{End};
ghost use Rattle.flow_show.specs.Lines.{PutsBefore, PutsBranch, is_line, else_text, handler_text, more_names_text};

use crate::source::Source;
use flow_base::memory::NoMemory;
use flow_tree::expr::Expr;
use flow_tree::stmt::{Change, Into, Stmt, StmtKind, Target, Waiting, When};
use flow_tree::ty::{Ident, Ty};

// One level further in. No tree that memory holds has so many levels that there is none.
fn inner(level: usize) -> Result<usize, NoMemory>
    ensures { IfOk result (λ k. k ≡ suc level) }
{
    match level.checked_add(1) {
        Some(level) => Ok(level),
        None => Err(NoMemory),
    }
}

// Whether a statement takes one line.
fn is_line(stmt: &Stmt) -> bool
    ensures { result ≡ is_line (stmt_of stmt.now End) }
{
    match &stmt.kind {
        StmtKind::Break
        | StmtKind::Continue
        | StmtKind::Return(_)
        | StmtKind::Throw(_)
        | StmtKind::Declare(..)
        | StmtKind::Assign(..)
        | StmtKind::Modify(..)
        | StmtKind::Call(..)
        | StmtKind::Wait(_) => true,
        _ => false,
    }
}

impl Source {
    /// A type and the name that it is the type of.
    pub fn put_named(&mut self, ty: &Ty, name: &Ident) -> Result<(), NoMemory>
        ensures { IfOk result (λ _. self.new ≡ self.old ++ named_text (type_of ty.now) name.now) }
    {
        self.put_type(ty)?;
        self.put(b" ")?;
        self.put(name.name.bytes())
    }

    fn put_into(&mut self, into: &Into) -> Result<(), NoMemory>
        ensures { IfOk result (λ _. self.new ≡ self.old ++ into_text (into_of into.now)) }
    {
        if into.state {
            self.put(b"state ")?;
        }
        self.put_named(&into.ty, &into.name)
    }

    fn put_into_part(&mut self, into: &Option<Into>) -> Result<(), NoMemory>
        ensures { IfOk result (λ _. self.new
            ≡ self.old ++ into_part (option_map into_of into.now)) }
    {
        match into {
            None => Ok(()),
            Some(into) => {
                self.put_into(into)?;
                self.put(b" = ")
            }
        }
    }

    fn put_waiting(&mut self, waiting: &Waiting) -> Result<(), NoMemory>
        ensures { IfOk result (λ _. self.new ≡ self.old ++ waiting_text (waiting_of waiting.now)) }
    {
        self.put_into_part(&waiting.into)?;
        self.put(if waiting.next { b"waitNext(" } else { b"wait(" })?;
        self.put_expr(&waiting.operand)?;
        self.put(b")")
    }

    // An expression that may be absent, with these bytes before it.
    fn put_maybe(&mut self, before: &[u8], expr: &Option<Expr>) -> Result<(), NoMemory>
        ensures { IfOk result (λ _. self.new
            ≡ self.old ++ maybe_text before.now (option_map expr_of expr.now)) }
    {
        match expr {
            None => Ok(()),
            Some(expr) => {
                self.put(before)?;
                self.put_expr(expr)
            }
        }
    }

    // Names, each behind a dot.
    fn put_more_names(&mut self, names: &[Ident]) -> Result<(), NoMemory>
        ensures { IfOk result (λ _. self.new ≡ self.old ++ more_names_text names.now) }
    {
        for name in names {
            self.put(b".")?;
            self.put(name.name.bytes())?;
        }
        Ok(())
    }

    /// Names with a dot between two.
    pub fn put_path(&mut self, path: &[Ident]) -> Result<(), NoMemory>
        ensures { IfOk result (λ _. self.new ≡ self.old ++ path_text path.now) }
    {
        if let [first, rest @ ..] = path {
            self.put(first.name.bytes())?;
            self.put_more_names(rest)?;
        }
        Ok(())
    }

    fn put_declare(&mut self, into: &Into, value: &Option<Expr>) -> Result<(), NoMemory>
        ensures { IfOk result (λ _. self.new
            ≡ self.old ++ declare_text (into_of into.now) (option_map expr_of value.now)) }
    {
        self.put_into(into)?;
        self.put_maybe(b" = ", value)
    }

    /// An assignment without its semicolon.
    pub fn put_assign(&mut self, target: &Target, value: &Expr) -> Result<(), NoMemory>
        ensures { IfOk result (λ _. self.new
            ≡ self.old ++ assign_text target.now.path.items (expr_of value.now)) }
    {
        self.put_path(&target.path)?;
        self.put(b" = ")?;
        self.put_expr(value)
    }

    fn put_change(&mut self, change: &Change) -> Result<(), NoMemory>
        ensures { IfOk result (λ _. self.new ≡ self.old ++ change_text (change_of change.now)) }
    {
        match change {
            Change::Plus(value) => {
                self.put(b" += ")?;
                self.put_expr(value)
            }
            Change::Minus(value) => {
                self.put(b" -= ")?;
                self.put_expr(value)
            }
            Change::Up => self.put(b"++"),
            Change::Down => self.put(b"--"),
        }
    }

    fn put_modify(&mut self, target: &Target, change: &Change) -> Result<(), NoMemory>
        ensures { IfOk result (λ _. self.new
            ≡ self.old ++ modify_text target.now.path.items (change_of change.now)) }
    {
        self.put_path(&target.path)?;
        self.put_change(change)
    }

    /// A call statement without its semicolon.
    pub fn put_call(&mut self, target: &Target, args: &[Expr]) -> Result<(), NoMemory>
        ensures { IfOk result (λ _. self.new
            ≡ self.old ++ call_text target.now.path.items (exprs_of args.now)) }
    {
        self.put_path(&target.path)?;
        self.put_args(args)
    }

    // The init or the step of a `for`.
    fn put_part(&mut self, part: &Option<Box<Stmt>>) -> Result<(), NoMemory>
        ensures { IfOk result (λ _. self.new ≡ self.old ++ part_text (simple_of part.now)) }
    {
        match part {
            None => Ok(()),
            Some(stmt) => self.put_simple(stmt),
        }
    }

    // A declaration or a change without its semicolon. No other statement is a part of a `for`.
    fn put_simple(&mut self, stmt: &Stmt) -> Result<(), NoMemory>
        ensures { IfOk result (λ _. self.new ≡ self.old ++ part_text (stmt_of stmt.now End)) }
    {
        match &stmt.kind {
            StmtKind::Declare(into, value) => self.put_declare(into, value),
            StmtKind::Assign(target, value) => self.put_assign(target, value),
            StmtKind::Modify(target, change) => self.put_modify(target, change),
            _ => Ok(()),
        }
    }

    // A line of these bytes.
    fn put_line(&mut self, level: usize, bytes: &[u8]) -> Result<(), NoMemory>
        ensures { IfOk result (λ _. self.new ≡ self.old ++ line level bytes.now) }
    {
        self.put_indent(level)?;
        self.put(bytes)?;
        self.put(b"\n")?;
        Ok(())
    }

    // A line of an expression between these bytes.
    fn put_around(
        &mut self,
        level: usize,
        front: &[u8],
        expr: &Expr,
        back: &[u8],
    ) -> Result<(), NoMemory>
        ensures { IfOk result (λ _. self.new
            ≡ self.old ++ line level (front.now ++ expr_text (expr_of expr.now) ++ back.now)) }
    {
        self.put_indent(level)?;
        self.put(front)?;
        self.put_expr(expr)?;
        self.put(back)?;
        self.put(b"\n")?;
        Ok(())
    }

    // The line of a `when`.
    fn put_when_line(&mut self, level: usize, waiting: &Waiting) -> Result<(), NoMemory>
        ensures { IfOk result (λ _. self.new ≡ self.old ++ line level
            (codes "when (" ++ waiting_text (waiting_of waiting.now) ++ codes ") {")) }
    {
        self.put_indent(level)?;
        self.put(b"when (")?;
        self.put_waiting(waiting)?;
        self.put(b") {")?;
        self.put(b"\n")?;
        Ok(())
    }

    // The line at which a `for` begins.
    fn put_for(
        &mut self,
        level: usize,
        init: &Option<Box<Stmt>>,
        test: &Option<Expr>,
        step: &Option<Box<Stmt>>,
    ) -> Result<(), NoMemory>
        ensures { IfOk result (λ _. self.new ≡ self.old ++ line level (codes "for ("
            ++ part_text (simple_of init.now) ++ codes "; "
            ++ maybe_text [] (option_map expr_of test.now) ++ codes "; "
            ++ part_text (simple_of step.now) ++ codes ") {")) }
    {
        self.put_indent(level)?;
        self.put(b"for (")?;
        self.put_part(init)?;
        self.put(b"; ")?;
        self.put_maybe(b"", test)?;
        self.put(b"; ")?;
        self.put_part(step)?;
        self.put(b") {")?;
        self.put(b"\n")?;
        Ok(())
    }

    // The line between a `try` and its handler.
    fn put_catch(&mut self, level: usize, error: &Ident) -> Result<(), NoMemory>
        ensures { IfOk result (λ _. self.new
            ≡ self.old ++ line level (codes "} catch (Error& " ++ error.now.name ++ codes ") {")) }
    {
        self.put_indent(level)?;
        self.put(b"} catch (Error& ")?;
        self.put(error.name.bytes())?;
        self.put(b") {")?;
        self.put(b"\n")?;
        Ok(())
    }

    // The line of a `return` or a `throw`, behind which an expression may stand.
    fn put_exit(&mut self, level: usize, word: &[u8], value: &Option<Expr>) -> Result<(), NoMemory>
        ensures { IfOk result (λ _. self.new
            ≡ self.old ++ line level (word.now ++ maybe_text (codes " ")
            (option_map expr_of value.now) ++ codes ";")) }
    {
        self.put_indent(level)?;
        self.put(word)?;
        self.put_maybe(b" ", value)?;
        self.put(b";")?;
        self.put(b"\n")?;
        Ok(())
    }

    // The line of a declaration.
    #[tactic(auto, using(crate::proofs::Texts::ended_line))]
    fn put_declare_line(
        &mut self,
        level: usize,
        into: &Into,
        value: &Option<Expr>,
    ) -> Result<(), NoMemory>
        ensures { IfOk result (λ _. self.new
            ≡ self.old ++ line level (declare_text (into_of into.now) (option_map expr_of value.now)
            ++ codes ";")) }
    {
        self.put_indent(level)?;
        self.put_declare(into, value)?;
        self.put(b";")?;
        self.put(b"\n")?;
        Ok(())
    }

    // The line of an assignment.
    #[tactic(auto, using(crate::proofs::Texts::ended_line))]
    fn put_assign_line(
        &mut self,
        level: usize,
        target: &Target,
        value: &Expr,
    ) -> Result<(), NoMemory>
        ensures { IfOk result (λ _. self.new
            ≡ self.old ++ line level (assign_text target.now.path.items (expr_of value.now) ++ codes
            ";")) }
    {
        self.put_indent(level)?;
        self.put_assign(target, value)?;
        self.put(b";")?;
        self.put(b"\n")?;
        Ok(())
    }

    // The line of a change in place.
    #[tactic(auto, using(crate::proofs::Texts::ended_line))]
    fn put_modify_line(
        &mut self,
        level: usize,
        target: &Target,
        change: &Change,
    ) -> Result<(), NoMemory>
        ensures { IfOk result (λ _. self.new
            ≡ self.old ++ line level (modify_text target.now.path.items (change_of change.now)
            ++ codes ";")) }
    {
        self.put_indent(level)?;
        self.put_modify(target, change)?;
        self.put(b";")?;
        self.put(b"\n")?;
        Ok(())
    }

    // The line of a call.
    #[tactic(auto, using(crate::proofs::Texts::ended_line))]
    fn put_call_line(
        &mut self,
        level: usize,
        target: &Target,
        args: &[Expr],
    ) -> Result<(), NoMemory>
        ensures { IfOk result (λ _. self.new
            ≡ self.old ++ line level (call_text target.now.path.items (exprs_of args.now) ++ codes
            ";")) }
    {
        self.put_indent(level)?;
        self.put_call(target, args)?;
        self.put(b";")?;
        self.put(b"\n")?;
        Ok(())
    }

    // The line of a wait.
    #[tactic(auto, using(crate::proofs::Texts::ended_line))]
    fn put_wait_line(&mut self, level: usize, waiting: &Waiting) -> Result<(), NoMemory>
        ensures { IfOk result (λ _. self.new
            ≡ self.old ++ line level (waiting_text (waiting_of waiting.now) ++ codes ";")) }
    {
        self.put_indent(level)?;
        self.put_waiting(waiting)?;
        self.put(b";")?;
        self.put(b"\n")?;
        Ok(())
    }

    // A statement of one line, at this level.
    fn put_one_line(&mut self, level: usize, stmt: &Stmt) -> Result<(), NoMemory>
        requires { is_line (stmt_of stmt.now End) ≡ true }
        ensures { IfOk result (λ _. PutsBefore level (stmt_of stmt.now) self.old self.new) }
    {
        match &stmt.kind {
            StmtKind::Break => {
                self.put_line(level, b"break;")?;
                Ok(())
            }
            StmtKind::Continue => {
                self.put_line(level, b"continue;")?;
                Ok(())
            }
            StmtKind::Return(value) => {
                self.put_exit(level, b"return", value)?;
                Ok(())
            }
            StmtKind::Throw(error) => {
                self.put_exit(level, b"throw", error)?;
                Ok(())
            }
            StmtKind::Declare(into, value) => {
                self.put_declare_line(level, into, value)?;
                Ok(())
            }
            StmtKind::Assign(target, value) => {
                self.put_assign_line(level, target, value)?;
                Ok(())
            }
            StmtKind::Modify(target, change) => {
                self.put_modify_line(level, target, change)?;
                Ok(())
            }
            StmtKind::Call(target, args) => {
                self.put_call_line(level, target, args)?;
                Ok(())
            }
            StmtKind::Wait(waiting) => {
                self.put_wait_line(level, waiting)?;
                Ok(())
            }
            _ => unreachable!(),
        }
    }

    /// Statements, each on a line at this level.
    #[cycle(stmt)]
    pub fn put_body(&mut self, level: usize, body: &[Stmt]) -> Result<(), NoMemory>
        ensures { IfOk result (λ _. self.new ≡ self.old ++ body_text level (body_of body.now)) }
    {
        for stmt in body {
            self.put_stmt(level, stmt)?;
        }
        Ok(())
    }

    // A statement at this level.
    #[cycle(stmt)]
    fn put_stmt(&mut self, level: usize, stmt: &Stmt) -> Result<(), NoMemory>
        ensures { IfOk result (λ _. PutsBefore level (stmt_of stmt.now) self.old self.new) }
    {
        if is_line(stmt) {
            self.put_one_line(level, stmt)
        } else {
            self.put_nested(level, stmt)
        }
    }

    // A statement with others inside, at this level.
    #[cycle(stmt)]
    fn put_nested(&mut self, level: usize, stmt: &Stmt) -> Result<(), NoMemory>
        requires { is_line (stmt_of stmt.now End) ≡ false }
        ensures { IfOk result (λ _. PutsBefore level (stmt_of stmt.now) self.old self.new) }
    {
        match &stmt.kind {
            StmtKind::Block(body) => {
                self.put_line(level, b"{")?;
                self.put_inner(level, body)?;
                Ok(())
            }
            StmtKind::If(test, body, otherwise) => {
                self.put_around(level, b"if (", test, b") {")?;
                self.put_deeper(level, body)?;
                self.put_else(level, otherwise)?;
                Ok(())
            }
            StmtKind::While(test, body) => {
                self.put_around(level, b"while (", test, b") {")?;
                self.put_inner(level, body)?;
                Ok(())
            }
            StmtKind::For(init, test, step, body) => {
                self.put_for(level, init, test, step)?;
                self.put_inner(level, body)?;
                Ok(())
            }
            StmtKind::Loop(body) => {
                self.put_line(level, b"loop {")?;
                self.put_inner(level, body)?;
                Ok(())
            }
            StmtKind::Try(body, _, error, handler) => {
                self.put_line(level, b"try {")?;
                self.put_deeper(level, body)?;
                self.put_handler(level, error, handler)?;
                Ok(())
            }
            StmtKind::Choose(branches) => {
                self.put_line(level, b"choose {")?;
                self.put_branches(level, branches)?;
                Ok(())
            }
            _ => unreachable!(),
        }
    }

    // A body, one level further in.
    #[cycle(stmt)]
    fn put_deeper(&mut self, level: usize, body: &[Stmt]) -> Result<(), NoMemory>
        ensures { IfOk result (λ _. self.new
            ≡ self.old ++ body_text (suc level) (body_of body.now)) }
    {
        self.put_body(inner(level)?, body)
    }

    // A body, one level further in, and the line that closes it.
    #[cycle(stmt)]
    fn put_inner(&mut self, level: usize, body: &[Stmt]) -> Result<(), NoMemory>
        ensures { IfOk result (λ _. self.new ≡ self.old
            ++ (body_text (suc level) (body_of body.now) ++ line level (codes "}"))) }
    {
        self.put_deeper(level, body)?;
        self.put_line(level, b"}")?;
        Ok(())
    }

    // What stands behind the body of an `if`: a closing line, or that of `else`, its body and a closing
    // line.
    #[cycle(stmt)]
    fn put_else(&mut self, level: usize, body: &Option<Vec<Stmt>>) -> Result<(), NoMemory>
        ensures { IfOk result (λ _. self.new ≡ self.old ++ else_text level (else_of body.now)) }
    {
        match body {
            None => {
                self.put_line(level, b"}")?;
                Ok(())
            }
            Some(body) => {
                self.put_line(level, b"} else {")?;
                self.put_inner(level, body)?;
                Ok(())
            }
        }
    }

    // The line of a `catch`, its body and a closing line.
    #[cycle(stmt)]
    fn put_handler(&mut self, level: usize, error: &Ident, body: &[Stmt]) -> Result<(), NoMemory>
        ensures { IfOk result (λ _. self.new
            ≡ self.old ++ handler_text level error.now (body_of body.now)) }
    {
        self.put_catch(level, error)?;
        self.put_inner(level, body)?;
        Ok(())
    }

    // The branches of a `choose`, one level further in, and a closing line.
    #[cycle(stmt)]
    fn put_branches(&mut self, level: usize, branches: &[When]) -> Result<(), NoMemory>
        ensures { IfOk result (λ _. self.new ≡ self.old
            ++ (branches_text (suc level) (branches_of branches.now) ++ line level (codes "}"))) }
    {
        self.put_whens(inner(level)?, branches)?;
        self.put_line(level, b"}")?;
        Ok(())
    }

    #[cycle(stmt)]
    fn put_whens(&mut self, level: usize, branches: &[When]) -> Result<(), NoMemory>
        ensures { IfOk result (λ _. self.new
            ≡ self.old ++ branches_text level (branches_of branches.now)) }
    {
        for branch in branches {
            self.put_when(level, branch)?;
        }
        Ok(())
    }

    #[cycle(stmt)]
    fn put_when(&mut self, level: usize, branch: &When) -> Result<(), NoMemory>
        ensures { IfOk result (λ _. PutsBranch level (branch_of branch.now) self.old self.new) }
    {
        self.put_when_line(level, &branch.waiting)?;
        self.put_inner(level, &branch.body)?;
        Ok(())
    }
}
