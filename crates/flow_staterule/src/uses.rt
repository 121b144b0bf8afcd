// The uses of locals in a function or actor.

ghost use Rattle.std.specs.Prelude.{◌≡◌, ◌∷◌, ◌++◌, map, reverse, length, IfOk};
ghost use Rattle.std.specs.Option.{option_map};
ghost use Rattle.std.specs.declared.option.Option.TheVariants.{None};
ghost use Rattle.flow_tree.specs.Body.{Branches, End};
ghost use Rattle.flow_tree.specs.View.{expr_of};
ghost use Rattle.flow_tree.specs.StmtView.{waiting_of, stmt_of, body_of, branch_of, branches_of, simple_of, else_of};
ghost use Rattle.flow_tree.specs.DeclView.{param_of};
ghost use Rattle.flow_staterule.specs.Ways.{ways, head};
ghost use Rattle.flow_staterule.specs.Uses.{uses, choose_uses, else_uses, behind, declaring, with_into, caught_as, thrown_uses, expr_uses, maybe_uses, parameter, begins, left};
ghost use Rattle.flow_staterule.specs.View.{in_force, Extends, Finds, found, known_behind, for_body, for_step, in_handler, in_branches};

use crate::mentions::{add, add_base, add_change, add_expr, add_exprs, add_maybe, add_target};
use crate::scope::{Point, Use, Variables, use_of};
use crate::ways::Looked;
use flow_ast::decl::Param;
use flow_ast::expr::Expr;
use flow_ast::stmt::{Stmt, StmtKind, Waiting, When};
use flow_ast::ty::Ident;
use flow_base::memory::NoMemory;
use flow_base::place::Place;
use std::alloc::Global;

/// The variable of a catch: its number, and where it is declared.
#[derive(Clone, Copy)]
pub struct Caught {
    pub number: usize,
    pub declared: Place,
}

/// What is known on the way through a body: how many of the waits to come are looked for, what is known of the variables
/// in force, and the variable of the innermost catch around.
#[derive(Clone, Copy)]
pub struct Here {
    pub looked: Looked,
    pub point: Point,
    pub caught: Option<Caught>,
}

/// What is known in a round of a `for`: at its step, and at its condition and its body.
#[derive(Clone, Copy)]
struct Round {
    step: Here,
    body: Here,
}

/// Collects the uses of locals, in the order of the text.
#[derive(Drop)]
pub struct Finder<'a> {
    variables: Variables<'a>,
    uses: Vec<Use>,
}

/// The uses of locals in a body with these parameters, in the order of the text.
pub fn uses_in<'a>(
    alloc: Global,
    looked: Looked,
    params: &'a [Param],
    body: &'a [Stmt],
) -> Result<Vec<Use>, NoMemory>
    ensures { IfOk result (λ v. v.items
        ≡ uses looked.0 (reverse (map parameter (map param_of params.now))) begins None
        (body_of body.now)) }
{
    let mut finder = Finder {
        variables: declared_params(alloc, params)?,
        uses: Vec::new(alloc),
    };
    let here = Here {
        looked,
        point: Point::BEGIN,
        caught: None,
    };
    finder.body(here, body)?;
    Ok(finder.uses)
}

// The parameters, which are no locals.
#[tactic(auto, using(crate::proofs::Adding::params_next, crate::proofs::Adding::params_end))]
fn declared_params<'a>(alloc: Global, params: &'a [Param]) -> Result<Variables<'a>, NoMemory>
    ensures { IfOk result (λ v. in_force v ≡ reverse (map parameter (map param_of params.now))) }
{
    let mut variables = Variables::new(alloc);
    for param in params {
        variables.declare(&param.name.name, None)?;
    }
    Ok(variables)
}

impl Here {
    /// What is known behind a body that leads to none of what follows it: how many waits are looked for.
    fn past(self, body: &[Stmt]) -> Here
        ensures { result ≡ record self {
          looked = record
              { 0 = left self.looked.0 (body_of body.now) };
        } }
    {
        Here {
            looked: self.looked.body(body).looked,
            ..self
        }
    }

    /// What is known in the rounds of a loop, with so many variables in force.
    fn round(self, variables: usize, body: &[Stmt]) -> Here
        ensures { result ≡ record self {
          point = behind variables self.point
              (head (ways self.looked.0 (body_of body.now)));
        } }
    {
        Here {
            point: self
                .point
                .behind(variables, self.looked.body(body).ways.head()),
            ..self
        }
    }
}

impl<'a> Finder<'a> {
    /// Statements one after another.
    #[cycle(uses)]
    fn body(&mut self, here: Here, stmts: &'a [Stmt]) -> Result<(), NoMemory>
        ensures uses { IfOk result (λ _. self.new.uses.items
            ≡ found self.old here (body_of stmts.now)) }
        ensures keeps { IfOk result (λ _. Extends self.old.variables self.new.variables) }
    {
        let mut next = here;
        for stmt in stmts {
            next = self.stmt(next, stmt)?;
        }
        Ok(())
    }

    /// One statement: gives what is known behind it.
    #[cycle(uses)]
    fn stmt(&mut self, here: Here, stmt: &'a Stmt) -> Result<Here, NoMemory>
        ensures finds { IfOk result (λ _. Finds self.old self.new here (stmt_of stmt.now)) }
        ensures behind { IfOk result (λ h. h
            ≡ known_behind (in_force self.old.variables) here (stmt_of stmt.now End)) }
        ensures keeps { IfOk result (λ _. Extends self.old.variables self.new.variables) }
    {
        let behind = self.behind(here, stmt);
        self.inside(here, stmt)?;
        Ok(behind)
    }

    /// What is known behind a statement.
    #[tactic(auto, using(crate::proofs::Adding::behind_is))]
    fn behind(&self, here: Here, stmt: &Stmt) -> Here
        ensures { result ≡ known_behind (in_force self.now.variables) here (stmt_of stmt.now End) }
    {
        let passed = here.looked.stmt(stmt);
        Here {
            looked: passed.looked,
            point: here.point.behind(self.variables.count(), passed.ways.ends),
            caught: here.caught,
        }
    }

    /// Statements in a scope of their own.
    #[cycle(uses)]
    fn scope(&mut self, here: Here, stmts: &'a Vec<Stmt>) -> Result<(), NoMemory>
        ensures uses { IfOk result (λ _. self.new.uses.items
            ≡ found self.old here (body_of stmts.now.items)) }
        ensures variables { IfOk result (λ _. self.new.variables.list.items
            ≡ self.old.variables.list.items) }
    {
        let count = self.variables.count();
        self.body(here, stmts)?;
        self.variables.leave(count);
        Ok(())
    }

    /// The uses in a statement, and what it declares.
    #[cycle(uses)]
    fn inside(&mut self, here: Here, stmt: &'a Stmt) -> Result<(), NoMemory>
        ensures finds { IfOk result (λ _. Finds self.old self.new here (stmt_of stmt.now)) }
        ensures keeps { IfOk result (λ _. Extends self.old.variables self.new.variables) }
    {
        match &stmt.kind {
            StmtKind::Block(body) => {
                self.scope(here, body)?;
                Ok(())
            }
            StmtKind::If(test, chosen, otherwise) => {
                self.expr(here, test)?;
                self.scope(here, chosen)?;
                self.otherwise(here.past(chosen), otherwise)?;
                Ok(())
            }
            StmtKind::While(test, body) => {
                let round = here.round(self.variables.count(), body);
                self.expr(round, test)?;
                self.scope(round, body)?;
                Ok(())
            }
            StmtKind::For(init, test, step, body) => {
                let count = self.variables.count();
                let begun = self.part(here, init)?;
                let round = self.round(begun, step, body);
                self.maybe(round.body, test)?;
                self.step(round.step, step)?;
                self.scope(round.body, body)?;
                self.variables.leave(count);
                Ok(())
            }
            StmtKind::Loop(body) => {
                let round = here.round(self.variables.count(), body);
                self.scope(round, body)?;
                Ok(())
            }
            StmtKind::Break => Ok(()),
            StmtKind::Continue => Ok(()),
            StmtKind::Return(value) => {
                self.maybe(here, value)?;
                Ok(())
            }
            StmtKind::Throw(value) => {
                self.thrown(here, stmt.at, value)?;
                Ok(())
            }
            StmtKind::Try(body, _, error, handler) => {
                self.scope(here, body)?;
                let caught = self.caught(here, body, error);
                self.handled(caught, error, handler)?;
                Ok(())
            }
            StmtKind::Choose(branches) => {
                self.choose(here, branches)?;
                Ok(())
            }
            StmtKind::Declare(into, value) => {
                self.maybe(here, value)?;
                self.variables.declare_into(into)?;
                Ok(())
            }
            StmtKind::Assign(target, value) => {
                add_target(&self.variables, here.point, target, &mut self.uses)?;
                self.expr(here, value)?;
                Ok(())
            }
            StmtKind::Modify(target, change) => {
                add_target(&self.variables, here.point, target, &mut self.uses)?;
                add_change(&self.variables, here.point, change, &mut self.uses)?;
                Ok(())
            }
            StmtKind::Call(target, args) => {
                add_base(&self.variables, here.point, target, &mut self.uses)?;
                add_exprs(&self.variables, here.point, args, &mut self.uses)?;
                Ok(())
            }
            StmtKind::Wait(waiting) => {
                self.expr(here, &waiting.operand)?;
                self.bind(waiting)?;
                Ok(())
            }
        }
    }

    /// The uses in an expression.
    fn expr(&mut self, here: Here, expr: &Expr) -> Result<(), NoMemory>
        ensures uses { IfOk result (λ _. self.new.uses.items
            ≡ self.old.uses.items ++ expr_uses (in_force self.old.variables) here.point
            (expr_of expr.now)) }
        ensures variables { IfOk result (λ _. self.new.variables.list.items
            ≡ self.old.variables.list.items) }
    {
        add_expr(&self.variables, here.point, expr, &mut self.uses)
    }

    /// The uses in an expression, where it is there.
    fn maybe(&mut self, here: Here, expr: &Option<Expr>) -> Result<(), NoMemory>
        ensures uses { IfOk result (λ _. self.new.uses.items
            ≡ self.old.uses.items ++ maybe_uses (in_force self.old.variables) here.point
            (option_map expr_of expr.now)) }
        ensures variables { IfOk result (λ _. self.new.variables.list.items
            ≡ self.old.variables.list.items) }
    {
        add_maybe(&self.variables, here.point, expr, &mut self.uses)
    }

    /// The body of an `else`, where it is there.
    #[cycle(uses)]
    fn otherwise(&mut self, here: Here, body: &'a Option<Vec<Stmt>>) -> Result<(), NoMemory>
        ensures uses { IfOk result (λ _. self.new.uses.items
            ≡ self.old.uses.items ++ else_uses here.looked.0 (in_force self.old.variables)
            here.point here.caught (else_of body.now)) }
        ensures variables { IfOk result (λ _. self.new.variables.list.items
            ≡ self.old.variables.list.items) }
    {
        match body {
            Some(body) => self.scope(here, body),
            None => Ok(()),
        }
    }

    /// What is known in the rounds of a `for`, behind its init.
    fn round(&self, begun: Here, step: &Option<Box<Stmt>>, body: &Vec<Stmt>) -> Round
        ensures body { result.body ≡ for_body (length (in_force self.now.variables)) begun
            (simple_of step.now) (body_of body.now.items) }
        ensures step { result.step ≡ for_step (length (in_force self.now.variables)) begun
            (simple_of step.now) (body_of body.now.items) }
    {
        let stepped = begun.looked.part(step);
        let inner = stepped.looked.body(body).ways;
        let count = self.variables.count();
        let head = begun
            .point
            .behind(count, inner.with_step(stepped.ways).head());
        Round {
            step: Here {
                point: head.behind(count, inner.round()),
                ..begun
            },
            body: Here {
                looked: stepped.looked,
                point: head,
                caught: begun.caught,
            },
        }
    }

    /// The init of a `for`, where it is there: gives what is known behind it.
    #[cycle(uses)]
    fn part(&mut self, here: Here, part: &'a Option<Box<Stmt>>) -> Result<Here, NoMemory>
        ensures uses { IfOk result (λ _. self.new.uses.items
            ≡ found self.old here (simple_of part.now)) }
        ensures behind { IfOk result (λ h. h
            ≡ known_behind (in_force self.old.variables) here (simple_of part.now)) }
        ensures variables { IfOk result (λ _. in_force self.new.variables
            ≡ declaring (in_force self.old.variables) (simple_of part.now)) }
        ensures keeps { IfOk result (λ _. Extends self.old.variables self.new.variables) }
    {
        match part {
            Some(stmt) => self.stmt(here, stmt),
            None => Ok(here),
        }
    }

    /// The step of a `for`, where it is there.
    #[cycle(uses)]
    fn step(&mut self, here: Here, part: &'a Option<Box<Stmt>>) -> Result<(), NoMemory>
        ensures uses { IfOk result (λ _. self.new.uses.items
            ≡ found self.old here (simple_of part.now)) }
        ensures variables { IfOk result (λ _. self.new.variables.list.items
            ≡ self.old.variables.list.items) }
    {
        let count = self.variables.count();
        self.part(here, part)?;
        self.variables.leave(count);
        Ok(())
    }

    /// What is known in the handler of a `try` with this body.
    fn caught(&self, here: Here, body: &[Stmt], error: &Ident) -> Here
        ensures { result ≡ in_handler (length (in_force self.now.variables)) here (body_of body.now)
            error.now }
    {
        let passed = here.looked.body(body);
        let number = self.variables.count();
        Here {
            looked: passed.looked,
            point: here.point.behind(number, passed.ways.throws),
            caught: Some(Caught {
                number,
                declared: error.at,
            }),
        }
    }

    /// A handler, with the variable of its error.
    #[cycle(uses)]
    fn handled(
        &mut self,
        here: Here,
        error: &'a Ident,
        handler: &'a Vec<Stmt>,
    ) -> Result<(), NoMemory>
        ensures uses { IfOk result (λ _. self.new.uses.items
            ≡ self.old.uses.items ++ uses here.looked.0
            (caught_as error.now ∷ in_force self.old.variables) here.point here.caught
            (body_of handler.now.items)) }
        ensures variables { IfOk result (λ _. self.new.variables.list.items
            ≡ self.old.variables.list.items) }
    {
        let count = self.variables.count();
        self.variables.declare(&error.name, Some(error.at))?;
        self.scope(here, handler)?;
        self.variables.leave(count);
        Ok(())
    }

    /// A `choose`: the operands of its branches are read before it is left.
    #[cycle(uses)]
    fn choose(&mut self, here: Here, branches: &'a [When]) -> Result<(), NoMemory>
        ensures uses { IfOk result (λ _. self.new.uses.items
            ≡ self.old.uses.items ++ choose_uses here.looked.0 (in_force self.old.variables)
            here.point here.caught (branches_of branches.now)) }
        ensures variables { IfOk result (λ _. self.new.variables.list.items
            ≡ self.old.variables.list.items) }
    {
        let count = self.variables.count();
        let point = here.point.behind(count, here.looked.waited());
        let mut inner = Here {
            looked: here.looked.past_one(),
            point,
            caught: here.caught,
        };
        for branch in branches {
            inner = self.branch(here.point, inner, branch)?;
        }
        Ok(())
    }

    /// A branch, whose operand is read at one point and whose body is run at another: gives what is known at the body of
    /// the next one.
    #[tactic(auto, using(crate::proofs::EachKind::after_branch))]
    #[cycle(uses)]
    fn branch(&mut self, point: Point, here: Here, branch: &'a When) -> Result<Here, NoMemory>
        ensures uses { IfOk result (λ h. (bs : Branches) → in_branches self.new point h bs
            ≡ in_branches self.old point here (branch_of branch.now bs)) }
        ensures variables { IfOk result (λ _. self.new.variables.list.items
            ≡ self.old.variables.list.items) }
    {
        let next = here.past(&branch.body);
        let count = self.variables.count();
        add_expr(
            &self.variables,
            point,
            &branch.waiting.operand,
            &mut self.uses,
        )?;
        self.bind(&branch.waiting)?;
        self.scope(here, &branch.body)?;
        self.variables.leave(count);
        Ok(next)
    }

    /// Declares the variable of a wait.
    fn bind(&mut self, waiting: &'a Waiting) -> Result<(), NoMemory>
        ensures variables { IfOk result (λ _. in_force self.new.variables
            ≡ with_into (in_force self.old.variables) (waiting_of waiting.now).into) }
        ensures keeps { IfOk result (λ _. Extends self.old.variables self.new.variables) }
        ensures uses { IfOk result (λ _. self.new.uses.items ≡ self.old.uses.items) }
    {
        match &waiting.into {
            Some(into) => self.variables.declare_into(into),
            None => Ok(()),
        }
    }

    /// A `throw`: without a value it uses the variable of the innermost catch.
    fn thrown(&mut self, here: Here, at: Place, value: &Option<Expr>) -> Result<(), NoMemory>
        ensures uses { IfOk result (λ _. self.new.uses.items
            ≡ self.old.uses.items ++ thrown_uses here.point here.caught at
            (option_map expr_of value.now) (in_force self.old.variables)) }
        ensures variables { IfOk result (λ _. self.new.variables.list.items
            ≡ self.old.variables.list.items) }
    {
        match value {
            Some(value) => self.expr(here, value),
            None => match here.caught {
                Some(caught) => add(
                    &mut self.uses,
                    use_of(at, here.point, Some(caught.declared), caught.number),
                ),
                None => Ok(()),
            },
        }
    }
}
