// Statements, one after another.

ghost use Rattle.std.specs.Prelude.{◌≡◌, suc, true, [], ◌∷◌, length, IfOk, OnOk};
ghost use Rattle.std.specs.Option.{option_map};
ghost use Rattle.flow_base.specs.declared.place.Place.{Place};
ghost use Rattle.flow_tree.specs.View.{expr_of};
ghost use Rattle.flow_tree.specs.Body.{BlockStmt, IfStmt, IfElseStmt, WhileStmt, ForStmt, LoopStmt, TryStmt, ChooseStmt, WaitStmt};
ghost use Rattle.flow_tree.specs.StmtView.{waiting_of, stmt_of, body_of, branches_of, branch_of, simple_of};
ghost use Rattle.flow_class.specs.Classes.{ReturnLast, TestLast, ThrowLast};
ghost use Rattle.std.specs.declared.option.Option.TheVariants.{None};
ghost use Rattle.flow_class.specs.Scopes.{over};
ghost use Rattle.flow_class.specs.View.{callback_of};
ghost use Rattle.flow_split.specs.Contexts.{names_in, slots_in, around_of};
ghost use Rattle.flow_split.specs.Lowered.{callback, callbacks, thrown};
ghost use Rattle.flow_split.specs.Emitting.{emitted, acted, closed, callbacks_of, waiting_for, testing, Emits, EmitsAll, EmitsPart, EmitsScope, EmitsWhen, EmitsHandler, EmitsBranches};

use crate::around::{Around, Exit, Handler, Jump};
use crate::context::Context;
use crate::counts::{
    behind, body_size, branch_size, branches_size, past_body, past_part, sum, test_size,
};
use crate::emitter::Emitter;
use flow_base::memory::NoMemory;
use flow_base::name::Name;
use flow_base::place::Place;
use flow_choose::group::group;
use flow_choose::places::var_over;
use flow_class::class::{Callback, Last};
use flow_tree::expr::Expr;
use flow_tree::stmt::{Stmt, StmtKind, Waiting, When};
use flow_tree::ty::Ident;

impl Emitter {
    // The callback of a wait whose variable would be the local of this number, and which goes on at
    // this block.
    fn callback(
        &self,
        context: &Context,
        waiting: &Waiting,
        next: u32,
        block: u32,
    ) -> Result<Callback, NoMemory>
        ensures { IfOk result (λ k. callback_of k
            ≡ callback (names_in context.now) (slots_in context.now) self.now.scopes
            (waiting_of waiting.now) next block) }
    {
        Ok(Callback {
            next: waiting.next,
            operand: context.over(&self.scopes, &waiting.operand)?,
            into: self.place_maybe(context, &waiting.into, next),
            block,
        })
    }

    // The callbacks of a wait that goes on at this block.
    fn only_callback(
        &self,
        context: &Context,
        waiting: &Waiting,
        block: u32,
    ) -> Result<Vec<Callback>, NoMemory>
        ensures { IfOk result (λ v. callbacks_of v.items
            ≡ callback (names_in context.now) (slots_in context.now) self.now.scopes
            (waiting_of waiting.now) self.now.next block ∷ []) }
    {
        let mut callbacks = Vec::new(self.alloc);
        callbacks.push(self.callback(context, waiting, self.next, block)?)?;
        Ok(callbacks)
    }

    // The callbacks of a choose whose first branch goes on at this block.
    fn callbacks(
        &self,
        context: &Context,
        tried: bool,
        branches: &[When],
        first: u32,
    ) -> Result<Vec<Callback>, NoMemory>
        ensures { IfOk result (λ v. callbacks_of v.items
            ≡ callbacks (names_in context.now) (slots_in context.now) self.now.scopes tried
            (record { block = first; local = self.now.next; group = 0 })
            (branches_of branches.now)) }
    {
        let mut callbacks = Vec::new(self.alloc);
        let mut next = self.next;
        let mut block = first;
        for branch in branches {
            callbacks.push(self.callback(context, &branch.waiting, next, block)?)?;
            let size = branch_size(tried, branch)?;
            next = sum(next, size.locals)?;
            block = sum(block, size.blocks)?;
        }
        Ok(callbacks)
    }

    // A wait for these callbacks.
    fn wait_for(
        &mut self,
        context: &Context,
        around: &Around,
        callbacks: Vec<Callback>,
    ) -> Result<(), NoMemory>
        ensures { OnOk result (emitted self.new
            ≡ waiting_for (around_of around.now) (callbacks_of callbacks.items)
            (emitted self.old)) }
    {
        let number = self.group()?;
        self.groups.push(group(context.layout, number, callbacks)?)?;
        self.close_with(around, Last::Choose(number))
    }

    // A wait.
    fn put_wait(
        &mut self,
        context: &Context,
        around: &Around,
        waiting: &Waiting,
    ) -> Result<(), NoMemory>
        requires { self.old.is_open ≡ true }
        ensures { OnOk result ((at : Place)
            → Emits (names_in context.now) (slots_in context.now) (around_of around.now)
            (WaitStmt at (waiting_of waiting.now)) (emitted self.old) (emitted self.new)) }
    {
        let block = self.block()?;
        let callbacks = self.only_callback(context, waiting, block)?;
        self.wait_for(context, around, callbacks)?;
        self.begin();
        self.declare_maybe(&waiting.into)
    }

    // The error of the catch around.
    fn rethrown(
        &self,
        context: &Context,
        caught: Option<&Name>,
        at: Place,
    ) -> Result<Expr, NoMemory>
        ensures { IfOk result (λ e. expr_of e
            ≡ thrown (names_in context.now) (slots_in context.now) self.now.scopes at None
            (option_map (λ x. x.now) caught.entry)) }
    {
        let place = match caught {
            None => None,
            Some(name) => context.place_of(&self.scopes, name.bytes()),
        };
        Ok(Expr::Var(Ident {
            name: var_over(self.alloc, place)?,
            at,
        }))
    }

    // An error by an expression, or that of the catch around.
    fn thrown(
        &self,
        context: &Context,
        around: &Around,
        at: Place,
        error: &Option<Expr>,
    ) -> Result<Expr, NoMemory>
        ensures { IfOk result (λ e. expr_of e
            ≡ thrown (names_in context.now) (slots_in context.now) self.now.scopes at
            (option_map expr_of error.now) (around_of around.now).caught) }
    {
        match error {
            Some(error) => context.over(&self.scopes, error),
            None => self.rethrown(context, around.caught, at),
        }
    }

    // A statement that ends the block at hand, with this expression or without one.
    fn put_return(
        &mut self,
        context: &Context,
        around: &Around,
        value: &Option<Expr>,
    ) -> Result<(), NoMemory>
        ensures { OnOk result (emitted self.new
            ≡ closed (around_of around.now) (ReturnLast (option_map
            (over (slots_in context.now) self.old.scopes) (option_map expr_of value.now)))
            (acted [] (emitted self.old))) }
    {
        let value = match value {
            Some(value) => Some(context.over(&self.scopes, value)?),
            None => None,
        };
        self.close_with(around, Last::Return(value))
    }

    fn put_throw(
        &mut self,
        context: &Context,
        around: &Around,
        at: Place,
        error: &Option<Expr>,
    ) -> Result<(), NoMemory>
        ensures { OnOk result (emitted self.new
            ≡ closed (around_of around.now)
            (ThrowLast (thrown (names_in context.now) (slots_in context.now) self.old.scopes at
            (option_map expr_of error.now) (around_of around.now).caught))
            (acted [] (emitted self.old))) }
    {
        let value = self.thrown(context, around, at, error)?;
        self.close_with(around, Last::Throw(value))
    }

    // A test that ends the block at hand, and where each answer goes on.
    fn close_test(
        &mut self,
        context: &Context,
        around: &Around,
        test: &Expr,
        main: u32,
        other: u32,
    ) -> Result<(), NoMemory>
        ensures { OnOk result (emitted self.new
            ≡ closed (around_of around.now)
            (TestLast (over (slots_in context.now) self.old.scopes (expr_of test.now)) main other)
            (acted [] (emitted self.old))) }
    {
        let test = context.over(&self.scopes, test)?;
        self.close_with(around, Last::Test(test, main, other))
    }

    // A body as a scope of its own, in the block at hand.
    #[cycle(lower)]
    fn put_scope(
        &mut self,
        context: &Context,
        around: &Around,
        body: &[Stmt],
    ) -> Result<(), NoMemory>
        requires { self.old.is_open ≡ true }
        ensures { OnOk result (EmitsScope (names_in context.now) (slots_in context.now)
            (around_of around.now) (body_of body.now) (emitted self.old) (emitted self.new)) }
    {
        self.enter()?;
        self.put_body(context, around, body)?;
        self.leave();
        Ok(())
    }

    // A branch of a choose in a scope of its own, in the block at hand.
    #[cycle(lower)]
    fn put_branch(
        &mut self,
        context: &Context,
        around: &Around,
        branch: &When,
    ) -> Result<(), NoMemory>
        requires { self.old.is_open ≡ true }
        ensures { OnOk result (EmitsWhen (names_in context.now) (slots_in context.now)
            (around_of around.now) (branch_of branch.now) (emitted self.old) (emitted self.new)) }
    {
        self.enter()?;
        self.declare_maybe(&branch.waiting.into)?;
        self.put_body(context, around, &branch.body)?;
        self.leave();
        Ok(())
    }

    // The body of a catch in a scope of its own, in the block at hand.
    #[cycle(lower)]
    fn put_handler(
        &mut self,
        context: &Context,
        around: &Around,
        error: &Name,
        handler: &[Stmt],
    ) -> Result<(), NoMemory>
        requires { self.old.is_open ≡ true }
        ensures { OnOk result (EmitsHandler (names_in context.now) (slots_in context.now)
            (around_of around.now) error.now (body_of handler.now) (emitted self.old)
            (emitted self.new)) }
    {
        self.enter_catch(error)?;
        self.put_body(context, around, handler)?;
        self.leave();
        Ok(())
    }

    /// Statements, and then what the exit says.
    #[tactic(auto, using(crate::proofs::Weights::stmt_below))]
    #[cycle(lower)]
    pub fn put_body(
        &mut self,
        context: &Context,
        around: &Around,
        body: &[Stmt],
    ) -> Result<(), NoMemory>
        requires { self.old.is_open ≡ true }
        ensures { OnOk result (EmitsAll (names_in context.now) (slots_in context.now)
            (around_of around.now) (body_of body.now) (emitted self.old) (emitted self.new)) }
    {
        for stmt in body {
            self.begin();
            self.put_stmt(context, around, stmt)?;
        }
        self.finish_open(around)
    }

    // A part of a `for`, and then what the exit says.
    #[cycle(lower)]
    fn put_part(
        &mut self,
        context: &Context,
        around: &Around,
        part: &Option<Box<Stmt>>,
    ) -> Result<(), NoMemory>
        requires { self.old.is_open ≡ true }
        ensures { OnOk result (EmitsPart (names_in context.now) (slots_in context.now)
            (around_of around.now) (simple_of part.now) (emitted self.old) (emitted self.new)) }
    {
        match part {
            None => self.finish_open(around),
            Some(stmt) => {
                self.put_stmt(context, around, stmt)?;
                self.finish_open(around)
            }
        }
    }

    // A statement in the block at hand.
    #[cycle(lower)]
    fn put_stmt(&mut self, context: &Context, around: &Around, stmt: &Stmt) -> Result<(), NoMemory>
        requires { self.old.is_open ≡ true }
        ensures { OnOk result (Emits (names_in context.now) (slots_in context.now)
            (around_of around.now) (stmt_of stmt.now) (emitted self.old) (emitted self.new)) }
    {
        match &stmt.kind {
            StmtKind::Block(body) => self.put_block(context, around, body),
            StmtKind::If(test, body, otherwise) => match otherwise {
                None => self.put_if(context, around, test, body),
                Some(other) => self.put_if_else(context, around, test, body, other),
            },
            StmtKind::While(test, body) => self.put_while(context, around, test, body),
            StmtKind::For(init, test, step, body) => {
                self.put_for(context, around, init, test, step, body)
            }
            StmtKind::Loop(body) => self.put_loop(context, around, body),
            StmtKind::Break => self.exit_loop(around, Jump::Goto(around.looped.out)),
            StmtKind::Continue => self.exit_loop(around, around.looped.again),
            StmtKind::Return(value) => self.put_return(context, around, value),
            StmtKind::Throw(error) => self.put_throw(context, around, stmt.at, error),
            StmtKind::Try(body, _, error, handler) => {
                self.put_try(context, around, body, error, handler)
            }
            StmtKind::Choose(branches) => self.put_choose(context, around, branches),
            StmtKind::Declare(into, value) => self.put_declare(context, into, value),
            StmtKind::Assign(target, value) => self.put_assign(context, target, value),
            StmtKind::Modify(target, change) => self.put_modify(context, target, change),
            StmtKind::Call(target, args) => self.put_call(context, target, args),
            StmtKind::Wait(waiting) => self.put_wait(context, around, waiting),
        }
    }

    #[cycle(lower)]
    fn put_block(
        &mut self,
        context: &Context,
        around: &Around,
        body: &[Stmt],
    ) -> Result<(), NoMemory>
        requires { self.old.is_open ≡ true }
        ensures { OnOk result ((at : Place)
            → Emits (names_in context.now) (slots_in context.now) (around_of around.now)
            (BlockStmt at (body_of body.now)) (emitted self.old) (emitted self.new)) }
    {
        let size = body_size(around.looped.tried, body)?;
        let join = sum(self.block()?, size.blocks)?;
        let inner = around.scope(Exit::Scope(Jump::Goto(join)))?;
        self.put_scope(context, &inner, body)?;
        self.begin();
        Ok(())
    }

    #[cycle(lower)]
    fn put_if(
        &mut self,
        context: &Context,
        around: &Around,
        test: &Expr,
        body: &[Stmt],
    ) -> Result<(), NoMemory>
        requires { self.old.is_open ≡ true }
        ensures { OnOk result ((at : Place)
            → Emits (names_in context.now) (slots_in context.now) (around_of around.now)
            (IfStmt at (expr_of test.now) (body_of body.now)) (emitted self.old)
            (emitted self.new)) }
    {
        let main = self.block()?;
        let join = past_body(main, around.looped.tried, body)?;
        self.close_test(context, around, test, main, join)?;
        let inner = around.scope(Exit::Scope(Jump::Goto(join)))?;
        self.begin();
        self.put_scope(context, &inner, body)?;
        self.begin();
        Ok(())
    }

    #[cycle(lower)]
    fn put_if_else(
        &mut self,
        context: &Context,
        around: &Around,
        test: &Expr,
        body: &[Stmt],
        other: &[Stmt],
    ) -> Result<(), NoMemory>
        requires { self.old.is_open ≡ true }
        ensures { OnOk result ((at : Place)
            → Emits (names_in context.now) (slots_in context.now) (around_of around.now)
            (IfElseStmt at (expr_of test.now) (body_of body.now) (body_of other.now))
            (emitted self.old) (emitted self.new)) }
    {
        let main = self.block()?;
        let otherwise = past_body(main, around.looped.tried, body)?;
        let join = past_body(otherwise, around.looped.tried, other)?;
        self.close_test(context, around, test, main, otherwise)?;
        let inner = around.scope(Exit::Scope(Jump::Goto(join)))?;
        self.begin();
        self.put_scope(context, &inner, body)?;
        self.begin();
        self.put_scope(context, &inner, other)?;
        self.begin();
        Ok(())
    }

    #[cycle(lower)]
    fn put_loop(
        &mut self,
        context: &Context,
        around: &Around,
        body: &[Stmt],
    ) -> Result<(), NoMemory>
        requires { self.old.is_open ≡ true }
        ensures { OnOk result ((at : Place)
            → Emits (names_in context.now) (slots_in context.now) (around_of around.now)
            (LoopStmt at (body_of body.now)) (emitted self.old) (emitted self.new)) }
    {
        let head = self.block()?;
        let out = past_body(head, false, body)?;
        self.close(around, Last::Pass(head))?;
        let inner = around.pass(1, Jump::Pass(head), out)?;
        self.begin();
        self.put_scope(context, &inner, body)?;
        self.begin();
        Ok(())
    }

    #[cycle(lower)]
    fn put_while(
        &mut self,
        context: &Context,
        around: &Around,
        test: &Expr,
        body: &[Stmt],
    ) -> Result<(), NoMemory>
        requires { self.old.is_open ≡ true }
        ensures { OnOk result ((at : Place)
            → Emits (names_in context.now) (slots_in context.now) (around_of around.now)
            (WhileStmt at (expr_of test.now) (body_of body.now)) (emitted self.old)
            (emitted self.new)) }
    {
        let head = self.block()?;
        let main = sum(head, 1)?;
        let out = past_body(main, false, body)?;
        self.close(around, Last::Pass(head))?;
        self.begin();
        self.close_test(context, around, test, main, out)?;
        let inner = around.pass(1, Jump::Pass(head), out)?;
        self.begin();
        self.put_scope(context, &inner, body)?;
        self.begin();
        Ok(())
    }

    // The test of a `for`, in a block of its own.
    fn put_test(
        &mut self,
        context: &Context,
        around: &Around,
        test: &Option<Expr>,
        main: u32,
        out: u32,
    ) -> Result<(), NoMemory>
        requires { self.old.is_open ≡ true }
        ensures { OnOk result (emitted self.new
            ≡ testing (slots_in context.now) (around_of around.now) (option_map expr_of test.now)
            main out (emitted self.old)) }
    {
        match test {
            None => Ok(()),
            Some(test) => {
                self.close_test(context, around, test, main, out)?;
                self.begin();
                Ok(())
            }
        }
    }

    // The scope of a `for` is around its parts and its body. The block behind it drops its locals.
    #[cycle(lower)]
    fn put_for(
        &mut self,
        context: &Context,
        around: &Around,
        init: &Option<Box<Stmt>>,
        test: &Option<Expr>,
        step: &Option<Box<Stmt>>,
        body: &[Stmt],
    ) -> Result<(), NoMemory>
        requires { self.old.is_open ≡ true }
        ensures { OnOk result ((at : Place)
            → Emits (names_in context.now) (slots_in context.now) (around_of around.now)
            (ForStmt at (simple_of init.now) (option_map expr_of test.now) (simple_of step.now)
            (body_of body.now)) (emitted self.old) (emitted self.new)) }
    {
        let head = past_part(self.block()?, around.looped.tried, init)?;
        let main = sum(head, test_size(test))?;
        let again = past_body(main, false, body)?;
        let out = sum(past_part(again, around.looped.tried, step)?, 1)?;
        let part = around.scope(Exit::Part(Jump::Pass(head)))?;
        let inner = around.pass(2, Jump::Goto(again), out)?;
        self.enter()?;
        self.put_part(context, &part, init)?;
        self.begin();
        self.put_test(context, &part, test, main, out)?;
        self.put_scope(context, &inner, body)?;
        self.begin();
        self.put_part(context, &part, step)?;
        self.begin();
        self.drop_scope()?;
        self.leave();
        Ok(())
    }

    #[cycle(lower)]
    fn put_try(
        &mut self,
        context: &Context,
        around: &Around,
        body: &[Stmt],
        error: &Ident,
        handler: &[Stmt],
    ) -> Result<(), NoMemory>
        requires { self.old.is_open ≡ true }
        ensures { OnOk result ((at : Place) (catch : Place)
            → Emits (names_in context.now) (slots_in context.now) (around_of around.now)
            (TryStmt at (body_of body.now) catch error.now (body_of handler.now)) (emitted self.old)
            (emitted self.new)) }
    {
        let size = body_size(true, body)?;
        let main = self.block()?;
        let block = behind(main, size.blocks)?;
        let error_local = sum(self.next, size.locals)?;
        let join = past_body(block, around.looped.tried, handler)?;
        let catch = Handler {
            block,
            error: error_local,
        };
        let exit = Exit::Scope(Jump::Goto(join));
        self.close(around, Last::Goto(main))?;
        self.begin();
        self.put_scope(context, &around.try_body(exit, catch)?, body)?;
        self.begin();
        self.put_handler(
            context,
            &around.catch_body(exit, &error.name)?,
            &error.name,
            handler,
        )?;
        self.begin();
        Ok(())
    }

    #[cycle(lower)]
    fn put_choose(
        &mut self,
        context: &Context,
        around: &Around,
        branches: &[When],
    ) -> Result<(), NoMemory>
        requires { self.old.is_open ≡ true }
        ensures { OnOk result ((at : Place)
            → Emits (names_in context.now) (slots_in context.now) (around_of around.now)
            (ChooseStmt at (branches_of branches.now)) (emitted self.old) (emitted self.new)) }
    {
        let first = self.block()?;
        let size = branches_size(around.looped.tried, branches)?;
        let join = sum(first, size.blocks)?;
        let inner = around.scope(Exit::Scope(Jump::Goto(join)))?;
        let callbacks = self.callbacks(context, around.looped.tried, branches, first)?;
        self.wait_for(context, around, callbacks)?;
        self.put_branches(context, &inner, branches)?;
        self.begin();
        Ok(())
    }

    // The branches of a choose, each in a block of its own.
    #[tactic(auto, using(crate::proofs::Weights::branch_below))]
    #[cycle(lower)]
    fn put_branches(
        &mut self,
        context: &Context,
        around: &Around,
        branches: &[When],
    ) -> Result<(), NoMemory>
        ensures { OnOk result (EmitsBranches (names_in context.now) (slots_in context.now)
            (around_of around.now) (branches_of branches.now) (emitted self.old)
            (emitted self.new)) }
    {
        for branch in branches {
            self.begin();
            self.put_branch(context, around, branch)?;
        }
        Ok(())
    }
}
