// A layout grows, statement by statement.

ghost use Rattle.std.specs.Prelude.{◌≡◌, [], ◌∷◌, ◌++◌, map, length, IfOk, OnOk};
ghost use Rattle.std.specs.Option.{option_map};
ghost use Rattle.flow_tree.specs.Tree.{ErrorType};
ghost use Rattle.flow_tree.specs.View.{type_of};
ghost use Rattle.flow_tree.specs.DeclView.{param_of, actor_of};
ghost use Rattle.flow_tree.specs.StmtView.{into_of, waiting_of, stmt_of, body_of, branches_of, else_of, simple_of};
ghost use Rattle.flow_ast.specs.Slots.{declared_slots, into_slots, param_slot};
ghost use Rattle.flow_layout.specs.Locals.{declared_locals, into_locals};
ghost use Rattle.flow_layout.specs.Laying.{laid, layout_of, with_body, with_branches, with_more, with_group, LaysBefore, else_body};

use crate::places::Layout;
use flow_base::memory::NoMemory;
use flow_tree::decl::{Param, Slot};
use flow_tree::stmt::{Into, Stmt, StmtKind, Waiting, When};
use flow_tree::ty::{Ident, Ty};
use std::alloc::Global;

impl Layout {
    /// A slot for each parameter, in order. It fails only for want of memory.
    pub fn lay_params(&mut self, alloc: Global, params: &[Param]) -> Result<(), NoMemory>
        ensures { OnOk result (laid self.new
            ≡ with_more (laid self.old) (map param_slot (map param_of params.now)) []) }
    {
        for param in params {
            self.lay_slot(alloc, &param.ty, &param.name)?;
        }
        Ok(())
    }

    // A slot of a type and a name.
    fn lay_slot(&mut self, alloc: Global, ty: &Ty, name: &Ident) -> Result<(), NoMemory>
        ensures { OnOk result (laid self.new
            ≡ with_more (laid self.old) (record { ty = type_of ty.now; name = name.now.name } ∷ [])
            []) }
    {
        self.slots.push(Slot {
            ty: ty.copy(alloc)?,
            name: name.name.copy(alloc)?,
        })?;
        Ok(())
    }

    // A slot for a state variable, or a local.
    fn lay_into(&mut self, alloc: Global, into: &Into) -> Result<(), NoMemory>
        ensures { OnOk result (laid self.new
            ≡ with_more (laid self.old) (declared_slots (into_of into.now))
            (declared_locals (into_of into.now))) }
    {
        if into.state {
            self.lay_slot(alloc, &into.ty, &into.name)
        } else {
            self.locals.push(into.ty.copy(alloc)?)?;
            Ok(())
        }
    }

    // What a wait declares.
    fn lay_maybe(&mut self, alloc: Global, into: &Option<Into>) -> Result<(), NoMemory>
        ensures { OnOk result (laid self.new
            ≡ with_more (laid self.old) (into_slots (option_map into_of into.now))
            (into_locals (option_map into_of into.now))) }
    {
        match into {
            None => Ok(()),
            Some(into) => self.lay_into(alloc, into),
        }
    }

    // A group of so many branches. No memory holds so many that there is no number for them.
    fn lay_group(&mut self, branches: usize) -> Result<(), NoMemory>
        ensures { OnOk result (laid self.new ≡ with_group (laid self.old) branches) }
    {
        match u32::try_from(branches) {
            Ok(branches) => {
                self.branches.push(branches)?;
                Ok(())
            }
            Err(_) => Err(NoMemory),
        }
    }

    // The local that takes the error of a catch.
    fn lay_error(&mut self) -> Result<(), NoMemory>
        ensures { OnOk result (laid self.new ≡ with_more (laid self.old) [] (ErrorType ∷ [])) }
    {
        self.locals.push(Ty::Error)?;
        Ok(())
    }

    // What a statement declares, and where it waits.
    #[cycle(lay)]
    fn lay_stmt(&mut self, alloc: Global, stmt: &Stmt) -> Result<(), NoMemory>
        ensures { OnOk result (LaysBefore (stmt_of stmt.now) (laid self.old) (laid self.new)) }
    {
        match &stmt.kind {
            StmtKind::Block(body) => {
                self.lay_body(alloc, body)?;
                Ok(())
            }
            StmtKind::If(_, body, otherwise) => {
                self.lay_body(alloc, body)?;
                self.lay_else(alloc, otherwise)?;
                Ok(())
            }
            StmtKind::While(_, body) => {
                self.lay_body(alloc, body)?;
                Ok(())
            }
            StmtKind::For(init, _, step, body) => {
                self.lay_part(alloc, init)?;
                self.lay_part(alloc, step)?;
                self.lay_body(alloc, body)?;
                Ok(())
            }
            StmtKind::Loop(body) => {
                self.lay_body(alloc, body)?;
                Ok(())
            }
            StmtKind::Break => Ok(()),
            StmtKind::Continue => Ok(()),
            StmtKind::Return(_) => Ok(()),
            StmtKind::Throw(_) => Ok(()),
            StmtKind::Try(body, _, _, handler) => {
                self.lay_body(alloc, body)?;
                self.lay_error()?;
                self.lay_body(alloc, handler)?;
                Ok(())
            }
            StmtKind::Choose(branches) => {
                self.lay_group(branches.len())?;
                self.lay_branches(alloc, branches)?;
                Ok(())
            }
            StmtKind::Declare(into, _) => {
                self.lay_into(alloc, into)?;
                Ok(())
            }
            StmtKind::Assign(_, _) => Ok(()),
            StmtKind::Modify(_, _) => Ok(()),
            StmtKind::Call(_, _) => Ok(()),
            StmtKind::Wait(waiting) => {
                self.lay_group(1)?;
                self.lay_maybe(alloc, &waiting.into)?;
                Ok(())
            }
        }
    }

    /// What the statements of a body declare, and where they wait, in the order of the text. It fails
    /// only for want of memory.
    #[cycle(lay)]
    pub fn lay_body(&mut self, alloc: Global, body: &[Stmt]) -> Result<(), NoMemory>
        ensures { OnOk result (laid self.new ≡ with_body (laid self.old) (body_of body.now)) }
    {
        for stmt in body {
            self.lay_stmt(alloc, stmt)?;
        }
        Ok(())
    }

    #[cycle(lay)]
    fn lay_branches(&mut self, alloc: Global, branches: &[When]) -> Result<(), NoMemory>
        ensures { OnOk result (laid self.new
            ≡ with_branches (laid self.old) (branches_of branches.now)) }
    {
        for branch in branches {
            self.lay_maybe(alloc, &branch.waiting.into)?;
            self.lay_body(alloc, &branch.body)?;
        }
        Ok(())
    }

    // The body of an `else`, where there is one.
    #[cycle(lay)]
    fn lay_else(&mut self, alloc: Global, otherwise: &Option<Vec<Stmt>>) -> Result<(), NoMemory>
        ensures { OnOk result (laid self.new
            ≡ with_body (laid self.old) (else_body (else_of otherwise.now))) }
    {
        match otherwise {
            None => Ok(()),
            Some(body) => self.lay_body(alloc, body),
        }
    }

    // A part of a `for`, where there is one.
    #[cycle(lay)]
    fn lay_part(&mut self, alloc: Global, part: &Option<Box<Stmt>>) -> Result<(), NoMemory>
        ensures { OnOk result (laid self.new ≡ with_body (laid self.old) (simple_of part.now)) }
    {
        match part {
            None => Ok(()),
            Some(stmt) => self.lay_stmt(alloc, stmt),
        }
    }
}
