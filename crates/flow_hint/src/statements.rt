// What is said of a statement that breaks a rule on its meaning.

use crate::explain::Explainer;
use crate::expressions::Wanted;
use crate::hint::Hint;
use crate::spans::{into_tokens, target_tokens};
use flow_base::memory::NoMemory;
use flow_tree::expr::{Expr, Op};
use flow_tree::stmt::{Change, Into, Stmt, StmtKind, Target, Waiting};
use flow_tree::ty::Ty;
use flow_types::type_view::{ElementView, TypeView};

impl<'s, 'n, 'a> Explainer<'s, 'n, 'a> {
    /// Says why this statement breaks the rule.
    pub fn stmt(self, stmt: &'a Stmt, hint: &mut Hint) -> Result<(), NoMemory> {
        let token = self.source.number(stmt.at);
        match &stmt.kind {
            StmtKind::If(test, _, _) | StmtKind::While(test, _) => {
                self.wanted(
                    test,
                    token.saturating_add(2),
                    Wanted::part(TypeView::Bool),
                    hint,
                )
            }
            StmtKind::For(_, Some(test), _, _) => {
                let begin = self.source.semicolon(token.saturating_add(2));
                self.wanted(
                    test,
                    begin.saturating_add(1),
                    Wanted::part(TypeView::Bool),
                    hint,
                )
            }
            StmtKind::Return(Some(value)) => {
                let Some(routine) = self.seeker.routine else {
                    return Ok(());
                };
                let returns = routine.returns.found();
                self.wanted(value, token.saturating_add(1), Wanted::part(returns), hint)
            }
            StmtKind::Return(None) => self.nothing_returned(hint),
            StmtKind::Throw(Some(error)) => {
                self.wanted(
                    error,
                    token.saturating_add(1),
                    Wanted::part(TypeView::Error),
                    hint,
                )
            }
            StmtKind::Declare(into, value) => self.declaration(into, value, token, hint),
            StmtKind::Assign(target, value) => self.assignment(target, value, token, hint),
            StmtKind::Modify(target, change) => self.modification(target, change, token, hint),
            StmtKind::Call(target, args) => self.call_statement(target, args, token, hint),
            StmtKind::Wait(waiting) => self.waiting(waiting, token, hint),
            StmtKind::Choose(_) => self.waits(hint),
            _ => Ok(()),
        }
    }

    // Says which type is needed where nothing is returned, and what to write.
    fn nothing_returned(self, hint: &mut Hint) -> Result<(), NoMemory> {
        let Some(routine) = self.seeker.routine else {
            return Ok(());
        };
        if self.rule != 3 {
            return Ok(());
        }
        let returns = routine.returns.found();
        let ty = self.spelled(returns)?;
        self.say(
            hint,
            self.at,
            &[b"`return;` gives nothing, and `", &ty, b"` is needed"],
        )?;
        match returns {
            TypeView::Void => self.advise(hint, &[b"`return Void();`"]),
            _ => self.advise(hint, &[b"return a value of `", &ty, b"`"]),
        }
    }

    // Advises where a function waits.
    fn waits(self, hint: &mut Hint) -> Result<(), NoMemory> {
        if self.rule == 10 {
            return self.advise_actor(hint);
        }
        Ok(())
    }

    // Says why a declared variable breaks the rule.
    fn into(self, into: &'a Into, hint: &mut Hint) -> Result<(), NoMemory> {
        self.written(&into.ty, into.name.at, hint)?;
        if self.rule == 2 {
            self.taken(&into.name, hint)?;
        }
        if self.rule == 6 && into.state && hint.help.is_empty() {
            self.advise_actor(hint)?;
        }
        Ok(())
    }

    fn declaration(
        self,
        into: &'a Into,
        value: &'a Option<Expr>,
        token: usize,
        hint: &mut Hint,
    ) -> Result<(), NoMemory> {
        self.into(into, hint)?;
        match value {
            Some(value) => {
                let wanted = Wanted {
                    whole: true,
                    ty: Some(TypeView::of(&into.ty)),
                    name: into.name.name.bytes(),
                };
                self.wanted(value, token.saturating_add(into_tokens(into)), wanted, hint)
            }
            None => self.valueless(into, hint),
        }
    }

    // Says that a variable has no value by itself.
    fn valueless(self, into: &Into, hint: &mut Hint) -> Result<(), NoMemory> {
        if self.rule != 7 {
            return Ok(());
        }
        let ty = self.spelled(TypeView::of(&into.ty))?;
        let name = into.name.name.bytes();
        self.say(
            hint,
            into.name.at,
            &[b"there is no `", &ty, b"` without a value"],
        )?;
        let state = if into.state {
            b"state ".as_slice()
        } else {
            b"".as_slice()
        };
        if let Ty::Future(of) = &into.ty {
            if let Ty::Void = &**of {
                let begin = b"give it a value: `".as_slice();
                return self.advise(
                    hint,
                    &[begin, state, &ty, b" ", name, b" = Never();` never comes"],
                );
            }
        }
        let begin = b"give it a value: `".as_slice();
        self.advise(hint, &[begin, state, &ty, b" ", name, b" = ..;`"])
    }

    fn assignment(
        self,
        target: &'a Target,
        value: &'a Expr,
        token: usize,
        hint: &mut Hint,
    ) -> Result<(), NoMemory> {
        let judged = self.seeker.setting.target(&target.path);
        if self.is_rule(judged.fault) {
            return self.path(target, target.path.len(), hint);
        }
        let wanted = Wanted {
            whole: true,
            ty: judged.form,
            name: b"x",
        };
        let begin = token
            .saturating_add(target_tokens(target))
            .saturating_add(1);
        self.wanted(value, begin, wanted, hint)
    }

    fn modification(
        self,
        target: &'a Target,
        change: &'a Change,
        token: usize,
        hint: &mut Hint,
    ) -> Result<(), NoMemory> {
        let judged = self.seeker.setting.target(&target.path);
        if self.is_rule(judged.fault) {
            return self.path(target, target.path.len(), hint);
        }
        let begin = token
            .saturating_add(target_tokens(target))
            .saturating_add(1);
        match change {
            Change::Plus(value) => self.changed(Op::Add, judged.form, value, begin, hint),
            Change::Minus(value) => self.changed(Op::Sub, judged.form, value, begin, hint),
            Change::Up | Change::Down => self.counted(target, judged.form, token, hint),
        }
    }

    // Says of which type a value is that is added or taken off.
    fn changed(
        self,
        op: Op,
        target: Option<TypeView<'a>>,
        value: &'a Expr,
        token: usize,
        hint: &mut Hint,
    ) -> Result<(), NoMemory> {
        let wanted = match op {
            Op::Add => target,
            _ => Some(TypeView::Int),
        };
        let wanted = Wanted {
            whole: false,
            ty: wanted,
            name: b"x",
        };
        self.wanted(value, token, wanted, hint)
    }

    // Says of which type a variable is that is counted up or down.
    fn counted(
        self,
        target: &Target,
        form: Option<TypeView<'a>>,
        token: usize,
        hint: &mut Hint,
    ) -> Result<(), NoMemory> {
        let Some(form) = form else {
            return Ok(());
        };
        let ty = self.spelled(form)?;
        let text = self.written_text(token, target_tokens(target))?;
        self.say(
            hint,
            self.source.place(token),
            &[b"`", &text, b"` is `", &ty, b"`, and `int` is needed"],
        )
    }

    /// Says which name of a path isn't known.
    pub fn path(self, target: &'a Target, count: usize, hint: &mut Hint) -> Result<(), NoMemory> {
        let setting = &self.seeker.setting;
        for (number, name) in target.path.iter().enumerate() {
            let Some(begin) = target.path.get(..number.saturating_add(1)) else {
                return Ok(());
            };
            if number < count && setting.target(begin).form.is_none() {
                if number == 0 {
                    return self.unknown(name, b"nothing is named", hint);
                }
                return self.unknown(name, b"there is no field", hint);
            }
        }
        Ok(())
    }

    /// Says why a wait breaks the rule, whose first token has this number.
    pub fn waiting(
        self,
        waiting: &'a Waiting,
        token: usize,
        hint: &mut Hint,
    ) -> Result<(), NoMemory> {
        let (element, name, before) = match &waiting.into {
            Some(into) => {
                self.into(into, hint)?;
                let element = ElementView::Written(&into.ty);
                (element, into.name.name.bytes(), into_tokens(into))
            }
            None => (ElementView::Void, b"x".as_slice(), 0),
        };
        let ty = if waiting.next {
            TypeView::FutureStream(element)
        } else {
            TypeView::Future(element)
        };
        let wanted = Wanted {
            whole: true,
            ty: Some(ty),
            name,
        };
        let begin = token.saturating_add(before).saturating_add(2);
        self.wanted(&waiting.operand, begin, wanted, hint)?;
        self.waits(hint)
    }
}
