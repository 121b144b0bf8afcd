// The items of a body in the order of the text.

ghost use Rattle.std.specs.Prelude.{◌≡◌, false, true, None, IfOk, IfErr};
ghost use Rattle.std.specs.Option.{option_map};
ghost use Rattle.flow_tree.specs.declared.fault.SourceFault.TheVariants.{OutOfMemory};
ghost use Rattle.flow_tree.specs.Tree.{ErrorType};
ghost use Rattle.flow_tree.specs.View.{type_of, expr_of};
ghost use Rattle.flow_tree.specs.StmtView.{into_of, waiting_of, change_of, stmt_of, body_of, branch_of, branches_of, simple_of, else_of};
ghost use Rattle.flow_ast.specs.Slots.{body_slots, branch_slots};
ghost use Rattle.flow_ast.specs.TypingNames.{named};
ghost use Rattle.flow_rules.specs.Least.{lesser};
ghost use Rattle.flow_rules.specs.Judged.{form, fault, operands};
ghost use Rattle.flow_rules.specs.Items.{item, among, has_default, wait_type, fresh, state_here, into_fault, maybe_into, with_var, with_states, if_state, in_catch, declared, waited, test_fault, maybe_test, throw_fault, value_fault, declare_fault, assign_fault, change_fault, modify_fault, wait_fault, body_refusal, branch_refusal};
ghost use Rattle.flow_types.specs.View.{found_of};
ghost use Rattle.flow_types.specs.MapView.{vars_of};
ghost use Rattle.flow_types.specs.SettingView.{setting_view};
ghost use Rattle.flow_types.specs.WalkView.{texts_of, env_of, Says, StmtAnswer, BranchAnswer, BodyAnswer, PartAnswer, Leads, else_refusal, else_slots};

use crate::judge::{Setting, operands, wants};
use crate::top_names::is_predefined;
use crate::type_view::{ElementView, TypeView};
use flow_base::place::Place;
use flow_rules::rule::{SemanticRule, lesser, unless};
use flow_tree::expr::{Expr, Op};
use flow_tree::fault::{Rule, SourceFault};
use flow_tree::stmt::{Change, Into, Stmt, StmtKind, Target, Waiting, When};
use flow_tree::ty::{Ident, Ty};
use indexmap::IndexSet;

/// Whether a statement stands in a loop, and in the body of a catch.
#[derive(Clone, Copy)]
pub struct Around {
    pub looped: bool,
    pub caught: bool,
}

/// What is in force at an item: its setting, the result that is wanted, and the names of the
/// parameters and of the state variables so far.
#[derive(Drop)]
pub struct Walk<'n, 'a> {
    pub setting: Setting<'n, 'a>,
    pub returns: TypeView<'a>,
    pub states: IndexSet<&'a [u8]>,
}

/// Whether a text is among these.
pub fn has_text(texts: &IndexSet<&[u8]>, text: &[u8]) -> bool
    ensures { result ≡ among (texts_of texts.now) text.now }
{
    texts.contains(text)
}

/// An item at this place, with the least rule that fails in it.
pub fn item(at: Place, fault: Option<SemanticRule>) -> Result<(), SourceFault>
    ensures { Says (item at fault) result }
{
    match fault {
        Some(rule) => Err(SourceFault::Refused {
            rule: Rule::K(rule.number()),
            at,
        }),
        None => Ok(()),
    }
}

// The types of variables that have a value without one being given.
fn has_default(ty: &Ty) -> bool
    ensures { result ≡ has_default (type_of ty.now) }
{
    match ty {
        Ty::Int | Ty::Bool | Ty::Str => true,
        Ty::Promise(_) | Ty::PromiseStream(_) | Ty::Vector(_) => true,
        Ty::Void | Ty::Error | Ty::Named(_) | Ty::Future(_) | Ty::FutureStream(_) => false,
    }
}

// What a wait asks for: a future or a stream of what it declares, or of `Void`.
fn wait_type<'a>(next: bool, into: &'a Option<Into>) -> TypeView<'a>
    ensures { found_of result ≡ wait_type next (option_map into_of into.now) }
{
    let of = match into {
        Some(into) => ElementView::Written(&into.ty),
        None => ElementView::Void,
    };
    if next {
        TypeView::FutureStream(of)
    } else {
        TypeView::Future(of)
    }
}

impl Around {
    fn in_loop(self) -> Around
        ensures { result ≡ record self { looped = true } }
    {
        Around {
            looped: true,
            caught: self.caught,
        }
    }

    fn in_catch(self) -> Around
        ensures { result ≡ record self { caught = true } }
    {
        Around {
            looped: self.looped,
            caught: true,
        }
    }
}

impl<'n, 'a> Walk<'n, 'a> {
    // A state variable or a parameter has this name.
    fn has_state(&self, name: &[u8]) -> bool
        ensures { result ≡ among (texts_of self.now.states) name.now }
    {
        has_text(&self.states, name)
    }

    // A new variable has a name that is free.
    fn fresh(&self, state: bool, name: &Ident) -> Option<SemanticRule>
        ensures { result ≡ fresh (setting_view self.now.setting) (texts_of self.now.states) state
            name.now.name }
    {
        let bytes = name.name.bytes();
        let taken = self.setting.has_var(bytes)
            || is_predefined(bytes)
            || self.setting.has_name(bytes)
            || (state && self.has_state(bytes));
        unless(!taken, SemanticRule::TakenName)
    }

    fn state_here(&self, state: bool) -> Option<SemanticRule>
        ensures { result ≡ state_here (setting_view self.now.setting) state }
    {
        if state { self.setting.not_here() } else { None }
    }

    fn into(&self, into: &Into) -> Option<SemanticRule>
        ensures { result ≡ into_fault (setting_view self.now.setting) (texts_of self.now.states)
            (into_of into.now) }
    {
        lesser(
            self.setting.written(&into.ty),
            lesser(
                self.state_here(into.state),
                self.fresh(into.state, &into.name),
            ),
        )
    }

    fn maybe_into(&self, into: &Option<Into>) -> Option<SemanticRule>
        ensures { result ≡ maybe_into (setting_view self.now.setting) (texts_of self.now.states)
            (option_map into_of into.now) }
    {
        match into {
            Some(into) => self.into(into),
            None => None,
        }
    }

    // The variable is in force from here on.
    #[tactic(auto, using(crate::proofs::Inserts::row_inserted))]
    fn declare(&mut self, name: &'a Ident, ty: TypeView<'a>) -> Result<(), SourceFault>
        requires { named (vars_of self.old.setting.vars) name.now.name ≡ None }
        ensures declared { IfOk result (λ _. (around : Around) → env_of self.new around
            ≡ with_var (env_of self.old around) name.now.name (found_of ty.entry)) }
        ensures memory { IfErr result (λ e. e ≡ OutOfMemory) }
    {
        self.setting.vars.insert(name.name.bytes(), ty)?;
        Ok(())
    }

    // The name of a state variable stays taken behind the scope of the variable.
    #[tactic(auto, using(crate::proofs::Parts::noted_none))]
    fn note_state(&mut self, into: &'a Into) -> Result<(), SourceFault>
        requires { fresh (setting_view self.old.setting) (texts_of self.old.states) into.now.state
            into.now.name.name ≡ None }
        ensures noted { IfOk result (λ _. (around : Around) → env_of self.new around
            ≡ with_states (env_of self.old around) (if_state into.now.state into.now.name.name)) }
        ensures setting { IfOk result (λ _. self.new.setting ≡ self.old.setting) }
        ensures memory { IfErr result (λ e. e ≡ OutOfMemory) }
    {
        if !into.state {
            return Ok(());
        }
        self.states.insert(into.name.name.bytes())?;
        Ok(())
    }

    fn declared(&mut self, into: &'a Into) -> Result<(), SourceFault>
        requires { fresh (setting_view self.old.setting) (texts_of self.old.states) into.now.state
            into.now.name.name ≡ None }
        ensures declared { IfOk result (λ _. (around : Around) → env_of self.new around
            ≡ declared (env_of self.old around) (into_of into.now)) }
        ensures memory { IfErr result (λ e. e ≡ OutOfMemory) }
    {
        self.note_state(into)?;
        self.declare(&into.name, TypeView::of(&into.ty))
    }

    fn waited(&mut self, into: &'a Option<Into>) -> Result<(), SourceFault>
        requires { maybe_into (setting_view self.old.setting) (texts_of self.old.states)
            (option_map into_of into.now) ≡ None }
        ensures waited { IfOk result (λ _. (around : Around) → env_of self.new around
            ≡ waited (env_of self.old around) (option_map into_of into.now)) }
        ensures memory { IfErr result (λ e. e ≡ OutOfMemory) }
    {
        match into {
            Some(into) => self.declared(into),
            None => Ok(()),
        }
    }

    fn test(&self, test: &'a Expr) -> Option<SemanticRule>
        ensures { result ≡ test_fault (setting_view self.now.setting) (expr_of test.now) }
    {
        self.setting.wanted(false, test, TypeView::Bool)
    }

    fn maybe_test(&self, test: &'a Option<Expr>) -> Option<SemanticRule>
        ensures { result ≡ maybe_test (setting_view self.now.setting)
            (option_map expr_of test.now) }
    {
        match test {
            Some(test) => self.test(test),
            None => None,
        }
    }

    fn thrown(&self, caught: bool, error: &'a Option<Expr>) -> Option<SemanticRule>
        ensures { result ≡ throw_fault (setting_view self.now.setting) caught
            (option_map expr_of error.now) }
    {
        match error {
            Some(error) => self.setting.wanted(false, error, TypeView::Error),
            None => unless(caught, SemanticRule::BreakOutside),
        }
    }

    fn value(&self, ty: &'a Ty, value: &'a Option<Expr>) -> Option<SemanticRule>
        ensures { result ≡ value_fault (setting_view self.now.setting) (type_of ty.now)
            (option_map expr_of value.now) }
    {
        match value {
            Some(value) => self.setting.wanted(true, value, TypeView::of(ty)),
            None => unless(has_default(ty), SemanticRule::NeedsValue),
        }
    }

    fn declaration(&self, into: &'a Into, value: &'a Option<Expr>) -> Option<SemanticRule>
        ensures { result ≡ declare_fault (setting_view self.now.setting) (texts_of self.now.states)
            (into_of into.now) (option_map expr_of value.now) }
    {
        lesser(self.into(into), self.value(&into.ty, value))
    }

    fn assignment(&self, target: &Target, value: &'a Expr) -> Option<SemanticRule>
        ensures { result ≡ assign_fault (setting_view self.now.setting) target.now.path.items
            (expr_of value.now) }
    {
        let target = self.setting.target(&target.path);
        let value = self.setting.judge(true, value);
        let assigned = match target.form {
            Some(form) => wants(value.form, form),
            None => None,
        };
        lesser(lesser(target.fault, value.fault), assigned)
    }

    fn operand(&self, op: Op, target: Option<TypeView<'a>>, value: &'a Expr) -> Option<SemanticRule>
        ensures { result ≡ lesser (fault (setting_view self.now.setting) false (expr_of value.now))
            (operands op (option_map found_of target.entry)
            (form (setting_view self.now.setting) (expr_of value.now))) }
    {
        let value = self.setting.judge(false, value);
        lesser(value.fault, operands(op, target, value.form))
    }

    fn change(&self, target: Option<TypeView<'a>>, change: &'a Change) -> Option<SemanticRule>
        ensures { result ≡ change_fault (setting_view self.now.setting)
            (option_map found_of target.entry) (change_of change.now) }
    {
        match change {
            Change::Plus(value) => self.operand(Op::Add, target, value),
            Change::Minus(value) => self.operand(Op::Sub, target, value),
            Change::Up | Change::Down => wants(target, TypeView::Int),
        }
    }

    fn modification(&self, target: &Target, change: &'a Change) -> Option<SemanticRule>
        ensures { result ≡ modify_fault (setting_view self.now.setting) target.now.path.items
            (change_of change.now) }
    {
        let target = self.setting.target(&target.path);
        lesser(target.fault, self.change(target.form, change))
    }

    fn waiting(&self, waiting: &'a Waiting) -> Option<SemanticRule>
        ensures { result ≡ wait_fault (setting_view self.now.setting) (texts_of self.now.states)
            (waiting_of waiting.now) }
    {
        let wanted = wait_type(waiting.next, &waiting.into);
        lesser(
            self.maybe_into(&waiting.into),
            lesser(
                self.setting.wanted(true, &waiting.operand, wanted),
                unless(!self.setting.plain, SemanticRule::WaitInFunction),
            ),
        )
    }

    // Statements of a body of their own, whose variables are in force in it alone.
    #[cycle(walk)]
    fn scoped(&mut self, around: Around, body: &'a [Stmt]) -> Result<(), SourceFault>
        ensures leads { Leads (env_of self.old around) (env_of self.new around)
            (body_refusal (env_of self.old around) (body_of body.now))
            (body_slots (body_of body.now)) result }
    {
        let count = self.setting.vars.len();
        self.body(around, body)?;
        self.setting.vars.truncate(count);
        Ok(())
    }

    /// Statements one after another.
    #[cycle(walk)]
    pub fn body(&mut self, around: Around, body: &'a [Stmt]) -> Result<(), SourceFault>
        ensures answer { BodyAnswer (env_of self.old around) (env_of self.new around)
            (body_of body.now) result }
    {
        for stmt in body {
            self.stmt(around, stmt)?;
        }
        Ok(())
    }

    #[cycle(walk)]
    fn otherwise(&mut self, around: Around, body: &'a Option<Vec<Stmt>>) -> Result<(), SourceFault>
        ensures leads { Leads (env_of self.old around) (env_of self.new around)
            (else_refusal (env_of self.old around) (else_of body.now))
            (else_slots (else_of body.now)) result }
    {
        match body {
            Some(body) => self.scoped(around, body),
            None => Ok(()),
        }
    }

    // The init or the step of a `for`.
    #[cycle(walk)]
    fn part(&mut self, around: Around, part: &'a Option<Box<Stmt>>) -> Result<(), SourceFault>
        ensures answer { PartAnswer (env_of self.old around) (env_of self.new around)
            (simple_of part.now) result }
    {
        match part {
            Some(stmt) => self.stmt(around, stmt),
            None => Ok(()),
        }
    }

    // The handler of a `catch`, in which its error is in force.
    #[cycle(walk)]
    fn handler(
        &mut self,
        around: Around,
        error: &'a Ident,
        handler: &'a [Stmt],
    ) -> Result<(), SourceFault>
        requires { named (vars_of self.old.setting.vars) error.now.name ≡ None }
        ensures leads { Leads (env_of self.old around) (env_of self.new around)
            (body_refusal (in_catch (with_var (env_of self.old around) error.now.name ErrorType))
            (body_of handler.now)) (body_slots (body_of handler.now)) result }
    {
        let count = self.setting.vars.len();
        self.declare(error, TypeView::Error)?;
        self.body(around.in_catch(), handler)?;
        self.setting.vars.truncate(count);
        Ok(())
    }

    #[cycle(walk)]
    fn branch(&mut self, around: Around, branch: &'a When) -> Result<(), SourceFault>
        ensures answer { BranchAnswer (env_of self.old around) (env_of self.new around)
            (branch_of branch.now) result }
    {
        let count = self.setting.vars.len();
        item(branch.at, self.waiting(&branch.waiting))?;
        self.waited(&branch.waiting.into)?;
        self.body(around, &branch.body)?;
        self.setting.vars.truncate(count);
        Ok(())
    }

    #[cycle(walk)]
    fn branches(&mut self, around: Around, branches: &'a [When]) -> Result<(), SourceFault>
        ensures leads { Leads (env_of self.old around) (env_of self.new around)
            (branch_refusal (env_of self.old around) (branches_of branches.now))
            (branch_slots (branches_of branches.now)) result }
    {
        for branch in branches {
            self.branch(around, branch)?;
        }
        Ok(())
    }

    #[cycle(walk)]
    fn stmt(&mut self, around: Around, stmt: &'a Stmt) -> Result<(), SourceFault>
        ensures answer { StmtAnswer (env_of self.old around) (env_of self.new around)
            (stmt_of stmt.now) result }
    {
        let at = stmt.at;
        match &stmt.kind {
            StmtKind::Block(body) => self.scoped(around, body),
            StmtKind::If(test, then, otherwise) => {
                item(at, self.test(test))?;
                self.scoped(around, then)?;
                self.otherwise(around, otherwise)
            }
            StmtKind::While(test, body) => {
                item(at, self.test(test))?;
                self.scoped(around.in_loop(), body)
            }
            StmtKind::For(init, test, step, body) => {
                let count = self.setting.vars.len();
                self.part(around, init)?;
                item(at, self.maybe_test(test))?;
                let started = self.setting.vars.len();
                self.part(around, step)?;
                self.setting.vars.truncate(started);
                self.scoped(around.in_loop(), body)?;
                self.setting.vars.truncate(count);
                Ok(())
            }
            StmtKind::Loop(body) => self.scoped(around.in_loop(), body),
            StmtKind::Break | StmtKind::Continue => {
                item(at, unless(around.looped, SemanticRule::BreakOutside))
            }
            StmtKind::Return(value) => item(at, self.setting.returned(value, self.returns)),
            StmtKind::Throw(error) => item(at, self.thrown(around.caught, error)),
            StmtKind::Try(body, catch_at, error, handler) => {
                self.scoped(around, body)?;
                item(*catch_at, self.fresh(false, error))?;
                self.handler(around, error, handler)
            }
            StmtKind::Choose(branches) => {
                item(
                    at,
                    unless(!self.setting.plain, SemanticRule::WaitInFunction),
                )?;
                self.branches(around, branches)
            }
            StmtKind::Declare(into, value) => {
                item(at, self.declaration(into, value))?;
                self.declared(into)
            }
            StmtKind::Assign(target, value) => item(at, self.assignment(target, value)),
            StmtKind::Modify(target, change) => item(at, self.modification(target, change)),
            StmtKind::Call(target, args) => item(at, self.setting.call(&target.path, args)),
            StmtKind::Wait(waiting) => {
                item(at, self.waiting(waiting))?;
                self.waited(&waiting.into)
            }
        }
    }
}
