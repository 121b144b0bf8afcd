// Statements that are one instruction.

ghost use Rattle.std.specs.Prelude.{◌≡◌, pos, [], ◌∷◌, map, IfOk, OnOk};
ghost use Rattle.std.specs.Option.{option_map};
ghost use Rattle.flow_tree.specs.Tree.{IntExpr, VarExpr, FieldExpr, BinaryExpr, ParenExpr};
ghost use Rattle.flow_tree.specs.View.{type_of, expr_of, exprs_of};
ghost use Rattle.flow_tree.specs.StmtView.{into_of, change_of};
ghost use Rattle.flow_class.specs.Classes.{ActInstr};
ghost use Rattle.flow_class.specs.View.{instr_of};
ghost use Rattle.flow_class.specs.Scopes.{ident_over, over, over_all, path_over, act_over};
ghost use Rattle.flow_meaning.specs.Items.{change, path_from};
ghost use Rattle.flow_choose.specs.Places.{ident_at};
ghost use Rattle.flow_split.specs.Contexts.{names_in, slots_in};
ghost use Rattle.flow_split.specs.Lowered.{first_value, new_at, first_at, assigned, changed, declares, change_over};
ghost use Rattle.flow_split.specs.Emitting.{emitted, acted, declaring};

use crate::context::Context;
use crate::effects::is_effect;
use crate::emitter::Emitter;
use flow_base::memory::NoMemory;
use flow_base::text::Text;
use flow_catch::scopes::Scopes;
use flow_choose::places::{act_over, ident_over, var_ident};
use flow_class::class::{Instr, Slotted};
use flow_tree::expr::{Expr, Op};
use flow_tree::stmt::{Change, Into, Target};
use flow_tree::ty::{Ident, Ty};
use std::alloc::Global;

// What a variable of this type holds at first, but for one that holds a new cell.
fn first_value(alloc: Global, ty: &Ty) -> Result<Option<Expr>, NoMemory>
    ensures { IfOk result (λ e. option_map expr_of e ≡ first_value (type_of ty.now)) }
{
    match ty {
        Ty::Int => Ok(Some(Expr::Int(0))),
        Ty::Bool => Ok(Some(Expr::Bool(false))),
        Ty::Str => Ok(Some(Expr::Text(Text::new(alloc, b"")?))),
        Ty::Void => Ok(None),
        Ty::Error => Ok(None),
        Ty::Named(_) => Ok(None),
        Ty::Future(_) => Ok(None),
        Ty::FutureStream(_) => Ok(None),
        Ty::Promise(_) => Ok(None),
        Ty::PromiseStream(_) => Ok(None),
        Ty::Vector(_) => Ok(None),
    }
}

// A path of one name.
fn single(alloc: Global, name: Ident) -> Result<Target, NoMemory>
    ensures { IfOk result (λ t. t.path.items ≡ name ∷ []) }
{
    let mut path = Vec::new(alloc);
    path.push(name)?;
    Ok(Target { path })
}

// The path of a variable in this place.
fn target_at(alloc: Global, place: Option<Slotted>, name: &Ident) -> Result<Target, NoMemory>
    ensures { IfOk result (λ t. t.path.items ≡ ident_at place name.now ∷ []) }
{
    let name = var_ident(alloc, place, name)?;
    single(alloc, name)
}

// A field of a value.
fn field_of(alloc: Global, of: Expr, name: &Ident) -> Result<Expr, NoMemory>
    ensures { IfOk result (λ e. expr_of e ≡ FieldExpr (expr_of of) name.now) }
{
    let of = Box::new(alloc, of)?;
    Ok(Expr::Field(of, name.copy(alloc)?))
}

impl<'a> Context<'a> {
    // An assignment of an expression of the text to a path over places.
    fn assigned(&self, scopes: &Scopes, target: Target, value: &Expr) -> Result<Instr, NoMemory>
        ensures { IfOk result (λ i. instr_of i
            ≡ assigned (names_in self.now) (slots_in self.now) scopes.now target.path.items
            (expr_of value.now)) }
    {
        let over = self.over(scopes, value)?;
        if is_effect(self.program, value) {
            Ok(Instr::Effect(target, over))
        } else {
            Ok(Instr::Set(target, over))
        }
    }

    // The value of a path over places, as an expression: a variable and its fields.
    fn read_over(&self, scopes: &Scopes, first: &Ident, rest: &[Ident]) -> Result<Expr, NoMemory>
        ensures { IfOk result (λ e. expr_of e
            ≡ path_from (VarExpr (ident_over (slots_in self.now) scopes.now first.now)) rest.now) }
    {
        let mut expr = Expr::Var(ident_over(self.alloc, &self.layout.slots, scopes, first)?);
        for name in rest {
            expr = field_of(self.alloc, expr, name)?;
        }
        Ok(expr)
    }

    // A value that is added to an old one or subtracted from it, in parentheses.
    fn with_amount(
        &self,
        scopes: &Scopes,
        op: Op,
        old: Expr,
        amount: &Expr,
    ) -> Result<Expr, NoMemory>
        ensures { IfOk result (λ e. expr_of e
            ≡ BinaryExpr op (expr_of old) (ParenExpr
            (over (slots_in self.now) scopes.now (expr_of amount.now)))) }
    {
        let old = Box::new(self.alloc, old)?;
        let amount = Box::new(self.alloc, self.over(scopes, amount)?)?;
        let by = Box::new(self.alloc, Expr::Paren(amount))?;
        Ok(Expr::Binary(op, old, by))
    }

    // One more than an old value, or one less.
    fn with_one(&self, op: Op, old: Expr) -> Result<Expr, NoMemory>
        ensures { IfOk result (λ e. expr_of e ≡ BinaryExpr op (expr_of old) (IntExpr (pos 1))) }
    {
        Ok(Expr::Binary(
            op,
            Box::new(self.alloc, old)?,
            Box::new(self.alloc, Expr::Int(1))?,
        ))
    }

    // What a change in place makes of an old value: `x += e` is `x = x + (e)`, and `x++` is
    // `x = x + 1`.
    fn changed(&self, scopes: &Scopes, old: Expr, change: &Change) -> Result<Expr, NoMemory>
        ensures { IfOk result (λ e. expr_of e
            ≡ change_over (slots_in self.now) scopes.now (change_of change.now) (expr_of old)) }
    {
        match change {
            Change::Plus(amount) => self.with_amount(scopes, Op::Add, old, amount),
            Change::Minus(amount) => self.with_amount(scopes, Op::Sub, old, amount),
            Change::Up => self.with_one(Op::Add, old),
            Change::Down => self.with_one(Op::Sub, old),
        }
    }
}

impl Emitter {
    // A declared variable gets a new cell.
    fn put_new(&mut self, place: Option<Slotted>) -> Result<(), NoMemory>
        ensures { OnOk result (emitted self.new ≡ acted (new_at place) (emitted self.old)) }
    {
        self.acts = true;
        match place {
            Some(place) => self.act(Instr::New(place)),
            None => Ok(()),
        }
    }

    // A declared variable gets what its type has at first, or a new cell.
    fn put_first(&mut self, into: &Into, place: Option<Slotted>) -> Result<(), NoMemory>
        ensures { OnOk result (emitted self.new
            ≡ acted (first_at (into_of into.now) place (first_value (type_of into.now.ty)))
            (emitted self.old)) }
    {
        match first_value(self.alloc, &into.ty)? {
            Some(value) => match target_at(self.alloc, place, &into.name) {
                Ok(target) => self.act(Instr::Set(target, value)),
                Err(error) => {
                    // By a call: else the drop is written out here, form by form.
                    drop(value);
                    Err(error)
                }
            },
            None => self.put_new(place),
        }
    }

    // A declared variable gets its value.
    fn put_value(
        &mut self,
        context: &Context,
        into: &Into,
        value: &Option<Expr>,
    ) -> Result<(), NoMemory>
        ensures { OnOk result (emitted self.new
            ≡ acted (declares (names_in context.now) (slots_in context.now) self.old.scopes
            self.old.next (into_of into.now) (option_map expr_of value.now)) (emitted self.old)) }
    {
        let place = self.place(context, into, self.next);
        match value {
            None => self.put_first(into, place),
            Some(value) => {
                let name = var_ident(self.alloc, place, &into.name)?;
                let target = single(self.alloc, name)?;
                let instr = context.assigned(&self.scopes, target, value)?;
                self.act(instr)
            }
        }
    }

    /// A declaration.
    pub fn put_declare(
        &mut self,
        context: &Context,
        into: &Into,
        value: &Option<Expr>,
    ) -> Result<(), NoMemory>
        ensures { OnOk result (emitted self.new
            ≡ declaring (into_of into.now) (acted
            (declares (names_in context.now) (slots_in context.now) self.old.scopes self.old.next
            (into_of into.now) (option_map expr_of value.now)) (emitted self.old))) }
    {
        self.put_value(context, into, value)?;
        self.declare(into)
    }

    /// An assignment.
    pub fn put_assign(
        &mut self,
        context: &Context,
        target: &Target,
        value: &Expr,
    ) -> Result<(), NoMemory>
        ensures { OnOk result (emitted self.new
            ≡ acted (assigned (names_in context.now) (slots_in context.now) self.old.scopes
            (path_over (slots_in context.now) self.old.scopes target.now.path.items)
            (expr_of value.now) ∷ []) (emitted self.old)) }
    {
        let path = context.path_over(&self.scopes, &target.path)?;
        let instr = context.assigned(&self.scopes, path, value)?;
        self.act(instr)
    }

    // A change of a variable, or of a field of one, in place: the path with its first name apart.
    fn put_change(
        &mut self,
        context: &Context,
        target: &Target,
        first: &Ident,
        rest: &[Ident],
        by: &Change,
    ) -> Result<(), NoMemory>
        requires { target.now.path.items ≡ first.now ∷ rest.now }
        ensures { OnOk result (emitted self.new
            ≡ acted (changed (names_in context.now) (slots_in context.now) self.old.scopes
            target.now.path.items (change target.now.path.items (change_of by.now)))
            (emitted self.old)) }
    {
        let path = context.path_over(&self.scopes, &target.path)?;
        let old = context.read_over(&self.scopes, first, rest)?;
        let value = context.changed(&self.scopes, old, by)?;
        self.act(Instr::Set(path, value))
    }

    /// A change in place. A path has at least one name.
    pub fn put_modify(
        &mut self,
        context: &Context,
        target: &Target,
        by: &Change,
    ) -> Result<(), NoMemory>
        ensures { OnOk result (emitted self.new
            ≡ acted (changed (names_in context.now) (slots_in context.now) self.old.scopes
            target.now.path.items (change target.now.path.items (change_of by.now)))
            (emitted self.old)) }
    {
        match target.path.as_slice() {
            [] => {
                self.acts = true;
                Ok(())
            }
            [first, rest @ ..] => self.put_change(context, target, first, rest, by),
        }
    }

    /// A call statement.
    pub fn put_call(
        &mut self,
        context: &Context,
        target: &Target,
        args: &[Expr],
    ) -> Result<(), NoMemory>
        ensures { OnOk result (emitted self.new
            ≡ acted (ActInstr (act_over (slots_in context.now) self.old.scopes
            target.now.path.items) (over_all (slots_in context.now) self.old.scopes
            (exprs_of args.now)) ∷ []) (emitted self.old)) }
    {
        let path = act_over(self.alloc, &context.layout.slots, &self.scopes, target)?;
        let args = context.over_all(&self.scopes, args)?;
        self.act(Instr::Act(path, args))
    }
}
